//! A terminal's end of a connection.

ghost use Rattle.std.specs.Prelude.{◌≡◌, ℕ, ◌≤◌, ◌<◌, ◌+◌, ◌^◌, ◌++◌, List, [], None, IfOk, IsSome, OnErr, OnOk, length};
ghost use Rattle.jt_terminal_rule.specs.Rule as rule;
ghost use Rattle.jt_terminal.specs.Line.{StandsForLine, TablesOfFirst, rule_at_octets, new_items, partial_of, places_at_octets};
ghost use Rattle.jt_terminal_steps.specs.AfterError.{CutLists, lists_of};
ghost use Rattle.jt_terminal_steps.specs.Running.{CutShort, IsDown, IsSound, Outside, holds_after};

use crate::actions::Actions;
use crate::feeding::hear;
use crate::terminal::Terminal;
use jt_store::Vault;
use jt_stream::{Stream, law_front};
use jt_subpacket::Assembler;
use jt_terminal_steps::TerminalError;
use jt_value::Seq;
use std::alloc::Global;
use std::marker::Model;

/// The terminal's end of one connection: it turns the platform's octets into the messages that the terminal hears.
#[derive(Drop)]
pub struct TerminalLine {
    stream: Stream,
    assembler: Assembler,
}

impl Model for TerminalLine {
    ghost use Rattle.std.specs.Coded.{codes};
    ghost use Rattle.jt_subpacket.specs.Stored.{partial_code};
    ghost use Rattle.jt_terminal.specs.Line.{LineValue};

    ghost Value = { LineValue };

    ghost coded = { Prim.hlevel (codes, partial_code) };

    ghost view = { λ line. record { stream = line.stream.splitter; partial = line.assembler } };
}

impl TerminalLine {
    /// The beginning of a connection, which takes no memory.
    pub fn new(alloc: Global) -> TerminalLine
        ensures stands { StandsForLine result [] }
        ensures place { result.stream.place ≡ 0 }
    {
        TerminalLine {
            stream: Stream::new(),
            assembler: Assembler::new(alloc),
        }
    }

    /// Hands the terminal the connection's next octets, of which there are fewer than 2^63 with those before: it does what its
    /// rule says of the messages of their items, packets and bodies, in order, over all octets or up to the message at which
    /// it gives up. Refused frames are passed over.
    ///
    /// Store comes only where the vault's count of faults rose in this call. After an error the vault holds what some first
    /// changes of what the octets ask make of it, the terminal has no line, its units, fixes, serials and code are what some first
    /// steps of that make of them, and its times, parameters and regions are those that the rule has before some item of the
    /// octets. The last fix stays.
    ///
    /// A terminal that gave up has no line. While it has none, octets change nothing of it and of what its vault holds, in error
    /// or not, and after Ok nothing is to be sent and nothing is told.
    pub fn feed<V: Vault>(
        &mut self,
        alloc: Global,
        terminal: &mut Terminal<V>,
        octets: &[u8],
    ) -> Result<Actions, TerminalError>
        requires { self.old.stream.place + length octets.now < 2 ^ 63 }
        ensures state { (seen : List ℕ) → StandsForLine self.old seen → OnOk result
            (terminal.new.state ≡ (rule_at_octets terminal.old.state seen octets.now).state) }
        ensures vault { (seen : List ℕ) → StandsForLine self.old seen →
            OnOk result (V.holds terminal.new.vault
            ≡ holds_after (rule_at_octets terminal.old.state seen octets.now).steps
            (V.holds terminal.old.vault)) }
        ensures frames { (seen : List ℕ) → StandsForLine self.old seen →
            IfOk result (λ actions. actions.frames ≡ rule.sends terminal.old.state.settings
            (rule_at_octets terminal.old.state seen octets.now).steps) }
        ensures end { (seen : List ℕ) → StandsForLine self.old seen → IfOk result (λ actions.
            actions.end ≡ (rule_at_octets terminal.old.state seen octets.now).end) }
        ensures told { (seen : List ℕ) → StandsForLine self.old seen → IfOk result (λ actions.
            actions.told ≡ places_at_octets terminal.old.state seen octets.now) }
        // Unless the terminal gave up, the line now stands for these octets too.
        ensures stands { (seen : List ℕ) → StandsForLine self.old seen → IfOk result (λ actions.
            actions.end ≡ None → StandsForLine self.new (seen ++ octets.now)) }
        ensures place { self.new.stream.place ≤ self.old.stream.place + length octets.now }
        ensures cut { (seen : List ℕ) → StandsForLine self.old seen →
            OnErr result (CutShort (rule_at_octets terminal.old.state seen octets.now).steps
            (V.holds terminal.old.vault) (V.holds terminal.new.vault)) }
        ensures tables { (seen : List ℕ) → StandsForLine self.old seen →
            OnErr result (TablesOfFirst terminal.old.state (partial_of seen)
            (new_items seen octets.now) terminal.new.state) }
        ensures lists { (seen : List ℕ) → StandsForLine self.old seen →
            OnErr result (CutLists (rule_at_octets terminal.old.state seen octets.now).steps
            (lists_of terminal.old.state) (lists_of terminal.new.state)) }
        ensures down { OnErr result (IsDown terminal.new.state) }
        ensures sound { IsSound (V.holds terminal.new.vault) terminal.new.state }
        ensures settings { terminal.new.state.settings ≡ terminal.old.state.settings }
        ensures time { terminal.new.state.time ≡ terminal.old.state.time }
        ensures last { terminal.new.state.last ≡ terminal.old.state.last }
        // Without a line, as once the terminal gave up, no octets change its state or what its vault holds, whatever line they come on.
        ensures gave_up { IfOk result (λ actions. IsSome actions.end → IsDown terminal.new.state) }
        ensures unmoved { IsDown terminal.old.state → (terminal.new.state ≡ terminal.old.state)
            × (V.holds terminal.new.vault ≡ V.holds terminal.old.vault) }
        ensures silent { IsDown terminal.old.state → IfOk result (λ actions.
            (actions.frames ≡ []) × (actions.end ≡ None) × (actions.told ≡ [])) }
        ensures outside { Outside (V.faults terminal.old.vault) (V.faults terminal.new.vault)
            (V.limit terminal.old.vault) (V.limit terminal.new.vault)
            (V.may_fail terminal.old.vault) (V.may_fail terminal.new.vault) result }
    {
        law_front();
        terminal.hear(alloc, &mut self.assembler, &mut self.stream, octets)
    }
}
