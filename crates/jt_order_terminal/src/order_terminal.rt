//! A terminal that performs orders.

ghost use Rattle.std.specs.Prelude.{◌≡◌, ◌≢◌, ◌≤◌, ◌<◌, ◌+◌, ◌^◌, ◌++◌, ℕ, List, [], None, Some, Err, false, true, length, IfErr, IfOk, OnErr, OnOk, IsErrOf, IsOk};
ghost use Rattle.jt_store.specs.Tables.{HasCause, IsSteady, Reads, WhereKnown};
ghost use Rattle.jt_store.specs.declared.error.StoreError.TheVariants as store;
ghost use Rattle.jt_terminal_rule.specs.Machines.{is_up};
ghost use Rattle.jt_terminal_rule.specs.Messages.{AreSettings};
ghost use Rattle.jt_terminal_rule.specs.Rule as rule;
ghost use Rattle.jt_terminal_rule.specs.Waits.{IsLate};
ghost use Rattle.jt_terminal_rule.specs.declared.state.Event.TheVariants.{Lost, Opened, Tick};
ghost use Rattle.jt_terminal_rule.specs.declared.state.GiveUp.TheVariants.{TimedOut};
ghost use Rattle.jt_terminal_steps.specs.AfterError.{AreSameParams, AreSameTables, CutLists, lists_of};
ghost use Rattle.jt_terminal_steps.specs.Running.{CutShort, IsDown, IsEvent, IsRefused, IsSame, IsSound, IsStarted, holds_after, time_after};
ghost use Rattle.jt_order_terminal.specs.Ledgers.{IsLedgerOf};
ghost use Rattle.jt_order_terminal.specs.declared.fault.OrderFault.TheVariants as faults;
ghost use Rattle.jt_order_terminal.specs.Terminals.{CommitsFirst, FailsAt, HasEitherCause, HasFaultCause, IsNoMessage, StandsForLine, does_at_octets, items_behind, log_with};

use crate::fault::{OrderFault, fault_of};
use crate::hearing::hear;
use crate::ledger::Ledger;
use crate::saying::Said;
use jt_order::OrderLog;
use jt_store::{StoreError, Vault};
use jt_stream::{Stream, law_front};
use jt_terminal::{Actions, Event, Settings, Terminal};
use jt_value::Memory;
use std::alloc::Global;
use std::marker::Model;

/// A terminal that performs orders, each once, and keeps them in a log. The other messages go to the terminal that it wraps,
/// which hears of no order.
#[derive(Drop)]
pub struct OrderTerminal<V: Vault, G: OrderLog> {
    alloc: Global,
    terminal: Terminal<V>,
    log: G,
    stream: Stream,
    ledger: Ledger,
}

impl<V: Vault, G: OrderLog> Model for OrderTerminal<V, G> {
    ghost use Rattle.std.specs.Coded.{codes};
    ghost use Rattle.jt_params.specs.contracts.table.ParamTable as params;
    ghost use Rattle.jt_regions.specs.contracts.region_table.RegionTable as regions;
    ghost use Rattle.jt_store.specs.Tables.{WhereKnown};
    ghost use Rattle.jt_order_terminal.specs.Ledgers.{IsLedgerOf};
    ghost use Rattle.jt_order_terminal.specs.Terminals.{OrderTerminalValue};

    ghost Value = { OrderTerminalValue V G };

    ghost coded = { Prim.hlevel (codes, params.the_row.coded, regions.the_row.coded) };

    ghost view = { λ t. record { terminal = t.terminal; log = t.log; stream = t.stream.splitter; ledger = t.ledger } };

    ghost invariant = { λ t. WhereKnown (G.holds t.log) (λ held. IsLedgerOf held t.ledger) };
}

// Opened begins a new stream.
fn begin_if_opened(stream: &mut Stream, event: &Event)
    ensures opened { event.now ≡ Opened →
        StandsForLine stream.new.splitter [] × (stream.new.splitter.place ≡ 0) }
    ensures same { event.now ≢ Opened → stream.new ≡ stream.old }
{
    if matches!(event, Event::Opened) {
        *stream = Stream::new();
    }
}

// The line is lost.
fn lose<V: Vault>(alloc: Global, terminal: &mut Terminal<V>)
    ensures state { terminal.new.state ≡ rule.down terminal.old.state }
    ensures holds { V.holds terminal.new.vault ≡ V.holds terminal.old.vault }
    ensures limit { V.limit terminal.new.vault ≡ V.limit terminal.old.vault }
    ensures faults { V.faults terminal.new.vault ≡ V.faults terminal.old.vault }
    ensures steady { V.may_fail terminal.old.vault ≡ false →
        V.may_fail terminal.new.vault ≡ false }
    ensures sound { IsSound (V.holds terminal.new.vault) terminal.new.state }
{
    let _lost = terminal.event(alloc, Event::Lost);
}

// What is kept of the orders that a log has, which it keeps.
fn load_ledger<G: OrderLog>(alloc: Global, log: &mut G) -> Result<Ledger, StoreError>
    ensures answer { Reads (G.holds log.old) (G.holds log.new)
        (λ held ledger. IsLedgerOf held ledger) result }
    ensures cause { HasCause (G.faults log.old) (G.faults log.new) result }
    ensures steady { IsSteady (G.may_fail log.old) (G.may_fail log.new) result }
{
    match log.load(alloc) {
        Ok(performed) => match Ledger::of(alloc, performed.as_slice()) {
            Ok(ledger) => Ok(ledger),
            Err(Memory) => Err(StoreError::Memory),
        },
        Err(error) => Err(error),
    }
}

impl<V: Vault, G: OrderLog> OrderTerminal<V, G> {
    /// An order terminal over what its log loads: its tables are those that the performed orders with result 0 leave, one after
    /// another, and none of them changes the times of the wrapped terminal. It keeps the allocator that it is given. An Err has
    /// terminal and log, as before, and why it does not start: Failed only where the log's count of faults rose, Memory only
    /// where it stood still; Full never comes.
    pub fn start(
        alloc: Global,
        terminal: Terminal<V>,
        mut log: G,
    ) -> Result<OrderTerminal<V, G>, (Terminal<V>, G, StoreError)>
        ensures ok { IfOk result (λ started. (started.terminal ≡ terminal)
            × (G.holds started.log ≡ G.holds log) × (G.faults started.log ≡ G.faults log)
            × (G.may_fail log ≡ false → G.may_fail started.log ≡ false)
            × StandsForLine started.stream [] × (started.stream.place ≡ 0)) }
        // What it keeps of the log, its tables among it, is that of the orders that the log has.
        ensures ledger { IfOk result (λ started.
            WhereKnown (G.holds log) (λ held. IsLedgerOf held started.ledger)) }
        ensures err { IfErr result (λ refused. (refused.0 ≡ terminal)
            × (G.holds refused.1 ≡ G.holds log)
            × IsRefused (G.faults log) (G.faults refused.1) (G.may_fail log)
            (G.may_fail refused.1) refused.2) }
    {
        match load_ledger(alloc, &mut log) {
            Ok(ledger) => Ok(OrderTerminal {
                alloc,
                terminal,
                log,
                stream: Stream::new(),
                ledger,
            }),
            Err(error) => Err((terminal, log, error)),
        }
    }

    /// Hands the terminal the next octets of its line: it responds to orders by the three rules, hears the other messages, and
    /// passes over packets and refused bodies, in order, over all octets or up to the message at which it gives up. An order whose
    /// response is among the frames stands in the log. While no line is in use, octets change nothing.
    ///
    /// Vault and Log come only where that count of faults rose in the call, and Memory only where both stood still. An error comes
    /// at one item: those before it were done whole, and nothing was done at those behind it. After an error the terminal is as
    /// after Lost, over what vault and log committed, and agrees with its vault. Times and parameters of the wrapped terminal stay.
    pub fn feed(&mut self, octets: &[u8]) -> Result<Actions, OrderFault>
        requires short { self.old.stream.place + length octets.now < 2 ^ 63 }
        ensures state { (seen : List ℕ) → StandsForLine self.old.stream seen → let done =
            does_at_octets (is_up self.old.terminal.state.phase) self.old.terminal.state
            self.old.ledger seen octets.now in OnOk result
            ((self.new.terminal.state ≡ done.state) × (self.new.ledger ≡ done.ledger)
            × (V.holds self.new.terminal.vault
            ≡ holds_after done.steps (V.holds self.old.terminal.vault))
            × (G.holds self.new.log ≡ log_with done.performed (G.holds self.old.log))) }
        ensures actions { (seen : List ℕ) → StandsForLine self.old.stream seen → let done =
            does_at_octets (is_up self.old.terminal.state.phase) self.old.terminal.state
            self.old.ledger seen octets.now in IfOk result (λ actions.
            (actions.frames ≡ done.frames) × (actions.told ≡ done.told)
            × (actions.end ≡ done.end)) }
        // Unless the terminal gave up, its stream now stands for these octets too.
        ensures stands { (seen : List ℕ) → StandsForLine self.old.stream seen →
            is_up self.old.terminal.state.phase ≡ true → IfOk result (λ actions.
            actions.end ≡ None → StandsForLine self.new.stream (seen ++ octets.now)) }
        ensures place { self.new.stream.place ≤ self.old.stream.place + length octets.now }
        ensures fails { (seen : List ℕ) → StandsForLine self.old.stream seen → OnErr result
            (FailsAt self.old.terminal.state self.old.ledger (items_behind seen octets.now)
            (V.holds self.old.terminal.vault) (V.holds self.new.terminal.vault)
            (G.holds self.old.log) (G.holds self.new.log)) }
        // Behind a fault the log has some first ones of the orders that were to be performed, and no line is in use.
        ensures commits { (seen : List ℕ) → StandsForLine self.old.stream seen → let done =
            does_at_octets (is_up self.old.terminal.state.phase) self.old.terminal.state
            self.old.ledger seen octets.now in OnErr result (CommitsFirst done.performed
            (G.holds self.old.log) (G.holds self.new.log)) }
        ensures cut { (seen : List ℕ) → StandsForLine self.old.stream seen → let done =
            does_at_octets (is_up self.old.terminal.state.phase) self.old.terminal.state
            self.old.ledger seen octets.now in OnErr result (CutShort done.steps
            (V.holds self.old.terminal.vault) (V.holds self.new.terminal.vault)) }
        ensures down { OnErr result (IsDown self.new.terminal.state) }
        // Behind a fault it agrees with its vault, and else where it did before.
        ensures sound { OnErr result
            (IsSound (V.holds self.new.terminal.vault) self.new.terminal.state) }
        ensures stays_sound { IsSound (V.holds self.old.terminal.vault) self.old.terminal.state →
            IsSound (V.holds self.new.terminal.vault) self.new.terminal.state }
        // What it keeps of the log, its tables among it, is that of the orders that the log has.
        ensures ledger { WhereKnown (G.holds self.new.log)
            (λ held. IsLedgerOf held self.new.ledger) }
        ensures same { IsSame self.old.terminal.state self.new.terminal.state }
        // No order reaches the wrapped terminal, whose times and parameters stay.
        ensures params { AreSameParams self.old.terminal.state self.new.terminal.state }
        ensures idle { is_up self.old.terminal.state.phase ≡ false →
            IsOk result × (self.new ≡ self.old) }
        ensures silent { is_up self.old.terminal.state.phase ≡ false →
            IfOk result (λ actions. (actions.frames ≡ []) × (actions.told ≡ [])
            × (actions.end ≡ None)) }
        ensures limit { V.limit self.new.terminal.vault ≡ V.limit self.old.terminal.vault }
        ensures vault_cause { HasFaultCause faults.Vault
            (V.faults self.old.terminal.vault) (V.faults self.new.terminal.vault)
            (V.may_fail self.old.terminal.vault) (V.may_fail self.new.terminal.vault) result }
        ensures log_cause { HasFaultCause faults.Log (G.faults self.old.log)
            (G.faults self.new.log) (G.may_fail self.old.log) (G.may_fail self.new.log) result }
    {
        law_front();
        let mut said = Said::new(self.alloc);
        if !self.terminal.is_up() {
            return Ok(said.into_actions(None));
        }
        match hear(
            self.alloc,
            &mut self.terminal,
            &mut self.log,
            &mut self.ledger,
            &mut self.stream,
            octets,
            &mut said,
        ) {
            Ok(end) => Ok(said.into_actions(end)),
            Err(fault) => {
                lose(self.alloc, &mut self.terminal);
                Err(fault)
            }
        }
    }

    /// Does what the wrapped terminal does at an event, with its conditions. The event is no message; Opened also begins a new
    /// stream. Vault comes only where its count of faults rose, Memory only where it stood still, and Log never.
    pub fn event(&mut self, event: Event) -> Result<Actions, OrderFault>
        requires event { IsEvent self.old.terminal.state event }
        requires no_message { IsNoMessage event }
        ensures state { OnOk result (self.new.terminal.state
            ≡ (rule.rule self.old.terminal.state event).state) }
        ensures vault { OnOk result (V.holds self.new.terminal.vault
            ≡ holds_after (rule.rule self.old.terminal.state event).steps
            (V.holds self.old.terminal.vault)) }
        ensures frames { IfOk result (λ actions. actions.frames
            ≡ rule.sends self.old.terminal.state.settings
            (rule.rule self.old.terminal.state event).steps) }
        ensures end { IfOk result (λ actions.
            actions.end ≡ (rule.rule self.old.terminal.state event).end) }
        ensures told { IfOk result (λ actions. actions.told ≡ []) }
        ensures late { (now since at : ℕ) → event ≡ Tick now → IfOk result (λ actions.
            actions.end ≡ Some (TimedOut since at) →
            IsLate self.old.terminal.state now since at) }
        ensures cut { OnErr result (CutShort (rule.rule self.old.terminal.state event).steps
            (V.holds self.old.terminal.vault) (V.holds self.new.terminal.vault)) }
        ensures lists { OnErr result (CutLists (rule.rule self.old.terminal.state event).steps
            (lists_of self.old.terminal.state) (lists_of self.new.terminal.state)) }
        ensures tables { OnErr result
            (AreSameTables self.old.terminal.state self.new.terminal.state) }
        ensures down { OnErr result (IsDown self.new.terminal.state) }
        ensures sound { IsSound (V.holds self.new.terminal.vault) self.new.terminal.state }
        ensures settings { self.new.terminal.state.settings ≡ self.old.terminal.state.settings }
        ensures time { self.new.terminal.state.time ≡ time_after self.old.terminal.state event }
        ensures last { self.new.terminal.state.last ≡ self.old.terminal.state.last }
        ensures params { AreSameParams self.old.terminal.state self.new.terminal.state }
        ensures lost { event ≡ Lost → IsOk result }
        ensures log { (self.new.log ≡ self.old.log) × (self.new.ledger ≡ self.old.ledger) }
        ensures ledger { WhereKnown (G.holds self.new.log)
            (λ held. IsLedgerOf held self.new.ledger) }
        ensures opened { event ≡ Opened → StandsForLine self.new.stream []
            × (self.new.stream.place ≡ 0) }
        ensures same { event ≢ Opened → self.new.stream ≡ self.old.stream }
        ensures limit { V.limit self.new.terminal.vault ≡ V.limit self.old.terminal.vault }
        ensures cause { HasFaultCause faults.Vault
            (V.faults self.old.terminal.vault) (V.faults self.new.terminal.vault)
            (V.may_fail self.old.terminal.vault) (V.may_fail self.new.terminal.vault) result }
        ensures never_log { result ≢ Err faults.Log }
    {
        begin_if_opened(&mut self.stream, &event);
        match self.terminal.event(self.alloc, event) {
            Ok(actions) => Ok(actions),
            Err(error) => Err(fault_of(error)),
        }
    }

    /// Whether a line is in use.
    pub fn is_up(&self) -> bool
        ensures { result ≡ is_up self.now.terminal.state.phase }
    {
        self.terminal.is_up()
    }

    /// Starts anew in place, without a line, over what vault and log load and with these settings. After an error the terminal is as
    /// before. Failed comes only where the vault's or the log's count of faults rose, Memory only where both stood still, and Full
    /// never.
    pub fn restart(&mut self, settings: Settings) -> Result<(), StoreError>
        requires { AreSettings settings }
        ensures ok { OnOk result (IsStarted settings (V.holds self.old.terminal.vault)
            self.new.terminal.state) }
        ensures err { OnErr result ((self.new.terminal.state ≡ self.old.terminal.state)
            × (self.new.ledger ≡ self.old.ledger) × (self.new.stream ≡ self.old.stream)) }
        ensures holds { (V.holds self.new.terminal.vault ≡ V.holds self.old.terminal.vault)
            × (G.holds self.new.log ≡ G.holds self.old.log) }
        ensures stream { OnOk result (StandsForLine self.new.stream []
            × (self.new.stream.place ≡ 0)) }
        // What it keeps of the log, its tables among it, is that of the orders that the log has.
        ensures ledger { WhereKnown (G.holds self.new.log)
            (λ held. IsLedgerOf held self.new.ledger) }
        ensures sound { OnOk result
            (IsSound (V.holds self.new.terminal.vault) self.new.terminal.state) }
        ensures limit { V.limit self.new.terminal.vault ≡ V.limit self.old.terminal.vault }
        ensures cause { HasEitherCause
            (V.faults self.old.terminal.vault) (V.faults self.new.terminal.vault)
            (G.faults self.old.log) (G.faults self.new.log) result }
        ensures vault_steady { V.may_fail self.old.terminal.vault ≡ false →
            V.may_fail self.new.terminal.vault ≡ false }
        ensures log_steady { G.may_fail self.old.log ≡ false → G.may_fail self.new.log ≡ false }
        ensures steady { V.may_fail self.old.terminal.vault ≡ false →
            G.may_fail self.old.log ≡ false → ¬ IsErrOf result store.Failed }
    {
        let ledger = load_ledger(self.alloc, &mut self.log)?;
        self.terminal.restart(self.alloc, settings)?;
        self.ledger = ledger;
        self.stream = Stream::new();
        Ok(())
    }

    /// The log, which is lent. What the terminal keeps of it is that of the orders that it has.
    pub fn log(&self) -> &G
        ensures log { result.now ≡ self.now.log }
        ensures ledger { WhereKnown (G.holds self.now.log)
            (λ held. IsLedgerOf held self.now.ledger) }
    {
        &self.log
    }

    /// The vault, which is lent.
    pub fn vault(&self) -> &V
        ensures { result.now ≡ self.now.terminal.vault }
    {
        self.terminal.vault()
    }

    /// The vault and the log, with no memory taken.
    pub fn into_parts(self) -> (V, G)
        ensures vault { result.0 ≡ self.terminal.vault }
        ensures log { result.1 ≡ self.log }
    {
        let OrderTerminal {
            alloc: _,
            terminal,
            log,
            stream: _,
            ledger: _,
        } = self;
        (terminal.into_vault(), log)
    }
}
