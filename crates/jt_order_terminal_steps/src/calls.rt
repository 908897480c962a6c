//! That the clauses of an order terminal's calls are what the law asks: each call, with what it does as steps of the world of orders. Nobody
//! calls these.

ghost use Rattle.std.specs.Prelude.{◌≡◌, ◌+◌, ◌<◌, ◌^◌, ℕ, List, [], length, Some, false, true, is_none, IfOk, OnErr, OnOk};
ghost use Rattle.jt_value.specs.Sameness.{key_of};
ghost use Rattle.jt_terminal_rule.specs.Machines.{is_up};
ghost use Rattle.jt_terminal_rule.specs.Messages.{AreSettings};
ghost use Rattle.jt_terminal_rule.specs.Steps as step;
ghost use Rattle.jt_terminal_rule.specs.declared.settings.Settings.{Settings as Set};
ghost use Rattle.jt_terminal_steps.specs.Running.{IsEvent, IsSound, IsStarted};
ghost use Rattle.jt_order_terminal.specs.Terminals.{IsNoMessage, StandsForLine};
ghost use Rattle.jt_delivery.specs.World.{Setting};
ghost use Rattle.jt_terminal_rule.specs.Law.{nothing_held};
ghost use Rattle.jt_order_octets.specs.World.{OrderWorld, empty};
ghost use Rattle.jt_order_octets.specs.Reaching.{Reached};
ghost use Rattle.jt_order_octets.specs.Steps.{Does, after};
ghost use Rattle.jt_order_terminal_steps.specs.Standing.{AreNext, TerminalParts, TerminalStandsIn, after_call, with_line_at};
ghost use Rattle.jt_order_terminal_steps.specs.Holding.{BothTell, parts_in};
ghost use Rattle.jt_order_terminal_steps.specs.Claim.{FailedFeedIsRead, FeedIsRead, LeadsTo, units_told};

use crate::laws::law_order_terminal;
use jt_order::OrderLog;
use jt_order_terminal::{OrderFault, OrderTerminal};
use jt_store::{StoreError, Vault};
use jt_terminal::{Actions, Event, Settings, Terminal};
use std::alloc::Global;

// An event that is no message. Behind it the terminal stands in a world with its frames on the newest line, which is a new one at
// Opened; behind an error no frame was written, and no line is in use.
fn meet_event<V: Vault, G: OrderLog>(
    terminal: &mut OrderTerminal<V, G>,
    event: Event,
) -> Result<Actions, OrderFault>
    requires event { IsEvent terminal.old.terminal.state event }
    requires no_message { IsNoMessage event }
    ensures ok { (w : OrderWorld) → BothTell V.holds G.holds terminal.old (TerminalStandsIn w) →
        IfOk result (λ actions. BothTell V.holds G.holds terminal.new
        (λ now. LeadsTo w (after_call (with_line_at event w) now 0 actions.frames []) now)) }
    ensures err { (w : OrderWorld) → BothTell V.holds G.holds terminal.old (TerminalStandsIn w) →
        OnErr result (BothTell V.holds G.holds terminal.new
        (λ now. LeadsTo w (after_call (with_line_at event w) now 0 [] []) now)) }
{
    law_order_terminal();
    match terminal.event(event) {
        Ok(actions) => Ok(actions),
        Err(fault) => Err(fault),
    }
}

// The next octets of the line in use. Behind them the terminal stands in a world in which they were read, up to the item at which the
// line was given up, and its frames stand on the line; behind an error first ones of them were read, and no line is in use.
fn feed_octets<V: Vault, G: OrderLog>(
    terminal: &mut OrderTerminal<V, G>,
    octets: &[u8],
) -> Result<Actions, OrderFault>
    requires short { terminal.old.stream.place + length octets.now < 2 ^ 63 }
    ensures ok { (w : OrderWorld) → ∥ Reached w ∥₁ → AreNext octets.now w →
        is_up terminal.old.terminal.state.phase ≡ true →
        (stood : BothTell V.holds G.holds terminal.old (TerminalStandsIn w)) →
        IfOk result (λ actions. BothTell V.holds G.holds terminal.new
        (λ now. FeedIsRead w octets.now (parts_in stood) now actions.frames
        (units_told w (parts_in stood) octets.now) actions.end)) }
    ensures err { (w : OrderWorld) → ∥ Reached w ∥₁ → AreNext octets.now w →
        is_up terminal.old.terminal.state.phase ≡ true →
        (stood : BothTell V.holds G.holds terminal.old (TerminalStandsIn w)) →
        OnErr result (BothTell V.holds G.holds terminal.new
        (λ now. FailedFeedIsRead w octets.now (parts_in stood) now)) }
    // Behind them the line is in use still, unless it was given up.
    ensures up { (seen : List ℕ) → StandsForLine terminal.old.stream seen →
        is_up terminal.old.terminal.state.phase ≡ true → IfOk result (λ actions.
        is_up terminal.new.terminal.state.phase ≡ is_none actions.end) }
    // While no line is in use, that is no step.
    ensures idle { (w : OrderWorld) → is_up terminal.old.terminal.state.phase ≡ false →
        BothTell V.holds G.holds terminal.old (TerminalStandsIn w) →
        BothTell V.holds G.holds terminal.new (TerminalStandsIn w) }
{
    law_order_terminal();
    match terminal.feed(octets) {
        Ok(actions) => Ok(actions),
        Err(fault) => Err(fault),
    }
}

// The terminal starts anew in place, with settings of the same digits: the step Restarts. After an error it stands where it stood.
fn restart_terminal<V: Vault, G: OrderLog>(
    terminal: &mut OrderTerminal<V, G>,
    settings: Settings,
) -> Result<(), StoreError>
    requires { AreSettings settings }
    ensures ok { (w : OrderWorld) → BothTell V.holds G.holds terminal.old (TerminalStandsIn w) →
        key_of settings.phone ≡ key_of terminal.old.terminal.state.settings.phone →
        OnOk result (BothTell V.holds G.holds terminal.new
        (λ now. LeadsTo w (after w (Does (step.Restarts settings.phone))) now)) }
    ensures err { (w : OrderWorld) → BothTell V.holds G.holds terminal.old (TerminalStandsIn w) →
        OnErr result (BothTell V.holds G.holds terminal.new (TerminalStandsIn w)) }
{
    law_order_terminal();
    match terminal.restart(settings) {
        Ok(()) => Ok(()),
        Err(error) => Err(error),
    }
}

// An order terminal over a terminal that was started, and a log. Where vault and log hold what they held when an order terminal of the
// same digits stood in a world, that is the step Restarts; where they hold nothing, it stands in the world in which nothing has
// happened. An Err has terminal and log.
fn start_terminal<V: Vault, G: OrderLog>(
    alloc: Global,
    terminal: Terminal<V>,
    log: G,
) -> Result<OrderTerminal<V, G>, (Terminal<V>, G, StoreError)>
    ensures again { (w : OrderWorld) (old : TerminalParts) (settings : Set) →
        TerminalStandsIn w old → V.holds terminal.vault ≡ Some old.held →
        G.holds log ≡ Some old.log →
        AreSettings settings → key_of settings.phone ≡ key_of old.state.settings.phone →
        IsStarted settings (Some old.held) terminal.state →
        IsSound (V.holds terminal.vault) terminal.state →
        IfOk result (λ started. BothTell V.holds G.holds started
        (λ now. LeadsTo w (after w (Does (step.Restarts settings.phone))) now)) }
    ensures first { (setting : Setting) (settings : Set) →
        V.holds terminal.vault ≡ Some nothing_held → G.holds log ≡ Some [] →
        IsStarted settings (Some nothing_held) terminal.state →
        IsSound (V.holds terminal.vault) terminal.state →
        IfOk result (λ started. BothTell V.holds G.holds started
        (TerminalStandsIn (empty settings.phone setting))) }
{
    law_order_terminal();
    match OrderTerminal::start(alloc, terminal, log) {
        Ok(started) => Ok(started),
        Err(refused) => Err(refused),
    }
}
