//! One attempt over a link.

ghost use Rattle.std.specs.Prelude.{◌≡◌, ◌≢◌, ◌≤◌, ◌+◌, ◌^◌};
ghost use Rattle.jt_outside.specs.Link.{wire_of};
ghost use Rattle.jt_terminal_rule.specs.declared.state.Event.TheVariants.{Lost};
ghost use Rattle.jt_terminal_rule.specs.declared.state.Phase.TheVariants.{Down};
ghost use Rattle.jt_terminal_rule.specs.Rule.{rule};
ghost use Rattle.jt_terminal_steps.specs.Running.{IsDown};
ghost use Rattle.jt_agent.specs.Attempt.{Attempt, VaultStays, at_link, most_quiet};
ghost use Rattle.jt_agent.specs.Moving.{Ends, DidRule};
ghost use Rattle.jt_agent.specs.declared.ending.AttemptEnd.TheVariants as how;
ghost use Rattle.jt_agent.specs.declared.ending.Attempted.TheVariants.{Ended, StoreFault};

use crate::ending::{AttemptEnd, Attempted};
use crate::moving::{hear, tell, tick};
use jt_outside::{Clock, Link, LinkGot};
use jt_store::Vault;
use jt_terminal::{Event, Terminal, TerminalLine, law_steps};
use jt_value::limits::{INPUT_LIMIT, READ_LIMIT};
use std::alloc::Global;

/// After so many reads in a row that gave nothing a link is idle (this project's own).
const MOST_QUIETS: u32 = 1_000_000;

// The attempt up to its end, before the terminal loses its line.
fn converse<K: Link, C: Clock, V: Vault>(
    alloc: Global,
    link: &mut K,
    clock: &mut C,
    terminal: &mut Terminal<V>,
    octets: u64,
    quiets: u32,
) -> Attempted
    requires time { terminal.old.state.time ≤ (C.time clock.old).last }
    requires octets { (1 ≤ octets) × (octets ≤ INPUT_LIMIT) }
    requires quiets { (1 ≤ quiets) × (quiets ≤ MOST_QUIETS) }
    ensures ends { Ends octets quiets
        (at_link terminal.old.state (V.holds terminal.old.vault) (V.faults terminal.old.vault)
        (wire_of K.inbound K.written K.faults link.old))
        (at_link terminal.new.state (V.holds terminal.new.vault) (V.faults terminal.new.vault)
        (wire_of K.inbound K.written K.faults link.new))
        (C.time clock.old) (C.time clock.new) result }
    ensures quiet { (K.inbound link.new).run ≤ (K.inbound link.old).run + most_quiet quiets result }
    ensures still { result ≢ Ended how.Link → K.faults link.new ≡ K.faults link.old }
    ensures late { terminal.new.state.time ≤ (C.time clock.new).last }
    ensures settings { terminal.new.state.settings ≡ terminal.old.state.settings }
    ensures vault { VaultStays (V.faults terminal.old.vault) (V.faults terminal.new.vault)
        (V.limit terminal.old.vault) (V.limit terminal.new.vault)
        (V.may_fail terminal.old.vault) (V.may_fail terminal.new.vault) (result ≡ StoreFault) }
{
    law_steps();
    let mut line = TerminalLine::new(alloc);
    if let Some(ended) = tick(alloc, link, clock, terminal) {
        return ended;
    }
    if let Some(ended) = tell(alloc, link, terminal, Event::Opened) {
        return ended;
    }
    let mut room = [0u8; READ_LIMIT];
    let mut taken = 0;
    let mut quiet = 0;
    while taken < octets {
        let most = (octets - taken).min(READ_LIMIT as u64) as usize;
        let piece = &mut room[..most];
        match link.read(piece) {
            LinkGot::Bytes(count) => {
                taken += count as u64;
                quiet = 0;
                if let Some(ended) = hear(alloc, link, terminal, &mut line, &piece[..count]) {
                    return ended;
                }
                if let Some(ended) = tick(alloc, link, clock, terminal) {
                    return ended;
                }
            }
            LinkGot::Quiet => {
                quiet += 1;
                if quiet == quiets {
                    return Attempted::Ended(AttemptEnd::Idle);
                }
                if let Some(ended) = tick(alloc, link, clock, terminal) {
                    return ended;
                }
            }
            LinkGot::End => return Attempted::Ended(AttemptEnd::End),
            LinkGot::Failed => return Attempted::Ended(AttemptEnd::Link),
        }
    }
    Attempted::Ended(AttemptEnd::Spent)
}

// The terminal loses its line.
fn lose<V: Vault>(alloc: Global, terminal: &mut Terminal<V>)
    ensures did { DidRule (rule terminal.old.state Lost) terminal.new.state
        (V.holds terminal.old.vault) (V.holds terminal.new.vault) }
    ensures down { IsDown terminal.new.state }
    ensures time { terminal.new.state.time ≡ terminal.old.state.time }
    ensures settings { terminal.new.state.settings ≡ terminal.old.state.settings }
    ensures vault { VaultStays (V.faults terminal.old.vault) (V.faults terminal.new.vault)
        (V.limit terminal.old.vault) (V.limit terminal.new.vault)
        (V.may_fail terminal.old.vault) (V.may_fail terminal.new.vault) ⊥ }
{
    match terminal.event(alloc, Event::Lost) {
        Ok(_) => {}
        Err(_) => unreachable!(),
    }
}

/// One attempt of a terminal without a line over a link that was lent: the terminal is told the clock's moment and that a line is
/// open, and then in turns what a read of the link gave and the clock's moment. The frames of each are written before it is looked
/// at whether the terminal gave up and whether all is accepted. In the end the terminal loses its line.
///
/// At most `octets` octets are taken, from 1 to 2^40. Spent comes only once as many were taken, and Idle only once `quiets` reads
/// in a row were quiet, from 1 to 1,000,000. The answer is never Ended with Dial. At StoreFault and Memory the vault holds what
/// some first changes of the last event make of it, and no frame of that event is written.
///
/// The clock's last answer, at first 0, is not below the terminal's time. Memory is taken by `alloc` alone, so the call needs no
/// runtime.
pub fn attempt_within<K: Link, C: Clock, V: Vault>(
    alloc: Global,
    link: &mut K,
    clock: &mut C,
    terminal: &mut Terminal<V>,
    octets: u64,
    quiets: u32,
) -> Attempted
    requires down { terminal.old.state.phase ≡ Down }
    requires time { terminal.old.state.time ≤ (C.time clock.old).last }
    requires octets { (1 ≤ octets) × (octets ≤ INPUT_LIMIT) }
    requires quiets { (1 ≤ quiets) × (quiets ≤ MOST_QUIETS) }
    // What the terminal was told, what it did and what was written, and why the attempt ended.
    ensures attempt { Attempt octets quiets
        (at_link terminal.old.state (V.holds terminal.old.vault) (V.faults terminal.old.vault)
        (wire_of K.inbound K.written K.faults link.old))
        (at_link terminal.new.state (V.holds terminal.new.vault) (V.faults terminal.new.vault)
        (wire_of K.inbound K.written K.faults link.new))
        (C.time clock.old) (C.time clock.new) result }
    // As many quiet reads in a row as may be end it as Idle.
    ensures quiet { (K.inbound link.new).run ≤ (K.inbound link.old).run + most_quiet quiets result }
    // Every other end, so Memory too, comes only where the link's count of faults stood still; the vault's rises only at StoreFault.
    ensures still { result ≢ Ended how.Link → K.faults link.new ≡ K.faults link.old }
    // So another attempt may follow.
    ensures down { IsDown terminal.new.state }
    ensures late { terminal.new.state.time ≤ (C.time clock.new).last }
    ensures settings { terminal.new.state.settings ≡ terminal.old.state.settings }
    ensures vault { VaultStays (V.faults terminal.old.vault) (V.faults terminal.new.vault)
        (V.limit terminal.old.vault) (V.limit terminal.new.vault)
        (V.may_fail terminal.old.vault) (V.may_fail terminal.new.vault) (result ≡ StoreFault) }
{
    let ended = converse(alloc, link, clock, terminal, octets, quiets);
    lose(alloc, terminal);
    ended
}

/// One attempt as `attempt_within` makes it, with 2^40 octets and 1,000,000 quiet reads in a row.
pub fn attempt<K: Link, C: Clock, V: Vault>(
    alloc: Global,
    link: &mut K,
    clock: &mut C,
    terminal: &mut Terminal<V>,
) -> Attempted
    requires down { terminal.old.state.phase ≡ Down }
    requires time { terminal.old.state.time ≤ (C.time clock.old).last }
    ensures attempt { Attempt INPUT_LIMIT MOST_QUIETS
        (at_link terminal.old.state (V.holds terminal.old.vault) (V.faults terminal.old.vault)
        (wire_of K.inbound K.written K.faults link.old))
        (at_link terminal.new.state (V.holds terminal.new.vault) (V.faults terminal.new.vault)
        (wire_of K.inbound K.written K.faults link.new))
        (C.time clock.old) (C.time clock.new) result }
    ensures quiet { (K.inbound link.new).run
        ≤ (K.inbound link.old).run + most_quiet MOST_QUIETS result }
    ensures still { result ≢ Ended how.Link → K.faults link.new ≡ K.faults link.old }
    ensures down { IsDown terminal.new.state }
    ensures late { terminal.new.state.time ≤ (C.time clock.new).last }
    ensures settings { terminal.new.state.settings ≡ terminal.old.state.settings }
    ensures vault { VaultStays (V.faults terminal.old.vault) (V.faults terminal.new.vault)
        (V.limit terminal.old.vault) (V.limit terminal.new.vault)
        (V.may_fail terminal.old.vault) (V.may_fail terminal.new.vault) (result ≡ StoreFault) }
{
    attempt_within(alloc, link, clock, terminal, INPUT_LIMIT, MOST_QUIETS)
}
