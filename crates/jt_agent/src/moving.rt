//! One move of an attempt: what the terminal is told, and its frames on the link.

ghost use Rattle.std.specs.Prelude.{◌≡◌, ◌≢◌, ◌≤◌, ◌<◌, ◌+◌, ◌++◌, ◌^◌, List, ℕ, None, Some, Bool, length};
ghost use Rattle.std.specs.List.{flat_map};
ghost use Rattle.jt_value.specs.Counts.{Counts};
ghost use Rattle.jt_outside.specs.Sink.{WritesAll, WriteAllHasCause};
ghost use Rattle.jt_outside.specs.Link.{wire_of};
ghost use Rattle.jt_terminal_rule.specs.Rule.{rule};
ghost use Rattle.jt_terminal_steps.specs.Running.{IsEvent, time_after};
ghost use Rattle.jt_terminal.specs.Line.{StandsForLine, rule_at_octets};
ghost use Rattle.jt_value.specs.Octets.{AreOctets};
ghost use Rattle.jt_agent.specs.Attempt.{LeavesAt, VaultStays, at_link};
ghost use Rattle.jt_agent.specs.Course.{Reads};
ghost use Rattle.jt_agent.specs.Moving.{Comes, Concludes, LeavesEvent, TicksOnce};
ghost use Rattle.jt_agent.specs.declared.ending.AttemptEnd.TheVariants as how;
ghost use Rattle.jt_agent.specs.declared.ending.Attempted.TheVariants.{Ended, StoreFault};

use crate::ending::{AttemptEnd, Attempted};
use jt_outside::{Clock, Link, Sink, write_all};
use jt_store::Vault;
use jt_terminal::{Actions, Event, GiveUp, Terminal, TerminalError, TerminalLine};
use jt_value::Octets;
use std::alloc::Global;

// Writes frames in order. False comes only where a write failed; then a prefix of their octets is written.
fn write_frames<K: Sink>(sink: &mut K, frames: &[Octets]) -> bool
    ensures octets { WritesAll (K.written sink.old) (K.written sink.new) result
        (flat_map (λ frame. frame) frames.now) }
    ensures cause { WriteAllHasCause (K.faults sink.old) (K.faults sink.new) result }
    ensures inbound { K.inbound sink.new ≡ K.inbound sink.old }
{
    for frame in frames {
        if !write_all(sink, frame.as_slice()) {
            return false;
        }
    }
    true
}

// Writes the frames of a move, and then looks at whether the terminal gave up, and at whether all is done. An answer ends the
// attempt.
fn conclude<K: Link>(link: &mut K, actions: Actions, done: bool) -> Option<Attempted>
    ensures concludes { Concludes result actions.end done (flat_map (λ frame. frame) actions.frames)
        (wire_of K.inbound K.written K.faults link.old)
        (wire_of K.inbound K.written K.faults link.new) }
    ensures inbound { K.inbound link.new ≡ K.inbound link.old }
    ensures count { Counts (K.faults link.old) (K.faults link.new) }
    ensures still { result ≢ Some (Ended how.Link) → K.faults link.new ≡ K.faults link.old }
    ensures stored { result ≡ Some StoreFault → ⊥ }
{
    let Actions {
        frames,
        end,
        told: _told,
    } = actions;
    if !write_frames(link, frames.as_slice()) {
        return Some(Attempted::Ended(AttemptEnd::Link));
    }
    match end {
        Some(GiveUp::Denied(reply)) => Some(Attempted::Ended(AttemptEnd::Denied(reply))),
        Some(GiveUp::TimedOut { since, now }) => {
            Some(Attempted::Ended(AttemptEnd::TimedOut { since, now }))
        }
        None => { if done { Some(Attempted::Done) } else { None } }
    }
}

// An event of the terminal, and its frames on the link. An answer ends the attempt.
pub(crate) fn tell<K: Link, V: Vault>(
    alloc: Global,
    link: &mut K,
    terminal: &mut Terminal<V>,
    event: Event,
) -> Option<Attempted>
    requires { IsEvent terminal.old.state event }
    ensures comes { Comes result (rule terminal.old.state event)
        (LeavesEvent terminal.old.state event)
        (at_link terminal.old.state (V.holds terminal.old.vault) (V.faults terminal.old.vault)
        (wire_of K.inbound K.written K.faults link.old))
        (at_link terminal.new.state (V.holds terminal.new.vault) (V.faults terminal.new.vault)
        (wire_of K.inbound K.written K.faults link.new)) }
    ensures time { terminal.new.state.time ≡ time_after terminal.old.state event }
    ensures settings { terminal.new.state.settings ≡ terminal.old.state.settings }
    ensures inbound { K.inbound link.new ≡ K.inbound link.old }
    ensures count { Counts (K.faults link.old) (K.faults link.new) }
    ensures still { result ≢ Some (Ended how.Link) → K.faults link.new ≡ K.faults link.old }
    ensures vault { VaultStays (V.faults terminal.old.vault) (V.faults terminal.new.vault)
        (V.limit terminal.old.vault) (V.limit terminal.new.vault)
        (V.may_fail terminal.old.vault) (V.may_fail terminal.new.vault) (result ≡ Some StoreFault) }
{
    match terminal.event(alloc, event) {
        Ok(actions) => {
            let done = terminal.done();
            conclude(link, actions, done)
        }
        Err(TerminalError::Store) => Some(Attempted::StoreFault),
        Err(TerminalError::Memory) => Some(Attempted::Memory),
    }
}

// Octets of the line for the terminal, and its frames on the link. An answer ends the attempt.
pub(crate) fn hear<K: Link, V: Vault>(
    alloc: Global,
    link: &mut K,
    terminal: &mut Terminal<V>,
    line: &mut TerminalLine,
    octets: &[u8],
) -> Option<Attempted>
    requires { line.old.stream.place + length octets.now < 2 ^ 63 }
    ensures comes { (seen : List ℕ) → StandsForLine line.old seen →
        Comes result (rule_at_octets terminal.old.state seen octets.now)
        (LeavesAt terminal.old.state seen (Reads octets.now))
        (at_link terminal.old.state (V.holds terminal.old.vault) (V.faults terminal.old.vault)
        (wire_of K.inbound K.written K.faults link.old))
        (at_link terminal.new.state (V.holds terminal.new.vault) (V.faults terminal.new.vault)
        (wire_of K.inbound K.written K.faults link.new)) }
    ensures line { (seen : List ℕ) → StandsForLine line.old seen → result ≡ None →
        StandsForLine line.new (seen ++ octets.now) }
    ensures place { line.new.stream.place ≤ line.old.stream.place + length octets.now }
    ensures fit { AreOctets octets.now }
    ensures time { terminal.new.state.time ≡ terminal.old.state.time }
    ensures settings { terminal.new.state.settings ≡ terminal.old.state.settings }
    ensures inbound { K.inbound link.new ≡ K.inbound link.old }
    ensures count { Counts (K.faults link.old) (K.faults link.new) }
    ensures still { result ≢ Some (Ended how.Link) → K.faults link.new ≡ K.faults link.old }
    ensures vault { VaultStays (V.faults terminal.old.vault) (V.faults terminal.new.vault)
        (V.limit terminal.old.vault) (V.limit terminal.new.vault)
        (V.may_fail terminal.old.vault) (V.may_fail terminal.new.vault) (result ≡ Some StoreFault) }
{
    match line.feed(alloc, terminal, octets) {
        Ok(actions) => {
            let done = terminal.done();
            conclude(link, actions, done)
        }
        Err(TerminalError::Store) => Some(Attempted::StoreFault),
        Err(TerminalError::Memory) => Some(Attempted::Memory),
    }
}

// The clock's moment for the terminal. An answer ends the attempt.
pub(crate) fn tick<K: Link, C: Clock, V: Vault>(
    alloc: Global,
    link: &mut K,
    clock: &mut C,
    terminal: &mut Terminal<V>,
) -> Option<Attempted>
    requires { terminal.old.state.time ≤ (C.time clock.old).last }
    ensures ticks { TicksOnce result
        (at_link terminal.old.state (V.holds terminal.old.vault) (V.faults terminal.old.vault)
        (wire_of K.inbound K.written K.faults link.old))
        (at_link terminal.new.state (V.holds terminal.new.vault) (V.faults terminal.new.vault)
        (wire_of K.inbound K.written K.faults link.new))
        (C.time clock.old) (C.time clock.new) }
    ensures late { terminal.new.state.time ≤ (C.time clock.new).last }
    ensures settings { terminal.new.state.settings ≡ terminal.old.state.settings }
    ensures inbound { K.inbound link.new ≡ K.inbound link.old }
    ensures count { Counts (K.faults link.old) (K.faults link.new) }
    ensures still { result ≢ Some (Ended how.Link) → K.faults link.new ≡ K.faults link.old }
    ensures vault { VaultStays (V.faults terminal.old.vault) (V.faults terminal.new.vault)
        (V.limit terminal.old.vault) (V.limit terminal.new.vault)
        (V.may_fail terminal.old.vault) (V.may_fail terminal.new.vault) (result ≡ Some StoreFault) }
{
    let moment = clock.now();
    tell(alloc, link, terminal, Event::Tick(moment))
}
