//! Attempts one after another.

ghost use Rattle.std.specs.Prelude.{◌≡◌, ◌≤◌};
ghost use Rattle.jt_value.specs.Counts.{Rose, RoseBy};
ghost use Rattle.jt_outside.specs.Link.{wire_of};
ghost use Rattle.jt_terminal_rule.specs.declared.state.Phase.TheVariants.{Down};
ghost use Rattle.jt_agent.specs.Attempt.{VaultStays};
ghost use Rattle.jt_agent.specs.Tries.{IsStoreFault, Reports, TriesOnce, dials_in, ends_in, between};
ghost use Rattle.jt_agent.specs.declared.ending.Attempted.TheVariants.{StoreFault};

use crate::ending::{AttemptEnd, Attempted};
use crate::running::attempt;
use jt_outside::{Clock, Dial};
use jt_store::Vault;
use jt_terminal::Terminal;
use jt_value::Seq;
use std::alloc::Global;

/// What attempts one after another came to. Each has the ends of those that ended before, in order; Memory has none.
#[derive(Drop)]
pub enum Outcome {
    /// Every recorded fix is accepted.
    Done(Seq<AttemptEnd>),
    /// As many attempts as may be ended so, and some fix is not accepted.
    Unsent(Seq<AttemptEnd>),
    /// The vault failed: its count of faults rose.
    StoreFault(Seq<AttemptEnd>),
    /// Memory was wanted and refused.
    Memory,
}

// One try: a dial, and an attempt over the link that it gave, which goes back.
fn try_once<D: Dial, C: Clock, V: Vault>(
    alloc: Global,
    dial: &mut D,
    clock: &mut C,
    terminal: &mut Terminal<V>,
    host: &str,
    port: u16,
) -> Attempted
    requires down { terminal.old.state.phase ≡ Down }
    requires time { terminal.old.state.time ≤ (C.time clock.old).last }
    ensures tried { TriesOnce result
        (between terminal.old.state (V.holds terminal.old.vault) (V.faults terminal.old.vault)
        (C.time clock.old) (D.pool dial.old) (D.faults dial.old))
        (between terminal.new.state (V.holds terminal.new.vault) (V.faults terminal.new.vault)
        (C.time clock.new) (D.pool dial.new) (D.faults dial.new)) }
    ensures down { terminal.new.state.phase ≡ Down }
    ensures sent { terminal.old.state.sent ≡ 0 → terminal.new.state.sent ≡ 0 }
    ensures late { terminal.new.state.time ≤ (C.time clock.new).last }
    ensures settings { terminal.new.state.settings ≡ terminal.old.state.settings }
    ensures vault { VaultStays (V.faults terminal.old.vault) (V.faults terminal.new.vault)
        (V.limit terminal.old.vault) (V.limit terminal.new.vault)
        (V.may_fail terminal.old.vault) (V.may_fail terminal.new.vault) (result ≡ StoreFault) }
{
    match dial.dial(host, port) {
        Some(link) => {
            let mut link = link;
            let attempted = attempt(alloc, &mut link, clock, terminal);
            dial.back(link);
            attempted
        }
        None => Attempted::Ended(AttemptEnd::Dial),
    }
}

/// Up to `tries` attempts of a terminal without a line, one after another, each over a link to the host and the port that the
/// dial gives and that goes back to it. Done comes as soon as every recorded fix is accepted, before dialling where that is so at
/// once; Unsent comes after `tries` attempts that ended, where some fix is not accepted.
///
/// The clock's last answer, at first 0, is not below the terminal's time. Memory is taken by `alloc` alone, so the call needs no
/// runtime.
pub fn report_all<D: Dial, C: Clock, V: Vault>(
    alloc: Global,
    dial: &mut D,
    clock: &mut C,
    terminal: &mut Terminal<V>,
    host: &str,
    port: u16,
    tries: u32,
) -> Outcome
    requires down { terminal.old.state.phase ≡ Down }
    requires time { terminal.old.state.time ≤ (C.time clock.old).last }
    // The attempts over the links that the dial gave, with their ends, and what they came to.
    ensures reports { Reports tries result
        (between terminal.old.state (V.holds terminal.old.vault) (V.faults terminal.old.vault)
        (C.time clock.old) (D.pool dial.old) (D.faults dial.old))
        (between terminal.new.state (V.holds terminal.new.vault) (V.faults terminal.new.vault)
        (C.time clock.new) (D.pool dial.new) (D.faults dial.new)) }
    // The dial's count rose for each attempt that ended for want of a link.
    ensures dials { RoseBy (dials_in (ends_in result)) (D.faults dial.old) (D.faults dial.new) }
    // The vault failed only where its count rose in this call.
    ensures failed { IsStoreFault result →
        Rose (V.faults terminal.old.vault) (V.faults terminal.new.vault) }
    // So more attempts may follow.
    ensures down { terminal.new.state.phase ≡ Down }
    ensures sent { terminal.old.state.sent ≡ 0 → terminal.new.state.sent ≡ 0 }
    ensures late { terminal.new.state.time ≤ (C.time clock.new).last }
    ensures settings { terminal.new.state.settings ≡ terminal.old.state.settings }
    ensures vault { VaultStays (V.faults terminal.old.vault) (V.faults terminal.new.vault)
        (V.limit terminal.old.vault) (V.limit terminal.new.vault)
        (V.may_fail terminal.old.vault) (V.may_fail terminal.new.vault) (IsStoreFault result) }
{
    let mut ends = Vec::new(alloc);
    while ends.len() < tries as usize {
        if terminal.done() {
            return Outcome::Done(Seq::from_vec(ends));
        }
        // Room for the end of an attempt is taken before the attempt.
        let Ok(()) = ends.try_reserve(1) else {
            return Outcome::Memory;
        };
        match try_once(alloc, dial, clock, terminal, host, port) {
            Attempted::Done => return Outcome::Done(Seq::from_vec(ends)),
            Attempted::Ended(end) => match ends.push(end) {
                Ok(()) => {}
                Err(_) => unreachable!(),
            },
            Attempted::StoreFault => return Outcome::StoreFault(Seq::from_vec(ends)),
            Attempted::Memory => return Outcome::Memory,
        }
    }
    if terminal.done() {
        Outcome::Done(Seq::from_vec(ends))
    } else {
        Outcome::Unsent(Seq::from_vec(ends))
    }
}
