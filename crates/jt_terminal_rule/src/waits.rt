//! Serials, waits and moments.

ghost use Rattle.std.specs.Prelude.{◌≡◌, ◌+◌, ◌≤◌, ◌↔◌, nat_lt, IsTrue};
ghost use Rattle.jt_value.specs.Serials.{gap_of};
ghost use Rattle.jt_terminal_rule.specs.Rule as rule;

use crate::state::{Phase, State, Wait};
use jt_value::gap;
use jt_value::limits::{SERIAL_WINDOW, UNIT_WINDOW};

// The longest wait, in milliseconds.
const LONGEST: u64 = 1 << 62;

// How many milliseconds a second has.
const SECOND: u64 = 1_000;

/// Whether a unit of the next serial may be formed.
pub fn has_serial(mark: u16, next: u16) -> bool
    ensures { result ≡ nat_lt (gap_of mark next) SERIAL_WINDOW }
{
    gap(mark, next) < SERIAL_WINDOW
}

// A control message takes the next serial, and leaves the last one before the limit to a unit.
pub(crate) fn after_control(state: &State) -> u16
    ensures { result ≡ rule.after_control state.now }
{
    if gap(state.mark, state.next) < UNIT_WINDOW {
        state.next.wrapping_add(1)
    } else {
        state.next
    }
}

/// The serial behind a message in so many packets, each of which takes one: it leaves the last one before the limit to a unit.
pub fn after_packets(state: &State, count: usize) -> u16
    ensures { result ≡ rule.after_packets state.now count }
{
    let gone = gap(state.mark, state.next);
    if gone >= UNIT_WINDOW {
        return state.next;
    }
    let taken = count.min(usize::from(UNIT_WINDOW - gone)) as u16;
    state.next.wrapping_add(taken)
}

/// A first sending now.
pub fn first_wait(state: &State) -> Wait
    ensures { result ≡ rule.first_wait state.now }
{
    Wait {
        since: state.time,
        last: state.time,
        sendings: 1,
        first: SECOND * u64::from(state.timing.answer),
        repeats: state.timing.repeats,
    }
}

// The wait behind so many sendings. After a few of them it is 0 or at its longest, and stays there.
pub(crate) fn wait_behind(first: u64, sendings: u64) -> u64
    ensures { result ≡ rule.wait_behind first sendings }
{
    if sendings == 0 {
        return 0;
    }
    let mut wait = first;
    for count in 1..sendings {
        if wait == 0 {
            return 0;
        }
        if wait >= LONGEST {
            return LONGEST;
        }
        wait = wait.saturating_mul(count + 1).min(LONGEST);
    }
    wait
}

// Whether so many milliseconds have passed since a moment.
fn has_passed_since(moment: u64, length: u64, now: u64) -> bool
    ensures { IsTrue result ↔ (moment + length ≤ now) }
{
    moment <= now && length <= now - moment
}

// Whether an answer is waited for.
pub(crate) fn is_waiting(phase: Phase, sent: usize) -> bool
    ensures { result ≡ rule.is_waiting phase sent }
{
    match phase {
        Phase::Down => false,
        Phase::Registering(_) | Phase::Authenticating(_) => true,
        Phase::Live(_) => sent > 0,
    }
}

/// Whether the wait behind the last sending has passed.
pub fn has_passed(state: &State) -> bool
    ensures { result ≡ rule.has_passed state.now }
{
    if !is_waiting(state.phase, state.sent) {
        return false;
    }
    let wait = wait_behind(state.wait.first, state.wait.sendings);
    has_passed_since(state.wait.last, wait, state.time)
}

// Whether nothing was sent for as long as the parameter of heartbeats says.
pub(crate) fn is_silent(state: &State) -> bool
    ensures { result ≡ rule.is_silent state.now }
{
    let heartbeat = state.timing.heartbeat;
    heartbeat != 0 && has_passed_since(state.said, SECOND * u64::from(heartbeat), state.time)
}
