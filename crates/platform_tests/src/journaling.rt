//! Hubs that differ in what they keep of their history.

use crate::acting::{Step, Told, Who, ghostly, last_row, phone, request_of, tells, told_by};
use crate::chance::{Drawn, SEED, draw, drawn_request, next};
use jt_platform::{Hub, Journal};
use jt_store::MemKeeper;
use std::alloc::Global;
use std::process::Abort;

/// How many rows a phone has in the hubs that are compared.
pub const LIMIT: u64 = 300;

/// The calls of their keepers that fail.
pub const FAILING: &[u64] = &[100, 1_000, 10_000];

// So many requests are compared.
const REQUESTS: u64 = 20_000;

/// The marks of all replies but Memory.
pub const ALL_BUT_MEMORY: u16 = 0x03ff;

// A mark for each kind of reply.
fn mark(told: Told) -> u16 {
    match told {
        Told::Registered => 0x0001,
        Told::Denied => 0x0002,
        Told::Accepted => 0x0004,
        Told::Stored => 0x0008,
        Told::Repeat => 0x0010,
        Told::Renumbered => 0x0020,
        Told::NotLive => 0x0040,
        Told::Fenced => 0x0080,
        Told::ListFull => 0x0100,
        Told::StoreFault => 0x0200,
        Told::Memory => 0x0400,
    }
}

// The reply of both hubs, where it is the same.
fn reply_of_both<J: Journal, K: Journal>(
    alloc: Global,
    one: &mut Hub<MemKeeper, J>,
    other: &mut Hub<MemKeeper, K>,
    drawn: Drawn,
) -> Option<Told> {
    let request = drawn_request(alloc, drawn).ok()?;
    let phone = phone(drawn.who);
    let told = told_by(&one.act(drawn.session, &request), &phone);
    let by_other = told_by(&other.act(drawn.session, &request), &phone);
    if told == by_other { Some(told.0) } else { None }
}

// The marks of the replies to the requests by chance, where both hubs gave the same to each.
fn marks_of_both<J: Journal, K: Journal>(
    alloc: Global,
    one: &mut Hub<MemKeeper, J>,
    other: &mut Hub<MemKeeper, K>,
) -> Option<u16> {
    let mut seed = SEED;
    let mut marks = 0;
    for place in 0..REQUESTS {
        seed = next(seed);
        marks |= mark(reply_of_both(alloc, one, other, draw(place, seed))?);
    }
    Some(marks)
}

/// The marks of the replies to the requests by chance, where a hub that keeps no entries gave the same to each.
pub fn marks_beside_ghost<R: Abort, J: Journal>(
    rt: &R,
    alloc: Global,
    hub: &mut Hub<MemKeeper, J>,
) -> Option<u16> {
    let mut forgets = ghostly(alloc, LIMIT, FAILING).expect(rt, "memory");
    let marks = marks_of_both(alloc, hub, &mut forgets);
    drop(forgets);
    marks
}

fn goes<J: Journal>(alloc: Global, hub: &mut Hub<MemKeeper, J>, step: Step) -> bool {
    match request_of(alloc, step) {
        Ok(request) => tells(&hub.act(step.0, &request), step),
        Err(_) => false,
    }
}

/// The place of the first step that is told something else than stands beside it.
pub fn first_untold<J: Journal>(
    alloc: Global,
    hub: &mut Hub<MemKeeper, J>,
    steps: &[Step],
) -> Option<usize> {
    for (place, step) in steps.iter().enumerate() {
        if !goes(alloc, hub, *step) {
            return Some(place);
        }
    }
    None
}

/// Whether the session holds the first phone, and whether it holds the second one.
pub fn held_by<J: Journal>(hub: &Hub<MemKeeper, J>, session: u32) -> (bool, bool) {
    let first = hub.holds(session, &phone(Who::First));
    let second = hub.holds(session, &phone(Who::Second));
    (first, second)
}

/// The number of the phone's last row with the keeper of a hub that is over, if it has one.
pub fn last_of<J: Journal>(alloc: Global, hub: Hub<MemKeeper, J>, who: Who) -> Option<u64> {
    let mut keeper = hub.into_keeper();
    last_row(alloc, &mut keeper, who)
}
