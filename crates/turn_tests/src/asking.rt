//! One thread asks, and two do.

ghost use Rattle.std.specs.Prelude.{◌≡◌, ◌≢◌, ℕ, [], IfSome};
ghost use Rattle.std.specs.Thread.{IsSync};
ghost use Rattle.jt_turn.specs.Histories.{entries_of};

use crate::counting::{CountingDesk, MOST_ASKS};
use jt_turn::{Entry, Pass, Turn};
use jt_value::Seq;
use std::alloc::Global;
use std::sync::Wait;
use std::thread::{Threads, join};

/// The desk of a turn that is over, and what each of two threads was told.
#[derive(Drop)]
pub struct TwoAsked {
    pub desk: CountingDesk,
    /// Each ask of the thread of number 1 that was counted, with its answer, in the order in which it asked.
    pub first: Seq<Entry<u64, Option<u64>>>,
    /// The same of number 2.
    pub second: Seq<Entry<u64, Option<u64>>>,
}

// The pass asks 0, 1, 2 and so on. It tells the asks that were counted, with their answers.
pub(crate) fn ask_all<R: Wait>(
    rt: &R,
    alloc: Global,
    turn: &Turn<CountingDesk>,
    mut pass: Pass<CountingDesk>,
    number: u32,
    times: u64,
) -> Option<(Pass<CountingDesk>, Seq<Entry<u64, Option<u64>>>)>
    requires turn { pass.turn ≡ turn.now }
    requires number { pass.number ≡ number }
    requires new { pass.mine ≡ [] }
    ensures turn { IfSome result (λ told. told.0.turn ≡ turn.now) }
    ensures number { IfSome result (λ told. told.0.number ≡ number) }
    ensures told { IfSome result (λ told. told.0.mine ≡ told.1) }
{
    let mut told = Seq::new(alloc);
    for ask in 0..times {
        let answer = turn.act(rt, &mut pass, &ask);
        if answer.is_some() {
            told.push(Entry {
                number,
                ask,
                answer,
            })
            .ok()?;
        }
    }
    Some((pass, told))
}

/// Two threads ask a new desk, each so many times. What the history has of each number is what its thread was told, in order.
/// None: memory was wanted and refused.
pub fn both_ask<R: Threads + Wait + Sync>(
    rt: &R,
    alloc: Global,
    from: u32,
    times: u64,
) -> Option<TwoAsked>
    ensures first { IfSome result (λ asked. entries_of 1 asked.desk.entries ≡ asked.first) }
    ensures second { IfSome result (λ asked. entries_of 2 asked.desk.entries ≡ asked.second) }
    ensures no_other { IfSome result (λ asked.
        (n : ℕ) → n ≢ 1 → n ≢ 2 → entries_of n asked.desk.entries ≡ []) }
    ensures opening { IfSome result (λ asked. asked.desk.from ≡ from) }
{
    let desk = CountingDesk {
        from,
        limit: MOST_ASKS,
        entries: Seq::new(alloc),
        faults: 0,
        pauses: 0,
    };
    let (turn, mut pass) = Turn::begin(alloc, desk).ok()?;
    let one = turn.split(&mut pass, 1).ok()?;
    let two = turn.split(&mut pass, 2).ok()?;
    let (first, second) = join(
        rt,
        || -> Option<(Pass<CountingDesk>, Seq<Entry<u64, Option<u64>>>)>
            requires { IsSync R.row × (one.turn ≡ turn) × (one.number ≡ 1) × (one.mine ≡ []) }
            ensures turn { IfSome result (λ told. told.0.turn ≡ turn) }
            ensures number { IfSome result (λ told. told.0.number ≡ 1) }
            ensures told { IfSome result (λ told. told.0.mine ≡ told.1) }
        { ask_all(rt, alloc, &turn, one, 1, times) },
        || -> Option<(Pass<CountingDesk>, Seq<Entry<u64, Option<u64>>>)>
            requires { IsSync R.row × (two.turn ≡ turn) × (two.number ≡ 2) × (two.mine ≡ []) }
            ensures turn { IfSome result (λ told. told.0.turn ≡ turn) }
            ensures number { IfSome result (λ told. told.0.number ≡ 2) }
            ensures told { IfSome result (λ told. told.0.mine ≡ told.1) }
        { ask_all(rt, alloc, &turn, two, 2, times) },
    );
    let (one, first) = first?;
    let (two, second) = second?;
    turn.join(&mut pass, one);
    turn.join(&mut pass, two);
    let desk = turn.close(pass);
    Some(TwoAsked {
        desk,
        first,
        second,
    })
}
