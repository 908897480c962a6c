//! As many threads as are asked for.

ghost use Rattle.std.specs.Prelude.{◌≡◌, IfSome, [], map};
ghost use Rattle.std.specs.Thread.{IsSync};
ghost use Rattle.turn_tests.specs.Reports.{ended_of, AllTold};

use crate::asking::ask_all;
use crate::counting::{CountingDesk, MOST_ASKS};
use jt_turn::{Entry, Pass, Turn};
use jt_value::Seq;
use std::alloc::Global;
use std::snapshot::Snapshot;
use std::sync::Wait;
use std::thread;
use std::thread::{Promise, Threads};

/// What a thread was told.
#[derive(Drop)]
pub struct Told {
    /// The number of its pass.
    pub number: u32,
    /// Each ask that was counted, with its answer, in the order in which it asked.
    pub entries: Seq<Entry<u64, Option<u64>>>,
}

// What a thread brings back: a pass of this turn, and its entries.
#[derive(Drop)]
struct OfTurn {
    turn: Snapshot<Turn<CountingDesk>>,
}

impl Promise<Option<(Pass<CountingDesk>, Told)>> for OfTurn {
    ghost use Rattle.std.specs.Prelude.{◌≡◌, IfSome};

    ghost kept_by = { λ promise result. IfSome result (λ back. (back.0.turn ≡ promise.turn.value) × (back.1.number ≡ back.0.number) × (back.1.entries ≡ back.0.mine)) };
}

fn session<R: Wait>(
    rt: &R,
    alloc: Global,
    turn: &Turn<CountingDesk>,
    pass: Pass<CountingDesk>,
    number: u32,
    times: u64,
) -> Option<(Pass<CountingDesk>, Told)>
    requires turn { pass.turn ≡ turn.now }
    requires number { pass.number ≡ number }
    requires new { pass.mine ≡ [] }
    ensures turn { IfSome result (λ back. back.0.turn ≡ turn.now) }
    ensures number { IfSome result (λ back. back.1.number ≡ back.0.number) }
    ensures told { IfSome result (λ back. back.1.entries ≡ back.0.mine) }
{
    let (pass, entries) = ask_all(rt, alloc, turn, pass, number, times)?;
    Some((pass, Told { number, entries }))
}

/// So many threads ask, each by a pass of its own, of the numbers from 1. All of them come back, with what they were told, the
/// last one first. None: memory or a thread was wanted and refused.
pub fn all_ask<R: Threads + Wait + Sync>(
    rt: &R,
    alloc: Global,
    turn: &Turn<CountingDesk>,
    pass: Pass<CountingDesk>,
    threads: u32,
    times: u64,
) -> Option<(Pass<CountingDesk>, Vec<Told>)>
    requires turn { pass.turn ≡ turn.now }
    requires root { pass.number ≡ 0 }
    requires new { (pass.given ≡ 0) × (pass.lent ≡ 0) × (pass.ended ≡ []) }
    ensures turn { IfSome result (λ back. back.0.turn ≡ turn.now) }
    ensures root { IfSome result (λ back. back.0.number ≡ 0) }
    ensures joined { IfSome result (λ back. back.0.lent ≡ 0) }
    ensures ended { IfSome result (λ back. back.0.ended ≡ map ended_of back.1.items) }
{
    thread::scope(
        thread::scope_env(),
        rt,
        |scope| -> Option<(Pass<CountingDesk>, Vec<Told>)>
            requires { IsSync R.row × (pass.turn ≡ turn.now) × (pass.number ≡ 0) × (pass.given ≡ 0)
                × (pass.lent ≡ 0) × (pass.ended ≡ []) }
            ensures turn { IfSome result (λ back. back.0.turn ≡ turn.entry.now) }
            ensures root { IfSome result (λ back. back.0.number ≡ 0) }
            ensures joined { IfSome result (λ back. back.0.lent ≡ 0) }
            ensures ended { IfSome result (λ back. back.0.ended ≡ map ended_of back.1.items) }
        {
            let mut pass = pass;
            let mut children = Vec::new(alloc);
            for number in 1..=threads {
                let one = turn.split(&mut pass, number).ok()?;
                let promise = OfTurn {
                    turn: Snapshot::of(turn),
                };
                let child = scope
                    .spawn_with(
                        promise,
                        move || session(rt, alloc, turn, one, number, times),
                    )
                    .ok()?;
                children.push(child).ok()?;
            }
            let mut reports = Vec::new(alloc);
            while let Some(child) = children.pop() {
                let (one, report) = child.join(rt)?;
                turn.join(&mut pass, one);
                reports.push(report).ok()?;
            }
            Some((pass, reports))
        },
    )
}

/// A turn over a new desk, which pauses so many times before each answer, and which so many threads ask. What the history has of each one's number is what it was told. None:
/// memory or a thread was wanted and refused.
pub fn served<R: Threads + Wait + Sync>(
    rt: &R,
    alloc: Global,
    threads: u32,
    times: u64,
    pauses: u32,
) -> Option<(CountingDesk, Vec<Told>)>
    ensures { IfSome result (λ back. AllTold back.0.entries back.1.items) }
{
    let desk = CountingDesk {
        from: 0,
        limit: MOST_ASKS,
        entries: Seq::new(alloc),
        faults: 0,
        pauses,
    };
    let (turn, pass) = Turn::begin(alloc, desk).ok()?;
    let (pass, reports) = all_ask(rt, alloc, &turn, pass, threads, times)?;
    Some((turn.close(pass), reports))
}
