//! The passes of the sessions, which are given before the first link is accepted.

ghost use Rattle.std.specs.Prelude.{◌≡◌, ◌≤◌, ◌<◌, ◌+◌, ◌^◌, ℕ, [], length, IfOk, OnOk, OnErr};
ghost use lib.ListN.{get_elem?};
ghost use mathlib.Core.Option.{some};
ghost use Rattle.jt_server.specs.Jobs.{AreNew, AreUnused, AreUpTo, IsRoot};

use crate::threads::room;
use jt_platform::Hub;
use jt_store::Keeper;
use jt_turn::{Pass, Turn};
use jt_value::{Buffer, Memory};
use std::alloc::Global;

/// Gives a pass of each number from 1 to `sessions`, the one of number 1 at the end of the list. Where memory is wanted none is
/// out.
pub(crate) fn split_all<P: Keeper>(
    alloc: Global,
    turn: &Turn<Hub<P>>,
    pass: &mut Pass<Hub<P>>,
    sessions: u32,
) -> Result<Vec<Pass<Hub<P>>>, Memory>
    requires root { IsRoot pass.old.opening turn.now pass.old.base pass.old }
    requires fresh { (pass.old.given ≡ 0) × (pass.old.lent ≡ 0) × (pass.old.ended ≡ [])
        × (pass.old.failed ≡ 0) }
    ensures root { IsRoot pass.old.opening turn.now pass.old.base pass.new }
    ensures failed { pass.new.failed ≡ 0 }
    ensures up_to { AreUpTo 0 pass.new }
    ensures ok { IfOk result (λ passes. AreNew pass.old.opening turn.now sessions passes.items) }
    ensures lent { OnOk result (pass.new.lent ≡ sessions) }
    ensures err { OnErr result (pass.new.lent ≡ 0) }
{
    let Ok(mut passes) = room(alloc, sessions) else {
        return Err(Memory);
    };
    match split_each(turn, pass, &mut passes, sessions) {
        Ok(()) => {
            let mut passes = passes.into_seq().into_vec();
            passes.reverse();
            Ok(passes)
        }
        Err(Memory) => {
            join_unused(turn, pass, passes.into_seq().into_vec());
            Err(Memory)
        }
    }
}

// Gives passes of the numbers from 1 on, one behind another.
fn split_each<P: Keeper>(
    turn: &Turn<Hub<P>>,
    pass: &mut Pass<Hub<P>>,
    passes: &mut Buffer<Pass<Hub<P>>>,
    sessions: u32,
) -> Result<(), Memory>
    requires root { IsRoot pass.old.opening turn.now pass.old.base pass.old }
    requires fresh { (pass.old.given ≡ 0) × (pass.old.lent ≡ 0) × (pass.old.ended ≡ [])
        × (pass.old.failed ≡ 0) }
    requires room { (passes.old.items ≡ []) × (sessions ≤ passes.old.spare) }
    ensures root { IsRoot pass.old.opening turn.now pass.old.base pass.new }
    ensures lent { pass.new.lent ≡ length passes.new.items }
    ensures failed { pass.new.failed ≡ 0 }
    ensures ended { pass.new.ended ≡ [] }
    ensures unused { AreUnused pass.old.opening turn.now passes.new.items }
    ensures numbers { (m : ℕ) (one : _) → get_elem? passes.new.items m ≡ some one →
        one.number ≡ m + 1 }
    ensures all { OnOk result (length passes.new.items ≡ sessions) }
{
    let mut given = 0;
    while given < sessions {
        let number = given + 1;
        let Ok(one) = turn.split(pass, number) else {
            return Err(Memory);
        };
        let Ok(()) = passes.push(one) else {
            unreachable!();
        };
        given = number;
    }
    Ok(())
}

/// Joins passes that did nothing.
pub(crate) fn join_unused<P: Keeper>(
    turn: &Turn<Hub<P>>,
    pass: &mut Pass<Hub<P>>,
    mut passes: Vec<Pass<Hub<P>>>,
)
    requires root { IsRoot pass.old.opening turn.now pass.old.base pass.old }
    requires unused { AreUnused pass.old.opening turn.now passes.items }
    requires up_to { AreUpTo 0 pass.old }
    ensures root { IsRoot pass.old.opening turn.now pass.old.base pass.new }
    ensures lent { pass.old.lent ≡ pass.new.lent + length passes.items }
    ensures failed { pass.new.failed ≡ pass.old.failed }
    ensures up_to { AreUpTo 0 pass.new }
{
    while let Some(one) = passes.pop() {
        turn.join(pass, one);
    }
}
