//! The hub behind a turn.

ghost use Rattle.std.specs.Prelude.{◌≡◌, []};

use crate::acting::{Step, request_of, tells};
use jt_platform::Hub;
use jt_store::MemKeeper;
use jt_turn::{Pass, Turn};
use std::alloc::Global;
use std::sync::Wait;

// Whether the step is told what stands beside it.
fn goes<R: Wait>(
    rt: &R,
    alloc: Global,
    turn: &Turn<Hub<MemKeeper>>,
    pass: &mut Pass<Hub<MemKeeper>>,
    step: Step,
) -> bool
    requires { pass.old.turn ≡ turn.now }
    ensures { pass.new.turn ≡ turn.now }
{
    match request_of(alloc, step) {
        Ok(request) => tells(&turn.act(rt, pass, &request), step),
        Err(_) => false,
    }
}

fn goes_all<R: Wait>(
    rt: &R,
    alloc: Global,
    turn: &Turn<Hub<MemKeeper>>,
    pass: &mut Pass<Hub<MemKeeper>>,
    steps: &[Step],
) -> bool
    requires { pass.old.turn ≡ turn.now }
    ensures { pass.new.turn ≡ turn.now }
{
    let mut all = true;
    for step in steps {
        all = goes(rt, alloc, turn, pass, *step) && all;
    }
    all
}

/// The hub of a turn at which the pass of number 1 asked these steps. None: one of them was told something else.
pub fn by_turn<R: Wait>(
    rt: &R,
    alloc: Global,
    hub: Hub<MemKeeper>,
    steps: &[Step],
) -> Option<Hub<MemKeeper>>
    requires { hub.history ≡ [] }
{
    let (turn, mut pass) = Turn::begin(alloc, hub).ok()?;
    let mut one = turn.split(&mut pass, 1).ok()?;
    let all = goes_all(rt, alloc, &turn, &mut one, steps);
    turn.join(&mut pass, one);
    let hub = turn.close(pass);
    if all { Some(hub) } else { None }
}
