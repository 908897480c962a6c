//! The rule of the table that carries a turn, and what its steps tell. Their definitions are in specs/Rules.

use crate::desk::Desk;
use crate::known::Known;
use atomic_table::{Join, Play, Split, TableRule};
use std::marker::{Brand, PhantomData};
use std::snapshot::Snapshot;

/// What holds of the table between any two steps.
pub struct TurnRule<D: Desk> {
    of: PhantomData<D>,
}

impl<D: Desk> TableRule<Option<D>, Option<Known<D::Ask, D::Answer, D::Opening>>, Snapshot<D>>
    for TurnRule<D> {
    ghost use Rattle.jt_turn.specs.Rules.{Kept, newcomer};

    ghost holds = { λ _. Kept D.history D.faults D.opening };

    ghost first = { λ k. newcomer D.history D.faults D.opening k.value };
}

/// A ticket is drawn.
pub struct Draw<D: Desk> {
    of: PhantomData<D>,
}

impl<D: Desk> Play<Option<D>, Option<Known<D::Ask, D::Answer, D::Opening>>> for Draw<D> {
    ghost use Rattle.jt_turn.specs.Rules.{Draws};

    ghost then = { Draws D.history D.faults D.opening };
}

/// The word served is looked at; where it is the ticket, the desk is taken.
pub struct Look<D: Desk> {
    of: PhantomData<D>,
}

impl<D: Desk> Play<Option<D>, Option<Known<D::Ask, D::Answer, D::Opening>>> for Look<D> {
    ghost use Rattle.jt_turn.specs.Rules.{Looks};

    ghost then = { Looks D.history D.faults D.opening };
}

/// The desk is given back, and the next ticket is served.
pub struct Publish<D: Desk> {
    of: PhantomData<D>,
}

impl<D: Desk> Play<Option<D>, Option<Known<D::Ask, D::Answer, D::Opening>>> for Publish<D> {
    ghost use Rattle.jt_turn.specs.Rules.{Publishes};

    ghost then = { Publishes D.history D.faults D.opening };
}

/// The lock in front of the tickets changes, and nothing that a pass knows.
pub struct Same<D: Desk> {
    of: PhantomData<D>,
}

impl<D: Desk> Play<Option<D>, Option<Known<D::Ask, D::Answer, D::Opening>>> for Same<D> {
    ghost use Rattle.jt_turn.specs.Rules.{Stays};

    ghost then = { Stays };
}

/// The pass of number 0 learns what a pass that was joined into it had seen.
pub struct Learn<D: Desk> {
    of: PhantomData<D>,
}

impl<D: Desk> Play<Option<D>, Option<Known<D::Ask, D::Answer, D::Opening>>> for Learn<D> {
    ghost use Rattle.jt_turn.specs.Rules.{Learns};

    ghost then = { Learns };
}

/// The number of a new pass, which a call picks.
pub trait Number {
    ghost use Rattle.std.specs.Prelude.{ℕ};

    ghost number: { ℕ };
}

impl Number for Brand {
    ghost number = { 0 };
}

/// A pass is given, of the number N.
pub struct Gives<N: Number> {
    of: PhantomData<N>,
}

impl<N: Number, A, B, O> Split<Option<Known<A, B, O>>> for Gives<N> {
    ghost use Rattle.jt_turn.specs.Rules.{lending, starting};

    ghost left = { lending N.number };

    ghost right = { starting N.number };
}

/// A pass is joined into the one of number 0.
pub struct TakesIn;

impl<A, B, O> Join<Option<Known<A, B, O>>> for TakesIn {
    ghost use Rattle.std.specs.Prelude.{None};
    ghost use Rattle.jt_turn.specs.Rules.{joined};

    ghost both = { joined };

    ghost spent = { None };
}
