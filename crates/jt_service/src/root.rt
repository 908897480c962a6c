//! Who gives a pass to each session.

ghost use Rattle.std.specs.Prelude.{◌≡◌, ◌<◌, ◌≤◌, IfSome, option_map};
ghost use Rattle.jt_platform.specs.Hub.{opening_of};
ghost use Rattle.jt_service.specs.Roots.{IsNext, IsRoot};
ghost use Rattle.std.proofs.Props.{props};

use jt_platform::{Hub, Journal};
use jt_store::Keeper;
use jt_turn::{Pass, Turn};
use std::marker::{Brand, PhantomData};

/// Which turn it is, and over which opening, which a call picks.
pub trait Which {
    ghost use Rattle.std.specs.Prelude.{Option};
    ghost use Rattle.jt_turn.specs.Passes.{TurnId};
    ghost use Rattle.jt_platform.specs.Allowed.{Opening};

    ghost turn: { TurnId };

    ghost opening: { Option Opening };
}

impl Which for Brand {
    ghost use Rattle.std.specs.Prelude.{[], None};

    ghost opening = { None };

    ghost turn = { record {
      words = 0;
      slots = 0;
      views_name = 0;
      atom = 0;
      block = 0;
      offset = 0;
      slot_names = [];
    } };
}

// The first pass of a turn, which gives one pass after another, of the numbers up to the one for whose Close the memory is there,
// and takes them back.
#[derive(Drop)]
pub(crate) struct Root<N: Which, P: Keeper, J: Journal> {
    pass: Pass<Hub<P, J>>,
    given: u32,
    most: u32,
    out: u32,
    of: PhantomData<N>,
    ghost is_root: { IsRoot
        (λ o. opening_of (P.tables o.start) (P.limit o.start) o.fleet o.secret)
        N.turn N.opening pass given most out } by { Prim.hlevel props },
}

impl<N: Which, P: Keeper, J: Journal> Root<N, P, J> {
    pub(crate) fn new(pass: Pass<Hub<P, J>>, most: u32) -> Root<N, P, J>
        requires { IsRoot (λ o. opening_of (P.tables o.start) (P.limit o.start) o.fleet o.secret)
            N.turn N.opening pass 0 most 0 }
    {
        Root {
            pass,
            given: 0,
            most,
            out: 0,
            of: PhantomData,
        }
    }

    // The pass of the next session, or None where no number is left.
    pub(crate) fn next(&mut self, turn: &Turn<Hub<P, J>>) -> Option<Pass<Hub<P, J>>>
        requires turn { turn.now ≡ N.turn }
        ensures next { IfSome result (λ pass.
            IsNext (λ o. opening_of (P.tables o.start) (P.limit o.start) o.fleet o.secret)
            N.turn N.opening pass) }
        // Each number is above those before.
        ensures above { IfSome result (λ pass.
            (self.old.given < pass.number) × (pass.number ≤ self.new.given)) }
        ensures later { self.old.given ≤ self.new.given }
    {
        if self.given >= self.most {
            return None;
        }
        let number = self.given + 1;
        match turn.split(&mut self.pass, number) {
            Ok(pass) => {
                self.given = number;
                self.out += 1;
                Some(pass)
            }
            Err(_) => None,
        }
    }

    // Takes a pass back.
    pub(crate) fn take_back(&mut self, turn: &Turn<Hub<P, J>>, pass: Pass<Hub<P, J>>)
        requires turn { (turn.now ≡ N.turn) × (pass.turn ≡ N.turn) }
        ensures given { self.new.given ≡ self.old.given }
    {
        turn.join(&mut self.pass, pass);
        self.out -= 1;
    }

    // The first pass, once all came back.
    pub(crate) fn finish(self) -> Option<Pass<Hub<P, J>>>
        ensures root { IfSome result (λ pass.
            (pass.turn ≡ N.turn) × (pass.number ≡ 0) × (pass.lent ≡ 0)) }
        ensures over { IfSome result (λ pass. option_map (λ o.
            opening_of (P.tables o.start) (P.limit o.start) o.fleet o.secret) pass.opening
            ≡ N.opening) }
    {
        let Root {
            pass,
            given: _,
            most: _,
            out,
            of: _,
        } = self;
        if out == 0 { Some(pass) } else { None }
    }
}
