//! A clock in memory, for tests.

ghost use Rattle.std.specs.Prelude.{◌≡◌, Some};
ghost use Rattle.jt_outside.specs.Time.{TellsTime};
ghost use Rattle.jt_outside.specs.ScriptClock.{RiseFrom};

use crate::clock::Clock;
use jt_value::Seq;
use std::marker::Model;

/// A clock that gives the moments of a list in order, then the last one for ever, and 0 where there is none.
#[derive(Drop)]
pub struct ScriptClock {
    moments: Vec<u64>,
    at: usize,
    last: u64,
}

impl Model for ScriptClock {
    ghost use Rattle.std.specs.Prelude.{◌≡◌, ◌≤◌, ◌<◌, Some, drop, vec_len};
    ghost use Rattle.jt_outside.specs.Time.{Time};
    ghost use Rattle.jt_outside.specs.ScriptClock.{RiseFrom};

    ghost Value = { Time };

    ghost view = { λ c. record { coming = Some (drop c.at c.moments.items); last = c.last } };

    ghost invariant = { λ c. (c.at ≤ vec_len c.moments) × RiseFrom c.last (drop c.at c.moments.items)
        × (vec_len c.moments ≡ c.at → c.last ≡ 0) };
}

impl ScriptClock {
    /// A clock of moments that never fall.
    pub fn new(moments: Seq<u64>) -> ScriptClock
        requires { RiseFrom 0 moments }
        ensures { result ≡ record { coming = Some moments; last = 0 } }
    {
        ScriptClock {
            moments: moments.into_vec(),
            at: 0,
            last: 0,
        }
    }
}

impl Clock for ScriptClock {
    ghost time = { λ clock. clock };

    fn now(&mut self) -> u64
        ensures { TellsTime self.old self.new result }
    {
        let left = self.moments.len() - self.at;
        if left == 0 {
            return self.last;
        }
        self.last = self.moments[self.at];
        if left > 1 {
            self.at += 1;
        }
        self.last
    }
}
