//! The system's clock.

ghost use Rattle.std.specs.Prelude.{◌≡◌, None};
ghost use Rattle.jt_outside.specs.Time.{TellsTime};

use crate::Clock;
use std::marker::Model;
use std::time;

/// The system's clock, from an arbitrary start on. Where it cannot be read, or goes back, the last answer is given again,
/// at first 0.
#[derive(Drop)]
pub struct StdClock<R> {
    rt: R,
    last: u64,
}

impl<R> Model for StdClock<R> {
    ghost use Rattle.std.specs.Prelude.{None};
    ghost use Rattle.jt_outside.specs.Time.{Time};

    ghost Value = { Time };

    ghost view = { λ c. record { coming = None; last = c.last } };
}

impl<R: time::Clock> StdClock<R> {
    /// A clock that was not read yet, which keeps the runtime.
    pub fn new(rt: R) -> StdClock<R>
        ensures { result ≡ record { coming = None; last = 0 } }
    {
        StdClock { rt, last: 0 }
    }
}

impl<R: time::Clock> Clock for StdClock<R> {
    ghost time = { λ clock. clock };

    fn now(&mut self) -> u64
        ensures { TellsTime self.old self.new result }
    {
        if let Ok(since) = self.rt.monotonic() {
            let moment = u64::try_from(since.as_millis()).unwrap_or(u64::MAX);
            if moment > self.last {
                self.last = moment;
            }
        }
        self.last
    }
}
