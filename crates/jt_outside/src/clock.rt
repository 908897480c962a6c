//! Clocks.

ghost use Rattle.jt_outside.specs.Time.{Time, TellsTime};

/// A clock, which never goes back.
pub trait Clock {
    /// The moments to come, where it tells them, and its last answer.
    ghost time: { Self → Time };

    /// The present moment in milliseconds.
    fn now(&mut self) -> u64
        ensures { TellsTime (time self.old) (time self.new) result };
}
