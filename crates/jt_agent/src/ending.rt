//! How attempts end.

use jt_value::Octets;

/// How an attempt ended that did not finish the work (this project's own).
#[derive(Drop)]
pub enum AttemptEnd {
    /// No link was given: the dial failed.
    Dial,
    /// The link failed.
    Link,
    /// The link said that no octet is left.
    End,
    /// The platform refused a registration, an authentication or a unit, or its code has more than 255 octets: the body of its
    /// answer.
    Denied(Octets),
    /// No answer came: when the first wait began and when the terminal gave up, in milliseconds.
    TimedOut { since: u64, now: u64 },
    /// As many reads in a row as may be were quiet.
    Idle,
    /// As many octets as may be were taken.
    Spent,
}

/// What an attempt came to.
#[derive(Drop)]
pub enum Attempted {
    /// Every recorded fix is accepted.
    Done,
    /// It ended before that.
    Ended(AttemptEnd),
    /// The vault failed: its count of faults rose.
    StoreFault,
    /// Memory was wanted and refused.
    Memory,
}
