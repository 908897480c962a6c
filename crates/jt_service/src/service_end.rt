//! Why a service ends.

use jt_seats::Cut;

/// Why no more links are served (this project's own).
#[derive(Clone, Copy, Debug, PartialEq, Eq)]
pub enum ServiceEnd {
    /// It was asked to stop.
    Stopped,
    /// It was asked to end, so that it may begin anew.
    Renewed,
    /// A session ended by a store fault.
    StoreFailed,
    /// The listener said that no link is left to come.
    Over,
    /// No session's number is left.
    NumbersSpent,
    /// The listener failed 60 times, a second apart at least, and no link came between.
    ListenerFailed,
    /// No thread could be made.
    NoThread,
    /// Memory was wanted and refused, before any link was accepted.
    Memory,
}

impl ServiceEnd {
    // Why links end that are served then.
    pub(crate) fn cut(self) -> Cut {
        match self {
            ServiceEnd::Renewed | ServiceEnd::NumbersSpent => Cut::Renewed,
            ServiceEnd::StoreFailed => Cut::StoreFailed,
            _ => Cut::Stopped,
        }
    }
}
