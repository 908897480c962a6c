//! Why a service ends a link, and why it lets one not in.

/// Why the service ended a link, where that was no end of the session's own (this project's own).
#[derive(Clone, Copy, Debug, PartialEq, Eq)]
pub enum Cut {
    /// The service stops.
    Stopped,
    /// Nobody was let in on it within the seconds that a stranger has.
    StrangerTime,
    /// Nobody was let in on it before it sent as many octets as a stranger may.
    StrangerOctets,
    /// A newer link wanted its place, where nobody was let in on as many as may be, or all places were taken.
    Replaced,
    /// Its phone is served no longer.
    Dismissed,
    /// All links end, and the service may begin anew: it was asked to, or no session's number is left.
    Renewed,
    /// All links end, since the store failed in a session.
    StoreFailed,
}

/// Why a link that came was closed at once (this project's own).
#[derive(Clone, Copy, Debug, PartialEq, Eq)]
pub enum Away {
    /// As many links are served as may be.
    Full,
    /// Nobody is let in yet on as many links as may be.
    Strangers,
    /// Nobody is let in yet on as many links of its address as may be.
    Address,
    /// Memory was wanted and refused.
    Memory,
}
