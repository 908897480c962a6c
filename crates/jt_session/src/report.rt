//! What came of serving a link.

use crate::end::End;

/// What came of serving a link (this project's own).
#[derive(Clone, Copy, Debug, PartialEq, Eq)]
pub struct Report {
    /// The number of the session.
    pub session: u32,
    /// How many octets were taken from the link, also those behind the item that ended the session.
    pub read: u64,
    /// How many octets were written to the link.
    pub written: u64,
    /// Frames, among the items that the session went through.
    pub frames: u64,
    /// Refused items, and frames whose body was refused.
    pub refused: u64,
    /// Partial messages that were dropped.
    pub dropped: u64,
    /// Why it ended.
    pub end: End,
}
