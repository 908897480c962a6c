//! What a session counts.

/// How many items of each kind were among those that a session went through (this project's own).
#[derive(Clone, Copy, Debug, PartialEq, Eq)]
pub struct Counts {
    /// Frames, also the last one where memory was wanted at it.
    pub frames: u64,
    /// Refused items, and frames whose body was refused.
    pub refused: u64,
    /// Partial messages that were dropped.
    pub dropped: u64,
}
