//! The limit of a region or of a route's point.

/// How fast a vehicle may go in a region or on a segment (the standard's region and route settings).
#[derive(Clone, Copy, Debug, PartialEq, Eq)]
pub struct Limit {
    /// The top speed in kilometres an hour.
    pub speed: u16,
    /// How long it may be passed, in seconds.
    pub duration: u8,
}
