//! Kinds of regions.

/// The kinds of regions.
#[derive(Clone, Copy, Debug, PartialEq, Eq)]
pub enum RegionKind {
    Circle,
    Rectangle,
    Polygon,
    Route,
}
