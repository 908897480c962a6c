//! Changes of a terminal's regions.

use jt_region_bodies::{Circle, Polygon, Rectangle, RegionKind, Route};
use jt_value::Seq;

/// What a platform asks of a terminal's regions.
#[derive(Drop)]
pub enum RegionChange {
    /// Setting 0 makes the list the circles, 1 adds each circle or replaces the one of its id, 2 replaces it.
    Circles { setting: u8, list: Seq<Circle> },
    /// The same for rectangles.
    Rectangles { setting: u8, list: Seq<Rectangle> },
    /// The polygon is added or replaces the one of its id.
    Polygon(Polygon),
    /// The route is added or replaces the one of its id.
    Route(Route),
    /// The regions of these ids go, and all of the kind where there are no ids.
    Delete { kind: RegionKind, ids: Seq<u32> },
}
