//! The table of a terminal's regions, and the changes of it.
#![tactic(auto)]

mod change;
mod error;
mod identified;
mod laws;
mod region_table;
mod table;

pub use change::RegionChange;
pub use error::RegionError;
pub use jt_region_bodies::{
    Circle, Deletion, Limit, Polygon, Rectangle, RegionKind, Route, RoutePoint, Vertex,
    circles_fit, ids_fit, law_circles, law_deletions, law_polygons, law_rectangles, law_routes,
    read_circles, read_deletion, read_polygon, read_rectangles, read_route, rectangles_fit,
    write_circles, write_deletion, write_ids, write_polygon, write_rectangles, write_route,
};
pub use laws::law_changes;
pub use region_table::RegionTable;
