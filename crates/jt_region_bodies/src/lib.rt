//! Circles, rectangles, polygons and routes of 2013, and their deletion.
#![tactic(auto)]

mod circle;
mod deletion;
mod kind;
mod limit;
mod optional;
mod polygon;
mod rectangle;
mod route;

pub use circle::{Circle, circles_fit, judge_circles, law_circles, read_circles, write_circles};
pub use deletion::{
    Deletion, ids_fit, judge_deletion, law_deletions, read_deletion, write_deletion, write_ids,
};
pub use kind::RegionKind;
pub use limit::Limit;
pub use polygon::{Polygon, Vertex, judge_polygon, law_polygons, read_polygon, write_polygon};
pub use rectangle::{
    Rectangle, judge_rectangles, law_rectangles, read_rectangles, rectangles_fit, write_rectangles,
};
pub use route::{Route, RoutePoint, judge_route, law_routes, read_route, write_route};
