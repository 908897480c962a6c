//! Which messages on regions an edition has octets for, and the bodies of deletions.

ghost use Rattle.std.specs.Prelude.{◌≡◌, ◌↔◌, IsTrue, IfOk};
ghost use Rattle.jt_codec.specs.Bodies as bodies;
ghost use Rattle.jt_codec.specs.Bodies.{Fits, body_octets};
ghost use Rattle.jt_codec.specs.declared.message.Message.TheVariants as message;

use jt_region_bodies::{Circle, Polygon, Rectangle, RegionKind, Route, ids_fit, write_ids};
use jt_value::ids::{DELETE_CIRCLES, DELETE_POLYGONS, DELETE_RECTANGLES, DELETE_ROUTES};
use jt_value::{Edition, Memory, Octets, Seq};
use std::alloc::Global;

/// The id of the deletion of a kind.
pub fn deletion_id(kind: RegionKind) -> u16
    ensures { result ≡ bodies.deletion_id kind }
{
    match kind {
        RegionKind::Circle => DELETE_CIRCLES,
        RegionKind::Rectangle => DELETE_RECTANGLES,
        RegionKind::Polygon => DELETE_POLYGONS,
        RegionKind::Route => DELETE_ROUTES,
    }
}

/// Whether the edition has a row for circles, and octets for these.
#[tactic(auto, unfolding(crate::specs::Bodies::body))]
pub fn circles_fit(edition: Edition, setting: u8, list: &Seq<Circle>) -> bool
    ensures { IsTrue result ↔ Fits edition (message.Circles setting list.now) }
{
    match edition {
        Edition::E2013 => jt_region_bodies::circles_fit(setting, list),
        Edition::E2019 => false,
    }
}

/// Whether the edition has a row for rectangles, and octets for these.
#[tactic(auto, unfolding(crate::specs::Bodies::body))]
pub fn rectangles_fit(edition: Edition, setting: u8, list: &Seq<Rectangle>) -> bool
    ensures { IsTrue result ↔ Fits edition (message.Rectangles setting list.now) }
{
    match edition {
        Edition::E2013 => jt_region_bodies::rectangles_fit(setting, list),
        Edition::E2019 => false,
    }
}

/// Whether the edition has a row for a polygon, and octets for this one.
#[tactic(auto, unfolding(crate::specs::Bodies::body))]
pub fn polygon_fits(edition: Edition, polygon: &Polygon) -> bool
    ensures { IsTrue result ↔ Fits edition (message.Polygon polygon.now) }
{
    match edition {
        Edition::E2013 => polygon.fits(),
        Edition::E2019 => false,
    }
}

/// Whether the edition has a row for a route, and octets for this one.
#[tactic(auto, unfolding(crate::specs::Bodies::body))]
pub fn route_fits(edition: Edition, route: &Route) -> bool
    ensures { IsTrue result ↔ Fits edition (message.Route route.now) }
{
    match edition {
        Edition::E2013 => route.fits(),
        Edition::E2019 => false,
    }
}

/// Whether the table has octets for the deletion of these ids.
#[tactic(auto, unfolding(crate::specs::Bodies::body))]
pub fn deletion_fits(edition: Edition, kind: RegionKind, ids: &Seq<u32>) -> bool
    ensures { IsTrue result ↔ Fits edition (message.Delete kind ids.now) }
{
    match kind {
        RegionKind::Circle => ids_fit(ids),
        RegionKind::Rectangle => ids_fit(ids),
        RegionKind::Polygon => ids_fit(ids),
        RegionKind::Route => ids_fit(ids),
    }
}

/// The body of a deletion that fits.
#[tactic(auto, unfolding(crate::specs::Bodies::body))]
pub fn write_region_ids(
    alloc: Global,
    edition: Edition,
    kind: RegionKind,
    ids: &Seq<u32>,
) -> Result<Octets, Memory>
    requires { Fits edition (message.Delete kind ids.now) }
    ensures { IfOk result (λ octets. octets ≡ body_octets edition (message.Delete kind ids.now)) }
{
    match kind {
        RegionKind::Circle => write_ids(alloc, ids),
        RegionKind::Rectangle => write_ids(alloc, ids),
        RegionKind::Polygon => write_ids(alloc, ids),
        RegionKind::Route => write_ids(alloc, ids),
    }
}
