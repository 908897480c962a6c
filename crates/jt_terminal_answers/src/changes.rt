//! Messages of the platform as changes of regions.

ghost use Rattle.std.specs.Prelude.{◌≡◌, IfOk};
ghost use Rattle.jt_regions.specs.declared.change.RegionChange.TheVariants as change;

use jt_regions::{Circle, Polygon, Rectangle, RegionChange, RegionKind, Route};
use jt_value::{Memory, Seq};
use std::alloc::Global;

pub(crate) fn circles(
    alloc: Global,
    setting: u8,
    list: &Seq<Circle>,
) -> Result<RegionChange, Memory>
    ensures { IfOk result (λ made. made ≡ change.Circles setting list.now) }
{
    let list = list.copy(alloc)?;
    Ok(RegionChange::Circles { setting, list })
}

pub(crate) fn rectangles(
    alloc: Global,
    setting: u8,
    list: &Seq<Rectangle>,
) -> Result<RegionChange, Memory>
    ensures { IfOk result (λ made. made ≡ change.Rectangles setting list.now) }
{
    let list = list.copy(alloc)?;
    Ok(RegionChange::Rectangles { setting, list })
}

pub(crate) fn polygon(polygon: &Polygon) -> Result<RegionChange, Memory>
    ensures { IfOk result (λ made. made ≡ change.Polygon polygon.now) }
{
    Ok(RegionChange::Polygon(polygon.clone()?))
}

pub(crate) fn route(route: &Route) -> Result<RegionChange, Memory>
    ensures { IfOk result (λ made. made ≡ change.Route route.now) }
{
    Ok(RegionChange::Route(route.clone()?))
}

pub(crate) fn deletion(
    alloc: Global,
    kind: RegionKind,
    ids: &Seq<u32>,
) -> Result<RegionChange, Memory>
    ensures { IfOk result (λ made. made ≡ change.Delete kind ids.now) }
{
    let ids = ids.copy(alloc)?;
    Ok(RegionChange::Delete { kind, ids })
}
