//! What the octets of a line are: a fix, or a change of regions.

ghost use Rattle.std.specs.Prelude.{◌≡◌, IfOk};
ghost use Rattle.jt_fence_command.specs.FenceLines.{HasFewRegions, deletion_say, fix_say, polygon_say, rectangles_say};

use crate::line::FenceLine;
use jt_position::{law_positions, view_position};
use jt_region_bodies::{
    law_deletions, law_polygons, law_rectangles, read_deletion, read_polygon, read_rectangles,
};
use jt_regions::{RegionChange, RegionKind};
use jt_value::limits::BODY_LIMIT;
use jt_value::{CodecError, Memory};
use std::alloc::Global;

/// The fix of these octets, which are a position report's body of at most 1,023 octets.
pub fn fix_of(octets: &[u8]) -> FenceLine
    ensures says { result ≡ fix_say octets.now }
    ensures few { HasFewRegions result }
{
    law_positions();
    if octets.len() > BODY_LIMIT {
        return FenceLine::Bad;
    }
    match view_position(octets) {
        Ok(view) => FenceLine::Fix(view.fixed),
        Err(_) => FenceLine::Bad,
    }
}

/// The change that is the body of a setting of rectangles.
pub fn rectangles_of(alloc: Global, octets: &[u8]) -> Result<FenceLine, Memory>
    ensures says { IfOk result (λ line. line ≡ rectangles_say octets.now) }
    ensures few { IfOk result HasFewRegions }
{
    law_rectangles();
    match read_rectangles(alloc, octets) {
        Ok((setting, list)) => Ok(FenceLine::Change(RegionChange::Rectangles { setting, list })),
        Err(CodecError::Refused(_)) => Ok(FenceLine::Bad),
        Err(CodecError::Memory) => Err(Memory),
    }
}

/// The change that is the body of a setting of a polygon.
pub fn polygon_of(alloc: Global, octets: &[u8]) -> Result<FenceLine, Memory>
    ensures says { IfOk result (λ line. line ≡ polygon_say octets.now) }
    ensures few { IfOk result HasFewRegions }
{
    law_polygons();
    match read_polygon(alloc, octets) {
        Ok(polygon) => Ok(FenceLine::Change(RegionChange::Polygon(polygon))),
        Err(CodecError::Refused(_)) => Ok(FenceLine::Bad),
        Err(CodecError::Memory) => Err(Memory),
    }
}

/// The change that is the body of a deletion of regions of this kind.
pub fn deletion_of(alloc: Global, kind: RegionKind, octets: &[u8]) -> Result<FenceLine, Memory>
    ensures says { IfOk result (λ line. line ≡ deletion_say kind octets.now) }
    ensures few { IfOk result HasFewRegions }
{
    law_deletions();
    match read_deletion(alloc, octets) {
        Ok(deletion) => Ok(FenceLine::Change(RegionChange::Delete {
            kind,
            ids: deletion.ids,
        })),
        Err(CodecError::Refused(_)) => Ok(FenceLine::Bad),
        Err(CodecError::Memory) => Err(Memory),
    }
}
