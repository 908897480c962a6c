//! The fields of regions and their deletion.

ghost use Rattle.std.specs.Prelude.{◌≡◌, ◌+◌, ◌≤◌, ◌++◌, length, string_bytes, codes, OnOk};
ghost use Rattle.std.specs.Fmt.{decimal};
ghost use Rattle.std.specs.Io.{StartsWith};
ghost use Rattle.jt_text.specs.RegionFields.{circles_fields, deletion_fields, limit_text, point_place, polygon_fields, rectangles_fields, region_start, route_fields, thresholds_text, times_text};

use super::lists::{Shown, push_all};
use crate::line::Line;
use crate::values::push_number;
use jt_region_bodies::{Circle, Limit, Polygon, Rectangle, Route, RoutePoint, Vertex};
use std::alloc::AllocError;

// Two numbers, the first behind a name.
#[tactic(auto, using(std::proofs::Common::append_assoc))]
#[inline(always)]
fn put_pair(line: &mut Line, name: &str, first: u64, second: u64)
    requires { length name.now + length line.old + 41 ≤ 512 }
    ensures text { line.new
        ≡ name.now ++ (decimal first ++ (codes ":" ++ (decimal second ++ line.old))) }
    ensures room { length line.new ≤ length name.now + length line.old + 41 }
{
    line.put_named_number(":", second);
    line.put_named_number(name, first);
}

#[tactic(auto, using(std::proofs::Common::append_assoc))]
#[inline(always)]
fn put_times(line: &mut Line, times: &Option<[u8; 12]>)
    requires { length line.old ≤ 400 }
    ensures text { line.new ≡ times_text times.now ++ line.old }
    ensures room { length line.new ≤ length line.old + 26 }
{
    match times {
        None => line.put_str(":-:-"),
        Some(times) => {
            let (start, end) = times.split_at(6);
            line.put_named_digits(":", end);
            line.put_named_digits(":", start);
        }
    }
}

#[tactic(auto, using(std::proofs::Common::append_assoc))]
#[inline(always)]
fn put_limit(line: &mut Line, limit: &Option<Limit>)
    requires { length line.old ≤ 400 }
    ensures text { line.new ≡ limit_text limit.now ++ line.old }
    ensures room { length line.new ≤ length line.old + 42 }
{
    match limit {
        None => line.put_str(":-:-"),
        Some(limit) => put_pair(line, ":", limit.speed as u64, limit.duration as u64),
    }
}

#[tactic(auto, using(std::proofs::Common::append_assoc))]
#[inline(always)]
fn put_thresholds(line: &mut Line, thresholds: &Option<(u16, u16)>)
    requires { length line.old ≤ 400 }
    ensures text { line.new ≡ thresholds_text thresholds.now ++ line.old }
    ensures room { length line.new ≤ length line.old + 42 }
{
    match thresholds {
        None => line.put_str(":-:-"),
        Some((longest, shortest)) => put_pair(line, ":", *longest as u64, *shortest as u64),
    }
}

// What stands at the end of a region's fixed fields.
#[tactic(auto, using(std::proofs::Common::append_assoc))]
fn put_times_and_limit(line: &mut Line, times: &Option<[u8; 12]>, limit: &Option<Limit>)
    requires { length line.old ≤ 350 }
    ensures text { line.new ≡ times_text times.now ++ (limit_text limit.now ++ line.old) }
    ensures room { length line.new ≤ length line.old + 68 }
{
    put_limit(line, limit);
    put_times(line, times);
}

// The id and the attribute of a region behind a name.
#[tactic(auto, using(std::proofs::Common::append_assoc), unfolding(crate::specs::RegionFields::region_start))]
#[inline(always)]
fn put_start(line: &mut Line, name: &str, id: u32, attribute: u16)
    requires { length name.now + length line.old + 27 ≤ 512 }
    ensures text { line.new ≡ name.now ++ (region_start id attribute ++ line.old) }
    ensures room { length line.new ≤ length name.now + length line.old + 27 }
{
    line.put_named_digits(":0x", attribute.to_be_bytes().as_slice());
    line.put_named_number(name, id as u64);
}

impl Shown for Circle {
    ghost use Rattle.jt_text.specs.RegionFields.{circle_text};

    ghost shown = { circle_text };

    ghost most = { 166 };

    #[inline(always)]
    fn most() -> usize {
        166
    }

    #[tactic(auto, using(std::proofs::Common::append_assoc), unfolding(crate::specs::RegionFields::circle_text))]
    fn put_to(&self, line: &mut Line) {
        put_times_and_limit(line, &self.times, &self.limit);
        line.put_named_number(":", self.radius as u64);
        put_pair(line, ":", self.lat as u64, self.lon as u64);
        put_start(line, " circle=", self.id, self.attribute);
    }
}

impl Shown for Rectangle {
    ghost use Rattle.jt_text.specs.RegionFields.{rectangle_text};

    ghost shown = { rectangle_text };

    ghost most = { 190 };

    #[inline(always)]
    fn most() -> usize {
        190
    }

    #[tactic(auto, using(std::proofs::Common::append_assoc), unfolding(crate::specs::RegionFields::rectangle_text))]
    fn put_to(&self, line: &mut Line) {
        put_times_and_limit(line, &self.times, &self.limit);
        put_pair(line, ":", self.bottom as u64, self.right as u64);
        put_pair(line, ":", self.top as u64, self.left as u64);
        put_start(line, " rectangle=", self.id, self.attribute);
    }
}

impl Shown for Vertex {
    ghost use Rattle.jt_text.specs.RegionFields.{vertex_text};

    ghost shown = { vertex_text };

    ghost most = { 50 };

    #[inline(always)]
    fn most() -> usize {
        50
    }

    #[tactic(auto, using(std::proofs::Common::append_assoc), unfolding(crate::specs::RegionFields::vertex_text))]
    #[inline(always)]
    fn put_to(&self, line: &mut Line) {
        put_pair(line, " vertex=", self.lat as u64, self.lon as u64);
    }
}

// The ids of a point and of its segment, and its place.
#[tactic(auto, using(std::proofs::Common::append_assoc), unfolding(crate::specs::RegionFields::point_place))]
fn put_point_place(line: &mut Line, point: &RoutePoint)
    requires { length line.old + 90 ≤ 512 }
    ensures text { line.new ≡ point_place point.now ++ line.old }
    ensures room { length line.new ≤ length line.old + 90 }
{
    put_pair(line, ":", point.lat as u64, point.lon as u64);
    put_pair(line, " point=", point.point as u64, point.segment as u64);
}

impl Shown for RoutePoint {
    ghost use Rattle.jt_text.specs.RegionFields.{point_text};

    ghost shown = { point_text };

    ghost most = { 200 };

    #[inline(always)]
    fn most() -> usize {
        200
    }

    #[tactic(auto, using(std::proofs::Common::append_assoc), unfolding(crate::specs::RegionFields::point_text))]
    fn put_to(&self, line: &mut Line) {
        put_limit(line, &self.limit);
        put_thresholds(line, &self.thresholds);
        line.put_named_octet(":0x", self.attribute);
        line.put_named_number(":", self.width as u64);
        put_point_place(line, self);
    }
}

// An id of a deletion.
impl Shown for u32 {
    ghost use Rattle.jt_text.specs.RegionFields.{deleted_id_text};

    ghost shown = { deleted_id_text };

    ghost most = { 24 };

    #[inline(always)]
    fn most() -> usize {
        24
    }

    #[inline(always)]
    fn put_to(&self, line: &mut Line) {
        line.put_named_number(" id=", *self as u64);
    }
}

// The front of a list of circles or rectangles.
#[tactic(auto, using(std::proofs::Common::append_assoc))]
fn push_setting(
    text: &mut String,
    line: &mut Line,
    setting: u8,
    count: usize,
) -> Result<(), AllocError>
    ensures text { OnOk result (string_bytes text.new ≡ string_bytes text.old
        ++ (codes " setting=" ++ (decimal setting ++ (codes " count=" ++ decimal count)))) }
    ensures kept { StartsWith (string_bytes text.new) (string_bytes text.old) }
{
    line.clear();
    line.put_named_number(" count=", count as u64);
    line.put_named_number(" setting=", setting as u64);
    line.push_to(text)
}

#[tactic(auto, using(std::proofs::Common::append_assoc), unfolding(crate::specs::RegionFields::circles_fields))]
pub(super) fn push_circles(
    text: &mut String,
    line: &mut Line,
    setting: u8,
    list: &[Circle],
) -> Result<(), AllocError>
    ensures text { OnOk result
        (string_bytes text.new ≡ string_bytes text.old ++ circles_fields setting list.now) }
    ensures kept { StartsWith (string_bytes text.new) (string_bytes text.old) }
{
    push_setting(text, line, setting, list.len())?;
    push_all(text, line, list)
}

#[tactic(auto, using(std::proofs::Common::append_assoc), unfolding(crate::specs::RegionFields::rectangles_fields))]
pub(super) fn push_rectangles(
    text: &mut String,
    line: &mut Line,
    setting: u8,
    list: &[Rectangle],
) -> Result<(), AllocError>
    ensures text { OnOk result
        (string_bytes text.new ≡ string_bytes text.old ++ rectangles_fields setting list.now) }
    ensures kept { StartsWith (string_bytes text.new) (string_bytes text.old) }
{
    push_setting(text, line, setting, list.len())?;
    push_all(text, line, list)
}

#[tactic(auto, using(std::proofs::Common::append_assoc), unfolding(crate::specs::RegionFields::polygon_fields))]
pub(super) fn push_polygon(
    text: &mut String,
    line: &mut Line,
    polygon: &Polygon,
) -> Result<(), AllocError>
    ensures text { OnOk result
        (string_bytes text.new ≡ string_bytes text.old ++ polygon_fields polygon.now) }
    ensures kept { StartsWith (string_bytes text.new) (string_bytes text.old) }
{
    line.clear();
    line.put_named_number(" count=", polygon.vertices.len() as u64);
    put_times_and_limit(line, &polygon.times, &polygon.limit);
    put_start(line, " polygon=", polygon.id, polygon.attribute);
    line.push_to(text)?;
    push_all(text, line, polygon.vertices.as_slice())
}

#[tactic(auto, using(std::proofs::Common::append_assoc), unfolding(crate::specs::RegionFields::route_fields))]
pub(super) fn push_route(
    text: &mut String,
    line: &mut Line,
    route: &Route,
) -> Result<(), AllocError>
    ensures text { OnOk result
        (string_bytes text.new ≡ string_bytes text.old ++ route_fields route.now) }
    ensures kept { StartsWith (string_bytes text.new) (string_bytes text.old) }
{
    line.clear();
    line.put_named_number(" count=", route.points.len() as u64);
    put_times(line, &route.times);
    put_start(line, " route=", route.id, route.attribute);
    line.push_to(text)?;
    push_all(text, line, route.points.as_slice())
}

#[tactic(auto, using(std::proofs::Common::append_assoc), unfolding(crate::specs::RegionFields::deletion_fields))]
pub(super) fn push_deletion(
    text: &mut String,
    line: &mut Line,
    ids: &[u32],
) -> Result<(), AllocError>
    ensures text { OnOk result
        (string_bytes text.new ≡ string_bytes text.old ++ deletion_fields ids.now) }
    ensures kept { StartsWith (string_bytes text.new) (string_bytes text.old) }
{
    push_number(text, " count=", ids.len() as u64)?;
    push_all(text, line, ids)
}
