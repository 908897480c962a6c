//! Routes.

ghost use Rattle.std.specs.Prelude.{◌≡◌, ◌↔◌, ◌++◌, IsTrue, IfOk};
ghost use Rattle.jt_layout.specs.Answer.{Answers, IsOneToOne};
ghost use Rattle.jt_layout.specs.Reading.{Gives, Judges};
ghost use Rattle.jt_region_bodies.specs.Regions as layouts;

use crate::limit::Limit;
use crate::optional::{
    limit_fits, read_limit, read_thresholds, read_times, thresholds_fit, times_fit, write_limit,
    write_thresholds, write_times,
};
use jt_layout::{Element, Reader, Writer, all_fit};
use jt_value::{CodecError, Memory, Octets, Seq};
use std::alloc::{AllocError, Global};

/// A point at which a route turns, and the segment that begins there.
#[derive(Clone, Copy, Debug, PartialEq, Eq)]
pub struct RoutePoint {
    /// The point's id.
    pub point: u32,
    /// The segment's id.
    pub segment: u32,
    /// Latitude in millionths of a degree.
    pub lat: u32,
    /// Longitude in millionths of a degree.
    pub lon: u32,
    /// The segment's width in metres.
    pub width: u8,
    /// What the segment is for, a bit each. Bit 0 says that the thresholds are there, bit 1 that the limit is.
    pub attribute: u8,
    /// The longest and the shortest time on the segment, in seconds.
    pub thresholds: Option<(u16, u16)>,
    pub limit: Option<Limit>,
}

/// A route (the standard's message body of the setting of a route).
#[derive(Drop)]
pub struct Route {
    pub id: u32,
    /// What the route is for, a bit each. Bit 0 says that the times are there.
    pub attribute: u16,
    /// The digits YYMMDDhhmmss of the start and of the end, two an octet. Every octet is accepted.
    pub times: Option<[u8; 12]>,
    /// At most 65,535.
    pub points: Seq<RoutePoint>,
}

impl Clone for Route {
    ghost is_clone = { λ route clone. clone ≡ route };

    fn clone(&self) -> Result<Route, AllocError> {
        Ok(Route {
            id: self.id,
            attribute: self.attribute,
            times: self.times,
            points: self.points.clone()?,
        })
    }
}

impl Element for RoutePoint {
    ghost use Rattle.jt_region_bodies.specs.Regions.{point};

    ghost layout = { point };

    #[tactic(auto, unfolding(crate::specs::Regions::point, jt_layout::specs::Layout::number))]
    fn fits_in_list(&self) -> bool {
        // Numbers that are read are known to fit their fields.
        let RoutePoint {
            point: _point,
            segment: _segment,
            lat: _lat,
            lon: _lon,
            width: _width,
            attribute,
            thresholds,
            limit,
        } = *self;
        let attribute = u16::from(attribute);
        thresholds_fit(attribute, &thresholds) && limit_fits(attribute, &limit)
    }

    #[tactic(auto, unfolding(crate::specs::Regions::point))]
    fn read(_alloc: Global, reader: &mut Reader<'_>) -> Result<RoutePoint, CodecError> {
        let point = reader.dword()?;
        let segment = reader.dword()?;
        let lat = reader.dword()?;
        let lon = reader.dword()?;
        let width = reader.byte()?;
        let attribute = reader.byte()?;
        let thresholds = read_thresholds(reader, u16::from(attribute))?;
        let limit = read_limit(reader, u16::from(attribute))?;
        Ok(RoutePoint {
            point,
            segment,
            lat,
            lon,
            width,
            attribute,
            thresholds,
            limit,
        })
    }

    #[tactic(auto, using(std::proofs::Common::append_assoc), unfolding(crate::specs::Regions::point))]
    fn write(&self, _alloc: Global, writer: &mut Writer) -> Result<(), Memory> {
        writer.dword(self.point)?;
        writer.dword(self.segment)?;
        writer.dword(self.lat)?;
        writer.dword(self.lon)?;
        writer.byte(self.width)?;
        writer.byte(self.attribute)?;
        write_thresholds(writer, u16::from(self.attribute), &self.thresholds)?;
        write_limit(writer, u16::from(self.attribute), &self.limit)
    }
}

impl Route {
    ghost use Rattle.jt_region_bodies.specs.Regions.{route};

    /// Whether the route has octets: at most 65,535 points, times exactly where its attribute says so, and thresholds and
    /// limits exactly where those of its points do.
    #[tactic(auto, unfolding(crate::specs::Regions::route, jt_layout::specs::Layout::number))]
    pub fn fits(&self) -> bool
        ensures { IsTrue result ↔ route.Fits self.now }
    {
        // Numbers that are read are known to fit their fields.
        let Route {
            id,
            attribute,
            times,
            points,
        } = self;
        let _id = *id;
        times_fit(*attribute, times) && points.len() < 65_536 && all_fit(points.as_slice())
    }
}

#[tactic(auto, unfolding(crate::specs::Regions::route))]
fn route_in(alloc: Global, octets: &[u8]) -> Result<Route, CodecError>
    ensures { Gives (λ route. route) result (layouts.route.read octets.now 0) }
{
    let mut reader = Reader::new(octets);
    let id = reader.dword()?;
    let attribute = reader.word()?;
    let times = read_times(&mut reader, attribute)?;
    let count = reader.word()?;
    let points = reader.list(alloc, count as usize)?;
    reader.end()?;
    Ok(Route {
        id,
        attribute,
        times,
        points,
    })
}

/// Reads a route's body. Refused is Truncated at the first field that passes the end, or Trailing where octets are left
/// behind the last point.
pub fn read_route(alloc: Global, octets: &[u8]) -> Result<Route, CodecError>
    ensures { Answers layouts.route octets.now result }
{
    route_in(alloc, octets)
}

/// Judges a route's body: the refusal is that of `read_route`, and no list is made.
#[tactic(auto, unfolding(crate::specs::Regions::route))]
pub fn judge_route(alloc: Global, octets: &[u8]) -> Result<(), CodecError>
    ensures { Judges result (layouts.route.read octets.now 0) }
{
    let mut reader = Reader::new(octets);
    reader.dword()?;
    let attribute = reader.word()?;
    read_times(&mut reader, attribute)?;
    let count = reader.word()?;
    reader.pass::<RoutePoint>(alloc, count as usize)?;
    Ok(reader.end()?)
}

/// The body of a route that fits.
#[tactic(auto, using(std::proofs::Common::append_assoc), unfolding(crate::specs::Regions::route, jt_layout::specs::Layout::number))]
pub fn write_route(alloc: Global, route: &Route) -> Result<Octets, Memory>
    requires { layouts.route.Fits route.now }
    ensures { IfOk result (λ octets. octets ≡ layouts.route.spell route.now) }
{
    let mut writer = Writer::new(alloc);
    writer.dword(route.id)?;
    writer.word(route.attribute)?;
    write_times(&mut writer, route.attribute, &route.times)?;
    writer.word(route.points.len() as u16)?;
    writer.list(alloc, route.points.as_slice())?;
    Ok(writer.finish())
}

/// The law of routes: octets have exactly one route or exactly one reason.
pub fn law_routes()
    ensures { IsOneToOne layouts.route }
{}
