//! Polygons.

ghost use Rattle.std.specs.Prelude.{◌≡◌, ◌↔◌, ◌++◌, IsTrue, IfOk};
ghost use Rattle.jt_layout.specs.Answer.{Answers, IsOneToOne};
ghost use Rattle.jt_layout.specs.Reading.{Gives, Judges};
ghost use Rattle.jt_region_bodies.specs.Regions as layouts;

use crate::limit::Limit;
use crate::optional::{limit_fits, read_limit, read_times, times_fit, write_limit, write_times};
use jt_layout::{Element, Reader, Writer, all_fit};
use jt_value::{CodecError, Memory, Octets, Seq};
use std::alloc::{AllocError, Global};

/// A corner of a polygon.
#[derive(Clone, Copy, Debug, PartialEq, Eq)]
pub struct Vertex {
    /// Latitude in millionths of a degree.
    pub lat: u32,
    /// Longitude in millionths of a degree.
    pub lon: u32,
}

/// A polygonal region (the standard's message body of the setting of a polygonal region).
#[derive(Drop)]
pub struct Polygon {
    pub id: u32,
    /// What the region is for, a bit each. Bit 0 says that the times are there, bit 1 that the limit is.
    pub attribute: u16,
    /// The digits YYMMDDhhmmss of the start and of the end, two an octet. Every octet is accepted.
    pub times: Option<[u8; 12]>,
    pub limit: Option<Limit>,
    /// At most 65,535.
    pub vertices: Seq<Vertex>,
}

impl Clone for Polygon {
    ghost is_clone = { λ polygon clone. clone ≡ polygon };

    fn clone(&self) -> Result<Polygon, AllocError> {
        Ok(Polygon {
            id: self.id,
            attribute: self.attribute,
            times: self.times,
            limit: self.limit,
            vertices: self.vertices.clone()?,
        })
    }
}

impl Element for Vertex {
    ghost use Rattle.jt_region_bodies.specs.Regions.{vertex};

    ghost layout = { vertex };

    #[tactic(auto, unfolding(crate::specs::Regions::vertex, jt_layout::specs::Layout::number))]
    fn fits_in_list(&self) -> bool {
        // Numbers that are read are known to fit their fields.
        let Vertex {
            lat: _lat,
            lon: _lon,
        } = *self;
        true
    }

    #[tactic(auto, unfolding(crate::specs::Regions::vertex))]
    fn read(_alloc: Global, reader: &mut Reader<'_>) -> Result<Vertex, CodecError> {
        let lat = reader.dword()?;
        let lon = reader.dword()?;
        Ok(Vertex { lat, lon })
    }

    #[tactic(auto, using(std::proofs::Common::append_assoc), unfolding(crate::specs::Regions::vertex))]
    fn write(&self, _alloc: Global, writer: &mut Writer) -> Result<(), Memory> {
        writer.dword(self.lat)?;
        writer.dword(self.lon)
    }
}

impl Polygon {
    ghost use Rattle.jt_region_bodies.specs.Regions.{polygon};

    /// Whether the polygon has octets: at most 65,535 vertices, and times and limit exactly where its attribute says so.
    #[tactic(auto, unfolding(crate::specs::Regions::polygon, jt_layout::specs::Layout::number))]
    pub fn fits(&self) -> bool
        ensures { IsTrue result ↔ polygon.Fits self.now }
    {
        // Numbers that are read are known to fit their fields.
        let Polygon {
            id,
            attribute,
            times,
            limit,
            vertices,
        } = self;
        let _id = *id;
        times_fit(*attribute, times)
            && limit_fits(*attribute, limit)
            && vertices.len() < 65_536
            && all_fit(vertices.as_slice())
    }
}

#[tactic(auto, unfolding(crate::specs::Regions::polygon))]
fn polygon_in(alloc: Global, octets: &[u8]) -> Result<Polygon, CodecError>
    ensures { Gives (λ polygon. polygon) result (layouts.polygon.read octets.now 0) }
{
    let mut reader = Reader::new(octets);
    let id = reader.dword()?;
    let attribute = reader.word()?;
    let times = read_times(&mut reader, attribute)?;
    let limit = read_limit(&mut reader, attribute)?;
    let count = reader.word()?;
    let vertices = reader.list(alloc, count as usize)?;
    reader.end()?;
    Ok(Polygon {
        id,
        attribute,
        times,
        limit,
        vertices,
    })
}

/// Reads a polygon's body. Refused is Truncated at the first field that passes the end, or Trailing where octets are left
/// behind the last vertex.
pub fn read_polygon(alloc: Global, octets: &[u8]) -> Result<Polygon, CodecError>
    ensures { Answers layouts.polygon octets.now result }
{
    polygon_in(alloc, octets)
}

/// Judges a polygon's body: the refusal is that of `read_polygon`, and no list is made.
#[tactic(auto, unfolding(crate::specs::Regions::polygon))]
pub fn judge_polygon(alloc: Global, octets: &[u8]) -> Result<(), CodecError>
    ensures { Judges result (layouts.polygon.read octets.now 0) }
{
    let mut reader = Reader::new(octets);
    reader.dword()?;
    let attribute = reader.word()?;
    read_times(&mut reader, attribute)?;
    read_limit(&mut reader, attribute)?;
    let count = reader.word()?;
    reader.pass::<Vertex>(alloc, count as usize)?;
    Ok(reader.end()?)
}

/// The body of a polygon that fits.
#[tactic(auto, using(std::proofs::Common::append_assoc), unfolding(crate::specs::Regions::polygon, jt_layout::specs::Layout::number))]
pub fn write_polygon(alloc: Global, polygon: &Polygon) -> Result<Octets, Memory>
    requires { layouts.polygon.Fits polygon.now }
    ensures { IfOk result (λ octets. octets ≡ layouts.polygon.spell polygon.now) }
{
    let mut writer = Writer::new(alloc);
    writer.dword(polygon.id)?;
    writer.word(polygon.attribute)?;
    write_times(&mut writer, polygon.attribute, &polygon.times)?;
    write_limit(&mut writer, polygon.attribute, &polygon.limit)?;
    writer.word(polygon.vertices.len() as u16)?;
    writer.list(alloc, polygon.vertices.as_slice())?;
    Ok(writer.finish())
}

/// The law of polygons: octets have exactly one polygon or exactly one reason.
pub fn law_polygons()
    ensures { IsOneToOne layouts.polygon }
{}
