//! Circles.

ghost use Rattle.std.specs.Prelude.{◌≡◌, ◌↔◌, ◌++◌, IsTrue, IfOk};
ghost use Rattle.jt_layout.specs.Answer.{Answers, IsOneToOne};
ghost use Rattle.jt_layout.specs.Reading.{Gives, Judges};
ghost use Rattle.jt_region_bodies.specs.Regions.{circles};

use crate::limit::Limit;
use crate::optional::{limit_fits, read_limit, read_times, times_fit, write_limit, write_times};
use jt_layout::{Element, Reader, Writer, all_fit};
use jt_value::{CodecError, Memory, Octets, Seq};
use std::alloc::Global;

/// A circular region (the standard's message body of the setting of circular regions).
#[derive(Clone, Copy, Debug, PartialEq, Eq)]
pub struct Circle {
    pub id: u32,
    /// What the region is for, a bit each. Bit 0 says that the times are there, bit 1 that the limit is.
    pub attribute: u16,
    /// The centre's latitude in millionths of a degree.
    pub lat: u32,
    /// The centre's longitude in millionths of a degree.
    pub lon: u32,
    /// The radius in metres.
    pub radius: u32,
    /// The digits YYMMDDhhmmss of the start and of the end, two an octet. Every octet is accepted.
    pub times: Option<[u8; 12]>,
    pub limit: Option<Limit>,
}

impl Element for Circle {
    ghost use Rattle.jt_region_bodies.specs.Regions.{circle};

    ghost layout = { circle };

    #[tactic(auto, unfolding(crate::specs::Regions::circle, jt_layout::specs::Layout::number))]
    fn fits_in_list(&self) -> bool {
        // Numbers that are read are known to fit their fields.
        let Circle {
            id: _id,
            attribute,
            lat: _lat,
            lon: _lon,
            radius: _radius,
            times,
            limit,
        } = *self;
        times_fit(attribute, &times) && limit_fits(attribute, &limit)
    }

    #[tactic(auto, unfolding(crate::specs::Regions::circle))]
    fn read(_alloc: Global, reader: &mut Reader<'_>) -> Result<Circle, CodecError> {
        let id = reader.dword()?;
        let attribute = reader.word()?;
        let lat = reader.dword()?;
        let lon = reader.dword()?;
        let radius = reader.dword()?;
        let times = read_times(reader, attribute)?;
        let limit = read_limit(reader, attribute)?;
        Ok(Circle {
            id,
            attribute,
            lat,
            lon,
            radius,
            times,
            limit,
        })
    }

    #[tactic(auto, using(std::proofs::Common::append_assoc), unfolding(crate::specs::Regions::circle))]
    fn write(&self, _alloc: Global, writer: &mut Writer) -> Result<(), Memory> {
        writer.dword(self.id)?;
        writer.word(self.attribute)?;
        writer.dword(self.lat)?;
        writer.dword(self.lon)?;
        writer.dword(self.radius)?;
        write_times(writer, self.attribute, &self.times)?;
        write_limit(writer, self.attribute, &self.limit)
    }
}

/// Whether circles have octets: at most 255, each with its times and its limit exactly where its attribute says so.
#[tactic(auto, unfolding(crate::specs::Regions::circles, jt_layout::specs::Layout::number))]
pub fn circles_fit(setting: u8, list: &Seq<Circle>) -> bool
    ensures { IsTrue result ↔ circles.Fits (setting, list.now) }
{
    list.len() < 256 && all_fit(list.as_slice())
}

#[tactic(auto, unfolding(crate::specs::Regions::circles))]
fn circles_in(alloc: Global, octets: &[u8]) -> Result<(u8, Seq<Circle>), CodecError>
    ensures { Gives (λ read. read) result (circles.read octets.now 0) }
{
    let mut reader = Reader::new(octets);
    let setting = reader.byte()?;
    let count = reader.byte()?;
    let list = reader.list(alloc, count as usize)?;
    reader.end()?;
    Ok((setting, list))
}

/// Reads the body of a setting of circles: the setting, which may be any octet, and the circles. Refused is Truncated at the
/// first field that passes the end, or Trailing where octets are left behind the last circle.
pub fn read_circles(alloc: Global, octets: &[u8]) -> Result<(u8, Seq<Circle>), CodecError>
    ensures { Answers circles octets.now result }
{
    circles_in(alloc, octets)
}

/// Judges the body of a setting of circles: the refusal is that of `read_circles`, and no list is made.
#[tactic(auto, unfolding(crate::specs::Regions::circles))]
pub fn judge_circles(alloc: Global, octets: &[u8]) -> Result<(), CodecError>
    ensures { Judges result (circles.read octets.now 0) }
{
    let mut reader = Reader::new(octets);
    reader.byte()?;
    let count = reader.byte()?;
    reader.pass::<Circle>(alloc, count as usize)?;
    Ok(reader.end()?)
}

/// The body of a setting of circles that fit.
#[tactic(auto, using(std::proofs::Common::append_assoc), unfolding(crate::specs::Regions::circles, jt_layout::specs::Layout::number))]
pub fn write_circles(alloc: Global, setting: u8, list: &Seq<Circle>) -> Result<Octets, Memory>
    requires { circles.Fits (setting, list.now) }
    ensures { IfOk result (λ octets. octets ≡ circles.spell (setting, list.now)) }
{
    let mut writer = Writer::new(alloc);
    writer.byte(setting)?;
    writer.byte(list.len() as u8)?;
    writer.list(alloc, list.as_slice())?;
    Ok(writer.finish())
}

/// The law of circles: octets have exactly one list of them or exactly one reason.
pub fn law_circles()
    ensures { IsOneToOne circles }
{}
