//! Rectangles.

ghost use Rattle.std.specs.Prelude.{◌≡◌, ◌↔◌, ◌++◌, IsTrue, IfOk};
ghost use Rattle.jt_layout.specs.Answer.{Answers, IsOneToOne};
ghost use Rattle.jt_layout.specs.Reading.{Gives, Judges};
ghost use Rattle.jt_region_bodies.specs.Regions.{rectangles};

use crate::limit::Limit;
use crate::optional::{limit_fits, read_limit, read_times, times_fit, write_limit, write_times};
use jt_layout::{Element, Reader, Writer, all_fit};
use jt_value::{CodecError, Memory, Octets, Seq};
use std::alloc::Global;

/// A rectangular region (the standard's message body of the setting of rectangular regions).
#[derive(Clone, Copy, Debug, PartialEq, Eq)]
pub struct Rectangle {
    pub id: u32,
    /// What the region is for, a bit each. Bit 0 says that the times are there, bit 1 that the limit is.
    pub attribute: u16,
    /// The latitude of the upper left corner, in millionths of a degree.
    pub top: u32,
    /// The longitude of the upper left corner, in millionths of a degree.
    pub left: u32,
    /// The latitude of the lower right corner, in millionths of a degree.
    pub bottom: u32,
    /// The longitude of the lower right corner, in millionths of a degree.
    pub right: u32,
    /// The digits YYMMDDhhmmss of the start and of the end, two an octet. Every octet is accepted.
    pub times: Option<[u8; 12]>,
    pub limit: Option<Limit>,
}

impl Element for Rectangle {
    ghost use Rattle.jt_region_bodies.specs.Regions.{rectangle};

    ghost layout = { rectangle };

    #[tactic(auto, unfolding(crate::specs::Regions::rectangle, jt_layout::specs::Layout::number))]
    fn fits_in_list(&self) -> bool {
        // Numbers that are read are known to fit their fields.
        let Rectangle {
            id: _id,
            attribute,
            top: _top,
            left: _left,
            bottom: _bottom,
            right: _right,
            times,
            limit,
        } = *self;
        times_fit(attribute, &times) && limit_fits(attribute, &limit)
    }

    #[tactic(auto, unfolding(crate::specs::Regions::rectangle))]
    fn read(_alloc: Global, reader: &mut Reader<'_>) -> Result<Rectangle, CodecError> {
        let id = reader.dword()?;
        let attribute = reader.word()?;
        let top = reader.dword()?;
        let left = reader.dword()?;
        let bottom = reader.dword()?;
        let right = reader.dword()?;
        let times = read_times(reader, attribute)?;
        let limit = read_limit(reader, attribute)?;
        Ok(Rectangle {
            id,
            attribute,
            top,
            left,
            bottom,
            right,
            times,
            limit,
        })
    }

    #[tactic(auto, using(std::proofs::Common::append_assoc), unfolding(crate::specs::Regions::rectangle))]
    fn write(&self, _alloc: Global, writer: &mut Writer) -> Result<(), Memory> {
        writer.dword(self.id)?;
        writer.word(self.attribute)?;
        writer.dword(self.top)?;
        writer.dword(self.left)?;
        writer.dword(self.bottom)?;
        writer.dword(self.right)?;
        write_times(writer, self.attribute, &self.times)?;
        write_limit(writer, self.attribute, &self.limit)?;
        Ok(())
    }
}

/// Whether rectangles have octets: at most 255, each with its times and its limit exactly where its attribute says so.
#[tactic(auto, unfolding(crate::specs::Regions::rectangles, jt_layout::specs::Layout::number))]
pub fn rectangles_fit(setting: u8, list: &Seq<Rectangle>) -> bool
    ensures { IsTrue result ↔ rectangles.Fits (setting, list.now) }
{
    list.len() < 256 && all_fit(list.as_slice())
}

#[tactic(auto, unfolding(crate::specs::Regions::rectangles))]
fn rectangles_in(alloc: Global, octets: &[u8]) -> Result<(u8, Seq<Rectangle>), CodecError>
    ensures { Gives (λ read. read) result (rectangles.read octets.now 0) }
{
    let mut reader = Reader::new(octets);
    let setting = reader.byte()?;
    let count = reader.byte()?;
    let list = reader.list(alloc, count as usize)?;
    reader.end()?;
    Ok((setting, list))
}

/// Reads the body of a setting of rectangles: the setting, which may be any octet, and the rectangles. Refused is Truncated at the
/// first field that passes the end, or Trailing where octets are left behind the last rectangle.
pub fn read_rectangles(alloc: Global, octets: &[u8]) -> Result<(u8, Seq<Rectangle>), CodecError>
    ensures { Answers rectangles octets.now result }
{
    rectangles_in(alloc, octets)
}

/// Judges the body of a setting of rectangles: the refusal is that of `read_rectangles`, and no list is made.
#[tactic(auto, unfolding(crate::specs::Regions::rectangles))]
pub fn judge_rectangles(alloc: Global, octets: &[u8]) -> Result<(), CodecError>
    ensures { Judges result (rectangles.read octets.now 0) }
{
    let mut reader = Reader::new(octets);
    reader.byte()?;
    let count = reader.byte()?;
    reader.pass::<Rectangle>(alloc, count as usize)?;
    Ok(reader.end()?)
}

/// The body of a setting of rectangles that fit.
#[tactic(auto, using(std::proofs::Common::append_assoc), unfolding(crate::specs::Regions::rectangles, jt_layout::specs::Layout::number))]
pub fn write_rectangles(alloc: Global, setting: u8, list: &Seq<Rectangle>) -> Result<Octets, Memory>
    requires { rectangles.Fits (setting, list.now) }
    ensures { IfOk result (λ octets. octets ≡ rectangles.spell (setting, list.now)) }
{
    let mut writer = Writer::new(alloc);
    writer.byte(setting)?;
    writer.byte(list.len() as u8)?;
    writer.list(alloc, list.as_slice())?;
    Ok(writer.finish())
}

/// The law of rectangles: octets have exactly one list of them or exactly one reason.
pub fn law_rectangles()
    ensures { IsOneToOne rectangles }
{}
