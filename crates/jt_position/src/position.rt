//! Positions.

ghost use Rattle.std.specs.Prelude.{◌≡◌, ◌<◌, ◌≤◌, ◌^◌, ◌↔◌, ◌++◌, length, IsTrue, IfOk, OnOk};
ghost use Rattle.std.specs.Io.{StartsWith};
ghost use Rattle.jt_layout.specs.Answer.{Answers, IsOneToOne};
ghost use Rattle.jt_layout.specs.Reading.{Gives};
ghost use Rattle.jt_position.specs.Positions as layouts;
ghost use Rattle.jt_position.specs.Views.{RawStands};

use crate::fixed::Fixed;
use crate::item::Item;
use jt_layout::{Element, Reader, Writer, all_fit};
use jt_value::{CodecError, Memory, Octets, Seq};
use std::alloc::Global;

/// A position: fixed fields, and any items (the standard's message body of a position report).
#[derive(Drop)]
pub struct Position {
    pub fixed: Fixed,
    /// Ids may repeat; the order is kept.
    pub items: Seq<Item>,
}

impl Position {
    ghost use Rattle.jt_position.specs.Positions.{position};

    /// Whether the position has octets: each raw value has at most 255, and its id and length are no row of the table.
    #[tactic(auto, unfolding(crate::specs::Positions::position))]
    pub fn fits(&self) -> bool
        ensures { IsTrue result ↔ position.Fits self.now }
    {
        self.fixed.fits() && all_fit(self.items.as_slice())
    }

    /// How many octets the position has: 28, and those of its items. Every position has a size, also one that has no octets
    /// in the table.
    #[tactic(auto, unfolding(crate::specs::Positions::position))]
    pub fn size(&self) -> u128
        ensures { result ≡ length (position.spell self.now) }
    {
        self.fixed.fits();
        let mut size = 28;
        for item in self.items.as_slice() {
            size += item.size() as u128;
        }
        size
    }

    // Whether the octets of a position are as many as a word counts.
    pub(crate) fn is_short(&self) -> bool
        ensures { IsTrue result ↔ (length (position.spell self.now) < 2 ^ 16) }
    {
        self.size() < 65_536
    }

    /// Reads a position from where the reader stands up to its end, for bodies that end with one.
    #[tactic(auto, unfolding(crate::specs::Positions::position))]
    pub fn read_from(alloc: Global, reader: &mut Reader<'_>) -> Result<Position, CodecError>
        ensures value { Gives (λ read. read) result
            (position.read reader.old.octets reader.old.place) }
        ensures octets { reader.new.octets ≡ reader.old.octets }
        ensures end { OnOk result (length reader.old.octets ≤ reader.new.place) }
    {
        let fixed = Fixed::read(reader)?;
        let items = reader.all(alloc)?;
        Ok(Position { fixed, items })
    }

    /// Writes a position of which the table has octets behind what is written already, which still stands in front after
    /// Memory.
    #[tactic(auto, using(std::proofs::Common::append_assoc), unfolding(crate::specs::Positions::position))]
    pub fn write_to(&self, alloc: Global, writer: &mut Writer) -> Result<(), Memory>
        requires { position.Fits self.now }
        ensures octets { OnOk result (writer.new ≡ writer.old ++ position.spell self.now) }
        ensures kept { StartsWith writer.new writer.old }
    {
        self.fixed.write(writer)?;
        writer.list(alloc, self.items.as_slice())
    }
}

/// Reads a position report's body. Refused is Truncated at the first field that passes the end.
pub fn read_position(alloc: Global, octets: &[u8]) -> Result<Position, CodecError>
    ensures { Answers layouts.position octets.now result }
{
    Position::read_from(alloc, &mut Reader::new(octets))
}

/// The body of a position of which the table has octets: raw values of at most 255 octets, and raw items only where the
/// table does not name the id with that length.
pub fn write_position(alloc: Global, position: &Position) -> Result<Octets, Memory>
    requires { layouts.position.Fits position.now }
    ensures { IfOk result (λ octets. octets ≡ layouts.position.spell position.now) }
{
    let mut writer = Writer::new(alloc);
    position.write_to(alloc, &mut writer)?;
    Ok(writer.finish())
}

/// The law of positions: octets have exactly one position or exactly one reason, and raw values stand at their places.
pub fn law_positions()
    ensures one_to_one { IsOneToOne layouts.position }
    ensures places { RawStands }
{}
