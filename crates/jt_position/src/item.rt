//! What a position may carry besides.

ghost use Rattle.std.specs.Prelude.{◌≡◌, ◌<◌, ◌^◌, ◌↔◌, length, IsTrue};
ghost use Rattle.jt_position.specs.Items.{untyped, ItemFits};
ghost use Rattle.jt_position.specs.declared.item.Item.TheVariants.{Raw};

use crate::item_view::ItemView;
use jt_layout::{Element, Reader, Writer};
use jt_value::{CodecError, Memory, Octets};
use std::alloc::Global;

/// The ids of items (the standard's table of additional items).
pub(crate) const MILEAGE: u8 = 0x01;

pub(crate) const FUEL: u8 = 0x02;

pub(crate) const RECORDER_SPEED: u8 = 0x03;

pub(crate) const EVENT_ID: u8 = 0x04;

pub(crate) const OVERSPEED: u8 = 0x11;

pub(crate) const REGION_ALARM: u8 = 0x12;

pub(crate) const TRAVEL: u8 = 0x13;

pub(crate) const SIGNALS: u8 = 0x25;

pub(crate) const IO: u8 = 0x2A;

pub(crate) const ANALOGUE: u8 = 0x2B;

pub(crate) const SIGNAL: u8 = 0x30;

pub(crate) const SATELLITES: u8 = 0x31;

/// An item of a position, by the standard's table of additional items. An id or a length that the table lacks is `Raw`.
#[derive(Drop)]
pub enum Item {
    /// Tenths of a kilometre.
    Mileage(u32),
    /// Tenths of a litre.
    Fuel(u16),
    /// The speed that the recorder has, in tenths of a kilometre an hour.
    RecorderSpeed(u16),
    /// The event that a person has to confirm.
    EventId(u16),
    /// Too fast, without a region or in it.
    Overspeed {
        kind: u8,
        region: Option<u32>,
    },
    /// A region or a route was entered or left.
    RegionAlarm {
        kind: u8,
        region: u32,
        direction: u8,
    },
    /// A road segment took too little or too much time.
    Travel {
        segment: u32,
        seconds: u16,
        result: u8,
    },
    /// Extended signals of the vehicle, a bit each: lamps, brakes, doors and the like.
    Signals(u32),
    /// States of inputs and outputs, a bit each.
    Io(u16),
    /// Two analogue quantities.
    Analogue(u32),
    /// Strength of the signal of the radio network.
    Signal(u8),
    /// Satellites in use.
    Satellites(u8),
    /// At most 255 octets under an id with which the table does not name this length.
    Raw {
        id: u8,
        value: Octets,
    },
}

impl Item {
    ghost use Rattle.jt_position.specs.Positions.{item};

    #[tactic(auto, unfolding(crate::specs::Items::untyped))]
    fn id(&self) -> u8
        ensures { result ≡ (untyped self.now).0 }
    {
        match self {
            Item::Mileage(_) => MILEAGE,
            Item::Fuel(_) => FUEL,
            Item::RecorderSpeed(_) => RECORDER_SPEED,
            Item::EventId(_) => EVENT_ID,
            Item::Overspeed { .. } => OVERSPEED,
            Item::RegionAlarm { .. } => REGION_ALARM,
            Item::Travel { .. } => TRAVEL,
            Item::Signals(_) => SIGNALS,
            Item::Io(_) => IO,
            Item::Analogue(_) => ANALOGUE,
            Item::Signal(_) => SIGNAL,
            Item::Satellites(_) => SATELLITES,
            Item::Raw { id, .. } => *id,
        }
    }

    #[tactic(auto, unfolding(crate::specs::Items::untyped))]
    fn value_size(&self) -> usize
        ensures size { result ≡ length (untyped self.now).1 }
        ensures below { result < 2 ^ 63 }
    {
        match self {
            Item::Signal(_) | Item::Satellites(_) | Item::Overspeed { region: None, .. } => 1,
            Item::Fuel(_) | Item::RecorderSpeed(_) | Item::EventId(_) | Item::Io(_) => 2,
            Item::Mileage(_) | Item::Signals(_) | Item::Analogue(_) => 4,
            Item::Overspeed {
                region: Some(_),
                ..
            } => 5,
            Item::RegionAlarm { .. } => 6,
            Item::Travel { .. } => 7,
            Item::Raw { value, .. } => value.as_slice().len(),
        }
    }

    // The octets of the item, with its id and its length.
    #[tactic(auto, unfolding(crate::specs::Positions::item, jt_layout::specs::Layout::number, jt_layout::specs::Layout::octets_of))]
    pub(crate) fn size(&self) -> usize
        ensures { result ≡ length (item.spell self.now) }
    {
        2 + self.value_size()
    }
}

// Whether the table leaves this id and value raw.
#[tactic(auto, using(crate::proofs::ItemLaws::raw_only), unfolding(crate::specs::Items::ItemFits, crate::specs::Views::item_in_view))]
fn raw_fits(id: u8, value: &[u8]) -> bool
    ensures { IsTrue result ↔ ItemFits (Raw id value.now) }
{
    value.len() < 256 && matches!(ItemView::of(id, value), ItemView::Raw { .. })
}

impl Element for Item {
    ghost use Rattle.jt_position.specs.Positions.{item};

    ghost layout = { item };

    #[tactic(auto, unfolding(crate::specs::Positions::item, crate::specs::Items::ItemFits))]
    fn fits_in_list(&self) -> bool {
        // Numbers that are read are known to fit their fields.
        match self {
            Item::Mileage(number) | Item::Signals(number) | Item::Analogue(number) => {
                let _number = *number;
                true
            }
            Item::Fuel(number)
            | Item::RecorderSpeed(number)
            | Item::EventId(number)
            | Item::Io(number) => {
                let _number = *number;
                true
            }
            Item::Signal(number)
            | Item::Satellites(number)
            | Item::Overspeed {
                kind: number,
                region: None,
            } => {
                let _number = *number;
                true
            }
            Item::Overspeed {
                kind,
                region: Some(region),
            } => {
                let _numbers = (*kind, *region);
                true
            }
            Item::RegionAlarm {
                kind,
                region,
                direction,
            } => {
                let _numbers = (*kind, *region, *direction);
                true
            }
            Item::Travel {
                segment,
                seconds,
                result,
            } => {
                let _numbers = (*segment, *seconds, *result);
                true
            }
            Item::Raw { id, value } => raw_fits(*id, value.as_slice()),
        }
    }

    fn read(alloc: Global, reader: &mut Reader<'_>) -> Result<Item, CodecError> {
        let view = ItemView::read(reader)?;
        Ok(view.to_item(alloc)?)
    }

    #[tactic(auto, using(std::proofs::Common::append_assoc), unfolding(crate::specs::Positions::item, crate::specs::Items::untyped, crate::specs::Items::ItemFits, jt_layout::specs::Layout::octets_of, jt_layout::specs::Layout::number))]
    fn write(&self, _alloc: Global, writer: &mut Writer) -> Result<(), Memory> {
        writer.byte(self.id())?;
        writer.byte(self.value_size() as u8)?;
        match self {
            Item::Mileage(number) | Item::Signals(number) | Item::Analogue(number) => {
                writer.dword(*number)
            }
            Item::Fuel(number)
            | Item::RecorderSpeed(number)
            | Item::EventId(number)
            | Item::Io(number) => writer.word(*number),
            Item::Signal(number)
            | Item::Satellites(number)
            | Item::Overspeed {
                kind: number,
                region: None,
            } => writer.byte(*number),
            Item::Overspeed {
                kind,
                region: Some(region),
            } => {
                writer.byte(*kind)?;
                writer.dword(*region)
            }
            Item::RegionAlarm {
                kind,
                region,
                direction,
            } => {
                writer.byte(*kind)?;
                writer.dword(*region)?;
                writer.byte(*direction)
            }
            Item::Travel {
                segment,
                seconds,
                result,
            } => {
                writer.dword(*segment)?;
                writer.word(*seconds)?;
                writer.byte(*result)
            }
            Item::Raw { value, .. } => writer.octets(value.as_slice()),
        }
    }
}
