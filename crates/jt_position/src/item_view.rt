//! Items as they stand in the octets.

ghost use Rattle.std.specs.Prelude.{◌≡◌, ◌<◌, length, IfOk, OnOk};
ghost use Rattle.std.specs.Int.{w16, w32, from_be_bytes};
ghost use Rattle.jt_layout.specs.Reading.{Finds};
ghost use Rattle.jt_position.specs.Items.{typed};

use crate::item::{
    ANALOGUE, EVENT_ID, FUEL, IO, Item, MILEAGE, OVERSPEED, RECORDER_SPEED, REGION_ALARM,
    SATELLITES, SIGNAL, SIGNALS, TRAVEL,
};
use jt_layout::Reader;
use jt_value::{Memory, Octets, Refusal};
use std::alloc::Global;

/// An item of a position, as `Item`, whose raw value is a slice of the octets that were read.
#[derive(Clone, Copy, Debug, PartialEq, Eq)]
pub enum ItemView<'a> {
    Mileage(u32),
    Fuel(u16),
    RecorderSpeed(u16),
    EventId(u16),
    Overspeed {
        kind: u8,
        region: Option<u32>,
    },
    RegionAlarm {
        kind: u8,
        region: u32,
        direction: u8,
    },
    Travel {
        segment: u32,
        seconds: u16,
        result: u8,
    },
    Signals(u32),
    Io(u16),
    Analogue(u32),
    Signal(u8),
    Satellites(u8),
    Raw {
        id: u8,
        value: &'a [u8],
    },
}

#[inline(always)]
fn word_of(octets: &[u8]) -> u16
    requires { length octets.now ≡ 2 }
    ensures { result ≡ from_be_bytes w16 octets.now }
{
    u16::from_be_bytes([octets[0], octets[1]])
}

#[inline(always)]
fn dword_of(octets: &[u8]) -> u32
    requires { length octets.now ≡ 4 }
    ensures { result ≡ from_be_bytes w32 octets.now }
{
    u32::from_be_bytes([octets[0], octets[1], octets[2], octets[3]])
}

impl<'a> ItemView<'a> {
    ghost use Rattle.jt_position.specs.Positions.{item};
    ghost use Rattle.jt_position.specs.Views.{item_in_view};

    // The item of an id and its value, by the table.
    #[inline(always)]
    #[tactic(auto, unfolding(crate::specs::Items::typed, crate::specs::Views::item_in_view))]
    pub(crate) fn of(id: u8, value: &'a [u8]) -> ItemView<'a>
        ensures { item_in_view result ≡ typed (id, value.now) }
    {
        match (id, value.len()) {
            (MILEAGE, 4) => ItemView::Mileage(dword_of(value)),
            (FUEL, 2) => ItemView::Fuel(word_of(value)),
            (RECORDER_SPEED, 2) => ItemView::RecorderSpeed(word_of(value)),
            (EVENT_ID, 2) => ItemView::EventId(word_of(value)),
            (OVERSPEED, 1) => ItemView::Overspeed {
                kind: value[0],
                region: None,
            },
            (OVERSPEED, 5) => ItemView::Overspeed {
                kind: value[0],
                region: Some(dword_of(&value[1..])),
            },
            (REGION_ALARM, 6) => ItemView::RegionAlarm {
                kind: value[0],
                region: dword_of(&value[1..5]),
                direction: value[5],
            },
            (TRAVEL, 7) => ItemView::Travel {
                segment: dword_of(&value[..4]),
                seconds: word_of(&value[4..6]),
                result: value[6],
            },
            (SIGNALS, 4) => ItemView::Signals(dword_of(value)),
            (IO, 2) => ItemView::Io(word_of(value)),
            (ANALOGUE, 4) => ItemView::Analogue(dword_of(value)),
            (SIGNAL, 1) => ItemView::Signal(value[0]),
            (SATELLITES, 1) => ItemView::Satellites(value[0]),
            _ => ItemView::Raw { id, value },
        }
    }

    #[inline(always)]
    #[tactic(auto, unfolding(crate::specs::Positions::item))]
    pub(crate) fn read(reader: &mut Reader<'a>) -> Result<ItemView<'a>, Refusal>
        ensures value { Finds (λ view. (item_in_view view, reader.new.place)) result
            (item.read reader.old.octets reader.old.place) }
        ensures octets { reader.new.octets ≡ reader.old.octets }
        ensures onward { OnOk result (reader.old.place < reader.new.place) }
    {
        let id = reader.byte()?;
        let count = reader.byte()?;
        let value = reader.slice(count as usize)?;
        Ok(ItemView::of(id, value))
    }

    // The same item with its own octets.
    #[tactic(auto, unfolding(crate::specs::Views::item_in_view))]
    pub(crate) fn to_item(self, alloc: Global) -> Result<Item, Memory>
        ensures { IfOk result (λ item. item ≡ item_in_view self.entry) }
    {
        Ok(match self {
            ItemView::Mileage(distance) => Item::Mileage(distance),
            ItemView::Fuel(volume) => Item::Fuel(volume),
            ItemView::RecorderSpeed(speed) => Item::RecorderSpeed(speed),
            ItemView::EventId(event) => Item::EventId(event),
            ItemView::Overspeed { kind, region } => Item::Overspeed { kind, region },
            ItemView::RegionAlarm {
                kind,
                region,
                direction,
            } => Item::RegionAlarm {
                kind,
                region,
                direction,
            },
            ItemView::Travel {
                segment,
                seconds,
                result,
            } => Item::Travel {
                segment,
                seconds,
                result,
            },
            ItemView::Signals(signals) => Item::Signals(signals),
            ItemView::Io(states) => Item::Io(states),
            ItemView::Analogue(quantities) => Item::Analogue(quantities),
            ItemView::Signal(strength) => Item::Signal(strength),
            ItemView::Satellites(count) => Item::Satellites(count),
            ItemView::Raw { id, value } => Item::Raw {
                id,
                value: Octets::from_vec(Vec::from_slice(alloc, value)?),
            },
        })
    }
}
