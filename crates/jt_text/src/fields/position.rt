//! The fields of positions and batches.

ghost use Rattle.std.specs.Prelude.{◌≡◌, ◌+◌, ◌≤◌, ◌++◌, length, string_bytes, codes, OnOk};
ghost use Rattle.std.specs.List.{flat_map};
ghost use Rattle.std.specs.Fmt.{decimal};
ghost use Rattle.std.specs.Io.{StartsWith};
ghost use Rattle.jt_position.specs.declared.item.Item.TheVariants as items;
ghost use Rattle.jt_position.specs.BatchViews.{position_in_view};
ghost use Rattle.jt_position.specs.Views.{item_in_view};
ghost use Rattle.jt_text.specs.PositionFields.{batch_fields, batch_item_text, item_text, motion_text, place_text, position_fields, region_text};
ghost use Rattle.jt_text.specs.Times.{time_text};
ghost use Rattle.jt_text.specs.Values.{byte_digits};

use crate::line::Line;
use crate::times::names_moment;
use crate::values::{push_number, push_value};
use itoa::Buffer;
use jt_position::{Batch, Fixed, Item, ItemView, Items, Position, PositionView, Positions};
use std::alloc::AllocError;

// Date and time of day are the digits of the octets.
#[tactic(auto, using(std::proofs::Common::append_assoc), unfolding(crate::specs::Times::time_text))]
fn put_time(line: &mut Line, time: &[u8; 6])
    requires { length line.old ≤ 400 }
    ensures text { line.new ≡ codes " time=" ++ (time_text time.now ++ line.old) }
    ensures room { length line.new ≤ length line.old + 31 }
{
    if !names_moment(time) {
        line.put_str(" time=-");
        return;
    }
    line.put_str("+08:00");
    line.put_named_octet(":", time[5]);
    line.put_named_octet(":", time[4]);
    line.put_named_octet("T", time[3]);
    line.put_named_octet("-", time[2]);
    line.put_named_octet("-", time[1]);
    line.put_named_octet(" time=20", time[0]);
}

#[tactic(auto, using(std::proofs::Common::append_assoc), unfolding(crate::specs::PositionFields::motion_text))]
fn put_motion(line: &mut Line, fixed: &Fixed)
    requires { length line.old ≤ 300 }
    ensures text { line.new ≡ motion_text fixed.now ++ line.old }
    ensures room { length line.new ≤ length line.old + 119 }
{
    put_time(line, &fixed.time);
    line.put_named_number(" direction=", fixed.direction as u64);
    line.put_named_number(" speed=", fixed.speed as u64);
    line.put_named_number(" altitude=", fixed.altitude as u64);
}

#[tactic(auto, using(std::proofs::Common::append_assoc), unfolding(crate::specs::PositionFields::place_text))]
fn put_place(line: &mut Line, fixed: &Fixed)
    requires { length line.old ≤ 420 }
    ensures text { line.new ≡ place_text fixed.now ++ line.old }
    ensures room { length line.new ≤ length line.old + 85 }
{
    line.put_named_number(" lon=", fixed.lon as u64);
    line.put_named_number(" lat=", fixed.lat as u64);
    line.put_named_digits(" status=0x", fixed.status.to_be_bytes().as_slice());
    line.put_named_digits(" alarm=0x", fixed.alarm.to_be_bytes().as_slice());
}

/// What every position has, in front of a line.
#[tactic(auto, using(std::proofs::Common::append_assoc))]
pub(crate) fn put_fixed(line: &mut Line, fixed: &Fixed)
    requires { length line.old ≤ 300 }
    ensures text { line.new ≡ place_text fixed.now ++ (motion_text fixed.now ++ line.old) }
    ensures room { length line.new ≤ length line.old + 204 }
{
    put_motion(line, fixed);
    put_place(line, fixed);
}

#[tactic(auto, using(std::proofs::Common::append_assoc), unfolding(crate::specs::PositionFields::item_text))]
fn push_raw(text: &mut String, line: &mut Line, id: u8, value: &[u8]) -> Result<(), AllocError>
    ensures text { OnOk result
        (string_bytes text.new ≡ string_bytes text.old ++ item_text (items.Raw id value.now)) }
    ensures kept { StartsWith (string_bytes text.new) (string_bytes text.old) }
{
    push_value(text, line, " item=0x", &[id], value)
}

// An item of one number.
#[tactic(auto, using(std::proofs::Common::append_assoc))]
fn push_one(text: &mut String, line: &mut Line, id: u8, number: u64) -> Result<(), AllocError>
    ensures text { OnOk result (string_bytes text.new ≡ string_bytes text.old
        ++ (codes " item=0x" ++ (byte_digits id ++ (codes ":" ++ decimal number)))) }
    ensures kept { StartsWith (string_bytes text.new) (string_bytes text.old) }
{
    line.clear();
    line.put_named_number(":", number);
    line.put_named_octet(" item=0x", id);
    line.push_to(text)
}

fn put_region(line: &mut Line, region: Option<u32>)
    requires { length line.old ≤ 400 }
    ensures text { line.new ≡ region_text region ++ line.old }
    ensures room { length line.new ≤ length line.old + 21 }
{
    match region {
        None => {}
        Some(region) => line.put_named_number(":", region as u64),
    }
}

#[tactic(auto, using(std::proofs::Common::append_assoc), unfolding(crate::specs::PositionFields::item_text))]
fn push_overspeed(
    text: &mut String,
    line: &mut Line,
    kind: u8,
    region: Option<u32>,
) -> Result<(), AllocError>
    ensures text { OnOk result
        (string_bytes text.new ≡ string_bytes text.old ++ item_text (items.Overspeed kind region)) }
    ensures kept { StartsWith (string_bytes text.new) (string_bytes text.old) }
{
    line.clear();
    put_region(line, region);
    line.put_named_number(" item=0x11:", kind as u64);
    line.push_to(text)?;
    Ok(())
}

#[tactic(auto, using(std::proofs::Common::append_assoc), unfolding(crate::specs::PositionFields::item_text))]
fn push_region_alarm(
    text: &mut String,
    line: &mut Line,
    kind: u8,
    region: u32,
    direction: u8,
) -> Result<(), AllocError>
    ensures text { OnOk result (string_bytes text.new
        ≡ string_bytes text.old ++ item_text (items.RegionAlarm kind region direction)) }
    ensures kept { StartsWith (string_bytes text.new) (string_bytes text.old) }
{
    line.clear();
    line.put_named_number(":", direction as u64);
    line.put_named_number(":", region as u64);
    line.put_named_number(" item=0x12:", kind as u64);
    line.push_to(text)?;
    Ok(())
}

#[tactic(auto, using(std::proofs::Common::append_assoc), unfolding(crate::specs::PositionFields::item_text))]
fn push_travel(
    text: &mut String,
    line: &mut Line,
    segment: u32,
    seconds: u16,
    outcome: u8,
) -> Result<(), AllocError>
    ensures text { OnOk result (string_bytes text.new
        ≡ string_bytes text.old ++ item_text (items.Travel segment seconds outcome)) }
    ensures kept { StartsWith (string_bytes text.new) (string_bytes text.old) }
{
    line.clear();
    line.put_named_number(":", outcome as u64);
    line.put_named_number(":", seconds as u64);
    line.put_named_number(" item=0x13:", segment as u64);
    line.push_to(text)?;
    Ok(())
}

#[tactic(auto, unfolding(crate::specs::PositionFields::item_text, jt_position::specs::Views::item_in_view, hex::specs::Hex::encode_with))]
fn push_item(text: &mut String, line: &mut Line, item: &ItemView<'_>) -> Result<(), AllocError>
    ensures text { OnOk result
        (string_bytes text.new ≡ string_bytes text.old ++ item_text (item_in_view item.now)) }
    ensures kept { StartsWith (string_bytes text.new) (string_bytes text.old) }
{
    match item {
        ItemView::Mileage(distance) => push_one(text, line, 0x01, *distance as u64),
        ItemView::Fuel(volume) => push_one(text, line, 0x02, *volume as u64),
        ItemView::RecorderSpeed(speed) => push_one(text, line, 0x03, *speed as u64),
        ItemView::EventId(event) => push_one(text, line, 0x04, *event as u64),
        ItemView::Overspeed { kind, region } => push_overspeed(text, line, *kind, *region),
        ItemView::RegionAlarm {
            kind,
            region,
            direction,
        } => push_region_alarm(text, line, *kind, *region, *direction),
        ItemView::Travel {
            segment,
            seconds,
            result,
        } => push_travel(text, line, *segment, *seconds, *result),
        ItemView::Signals(signals) => push_one(text, line, 0x25, *signals as u64),
        ItemView::Io(states) => push_one(text, line, 0x2A, *states as u64),
        ItemView::Analogue(quantities) => push_one(text, line, 0x2B, *quantities as u64),
        ItemView::Signal(strength) => push_one(text, line, 0x30, *strength as u64),
        ItemView::Satellites(count) => push_one(text, line, 0x31, *count as u64),
        ItemView::Raw { id, value } => push_raw(text, line, *id, value),
    }
}

/// The items of a position that is read in place, at the end of a text. `line` is room that is used again.
#[inline(always)]
pub(crate) fn push_item_views(
    text: &mut String,
    line: &mut Line,
    items: Items<'_>,
) -> Result<(), AllocError>
    ensures text { OnOk result
        (string_bytes text.new ≡ string_bytes text.old ++ flat_map item_text items.entry) }
    ensures kept { StartsWith (string_bytes text.new) (string_bytes text.old) }
{
    for item in items {
        push_item(text, line, &item)?;
    }
    Ok(())
}

#[tactic(auto, using(std::proofs::Common::append_assoc), unfolding(crate::specs::PositionFields::batch_item_text, crate::specs::PositionFields::position_fields))]
fn push_position_view(
    text: &mut String,
    line: &mut Line,
    view: PositionView<'_>,
) -> Result<(), AllocError>
    ensures text { OnOk result (string_bytes text.new
        ≡ string_bytes text.old ++ batch_item_text (position_in_view view.entry)) }
    ensures kept { StartsWith (string_bytes text.new) (string_bytes text.old) }
{
    line.clear();
    put_fixed(line, &view.fixed);
    line.put_named_number(" length=", view.size() as u64);
    line.push_to(text)?;
    push_item_views(text, line, view.items)
}

/// The positions of a batch that is read in place, at the end of a text. `line` is room that is used again.
pub(crate) fn push_position_views(
    text: &mut String,
    line: &mut Line,
    positions: Positions<'_>,
) -> Result<(), AllocError>
    ensures text { OnOk result (string_bytes text.new
        ≡ string_bytes text.old ++ flat_map batch_item_text positions.entry) }
    ensures kept { StartsWith (string_bytes text.new) (string_bytes text.old) }
{
    for view in positions {
        push_position_view(text, line, view)?;
    }
    Ok(())
}

// The item, whose raw value stands where it is.
#[tactic(auto, unfolding(jt_position::specs::Views::item_in_view))]
fn view_of(item: &Item) -> ItemView<'_>
    ensures { item_in_view result ≡ item.now }
{
    match item {
        Item::Mileage(distance) => ItemView::Mileage(*distance),
        Item::Fuel(volume) => ItemView::Fuel(*volume),
        Item::RecorderSpeed(speed) => ItemView::RecorderSpeed(*speed),
        Item::EventId(event) => ItemView::EventId(*event),
        Item::Overspeed { kind, region } => ItemView::Overspeed {
            kind: *kind,
            region: *region,
        },
        Item::RegionAlarm {
            kind,
            region,
            direction,
        } => ItemView::RegionAlarm {
            kind: *kind,
            region: *region,
            direction: *direction,
        },
        Item::Travel {
            segment,
            seconds,
            result,
        } => ItemView::Travel {
            segment: *segment,
            seconds: *seconds,
            result: *result,
        },
        Item::Signals(signals) => ItemView::Signals(*signals),
        Item::Io(states) => ItemView::Io(*states),
        Item::Analogue(quantities) => ItemView::Analogue(*quantities),
        Item::Signal(strength) => ItemView::Signal(*strength),
        Item::Satellites(count) => ItemView::Satellites(*count),
        Item::Raw { id, value } => ItemView::Raw {
            id: *id,
            value: value.as_slice(),
        },
    }
}

fn push_items(text: &mut String, line: &mut Line, items: &[Item]) -> Result<(), AllocError>
    ensures text { OnOk result
        (string_bytes text.new ≡ string_bytes text.old ++ flat_map item_text items.now) }
    ensures kept { StartsWith (string_bytes text.new) (string_bytes text.old) }
{
    for item in items {
        push_item(text, line, &view_of(item))?;
    }
    Ok(())
}

#[tactic(auto, using(std::proofs::Common::append_assoc), unfolding(crate::specs::PositionFields::position_fields))]
pub(super) fn push_position(
    text: &mut String,
    line: &mut Line,
    position: &Position,
) -> Result<(), AllocError>
    ensures text { OnOk result
        (string_bytes text.new ≡ string_bytes text.old ++ position_fields position.now) }
    ensures kept { StartsWith (string_bytes text.new) (string_bytes text.old) }
{
    line.clear();
    put_fixed(line, &position.fixed);
    line.push_to(text)?;
    push_items(text, line, position.items.as_slice())
}

#[tactic(auto, using(std::proofs::Common::append_assoc), unfolding(crate::specs::PositionFields::batch_item_text))]
fn push_batch_item(
    text: &mut String,
    line: &mut Line,
    position: &Position,
) -> Result<(), AllocError>
    ensures text { OnOk result
        (string_bytes text.new ≡ string_bytes text.old ++ batch_item_text position.now) }
    ensures kept { StartsWith (string_bytes text.new) (string_bytes text.old) }
{
    text.push_str(" length=")?;
    text.push_str(Buffer::new().format(position.size()))?;
    push_position(text, line, position)
}

fn push_batch_items(
    text: &mut String,
    line: &mut Line,
    fixes: &[Position],
) -> Result<(), AllocError>
    ensures text { OnOk result
        (string_bytes text.new ≡ string_bytes text.old ++ flat_map batch_item_text fixes.now) }
    ensures kept { StartsWith (string_bytes text.new) (string_bytes text.old) }
{
    for position in fixes {
        push_batch_item(text, line, position)?;
    }
    Ok(())
}

#[tactic(auto, using(std::proofs::Common::append_assoc), unfolding(crate::specs::PositionFields::batch_fields))]
pub(super) fn push_batch(
    text: &mut String,
    line: &mut Line,
    batch: &Batch,
) -> Result<(), AllocError>
    ensures text { OnOk result
        (string_bytes text.new ≡ string_bytes text.old ++ batch_fields batch.now) }
    ensures kept { StartsWith (string_bytes text.new) (string_bytes text.old) }
{
    push_number(text, " count=", batch.fixes.len() as u64)?;
    push_number(text, " kind=", batch.kind as u64)?;
    push_batch_items(text, line, batch.fixes.as_slice())
}
