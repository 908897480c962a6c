//! Fields that are there only if a bit of an attribute is set.

ghost use Rattle.std.specs.Prelude.{◌≡◌, ◌≤◌, ◌↔◌, ◌++◌, IsTrue, OnOk};
ghost use Rattle.std.specs.Io.{StartsWith};
ghost use Rattle.jt_layout.specs.Reading.{Finds};
ghost use Rattle.jt_region_bodies.specs.Regions.{bit, period, times_of, limit_of, thresholds_of};

use crate::limit::Limit;
use jt_layout::{Reader, Writer, octets_fit};
use jt_value::{Memory, Refusal};

fn bit_0(attribute: u16) -> bool
    ensures { result ≡ bit 0 attribute }
{
    attribute & 1 != 0
}

fn bit_1(attribute: u16) -> bool
    ensures { result ≡ bit 1 attribute }
{
    bit_0(attribute >> 1)
}

// How many octets a time has.
const TIME: usize = 6;

// Start and end.
#[tactic(auto, unfolding(crate::specs::Regions::period))]
fn read_period(reader: &mut Reader<'_>) -> Result<[u8; 2 * TIME], Refusal>
    ensures value { Finds (λ times. (times, reader.new.place)) result
        (period.read reader.old.octets reader.old.place) }
    ensures octets { reader.new.octets ≡ reader.old.octets }
    ensures onward { OnOk result (reader.old.place ≤ reader.new.place) }
{
    let start = reader.slice(TIME)?;
    let end = reader.slice(TIME)?;
    let mut times = [0; 2 * TIME];
    times[..TIME].copy_from_slice(start);
    times[TIME..].copy_from_slice(end);
    Ok(times)
}

// The times, if there are any.
#[tactic(auto, unfolding(jt_layout::specs::Layout::only_if))]
pub fn read_times(reader: &mut Reader<'_>, attribute: u16) -> Result<Option<[u8; 12]>, Refusal>
    ensures value { Finds (λ times. (times, reader.new.place)) result
        ((times_of attribute).read reader.old.octets reader.old.place) }
    ensures octets { reader.new.octets ≡ reader.old.octets }
    ensures onward { OnOk result (reader.old.place ≤ reader.new.place) }
{
    if !bit_0(attribute) {
        return Ok(None);
    }
    let times = read_period(reader)?;
    Ok(Some(times))
}

#[tactic(auto, using(crate::proofs::RegionLaws::spell_period), unfolding(jt_layout::specs::Layout::only_if))]
pub fn write_times(
    writer: &mut Writer,
    attribute: u16,
    times: &Option<[u8; 12]>,
) -> Result<(), Memory>
    requires { (times_of attribute).Fits times.now }
    ensures octets { OnOk result (writer.new ≡ writer.old ++ (times_of attribute).spell times.now) }
    ensures kept { StartsWith writer.new writer.old }
{
    let _there = bit_0(attribute);
    match times {
        Some(times) => writer.octets(times),
        None => Ok(()),
    }
}

#[tactic(auto, unfolding(jt_layout::specs::Layout::only_if, crate::specs::Regions::period))]
pub fn times_fit(attribute: u16, times: &Option<[u8; 12]>) -> bool
    ensures { IsTrue result ↔ (times_of attribute).Fits times.now }
{
    match times {
        Some(times) => octets_fit(times, 12) && bit_0(attribute),
        None => !bit_0(attribute),
    }
}

// The limit, if there is one.
#[tactic(auto, unfolding(jt_layout::specs::Layout::only_if, crate::specs::Regions::limit))]
pub fn read_limit(reader: &mut Reader<'_>, attribute: u16) -> Result<Option<Limit>, Refusal>
    ensures value { Finds (λ limit. (limit, reader.new.place)) result
        ((limit_of attribute).read reader.old.octets reader.old.place) }
    ensures octets { reader.new.octets ≡ reader.old.octets }
    ensures onward { OnOk result (reader.old.place ≤ reader.new.place) }
{
    if !bit_1(attribute) {
        return Ok(None);
    }
    let speed = reader.word()?;
    let duration = reader.byte()?;
    Ok(Some(Limit { speed, duration }))
}

#[tactic(auto, using(std::proofs::Common::append_assoc), unfolding(jt_layout::specs::Layout::only_if, crate::specs::Regions::limit))]
pub fn write_limit(writer: &mut Writer, attribute: u16, limit: &Option<Limit>) -> Result<(), Memory>
    requires { (limit_of attribute).Fits limit.now }
    ensures octets { OnOk result (writer.new ≡ writer.old ++ (limit_of attribute).spell limit.now) }
    ensures kept { StartsWith writer.new writer.old }
{
    let _there = bit_1(attribute);
    match limit {
        Some(limit) => {
            writer.word(limit.speed)?;
            writer.byte(limit.duration)
        }
        None => Ok(()),
    }
}

#[tactic(auto, unfolding(jt_layout::specs::Layout::only_if, jt_layout::specs::Layout::number, crate::specs::Regions::limit))]
pub fn limit_fits(attribute: u16, limit: &Option<Limit>) -> bool
    ensures { IsTrue result ↔ (limit_of attribute).Fits limit.now }
{
    match limit {
        // Numbers that are read are known to fit their fields.
        Some(Limit { speed, duration }) => {
            let _numbers = (*speed, *duration);
            bit_1(attribute)
        }
        None => !bit_1(attribute),
    }
}

// The longest and the shortest time on a segment, if they are there.
#[tactic(auto, unfolding(jt_layout::specs::Layout::only_if))]
pub fn read_thresholds(
    reader: &mut Reader<'_>,
    attribute: u16,
) -> Result<Option<(u16, u16)>, Refusal>
    ensures value { Finds (λ thresholds. (thresholds, reader.new.place)) result
        ((thresholds_of attribute).read reader.old.octets reader.old.place) }
    ensures octets { reader.new.octets ≡ reader.old.octets }
    ensures onward { OnOk result (reader.old.place ≤ reader.new.place) }
{
    if !bit_0(attribute) {
        return Ok(None);
    }
    let longest = reader.word()?;
    let shortest = reader.word()?;
    Ok(Some((longest, shortest)))
}

#[tactic(auto, using(std::proofs::Common::append_assoc), unfolding(jt_layout::specs::Layout::only_if))]
pub fn write_thresholds(
    writer: &mut Writer,
    attribute: u16,
    thresholds: &Option<(u16, u16)>,
) -> Result<(), Memory>
    requires { (thresholds_of attribute).Fits thresholds.now }
    ensures octets { OnOk result
        (writer.new ≡ writer.old ++ (thresholds_of attribute).spell thresholds.now) }
    ensures kept { StartsWith writer.new writer.old }
{
    let _there = bit_0(attribute);
    match thresholds {
        Some((longest, shortest)) => {
            writer.word(*longest)?;
            writer.word(*shortest)
        }
        None => Ok(()),
    }
}

#[tactic(auto, unfolding(jt_layout::specs::Layout::only_if, jt_layout::specs::Layout::number))]
pub fn thresholds_fit(attribute: u16, thresholds: &Option<(u16, u16)>) -> bool
    ensures { IsTrue result ↔ (thresholds_of attribute).Fits thresholds.now }
{
    match thresholds {
        Some((longest, shortest)) => {
            let _numbers = (*longest, *shortest);
            bit_0(attribute)
        }
        None => !bit_0(attribute),
    }
}
