//! Moments of positions and of queries, in seconds since 1970.

use jiff::Timestamp;
use jiff::civil::DateTime;
use jiff::tz::Offset;
use jt_position::moment;
use std::alloc::{AllocError, Global};

// The standard's time zone: GMT+8.
const HOURS: i8 = 8;

// The instant of a date and a time of day in the standard's time zone.
fn instant_of(moment: DateTime) -> Option<Timestamp> {
    Offset::from_hours(HOURS).ok()?.to_timestamp(moment).ok()
}

/// The moment of a position, whose time has digits YYMMDDhhmmss. None where they name no moment.
pub fn seconds_of(time: &[u8; 6]) -> Option<u64> {
    u64::try_from(instant_of(moment(time)?)?.as_second()).ok()
}

// The instant that a text names.
fn instant_in(text: &str) -> Option<Timestamp> {
    // A zone's name is not looked up.
    if text.contains('[') {
        return None;
    }
    if let Ok(instant) = text.parse::<Timestamp>() {
        return Some(instant);
    }
    instant_of(text.parse::<DateTime>().ok()?)
}

/// The moment that a text names, in the standard's time zone where it has none. None where it names no moment from 1970 on. A space
/// stands for a plus, which queries lose.
pub fn read_time(alloc: Global, text: &str) -> Result<Option<u64>, AllocError> {
    let text = text.replace(alloc, " ", "+")?;
    match instant_in(text.as_str()) {
        Some(instant) => Ok(u64::try_from(instant.as_second()).ok()),
        None => Ok(None),
    }
}
