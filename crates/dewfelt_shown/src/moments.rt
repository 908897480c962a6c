//! Moments as text.

use dewfelt_log::time_text;
use json::Writer;
use jt_position::moment;
use std::alloc::AllocError;

// A text of ASCII, or null where it is none.
fn put_ascii(writer: &mut Writer, text: &[u8]) -> Result<(), AllocError> {
    match std::str::from_utf8(text) {
        Ok(text) => writer.string(text),
        Err(_) => writer.null(),
    }
}

/// Puts a moment, in seconds since 1970, or null.
pub fn put_moment(writer: &mut Writer, seconds: Option<u64>) -> Result<(), AllocError> {
    match seconds {
        Some(seconds) => put_ascii(writer, &time_text(seconds)),
        None => writer.null(),
    }
}

fn pair(octet: u8) -> [u8; 2] {
    [b'0' + (octet / 16) % 10, b'0' + octet % 16 % 10]
}

// The time of a position, digits YYMMDDhhmmss.
fn position_time(time: &[u8; 6]) -> [u8; 25] {
    let [y, z] = pair(time[0]);
    let [m, n] = pair(time[1]);
    let [d, e] = pair(time[2]);
    let [h, i] = pair(time[3]);
    let [j, k] = pair(time[4]);
    let [s, t] = pair(time[5]);
    [
        b'2', b'0', y, z, b'-', m, n, b'-', d, e, b'T', h, i, b':', j, k, b':', s, t, b'+', b'0',
        b'8', b':', b'0', b'0',
    ]
}

/// Puts the time of a position, or null where its digits name no moment.
pub fn put_position_time(writer: &mut Writer, time: &[u8; 6]) -> Result<(), AllocError> {
    match moment(time) {
        Some(_) => put_ascii(writer, &position_time(time)),
        None => writer.null(),
    }
}
