//! The line of a fleet that lets a terminal in.

use crate::digits::phone_text;
use crate::name::Name;
use crate::stranger::Stranger;
use dewfelt_log::in_gbk;
use std::alloc::{AllocError, Global};

// Puts two hexadecimal digits for each octet.
fn push_hex(alloc: Global, text: &mut String, octets: &[u8]) -> Result<(), AllocError> {
    let digits = hex::encode(alloc, octets)?;
    text.push_str(digits.as_str())
}

// Whether a text stands between quotes as it is.
fn is_plain(text: &str) -> bool {
    !text.is_empty()
        && !text.starts_with("0x")
        && text.bytes().all(|octet| octet >= 0x20
            && octet != 0x7f
            && octet != b'"'
            && octet != b'\\')
}

fn push_quoted(text: &mut String, name: &str) -> Result<(), AllocError> {
    text.push('"')?;
    text.push_str(name)?;
    text.push('"')
}

// A plate: its text, or digits where it is no text.
fn push_plate(alloc: Global, text: &mut String, plate: &[u8]) -> Result<(), AllocError> {
    let name = in_gbk(alloc, plate)?;
    if is_plain(name.as_str()) {
        return push_quoted(text, name.as_str());
    }
    push_hex(alloc, text, plate)
}

// A terminal's id: its text, or digits where it is no ASCII.
fn push_terminal(alloc: Global, text: &mut String, terminal: &[u8]) -> Result<(), AllocError> {
    match std::str::from_utf8(terminal) {
        Ok(name) if name.is_ascii() && is_plain(name) => push_quoted(text, name),
        _ => push_hex(alloc, text, terminal),
    }
}

fn has_line(name: &Name) -> bool {
    name.count > 0 && !name.is_cut
}

/// The line of a fleet that lets the terminal in: `vehicle PLATE TERMINAL PHONE`. None where it named no plate or no id, or a longer
/// one than is kept.
pub fn vehicle_line(alloc: Global, stranger: &Stranger) -> Result<Option<String>, AllocError> {
    if !has_line(&stranger.plate) || !has_line(&stranger.terminal) {
        return Ok(None);
    }
    let mut text = String::from_str(alloc, "vehicle ")?;
    push_plate(alloc, &mut text, stranger.plate.as_slice())?;
    text.push(' ')?;
    push_terminal(alloc, &mut text, stranger.terminal.as_slice())?;
    text.push(' ')?;
    let phone = phone_text(alloc, &stranger.digits)?;
    text.push_str(phone.as_str())?;
    Ok(Some(text))
}
