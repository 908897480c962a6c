//! Values as text.

ghost use Rattle.std.specs.Prelude.{◌≡◌, ◌+◌, ◌*◌, ◌≤◌, ◌++◌, length, string_bytes, codes, OnOk};
ghost use Rattle.std.specs.Fmt.{decimal};
ghost use Rattle.std.specs.Str.{IsUtf8};
ghost use Rattle.std.specs.Io.{StartsWith};
ghost use Rattle.hex.specs.Hex.{encode_lower};
ghost use Rattle.jt_text.specs.Values.{octets_text};

use crate::line::{HALF_ROOM, Line};
use itoa::write_digits;
use std::alloc::AllocError;

// Octets of a name that is put together with its value.
const NAME: usize = 16;

// Octets of such a name and the longest number.
const ROOM: usize = NAME + 20;

// Octets whose digits fill the room of a line behind such a name.
const BEHIND_NAME: usize = HALF_ROOM - NAME / 2;

// Octets of a value that is put together with all that stands in front of it.
const SHORT: usize = 200;

// Octets that are a text, which is proved and not tested at run time.
#[inline(always)]
pub(crate) fn push_text(text: &mut String, octets: &[u8]) -> Result<(), AllocError>
    requires { IsUtf8 octets.now }
    ensures text { OnOk result (string_bytes text.new ≡ string_bytes text.old ++ octets.now) }
    ensures kept { StartsWith (string_bytes text.new) (string_bytes text.old) }
{
    // SAFETY: the octets are UTF-8, as is required.
    text.push_str(unsafe { str::from_utf8_unchecked(octets) })
}

// Lower-case hexadecimal digits, two an octet, a room full of them at a time.
fn push_hex(text: &mut String, line: &mut Line, octets: &[u8]) -> Result<(), AllocError>
    ensures text { OnOk result
        (string_bytes text.new ≡ string_bytes text.old ++ encode_lower octets.now) }
    ensures kept { StartsWith (string_bytes text.new) (string_bytes text.old) }
{
    let mut left = octets;
    while !left.is_empty() {
        let (piece, others) = left.split_at(left.len().min(HALF_ROOM));
        line.clear();
        line.put_digits(piece);
        line.push_to(text)?;
        left = others;
    }
    Ok(())
}

// A number behind a short name, in one piece.
#[inline(always)]
fn push_named_number(text: &mut String, name: &str, number: u64) -> Result<(), AllocError>
    requires { length name.now ≤ 16 }
    ensures text { OnOk result
        (string_bytes text.new ≡ string_bytes text.old ++ (name.now ++ decimal number)) }
    ensures kept { StartsWith (string_bytes text.new) (string_bytes text.old) }
{
    let mut room = [0; ROOM];
    let digits = write_digits(number, &mut room, ROOM);
    let start = digits - name.len();
    room[start..digits].copy_from_slice(name.as_bytes());
    push_text(text, &room[start..])
}

/// A number in decimal behind its name.
#[inline(always)]
pub(crate) fn push_number(text: &mut String, name: &str, number: u64) -> Result<(), AllocError>
    ensures text { OnOk result
        (string_bytes text.new ≡ string_bytes text.old ++ (name.now ++ decimal number)) }
    ensures kept { StartsWith (string_bytes text.new) (string_bytes text.old) }
{
    if name.len() <= NAME {
        return push_named_number(text, name, number);
    }
    text.push_str(name)?;
    push_named_number(text, "", number)
}

// The digits of octets behind a name. `line` is room that is used again.
#[inline(always)]
fn push_digits(
    text: &mut String,
    line: &mut Line,
    name: &str,
    octets: &[u8],
) -> Result<(), AllocError>
    ensures text { OnOk result
        (string_bytes text.new ≡ string_bytes text.old ++ (name.now ++ encode_lower octets.now)) }
    ensures kept { StartsWith (string_bytes text.new) (string_bytes text.old) }
{
    if name.len() <= NAME && octets.len() <= BEHIND_NAME {
        line.clear();
        line.put_digits(octets);
        line.put_copy(name);
        return line.push_to(text);
    }
    text.push_str(name)?;
    push_hex(text, line, octets)
}

/// A field of octets behind its name. `line` is room that is used again.
pub(crate) fn push_octets(
    text: &mut String,
    line: &mut Line,
    name: &str,
    octets: &[u8],
) -> Result<(), AllocError>
    ensures text { OnOk result
        (string_bytes text.new ≡ string_bytes text.old ++ (name.now ++ octets_text octets.now)) }
    ensures kept { StartsWith (string_bytes text.new) (string_bytes text.old) }
{
    if octets.is_empty() {
        text.push_str(name)?;
        return text.push_str("-");
    }
    push_digits(text, line, name, octets)
}

// Octets as digits, or the word for none, behind a colon, in front of a line.
#[inline(always)]
fn put_octets(line: &mut Line, octets: &[u8])
    requires { length line.old + 2 * length octets.now + 2 ≤ 512 }
    ensures text { line.new ≡ codes ":" ++ (octets_text octets.now ++ line.old) }
    ensures room { length line.new ≤ length line.old + 2 * length octets.now + 2 }
{
    if octets.is_empty() {
        line.put_str(":-");
        return;
    }
    line.put_named_digits(":", octets);
}

/// A field of octets behind a short name and the digits of an id. `line` is room that is used again.
#[inline(always)]
pub(crate) fn push_value(
    text: &mut String,
    line: &mut Line,
    name: &str,
    id: &[u8],
    octets: &[u8],
) -> Result<(), AllocError>
    requires { (length name.now ≤ 16) × (length id.now ≤ 4) }
    ensures text { OnOk result (string_bytes text.new ≡ string_bytes text.old
        ++ (name.now ++ (encode_lower id.now ++ (codes ":" ++ octets_text octets.now)))) }
    ensures kept { StartsWith (string_bytes text.new) (string_bytes text.old) }
{
    if octets.len() <= SHORT {
        line.clear();
        put_octets(line, octets);
        line.put_named_digits(name, id);
        return line.push_to(text);
    }
    push_digits(text, line, name, id)?;
    push_octets(text, line, ":", octets)
}
