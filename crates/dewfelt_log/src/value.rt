//! How a key and a value stand in a line.

ghost use Rattle.std.specs.Prelude.{◌≡◌, ◌<◌, ◌≤◌, ◌++◌, ◌∷◌, [], ◌/◌, ◌%◌, length, take, map, flat_map, OnOk};
ghost use Rattle.dewfelt_log.specs.Logfmt.{is_bare, letter, all_bare, digit, escaped, shown, shown_length, goes_on, key_text};

use std::alloc::AllocError;

/// So many octets of a value are shown at most (this project's own).
pub const SHOWN: usize = 64;

// Whether an octet stands in a value as it is, where the value has no quotes round it.
fn is_bare(octet: u8) -> bool
    ensures { result ≡ is_bare octet }
{
    if octet <= 0x20 || octet == 0x7f {
        return false;
    }
    !(octet == b'"' || octet == b'=' || octet == b'\\')
}

fn letter(octet: u8) -> u8
    ensures { result ≡ letter octet }
{
    if (b'a' <= octet && octet <= b'z') || octet == b'_' {
        octet
    } else {
        b'_'
    }
}

fn are_bare(value: &[u8]) -> bool
    ensures { result ≡ all_bare value.now }
{
    for octet in value {
        if !is_bare(*octet) {
            return false;
        }
    }
    true
}

// Whether an octet goes on a character that began before it, in UTF-8.
fn goes_on(octet: u8) -> bool
    ensures { result ≡ goes_on octet }
{
    0x80 <= octet && octet < 0xc0
}

// How many octets of a value are shown. They end between two characters, where the value is UTF-8.
fn shown_length(value: &[u8]) -> usize
    ensures within { result ≤ length value.now }
    ensures same { result ≡ shown_length value.now }
{
    if value.len() <= SHOWN {
        return value.len();
    }
    if !goes_on(value[SHOWN]) {
        return SHOWN;
    }
    if !goes_on(value[SHOWN - 1]) {
        return SHOWN - 1;
    }
    if !goes_on(value[SHOWN - 2]) {
        return SHOWN - 2;
    }
    SHOWN - 3
}

/// The front of a value that is shown.
pub(crate) fn cut(value: &[u8]) -> &[u8]
    ensures { result.now ≡ take (shown_length value.now) value.now }
{
    &value[..shown_length(value)]
}

fn digit(number: u8) -> u8
    requires { number < 16 }
    ensures { result ≡ digit number }
{
    if number < 10 {
        b'0' + number
    } else {
        b'W' + number
    }
}

// Puts a control character as `\x` and two digits.
fn put_control(line: &mut Vec<u8>, octet: u8) -> Result<(), AllocError>
    ensures { OnOk result (line.new.items ≡ line.old.items
        ++ 92 ∷ 120 ∷ digit (octet / 16) ∷ digit (octet % 16) ∷ []) }
{
    line.push(b'\\')?;
    line.push(b'x')?;
    line.push(digit(octet / 16))?;
    line.push(digit(octet % 16))?;
    Ok(())
}

fn put_behind_backslash(line: &mut Vec<u8>, octet: u8) -> Result<(), AllocError>
    ensures { OnOk result (line.new.items ≡ line.old.items ++ 92 ∷ octet ∷ []) }
{
    line.push(b'\\')?;
    line.push(octet)?;
    Ok(())
}

// Puts an octet as it stands between quotes.
fn put_quoted(line: &mut Vec<u8>, octet: u8) -> Result<(), AllocError>
    ensures { OnOk result (line.new.items ≡ line.old.items ++ escaped octet) }
{
    if octet == b'"' || octet == b'\\' {
        return put_behind_backslash(line, octet);
    }
    if octet < 0x20 || octet == 0x7f {
        return put_control(line, octet);
    }
    line.push(octet)?;
    Ok(())
}

fn put_all_quoted(line: &mut Vec<u8>, value: &[u8]) -> Result<(), AllocError>
    ensures { OnOk result (line.new.items ≡ line.old.items ++ flat_map escaped value.now) }
{
    for octet in value {
        put_quoted(line, *octet)?;
    }
    Ok(())
}

fn put_quotes(line: &mut Vec<u8>, value: &[u8]) -> Result<(), AllocError>
    ensures { OnOk result (line.new.items ≡ line.old.items
        ++ 34 ∷ (flat_map escaped value.now ++ 34 ∷ [])) }
{
    line.push(b'"')?;
    put_all_quoted(line, value)?;
    line.push(b'"')?;
    Ok(())
}

// Puts a value: as it is, or between quotes.
pub(crate) fn put_value(line: &mut Vec<u8>, value: &[u8]) -> Result<(), AllocError>
    ensures { OnOk result (line.new.items ≡ line.old.items ++ shown value.now) }
{
    if !value.is_empty() && are_bare(value) {
        return line.extend_from_slice(value);
    }
    put_quotes(line, value)
}

fn put_letters(line: &mut Vec<u8>, key: &[u8]) -> Result<(), AllocError>
    ensures { OnOk result (line.new.items ≡ line.old.items ++ map letter key.now) }
{
    for octet in key {
        line.push(letter(*octet))?;
    }
    Ok(())
}

// Puts a key. An octet that is no letter of keys becomes `_`, and so does no octet at all.
pub(crate) fn put_key(line: &mut Vec<u8>, key: &[u8]) -> Result<(), AllocError>
    ensures { OnOk result (line.new.items ≡ line.old.items ++ key_text key.now) }
{
    if key.is_empty() {
        line.push(b'_')?;
        return Ok(());
    }
    put_letters(line, key)
}
