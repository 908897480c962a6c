//! Octets as GBK.

ghost use Rattle.std.specs.Prelude.{◌≡◌, ◌<◌, ◌≤◌, ◌++◌, length, IfSome, OnOk, IfOk, string_bytes, codes, flat_map};
ghost use Rattle.dewfelt_log.specs.Logfmt.{digit, two_hex};

use crate::gbk_characters::characters;
use std::alloc::{AllocError, Global};

// How many characters a row has.
const ROW: usize = 190;

// The place of a second octet in its row.
fn column(second: u8) -> Option<usize>
    ensures { IfSome result (λ column. column < ROW) }
{
    if 0x40 <= second && second < 0x7f {
        return Some(second as usize - 0x40);
    }
    if 0x7f < second && second < 0xff {
        return Some(second as usize - 0x41);
    }
    None
}

// The character that two octets stand for.
fn pair(first: u8, second: u8) -> Option<char> {
    if first < 0x81 || first == 0xff {
        return None;
    }
    let place = (first as usize - 0x81) * ROW + column(second)?;
    match characters().get(place) {
        Some(0) | None => None,
        Some(number) => char::from_u32(*number as u32),
    }
}

// The first character of octets that are not empty, and how many octets it has.
fn first_of(octets: &[u8]) -> Option<(char, usize)>
    ensures { IfSome result (λ found. (1 ≤ found.1) × (found.1 ≤ length octets.now)) }
{
    let (first, rest) = octets.split_first()?;
    if 0x20 <= *first && *first < 0x7f {
        return Some((*first as char, 1));
    }
    let second = rest.first()?;
    Some((pair(*first, *second)?, 2))
}

// The characters of octets that are GBK; None where they are not.
fn text_of(alloc: Global, octets: &[u8]) -> Result<Option<String>, AllocError> {
    let mut text = String::new(alloc);
    let mut rest = octets;
    while !rest.is_empty() {
        let Some((found, count)) = first_of(rest) else {
            return Ok(None);
        };
        text.push(found)?;
        rest = &rest[count..];
    }
    Ok(Some(text))
}

// The octets that a character has: one, or two.
fn octets_of(character: char) -> Option<(u8, Option<u8>)> {
    let number = u16::try_from(u32::from(character)).ok()?;
    if 0x20 <= number && number < 0x7f {
        return Some((number as u8, None));
    }
    let place = characters().iter().position(|one| *one == number)?;
    let first = u8::try_from(0x81 + place / ROW).ok()?;
    Some((first, Some(second_of(place % ROW))))
}

// The second octet of a place in its row.
fn second_of(column: usize) -> u8
    requires { column < ROW }
{
    if column < 0x3f {
        column as u8 + 0x40
    } else {
        column as u8 + 0x41
    }
}

/// The octets of a text in GBK. None where it has a character that is not in GBK, or a control character.
pub fn gbk_octets(alloc: Global, text: &str) -> Result<Option<Vec<u8>>, AllocError> {
    let mut octets = Vec::new(alloc);
    for character in text.chars() {
        let Some((first, second)) = octets_of(character) else {
            return Ok(None);
        };
        octets.push(first)?;
        if let Some(second) = second {
            octets.push(second)?;
        }
    }
    Ok(Some(octets))
}

fn hex_digit(number: u8) -> char
    requires { number < 16 }
    ensures { result ≡ digit number }
{
    if number < 10 {
        (b'0' + number) as char
    } else {
        (b'W' + number) as char
    }
}

fn push_digits(text: &mut String, octet: u8) -> Result<(), AllocError>
    ensures { OnOk result (string_bytes text.new ≡ string_bytes text.old ++ two_hex octet) }
{
    text.push(hex_digit(octet / 16))?;
    text.push(hex_digit(octet % 16))?;
    Ok(())
}

// `0x`, and two hexadecimal digits for each octet.
fn digits(alloc: Global, octets: &[u8]) -> Result<String, AllocError>
    ensures { IfOk result (λ text. string_bytes text ≡ codes "0x" ++ flat_map two_hex octets.now) }
{
    let mut text = String::from_str(alloc, "0x")?;
    for octet in octets {
        push_digits(&mut text, *octet)?;
    }
    Ok(text)
}

/// The text that octets stand for in GBK, which the standard says of texts. Where they are no GBK, or have a control character, it
/// is `0x` and their hexadecimal digits.
pub fn in_gbk(alloc: Global, octets: &[u8]) -> Result<String, AllocError> {
    match text_of(alloc, octets)? {
        Some(text) => Ok(text),
        None => digits(alloc, octets),
    }
}
