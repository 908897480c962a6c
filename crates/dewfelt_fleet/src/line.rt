//! The lines of a fleet.

ghost use Rattle.std.specs.Prelude.{◌≤◌, IfSome};
ghost use Rattle.jt_store.specs.Tables.{IsTrimmed};

use crate::bad::{Expected, NoLine};
use crate::words::{Word, next_word, without_spaces};
use dewfelt_log::gbk_octets;
use hex::FromHexError;
use jt_store::Registered;
use jt_value::{Edition, Octets, Phone};
use std::alloc::Global;

// How many digits a phone has.
const DIGITS: usize = 20;

// A vehicle: a phone, and what is bound to it.
#[derive(Drop)]
pub(crate) struct Vehicle {
    pub phone: Phone,
    pub registered: Registered,
    ghost trimmed: { IsTrimmed registered.terminal },
}

// A terminal id without zeros at its end.
#[derive(Drop)]
pub(crate) struct Id {
    pub octets: Octets,
    ghost trimmed: { IsTrimmed octets },
}

// What a line of a fleet says.
#[derive(Drop)]
pub(crate) enum FleetLine {
    /// Nothing: it is empty, or a comment.
    Passed,
    Secret(Octets),
    Plate(Octets),
    Terminal(Id),
    Vehicle(Vehicle),
}

// The octets that pairs of hexadecimal digits write, one pair or more.
fn hexadecimal(alloc: Global, digits: &[u8], expected: Expected) -> Result<Octets, NoLine> {
    if digits.is_empty() {
        return Err(NoLine::Bad(expected));
    }
    match hex::decode(alloc, digits) {
        Ok(octets) => Ok(Octets::from_vec(octets)),
        Err(FromHexError::OutOfMemory) => Err(NoLine::Memory),
        Err(_) => Err(NoLine::Bad(expected)),
    }
}

// A text in GBK, which is not empty.
fn in_gbk(alloc: Global, text: &[u8], expected: Expected) -> Result<Octets, NoLine> {
    if text.is_empty() {
        return Err(NoLine::Bad(expected));
    }
    match str::from_utf8(text) {
        Ok(text) => match gbk_octets(alloc, text)? {
            Some(octets) => Ok(Octets::from_vec(octets)),
            None => Err(NoLine::Bad(expected)),
        },
        Err(_) => Err(NoLine::Bad(expected)),
    }
}

// A text in ASCII, which is not empty.
fn in_ascii(alloc: Global, text: &[u8], expected: Expected) -> Result<Octets, NoLine> {
    let is_ascii = text.iter().all(|octet| 0x20 <= *octet && *octet < 0x7f);
    if text.is_empty() || !is_ascii {
        return Err(NoLine::Bad(expected));
    }
    Ok(Octets::from_vec(Vec::from_slice(alloc, text)?))
}

fn secret_of(alloc: Global, word: Word<'_>) -> Result<Octets, NoLine> {
    match word {
        Word::Bare(b"-") => Ok(Octets::new(alloc)),
        Word::Bare(digits) => hexadecimal(alloc, digits, Expected::Secret),
        Word::Quoted(_) => Err(NoLine::Bad(Expected::Secret)),
    }
}

fn plate_of(alloc: Global, word: Word<'_>, expected: Expected) -> Result<Octets, NoLine> {
    match word {
        Word::Bare(digits) => hexadecimal(alloc, digits, expected),
        Word::Quoted(text) => in_gbk(alloc, text, expected),
    }
}

// The octets without the zeros at their end.
fn without_zeros(octets: &[u8]) -> &[u8]
    ensures { IsTrimmed result.now }
{
    let mut rest = octets;
    while let Some((last, front)) = rest.split_last() {
        if *last != 0 {
            return rest;
        }
        rest = front;
    }
    rest
}

fn terminal_of(alloc: Global, word: Word<'_>, expected: Expected) -> Result<Id, NoLine> {
    let all = match word {
        Word::Bare(digits) => hexadecimal(alloc, digits, expected)?,
        Word::Quoted(text) => in_ascii(alloc, text, expected)?,
    };
    let octets = Octets::from_vec(Vec::from_slice(alloc, without_zeros(all.as_slice()))?);
    Ok(Id { octets })
}

fn digit_of(octet: u8) -> Option<u8>
    ensures { IfSome result (λ digit. digit ≤ 9) }
{
    if octet.is_ascii_digit() {
        Some(octet - b'0')
    } else {
        None
    }
}

// Two digits in one octet.
fn two_digits(high: u8, low: u8) -> Option<u8> {
    Some(digit_of(high)? * 16 + digit_of(low)?)
}

// Twenty digits, two an octet.
fn packed(text: &[u8; DIGITS]) -> Option<[u8; 10]> {
    let mut digits = [0; 10];
    for (place, octet) in digits.iter_mut().enumerate() {
        *octet = two_digits(text[2 * place], text[2 * place + 1])?;
    }
    Some(digits)
}

// The phone of 2019 with these decimal digits at its end, and zeros before them. None where there are none or more than twenty.
fn phone_of(text: &[u8]) -> Option<Phone> {
    if text.is_empty() || text.len() > DIGITS {
        return None;
    }
    let mut all = [b'0'; DIGITS];
    all[DIGITS - text.len()..].copy_from_slice(text);
    let digits = packed(&all)?;
    Some(Phone {
        edition: Edition::E2019,
        digits,
    })
}

// The first word, and what stands behind it.
fn word(words: &[u8], expected: Expected) -> Result<(Word<'_>, &[u8]), NoLine> {
    match next_word(words) {
        Some(found) => Ok(found),
        None => Err(NoLine::Bad(expected)),
    }
}

// The one word that is there.
fn only_word(words: &[u8], expected: Expected) -> Result<Word<'_>, NoLine> {
    let (only, rest) = word(words, expected)?;
    if without_spaces(rest).is_empty() {
        Ok(only)
    } else {
        Err(NoLine::Bad(expected))
    }
}

// The phone that the one word that is there says.
fn last_phone(words: &[u8], expected: Expected) -> Result<Phone, NoLine> {
    let found = match only_word(words, expected)? {
        Word::Bare(digits) => phone_of(digits),
        Word::Quoted(_) => None,
    };
    match found {
        Some(phone) => Ok(phone),
        None => Err(NoLine::Bad(expected)),
    }
}

// The vehicle that the words behind `vehicle` say.
fn vehicle_of(alloc: Global, words: &[u8]) -> Result<Vehicle, NoLine> {
    let expected = Expected::Vehicle;
    let (plate, words) = word(words, expected)?;
    let (terminal, words) = word(words, expected)?;
    let phone = last_phone(words, expected)?;
    let plate = plate_of(alloc, plate, expected)?;
    let Id { octets: terminal } = terminal_of(alloc, terminal, expected)?;
    Ok(Vehicle {
        phone,
        registered: Registered { plate, terminal },
    })
}

// What the words behind the first one say.
fn said(alloc: Global, kind: &[u8], words: &[u8]) -> Result<FleetLine, NoLine> {
    match kind {
        b"secret" => {
            let word = only_word(words, Expected::Secret)?;
            Ok(FleetLine::Secret(secret_of(alloc, word)?))
        }
        b"plate" => {
            let word = only_word(words, Expected::Plate)?;
            Ok(FleetLine::Plate(plate_of(alloc, word, Expected::Plate)?))
        }
        b"terminal" => {
            let word = only_word(words, Expected::Terminal)?;
            Ok(FleetLine::Terminal(terminal_of(alloc, word, Expected::Terminal)?))
        }
        b"vehicle" => Ok(FleetLine::Vehicle(vehicle_of(alloc, words)?)),
        _ => Err(NoLine::Bad(Expected::Kind)),
    }
}

/// Reads a line of a fleet, without its end.
pub(crate) fn fleet_line(alloc: Global, line: &[u8]) -> Result<FleetLine, NoLine> {
    let line = without_spaces(line);
    if line.is_empty() || line.starts_with(b"#".as_slice()) {
        return Ok(FleetLine::Passed);
    }
    match next_word(line) {
        Some((Word::Bare(kind), words)) => said(alloc, kind, words),
        _ => Err(NoLine::Bad(Expected::Kind)),
    }
}
