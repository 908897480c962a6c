//! What is wrong with a line of a fleet.

use jt_value::Memory;
use std::alloc::{AllocError, AllocFailed, Global};
use std::fmt;

// How many characters of a bad line are shown (this project's own).
const SHOWN: usize = 64;

/// What was expected in place of a bad line.
#[derive(Clone, Copy, Debug, PartialEq, Eq)]
pub enum Expected {
    /// One of the four kinds of lines.
    Kind,
    /// The octets of a secret.
    Secret,
    /// The secret before all other lines.
    SecretFirst,
    /// One secret, and no second one.
    OneSecret,
    /// A plate.
    Plate,
    /// A plate that no vehicle has.
    FreePlate,
    /// A terminal id.
    Terminal,
    /// A terminal id that no vehicle has.
    FreeTerminal,
    /// A plate, a terminal id and a phone.
    Vehicle,
    /// A plate, a terminal id and a phone that no other line has.
    FreeVehicle,
}

impl fmt::Display for Expected {
    fn fmt<W: fmt::Write>(&self, f: &mut fmt::Formatter<W>) -> fmt::Result {
        f.write_str(self.text())
    }
}

impl Expected {
    fn text(self) -> &'static str {
        match self {
            Expected::Kind => "a line secret, plate, terminal or vehicle",
            Expected::Secret => "secret and hexadecimal digits, two for each octet, or secret -",
            Expected::SecretFirst => "a line secret before all others",
            Expected::OneSecret => "no second line secret",
            Expected::Plate => "plate and pairs of hexadecimal digits, or quoted text of GBK",
            Expected::FreePlate => "a plate that stands in no line vehicle",
            Expected::Terminal => "terminal and pairs of hexadecimal digits, or quoted ASCII",
            Expected::FreeTerminal => "a terminal id that stands in no line vehicle",
            Expected::Vehicle => "vehicle, a plate, a terminal id, and a phone of 1 to 20 digits",
            Expected::FreeVehicle =>
                "a plate, a terminal id and a phone that stand in no other line",
        }
    }
}

/// The first bad line of a text.
#[derive(Drop)]
pub struct BadLine {
    /// Its number, from 1. A text that ends without a secret is bad at the line behind its last one.
    pub number: u64,
    /// Its first 64 characters, with `?` for those that can't be printed, where its first word is plate, terminal or vehicle. Every other
    /// line may hold the secret: of it that word alone, if it is of letters.
    pub text: String,
    pub expected: Expected,
}

impl fmt::Display for BadLine {
    fn fmt<W: fmt::Write>(&self, f: &mut fmt::Formatter<W>) -> fmt::Result {
        let number = self.number;
        let text = self.text.as_str();
        let expected = self.expected.text();
        write!(f, "line {number} is bad: {text}: expected {expected}")
    }
}

/// Why a text names no fleet.
#[derive(Drop)]
pub enum NoFleet {
    /// A line is bad.
    Bad(BadLine),
    /// Memory was wanted and refused.
    Memory,
}

impl From<AllocError> for NoFleet {
    fn from(_error: AllocError) -> NoFleet {
        NoFleet::Memory
    }
}

// Why a line is not taken.
pub(crate) enum NoLine {
    Bad(Expected),
    Memory,
}

impl From<Memory> for NoLine {
    fn from(_memory: Memory) -> NoLine {
        NoLine::Memory
    }
}

impl From<AllocError> for NoLine {
    fn from(_error: AllocError) -> NoLine {
        NoLine::Memory
    }
}

impl<T: Drop> From<AllocFailed<T>> for NoLine {
    fn from(_error: AllocFailed<T>) -> NoLine {
        NoLine::Memory
    }
}

// Whether a character has a sign of its own, and changes no other's place.
fn is_shown(character: char) -> bool {
    !character.is_control()
        && !('\u{200b}'..='\u{200f}').contains(&character)
        && !('\u{2028}'..='\u{202e}').contains(&character)
        && !('\u{2060}'..='\u{206f}').contains(&character)
        && character != '\u{feff}'
}

fn shown_text(alloc: Global, text: &str) -> Result<String, AllocError> {
    let mut shown = String::new(alloc);
    for character in text.chars().take(SHOWN) {
        shown.push(if is_shown(character) { character } else { '?' })?;
    }
    Ok(shown)
}

fn shown_octets(alloc: Global, octets: &[u8]) -> Result<String, AllocError> {
    let mut shown = String::new(alloc);
    for octet in octets.iter().take(SHOWN) {
        let is_ascii = 0x20 <= *octet && *octet < 0x7f;
        shown.push(if is_ascii { *octet as char } else { '?' })?;
    }
    Ok(shown)
}

// The first word of a line.
fn first_word(line: &[u8]) -> &[u8] {
    let Some(begin) = line
        .iter()
        .position(|octet| *octet != b' ' && *octet != b'\t')
    else {
        return b"".as_slice();
    };
    let rest = &line[begin..];
    match rest
        .iter()
        .position(|octet| *octet == b' ' || *octet == b'\t')
    {
        Some(end) => &rest[..end],
        None => rest,
    }
}

fn begins_open_line(word: &[u8]) -> bool {
    word == b"plate".as_slice() || word == b"terminal".as_slice() || word == b"vehicle".as_slice()
}

// What is shown of a line: all of one that can hold no secret, and of another its first word, if that is of letters.
pub(crate) fn shown(alloc: Global, line: &[u8]) -> Result<String, AllocError> {
    let word = first_word(line);
    let part = if begins_open_line(word) {
        line
    } else if word.iter().all(|octet| octet.is_ascii_alphabetic()) {
        word
    } else {
        b"".as_slice()
    };
    match str::from_utf8(part) {
        Ok(text) => shown_text(alloc, text),
        Err(_) => shown_octets(alloc, part),
    }
}
