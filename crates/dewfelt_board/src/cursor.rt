//! Cursors: up to which change a reader was told.

use std::alloc::{AllocError, Global};

// A run is written with so many hexadecimal digits.
const RUN_DIGITS: usize = 8;

// A number has at most so many digits.
const NUMBER_DIGITS: usize = 19;

/// Up to which change a reader was told (this project's own).
#[derive(Clone, Copy, Debug, PartialEq, Eq)]
pub struct Cursor {
    /// The number of the last change that was told.
    pub told: u64,
    /// The number of the last change when it began to read. Equal to `told` where nothing was left to be told.
    pub point: u64,
}

fn number_of(text: &str) -> Option<u64> {
    let is_number = !text.is_empty()
        && text.len() <= NUMBER_DIGITS
        && text.bytes().all(|octet| octet.is_ascii_digit());
    if is_number { text.parse().ok() } else { None }
}

// The value of a lower-case hexadecimal digit.
fn value_of(digit: u8) -> Option<u32> {
    match digit {
        b'0'..=b'9' => Some((digit - b'0') as u32),
        b'a'..=b'f' => Some((digit - b'a') as u32 + 10),
        _ => None,
    }
}

fn run_of(text: &str) -> Option<u32> {
    if text.len() != RUN_DIGITS {
        return None;
    }
    let mut run: u32 = 0;
    for digit in text.bytes() {
        run = run.wrapping_mul(16).wrapping_add(value_of(digit)?);
    }
    Some(run)
}

impl Cursor {
    /// Reads a cursor and the run that it is of. None where the text is no cursor.
    pub fn read(text: &str) -> Option<(u32, Cursor)> {
        let (run, rest) = text.split_once('.')?;
        let run = run_of(run)?;
        let (told, point) = match rest.split_once(':') {
            Some((told, point)) => (number_of(told)?, number_of(point)?),
            None => {
                let told = number_of(rest)?;
                (told, told)
            }
        };
        Some((run, Cursor { told, point }))
    }

    /// The cursor as text, which `read` reads.
    pub fn text(&self, alloc: Global, run: u32) -> Result<String, AllocError> {
        let told = self.told;
        let point = self.point;
        if told == point {
            format!(in alloc; "{run:08x}.{told}")
        } else {
            format!(in alloc; "{run:08x}.{told}:{point}")
        }
    }
}
