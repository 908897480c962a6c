//! The digits of phones, as text.

ghost use Rattle.std.specs.Prelude.{◌<◌};

use std::alloc::{AllocError, Global};

// A phone has so many digits at most.
const MOST: usize = 20;

// So many octets at the front of a phone of twelve digits are zeros.
const SHORT: usize = 4;

// The digit at a place from the end.
fn digit_from_end(text: &[u8], place: usize) -> u8
    ensures { result < 16 }
{
    if place < text.len() {
        text[text.len() - 1 - place] % 16
    } else {
        0
    }
}

/// The digits of a phone, two an octet, of which zeros at the front may be left out. None where the text is no 1 to 20 digits.
pub fn digits_of(text: &str) -> Option<[u8; 10]> {
    let octets = text.as_bytes();
    let are_digits = octets.iter().all(|octet| octet.is_ascii_digit());
    if octets.is_empty() || octets.len() > MOST || !are_digits {
        return None;
    }
    let mut digits = [0; 10];
    for place in 0..10usize {
        let low = digit_from_end(octets, 2 * place);
        let high = digit_from_end(octets, 2 * place + 1);
        digits[9 - place] = high * 16 + low;
    }
    Some(digits)
}

/// A phone as it is shown: twelve digits, or twenty where the first eight are not zeros.
pub fn phone_text(alloc: Global, digits: &[u8; 10]) -> Result<String, AllocError> {
    if digits.starts_with(&[0; SHORT]) {
        return hex::encode(alloc, &digits[SHORT..]);
    }
    hex::encode(alloc, &digits[..])
}
