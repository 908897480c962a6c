//! Phones as the words of a command have them.

ghost use Rattle.std.specs.Prelude.{◌≡◌, ◌≤◌, ◌&&◌, ◌∷◌, [], true, false, flat_map, length, IfOk, MatchOption};
ghost use Rattle.dewfelt_settings.specs.Phones.{IsPhoneText, are_digits, digits_text, filled, is_digit, two_digits};
ghost use Rattle.jt_value.specs.declared.phone.Edition.TheVariants.{E2019};

use jt_value::{Edition, Phone};
use std::alloc::{AllocError, Global};

// How many digits a phone has, and how many octets.
const DIGITS: usize = 20;

const OCTETS: usize = 10;

fn is_digit(octet: u8) -> bool
    ensures { result ≡ is_digit octet }
{
    b'0' <= octet && octet <= b'9'
}

// The octet of two digits.
fn pair(first: u8, second: u8) -> Option<u8>
    ensures { MatchOption result ((is_digit first && is_digit second) ≡ false) (λ octet.
        ((is_digit first && is_digit second) ≡ true)
        × (two_digits octet ≡ first ∷ second ∷ [])) }
{
    if !is_digit(first) || !is_digit(second) {
        return None;
    }
    Some(16 * (first - b'0') + (second - b'0'))
}

// The octets of twenty digits, two an octet.
fn octets_of(alloc: Global, letters: &[u8]) -> Result<Option<Vec<u8>>, AllocError>
    requires { length letters.now ≡ 20 }
    ensures { IfOk result (λ found. MatchOption found (are_digits letters.now ≡ false) (λ octets.
        (are_digits letters.now ≡ true) × (length octets.items ≡ 10)
        × (flat_map two_digits octets.items ≡ letters.now))) }
{
    let mut octets = Vec::new(alloc);
    let mut rest = letters;
    while let Some((first, behind)) = rest.split_first() {
        let Some((second, others)) = behind.split_first() else {
            return Ok(None);
        };
        let Some(octet) = pair(*first, *second) else {
            return Ok(None);
        };
        octets.push(octet)?;
        rest = others;
    }
    Ok(Some(octets))
}

// The phone of 2019 of ten octets.
fn of_octets(octets: &[u8]) -> Phone
    requires { length octets.now ≡ 10 }
    ensures { (result.edition ≡ E2019) × (result.digits ≡ octets.now) }
{
    let mut digits = [0; OCTETS];
    digits.copy_from_slice(octets);
    Phone {
        edition: Edition::E2019,
        digits,
    }
}

// A text with zeros before it, twenty digits.
fn filled(alloc: Global, text: &[u8]) -> Result<Vec<u8>, AllocError>
    requires { length text.now ≤ 20 }
    ensures { IfOk result (λ letters. letters.items ≡ filled text.now) }
{
    let mut letters = vec![in alloc; b'0'; DIGITS - text.len()]?;
    letters.extend_from_slice(text)?;
    Ok(letters)
}

/// The phone of 2019 with these decimal digits, 1 to 20, and zeros before them. None is for all other texts. (registrations are
/// kept by digits alone, so a phone of 2013 is the one with its twelve digits)
#[tactic(auto, using(crate::proofs::Digits::are_filled, crate::proofs::Digits::length_filled))]
pub fn phone_of(alloc: Global, text: &[u8]) -> Result<Option<Phone>, AllocError>
    ensures { IfOk result (λ found. MatchOption found (¬ IsPhoneText text.now) (λ phone.
        IsPhoneText text.now × (phone.edition ≡ E2019)
        × (digits_text phone.digits ≡ filled text.now))) }
{
    if text.is_empty() || text.len() > DIGITS {
        return Ok(None);
    }
    let letters = filled(alloc, text)?;
    match octets_of(alloc, letters.as_slice())? {
        Some(octets) => Ok(Some(of_octets(octets.as_slice()))),
        None => Ok(None),
    }
}
