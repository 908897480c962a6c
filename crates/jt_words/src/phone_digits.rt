//! Phones as decimal digits.

ghost use Rattle.std.specs.Prelude.{◌≡◌};
ghost use Rattle.jt_words.specs.PhoneDigits.{phone_in as phone_in_text, phone_with_digits as phone_with};

use hex::FromHex;
use jt_value::{Edition, Phone};

/// The digits of a phone of 2013.
const DIGITS_IN_2013: usize = 12;

/// The digits of a phone of 2019.
const DIGITS_IN_2019: usize = 20;

/// The phone of this edition that decimal digits write, twelve in 2013 and twenty in 2019. None is for all other texts.
#[tactic(auto, unfolding(crate::specs::PhoneDigits::phone_in))]
pub fn phone_in(edition: Edition, text: &[u8]) -> Option<Phone>
    ensures { result ≡ phone_in_text edition text.now }
{
    match edition {
        Edition::E2013 => {
            let field = <[u8; 6] as FromHex>::from_hex(text).ok()?;
            Phone::from_octets(edition, &field).ok()
        }
        Edition::E2019 => {
            let field = <[u8; 10] as FromHex>::from_hex(text).ok()?;
            Phone::from_octets(edition, &field).ok()
        }
    }
}

/// The phone that decimal digits write, where their number says of which edition: twelve are a phone of 2013, and twenty one of
/// 2019. None is for all other texts.
pub fn phone_with_digits(text: &[u8]) -> Option<Phone>
    ensures { result ≡ phone_with text.now }
{
    match text.len() {
        DIGITS_IN_2013 => phone_in(Edition::E2013, text),
        DIGITS_IN_2019 => phone_in(Edition::E2019, text),
        _ => None,
    }
}
