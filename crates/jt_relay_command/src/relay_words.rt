//! The words of `relay`.

ghost use Rattle.std.specs.Prelude.{◌≡◌, map, string_bytes, IfSome, MatchOption};
ghost use Rattle.jt_value.specs.declared.phone.Phone.{Phone as Whose};
ghost use Rattle.jt_relay_command.specs.RelayWords.{AreWords};

use jt_value::Phone;
use jt_words::{only_option_value, phone_with_digits};

/// What `relay` is told (this project's own words).
#[derive(Clone, Copy, Debug, PartialEq, Eq)]
pub struct RelayWords {
    /// Whose rows are passed on. Twelve digits are a phone of 2013, twenty are one of 2019.
    pub phone: Phone,
}

const PHONE: &[u8] = b"phone";

impl RelayWords {
    /// Reads the words after the program's name. None means that they are no words of `relay`.
    pub fn from_words(words: &[String]) -> Option<RelayWords>
        ensures some { IfSome result (λ told. AreWords told.phone (map string_bytes words.now)) }
        ensures that_one { (phone : Whose) → AreWords phone (map string_bytes words.now) →
            MatchOption result ⊥ (λ told. told.phone ≡ phone) }
    {
        let (command, options) = words.split_first()?;
        if command.as_str() != "relay" {
            return None;
        }
        let phone = phone_with_digits(only_option_value(options, PHONE)?)?;
        Some(RelayWords { phone })
    }
}
