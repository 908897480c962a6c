//! Octets that are written as hexadecimal digits.

ghost use Rattle.std.specs.Prelude.{◌≡◌, ◌<◌, ◌+◌, ◌↔◌, List, ℕ, [], ◌∷◌, ◌++◌, length, option_to_list, IfOk, IfSome, OnOk, OnErr, IsTrue, None};
ghost use Rattle.hex.specs.Hex.{is_hex_digit};
ghost use Rattle.jt_view.specs.HexInput.{is_blank, octet_of, first_wrong, digits, octets_of_digits, unpaired, IsOdd, StandsFor, Completes};

use jt_value::Memory;
use std::marker::Model;

/// Reads hexadecimal digits, which come in pieces, into octets. The rules are this project's own.
///
/// Two digits are an octet, the higher one first, in either case. Space, tab, LF and CR are passed over wherever they
/// stand, also between the two digits of an octet. Any other octet is wrong.
#[derive(Drop)]
pub struct HexReader {
    // The digit, as it stands in the input, that waits for its second.
    waiting: Option<u8>,
}

impl Model for HexReader {
    ghost use Rattle.std.specs.Prelude.{◌≡◌, ℕ, Option, IfSome, IsTrue};
    ghost use Rattle.hex.specs.Hex.{is_hex_digit};

    ghost Value = { Option ℕ };

    ghost view = { λ reader. reader.waiting };

    ghost invariant = { λ reader. IfSome reader.waiting (λ digit. IsTrue (is_hex_digit digit)) };
}

fn is_blank(octet: u8) -> bool
    ensures { result ≡ is_blank octet }
{
    matches!(octet, b' ' | b'\t' | b'\n' | b'\r')
}

fn is_digit(octet: u8) -> bool
    ensures { result ≡ is_hex_digit octet }
{
    octet.is_ascii_hexdigit()
}

fn octet_of(high: u8, low: u8) -> u8
    requires high { IsTrue (is_hex_digit high) }
    requires low { IsTrue (is_hex_digit low) }
    ensures { result ≡ octet_of high low }
{
    let mut octet = [0];
    hex::decode_to_slice([high, low], &mut octet).unwrap();
    octet[0]
}

impl HexReader {
    /// A reader at the beginning of its input.
    pub fn new() -> HexReader
        ensures { StandsFor result [] }
    {
        HexReader { waiting: None }
    }

    /// Whether a digit waits for its second: the number of digits so far is odd.
    pub fn is_waiting(&self) -> bool
        ensures { (seen : List ℕ) → StandsFor self.now seen → IsTrue result ↔ IsOdd (digits seen) }
    {
        self.waiting.is_some()
    }

    fn take(&mut self, digit: u8, octets: &mut Vec<u8>) -> Result<(), Memory>
        requires { IsTrue (is_hex_digit digit) }
        ensures waits { OnOk result (self.new ≡ unpaired (option_to_list self.old ++ digit ∷ [])) }
        ensures octets { OnOk result (octets.new.items
            ≡ octets.old.items ++ octets_of_digits (option_to_list self.old ++ digit ∷ [])) }
        ensures err { OnErr result (octets.new.items ≡ octets.old.items) }
    {
        match self.waiting.take() {
            None => self.waiting = Some(digit),
            Some(high) => octets.push(octet_of(high, digit))?,
        }
        Ok(())
    }

    /// Takes the next octets of the input, and puts those that they complete at the end of `octets`. The answer is the
    /// index of the first wrong octet in `text`, where there is one: the octets of the digits before it were put, and
    /// what the reader then stands for is not said. After an Err the old items are still the first ones, and no more is
    /// said of items or reader.
    pub fn read(&mut self, text: &[u8], octets: &mut Vec<u8>) -> Result<Option<usize>, Memory>
        ensures right { IfOk result (λ wrong. wrong ≡ None →
            (seen : List ℕ) → StandsFor self.old seen → StandsFor self.new (seen ++ text.now)) }
        ensures wrong { IfOk result (λ wrong.
            IfSome wrong (λ index. (seen : List ℕ) → StandsFor self.old seen →
            first_wrong (seen ++ text.now) ≡ Some (length seen + index))) }
        ensures within { IfOk result (λ wrong. IfSome wrong (λ index. index < length text.now)) }
        ensures octets { IfOk result (λ _.
            Completes self.old text.now octets.old.items octets.new.items) }
        ensures err { OnErr result
            ((more : List ℕ) × (octets.new.items ≡ octets.old.items ++ more)) }
    {
        for (index, octet) in text.iter().enumerate() {
            if is_digit(*octet) {
                self.take(*octet, octets)?;
            } else if !is_blank(*octet) {
                return Ok(Some(index));
            }
        }
        Ok(None)
    }
}
