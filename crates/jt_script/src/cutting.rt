//! A line cut into words, and the octets that a word writes.

ghost use Rattle.std.specs.Prelude.{◌≡◌, ◌==◌, [], ◌∷◌, position, IfOk, MatchOption};
ghost use Rattle.jt_script.specs.EventLines.{fix_if, fix_in, number_in, octets_in, words};

use hex::FromHexError;
use jt_input::number;
use jt_position::{Fix, FixError, law_positions};
use jt_value::{Memory, Octets};
use std::alloc::Global;

// The place of the first space.
fn space_in(line: &[u8]) -> Option<usize>
    ensures { result ≡ position (λ octet. octet == 32) line.now }
{
    line.iter().position(|octet| *octet == b' ')
}

/// The first word of a line, and what stands behind the space that ends it, if one does. One space separates two words, so that
/// there is an empty word where two spaces follow one another, and where a space begins or ends the line.
pub fn first_word(line: &[u8]) -> (&[u8], Option<&[u8]>)
    ensures { MatchOption result.1 (words line.now ≡ result.0.now ∷ [])
        (λ rest. words line.now ≡ result.0.now ∷ words rest.now) }
{
    match space_in(line) {
        Some(space) => (&line[..space], Some(&line[space + 1..])),
        None => (line, None),
    }
}

/// The number up to `most` that a word writes in decimal digits, without a sign and without a leading zero.
pub fn number_up_to(most: u32, word: &[u8]) -> Option<u32>
    ensures { result ≡ number_in most word.now }
{
    number(word, most)
}

/// The octets that a word writes as pairs of hexadecimal digits, of either case. None is for all other words.
#[tactic(auto, unfolding(crate::specs::EventLines::octets_in))]
pub fn octets_of(alloc: Global, word: &[u8]) -> Result<Option<Octets>, Memory>
    ensures { IfOk result (λ octets. octets ≡ octets_in word.now) }
{
    match hex::decode(alloc, word) {
        Ok(octets) => Ok(Some(Octets::from_vec(octets))),
        Err(FromHexError::OutOfMemory) => Err(Memory),
        Err(_) => Ok(None),
    }
}

// The fix that octets are.
#[tactic(auto, unfolding(crate::specs::EventLines::fix_if))]
fn fix_as(alloc: Global, octets: &[u8]) -> Result<Option<Fix>, Memory>
    ensures { IfOk result (λ fix. fix ≡ fix_if octets.now) }
{
    law_positions();
    match Fix::read(alloc, octets) {
        Ok(fix) => Ok(Some(fix)),
        Err(FixError::Long(_)) => Ok(None),
        Err(FixError::Refused(_)) => Ok(None),
        Err(FixError::Memory) => Err(Memory),
    }
}

/// The fix whose octets a word writes as pairs of hexadecimal digits, of either case. None is for all other words.
#[tactic(auto, unfolding(crate::specs::EventLines::octets_in, crate::specs::EventLines::fix_in))]
pub fn fix_of(alloc: Global, word: &[u8]) -> Result<Option<Fix>, Memory>
    ensures { IfOk result (λ fix. fix ≡ fix_in word.now) }
{
    match hex::decode(alloc, word) {
        Ok(octets) => fix_as(alloc, octets.as_slice()),
        Err(FromHexError::OutOfMemory) => Err(Memory),
        Err(_) => Ok(None),
    }
}
