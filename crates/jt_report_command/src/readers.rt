//! Readers of the values of options.

ghost use Rattle.std.specs.Prelude.{◌≡◌, ◌≤◌, IfOk, IsTrue, MatchOption, option_copied, string_bytes};
ghost use Rattle.std.specs.Fmt.{decimal};
ghost use Rattle.std.specs.List.{list_all};
ghost use Rattle.jt_input.specs.Spelling.{Reads};
ghost use Rattle.jt_report_command.specs.Values.{is_host as is_host_text, is_host_octet as is_of_host, edition_in, octets_in};

use hex::FromHexError;
use jt_input::number;
use jt_value::{Edition, Memory, Octets, Seq};
use std::alloc::Global;

/// The octets of a host's name at most (this project's own).
const HOST_LIMIT: usize = 255;

// A number from 1 to the greatest.
pub(crate) fn number_up_to(text: &[u8], most: u32) -> Option<u32>
    ensures { Reads decimal (λ number. (1 ≤ number) × (number ≤ most)) text.now result }
{
    match number(text, most)? {
        0 => None,
        number => Some(number),
    }
}

fn is_host_octet(octet: u8) -> bool
    ensures { result ≡ is_of_host octet }
{
    octet.is_ascii_alphanumeric() || octet == b'.' || octet == b'-' || octet == b':'
}

fn are_host_octets(octets: &[u8]) -> bool
    ensures { result ≡ list_all is_of_host octets.now }
{
    octets.iter().all(|octet| is_host_octet(*octet))
}

fn is_host(text: &[u8]) -> bool
    ensures { result ≡ is_host_text text.now }
{
    match text.first() {
        None => false,
        Some(first) => text.len() <= HOST_LIMIT && *first != b'-' && are_host_octets(text),
    }
}

// The name or address of a host, 1 to 255 ASCII letters, digits, `.`, `-` and `:`, of which `-` is not the first.
pub(crate) fn host(alloc: Global, text: &[u8]) -> Result<Option<String>, Memory>
    ensures { IfOk result (λ host. MatchOption host (IsTrue (is_host_text text.now) → ⊥)
        (λ host. IsTrue (is_host_text text.now) × (string_bytes host ≡ text.now))) }
{
    if !is_host(text) {
        return Ok(None);
    }
    match str::from_utf8(text) {
        Ok(text) => Ok(Some(String::from_str(alloc, text)?)),
        Err(_) => Ok(None),
    }
}

// The edition that a value names, and that of 2013 where there is none.
pub(crate) fn edition(text: Option<&[u8]>) -> Option<Edition>
    ensures { result ≡ edition_in (option_copied text.entry) }
{
    let Some(text) = text else {
        return Some(Edition::E2013);
    };
    if text == b"2013".as_slice() {
        return Some(Edition::E2013);
    }
    if text == b"2019".as_slice() {
        return Some(Edition::E2019);
    }
    None
}

// The octets that pairs of hexadecimal digits write, from 1 to so many.
#[tactic(auto, unfolding(crate::specs::Values::octets_in))]
pub(crate) fn octets(alloc: Global, text: &[u8], most: usize) -> Result<Option<Octets>, Memory>
    ensures { IfOk result (λ octets. octets ≡ octets_in most text.now) }
{
    match hex::decode(alloc, text) {
        Ok(octets) => {
            if octets.is_empty() || octets.len() > most {
                return Ok(None);
            }
            Ok(Some(Seq::from_vec(octets)))
        }
        Err(FromHexError::OutOfMemory) => Err(Memory),
        Err(_) => Ok(None),
    }
}
