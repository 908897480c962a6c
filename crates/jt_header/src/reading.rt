//! Reading the header of a content, or the first reason against it.

ghost use Rattle.std.specs.Prelude.{◌≡◌, ◌+◌, ◌<◌, ◌≤◌, ◌^◌, ℕ, List, [], ◌∷◌, length, IfOk, IfErr, MatchResult, IsOkAnd, None, Some};
ghost use Rattle.jt_value.specs.declared.limits.TheConstants.{CONTENT_LIMIT};
ghost use Rattle.jt_value.specs.Phone.{digits_of, field_len};
ghost use Rattle.jt_header.specs.Content.{Content};
ghost use Rattle.jt_header.specs.Fields.{attributes_at, edition_in, header_len_in, packet_at, packet_place, phone_place, serial_place, version_at, word_at};
ghost use Rattle.jt_header.specs.Law.{IsContentOfItsFields, IsFirstReason, IsLengthOfContent, IsNeverBoth, IsOneContent, IsOneOrTheOther, IsReadBack};
ghost use Rattle.jt_header.specs.Reason.{Reads, Rejects, bad_packet_number, check_mismatch, encrypted, first_of, length_mismatch, phone_digit, reason, too_short};
ghost use Rattle.jt_header.specs.declared.header.Header.{Header};

use crate::attributes::Attributes;
use crate::header::{Header, Packet};
use jt_escape::check;
use jt_value::{Edition, Phone, Refusal, Why};

// Where the first fields of a header stand.
const ID: usize = 0;

const ATTRIBUTES: usize = 2;

const VERSION: usize = 4;

// Where the other fields stand in an edition.
#[derive(Clone, Copy)]
struct Places {
    phone: usize,
    serial: usize,
    packet: usize,
}

const PLACES_2013: Places = Places {
    phone: 4,
    serial: 10,
    packet: 12,
};

const PLACES_2019: Places = Places {
    phone: 5,
    serial: 15,
    packet: 17,
};

#[inline(always)]
fn places_of(edition: Edition) -> Places
    ensures { result ≡ record {
      phone = phone_place edition;
      serial = serial_place edition;
      packet = packet_place edition;
    } }
{
    match edition {
        Edition::E2013 => PLACES_2013,
        Edition::E2019 => PLACES_2019,
    }
}

// The protocol version, which a header of 2013 has not.
#[inline(always)]
fn version(edition: Edition, content: &[u8]) -> u8
    requires { 5 ≤ length content.now }
    ensures { result ≡ version_at edition content.now }
{
    match edition {
        Edition::E2013 => 0,
        Edition::E2019 => content[VERSION],
    }
}

fn refusal(inside: usize, why: Why) -> Refusal
    requires { inside < 2 ^ 63 }
    ensures { result ≡ record { at = 0; inside = inside; why = why } }
{
    Refusal {
        at: 0,
        inside: inside as u64,
        why,
    }
}

#[inline(always)]
fn word(content: &[u8], place: usize) -> u16
    requires { place + 1 < length content.now }
    ensures { result ≡ word_at place content.now }
{
    u16::from_be_bytes([content[place], content[place + 1]])
}

// The attributes of a content that has room for its header and its check octet.
#[inline(always)]
#[tactic(auto, unfolding(crate::specs::Reason::too_short))]
fn attributes(content: &[u8]) -> Result<Attributes, Refusal>
    requires { length content.now ≤ CONTENT_LIMIT }
    ensures row { Rejects result (too_short content.now) }
    ensures value { IfOk result (λ attributes. attributes.0 ≡ attributes_at content.now) }
    ensures room { IfOk result (λ _.
        header_len_in (attributes_at content.now) < length content.now) }
{
    let len = content.len();
    if len < 5 {
        return Err(refusal(len, Why::TooShort));
    }
    let attributes = Attributes(word(content, ATTRIBUTES));
    if len < attributes.header_len() + 1 {
        return Err(refusal(len, Why::TooShort));
    }
    Ok(attributes)
}

#[inline(always)]
#[tactic(auto, unfolding(crate::specs::Reason::check_mismatch))]
fn check_octet(content: &[u8]) -> Result<(), Refusal>
    requires some { 0 < length content.now }
    requires short { length content.now ≤ CONTENT_LIMIT }
    ensures { Rejects result (check_mismatch content.now) }
{
    let last = content.len() - 1;
    let computed = check(&content[..last]);
    let found = content[last];
    if computed != found {
        return Err(refusal(last, Why::CheckMismatch { computed, found }));
    }
    Ok(())
}

// Whether the attributes are those of a plain message with a body of this length.
#[inline(always)]
#[tactic(auto, unfolding(crate::specs::Reason::encrypted, crate::specs::Reason::length_mismatch))]
fn attributes_hold(attributes: Attributes, actual: u16) -> Result<(), Refusal>
    ensures { Rejects result
        (first_of (encrypted attributes.0 ∷ length_mismatch attributes.0 actual ∷ [])) }
{
    if attributes.is_encrypted() {
        return Err(refusal(ATTRIBUTES, Why::Encrypted));
    }
    let declared = attributes.body_len();
    if declared != actual {
        return Err(refusal(ATTRIBUTES, Why::LengthMismatch { declared, actual }));
    }
    Ok(())
}

#[inline(always)]
#[tactic(auto, unfolding(crate::specs::Reason::phone_digit))]
fn phone(edition: Edition, field: &[u8]) -> Result<Phone, Refusal>
    requires { length field.now ≡ field_len edition }
    ensures row { Rejects result (phone_digit edition field.now) }
    ensures value { IfOk result (λ phone.
        phone ≡ record { edition = edition; digits = digits_of edition field.now }) }
{
    let start = places_of(edition).phone;
    let at_digit = |offset| refusal(start + offset as usize, Why::PhoneDigit);
    Phone::from_octets(edition, field).map_err(at_digit)
}

#[inline(always)]
#[tactic(auto, unfolding(crate::specs::Reason::bad_packet_number, crate::specs::Fields::packet_at))]
fn packet(
    edition: Edition,
    content: &[u8],
    attributes: Attributes,
) -> Result<Option<Packet>, Refusal>
    requires attributes { attributes.0 ≡ attributes_at content.now }
    requires edition { edition ≡ edition_in attributes.0 }
    requires room { header_len_in attributes.0 < length content.now }
    ensures row { Rejects result (bad_packet_number edition (packet_at edition content.now)) }
    ensures value { IfOk result (λ packet. packet ≡ packet_at edition content.now) }
{
    if !attributes.has_packet() {
        return Ok(None);
    }
    let start = places_of(edition).packet;
    let total = word(content, start);
    let number = word(content, start + 2);
    if total == 0 || number == 0 || number > total {
        return Err(refusal(start, Why::BadPacketNumber));
    }
    Ok(Some(Packet { total, number }))
}

// What `read_header` answers, in the terms of the table of reasons.
#[inline(always)]
#[tactic(auto, unfolding(crate::specs::Reason::reason, crate::specs::Fields::header_in))]
fn read(content: &[u8]) -> Result<(Header, &[u8]), Refusal>
    requires { length content.now ≤ CONTENT_LIMIT }
    ensures { MatchResult result (λ x. Reads content.now x.0 x.1.now)
        (λ refusal. reason content.now ≡ Some refusal) }
{
    let attributes = attributes(content)?;
    check_octet(content)?;
    let start = attributes.header_len();
    let end = content.len() - 1;
    attributes_hold(attributes, (end - start) as u16)?;
    let edition = attributes.edition();
    let places = places_of(edition);
    let phone = phone(edition, &content[places.phone..places.serial])?;
    let packet = packet(edition, content, attributes)?;
    let header = Header {
        edition,
        id: word(content, ID),
        bit15: attributes.bit15(),
        version: version(edition, content),
        phone,
        serial: word(content, places.serial),
        packet,
    };
    Ok((header, &content[start..end]))
}

/// The header and the body of a content of at most 1,045 octets (the standard's framing and header), or why the octets are
/// none. The edition is that of attribute bit 14. The reasons, of which the first counts, are this project's own: TooShort,
/// CheckMismatch, Encrypted, LengthMismatch, PhoneDigit, BadPacketNumber. `inside` is the offset in the content, and `at` is
/// 0.
#[inline(always)]
pub fn read_header(content: &[u8]) -> Result<(Header, &[u8]), Refusal>
    requires { length content.now ≤ CONTENT_LIMIT }
    // What is read is what the octets are.
    ensures content { IfOk result (λ x. Content x.0 x.1.now content.now) }
    // Each content is read, as what it is.
    ensures every_content { (h : Header) (body : List ℕ) → Content h body content.now
        → IsOkAnd result (λ x. (x.0 ≡ h) × (x.1.now ≡ body)) }
    // Where header and body stand.
    ensures fields { IfOk result (λ x. Reads content.now x.0 x.1.now) }
    ensures reason { IfErr result (λ refusal. reason content.now ≡ Some refusal) }
{
    read(content)
}

/// The law of contents, with nothing to run: octets are the content of one header and one body, or they have one reason,
/// and never both. The reason is that of the first row of the table that holds.
pub fn law_of_contents()
    ensures one_or_the_other { IsOneOrTheOther }
    ensures never_both { IsNeverBoth }
    ensures one_content { IsOneContent }
    ensures first_reason { IsFirstReason }
    ensures read_back { IsReadBack }
    ensures fields { IsContentOfItsFields }
    ensures len { IsLengthOfContent }
{}
