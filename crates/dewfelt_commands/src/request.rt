//! What a command asks of a service.

ghost use Rattle.std.specs.Prelude.{◌≡◌, ◌≢◌, ◌++◌, ℕ, List, MatchOption, OnOk, IfOk, drop, length, string_bytes, take};
ghost use Rattle.dewfelt_settings.specs.Phones.{two_digits, digits_text};
ghost use Rattle.dewfelt_commands.specs.Written.{IsWritten, forget_text_of};

use dewfelt_settings::phone_of;
use jt_value::Phone;
use std::alloc::{AllocError, Global};

/// What a command asks of a service.
#[derive(Clone, Copy)]
pub enum Request {
    /// The registrations.
    Registrations,
    /// The phone's registration is to go. The phone's edition does not count.
    Forget(Phone),
    /// A copy of the store's files.
    Copy,
    /// The service is to end.
    Stop,
}

// How many digits a phone has.
const DIGITS: usize = 20;

// How many octets stand before them, and how many a request to forget has, with its line feed.
const WORD: usize = 7;

const FORGET_OCTETS: usize = 28;

fn put_pair(text: &mut String, octet: u8) -> Result<(), AllocError>
    ensures { OnOk result (string_bytes text.new ≡ string_bytes text.old ++ two_digits octet) }
{
    text.push((b'0' + octet / 16) as char)?;
    text.push((b'0' + octet % 16) as char)?;
    Ok(())
}

fn put_octets(text: &mut String, octets: &[u8]) -> Result<(), AllocError>
    ensures { OnOk result (string_bytes text.new
        ≡ string_bytes text.old ++ digits_text octets.now) }
{
    for octet in octets {
        put_pair(text, *octet)?;
    }
    Ok(())
}

/// Puts the twenty digits of a phone.
pub(crate) fn put_digits(text: &mut String, phone: &Phone) -> Result<(), AllocError>
    ensures { OnOk result (string_bytes text.new
        ≡ string_bytes text.old ++ digits_text phone.now.digits) }
{
    put_octets(text, phone.digits.as_slice())
}

#[tactic(auto, using(std::proofs::Common::append_assoc))]
fn forget_text(alloc: Global, phone: &Phone) -> Result<String, AllocError>
    ensures { IfOk result (λ text. string_bytes text ≡ forget_text_of phone.now.digits) }
{
    let mut text = String::from_str(alloc, "forget ")?;
    put_digits(&mut text, phone)?;
    text.push_str("\n")?;
    Ok(text)
}

// The digits of a text that is as long as a request to forget.
fn digits_in(text: &[u8]) -> Option<&[u8]>
    ensures { MatchOption result (length text.now ≢ 28)
        (λ digits. digits.now ≡ take 20 (drop 7 text.now)) }
{
    if text.len() != FORGET_OCTETS {
        return None;
    }
    Some(&text[WORD..WORD + DIGITS])
}

// The phone that a request to forget names; None where the text is none.
#[tactic(auto, using(crate::proofs::Forgetting::no_length, crate::proofs::Forgetting::no_phone, crate::proofs::Forgetting::no_match))]
fn forgotten(alloc: Global, text: &str) -> Result<Option<Phone>, AllocError>
    ensures { IfOk result (λ found. MatchOption found
        ((digits : List ℕ) → IsWritten digits → forget_text_of digits ≢ text.now)
        (λ phone. text.now ≡ forget_text_of phone.digits)) }
{
    let Some(digits) = digits_in(text.as_bytes()) else {
        return Ok(None);
    };
    let Some(phone) = phone_of(alloc, digits)? else {
        return Ok(None);
    };
    let own = forget_text(alloc, &phone)?;
    if own.as_str() == text {
        return Ok(Some(phone));
    }
    Ok(None)
}

impl Request {
    ghost use Rattle.dewfelt_commands.specs.Requests.{IsSendable, text_of};
    ghost use Rattle.dewfelt_commands.specs.declared.request.Request.{Request as Asked};

    /// The text of the request, one line.
    pub fn text(&self, alloc: Global) -> Result<String, AllocError>
        ensures { IfOk result (λ text. string_bytes text ≡ text_of self.now) }
    {
        match self {
            Request::Registrations => String::from_str(alloc, "registrations\n"),
            Request::Forget(phone) => forget_text(alloc, phone),
            Request::Copy => String::from_str(alloc, "copy\n"),
            Request::Stop => String::from_str(alloc, "stop\n"),
        }
    }

    /// The request with this text; None for all other texts.
    #[tactic(auto, using(crate::proofs::Forgetting::no_request))]
    pub fn of(alloc: Global, text: &str) -> Result<Option<Request>, AllocError>
        ensures { IfOk result (λ found. MatchOption found
            ((request : Asked) → IsSendable request → text_of request ≢ text.now)
            (λ request. text.now ≡ text_of request)) }
    {
        if text == "registrations\n" {
            return Ok(Some(Request::Registrations));
        }
        if text == "copy\n" {
            return Ok(Some(Request::Copy));
        }
        if text == "stop\n" {
            return Ok(Some(Request::Stop));
        }
        match forgotten(alloc, text)? {
            Some(phone) => Ok(Some(Request::Forget(phone))),
            None => Ok(None),
        }
    }
}
