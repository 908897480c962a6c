//! Bodies that are read into messages, and what is said of those.

use crate::values::Fields;
use jt_codec::{Message, read_body, write_body};
use jt_value::{CodecError, Edition, Refusal};
use std::alloc::Global;

/// Whether a message fits the edition, and is written as these octets.
pub fn is_written(alloc: Global, edition: Edition, message: &Message, body: &[u8]) -> bool {
    if !message.fits(edition) {
        return false;
    }
    match &write_body(alloc, edition, message) {
        Ok(octets) => octets.as_slice() == body,
        Err(_) => false,
    }
}

/// Whether this body is read under its id, as opaque octets or not, fits its edition, and is written back.
pub fn is_kept(alloc: Global, edition: Edition, id: u16, body: &[u8], opaque: bool) -> bool {
    match &read_body(alloc, edition, id, body) {
        Ok(message) => {
            message.id() == Some(id)
                && is_written(alloc, edition, message, body)
                && matches!(message, Message::Opaque { .. }) == opaque
        }
        Err(_) => false,
    }
}

/// Why this body is refused.
pub fn refusal_of(alloc: Global, edition: Edition, id: u16, body: &[u8]) -> Option<Refusal> {
    match &read_body(alloc, edition, id, body) {
        Err(CodecError::Refused(refusal)) => Some(*refusal),
        Err(CodecError::Memory) | Ok(_) => None,
    }
}

/// Whether this message fits the edition.
pub fn fits(message: Message, edition: Edition) -> bool {
    message.fits(edition)
}

fn is_terminal_ack(message: &Message, wanted: (u16, u16, u8)) -> bool {
    matches!(message, Message::TerminalAck { reply, id, result } if (*reply, *id, *result) == wanted)
}

fn is_platform_ack(message: &Message, wanted: (u16, u16, u8)) -> bool {
    matches!(message, Message::PlatformAck { reply, id, result } if (*reply, *id, *result) == wanted)
}

fn is_track(message: &Message, seconds: u16, end: Option<u32>) -> bool {
    matches!(message, Message::Track { interval, validity } if *interval == seconds && *validity == end)
}

fn is_text(message: &Message, ways: u8, sort: Option<u8>, octets: &[u8]) -> bool {
    matches!(message, Message::Text { flag, kind, text }
        if *flag == ways && *kind == sort && text.as_slice() == octets)
}

fn is_control(message: &Message, order: u8, octets: &[u8]) -> bool {
    matches!(message, Message::Control { command, text } if *command == order && text.as_slice() == octets)
}

fn is_register(message: &Message, plate: &[u8]) -> bool {
    matches!(message, Message::Register(register) if register.plate.as_slice() == plate)
}

fn is_auth(message: &Message, code: &[u8]) -> bool {
    matches!(message, Message::Auth(auth) if auth.code.as_slice() == code)
}

fn has_fields(message: &Message, fields: Fields) -> bool {
    match fields {
        Fields::TerminalAck(reply, id, result) => is_terminal_ack(message, (reply, id, result)),
        Fields::PlatformAck(reply, id, result) => is_platform_ack(message, (reply, id, result)),
        Fields::Track(interval, validity) => is_track(message, interval, validity),
        Fields::Text(flag, kind, text) => is_text(message, flag, kind, text),
        Fields::Control(command, text) => is_control(message, command, text),
        Fields::Plate(plate) => is_register(message, plate),
        Fields::Code(code) => is_auth(message, code),
        _ => false,
    }
}

/// Whether this body is read as a message with these fields, and whether that fits 2019.
pub fn reads(
    alloc: Global,
    edition: Edition,
    id: u16,
    body: &[u8],
    fields: Fields,
) -> (bool, bool) {
    match &read_body(alloc, edition, id, body) {
        Ok(message) => (has_fields(message, fields), message.fits(Edition::E2019)),
        Err(_) => (false, false),
    }
}
