//! What rows are made of: headers, refusals, and the fields of messages.

use jt_header::{Header, Packet};
use jt_value::{Edition, Phone, Refusal, Why};

/// The position of a fix at 20 degrees north, with a mileage of 10 (the standard's layout of 28 octets and an item).
pub const POSITION: [u8; 34] =
    *b"\0\0\0\0\0\0\0\x03\x01\x31\x2D\0\x06\xBC\x3E\x40\0\0\0\0\0\0\x24\x01\x01\0\0\0\x01\x04\0\0\0\x0A";

const DIGITS: [u8; 10] = [0, 0, 0, 0, 0x01, 0x39, 0x12, 0x34, 0x56, 0x78];

/// What a body is read as, with its fields in their order.
#[derive(Clone, Copy)]
pub enum Fields<'a> {
    Heartbeat,
    Deregister,
    QueryParams,
    QueryPosition,
    TerminalAck(u16, u16, u8),
    PlatformAck(u16, u16, u8),
    Track(u16, Option<u32>),
    Text(u8, Option<u8>, &'a [u8]),
    Control(u8, &'a [u8]),
    /// A registration's plate.
    Plate(&'a [u8]),
    /// An authentication's code.
    Code(&'a [u8]),
    Opaque(u16, &'a [u8]),
    Part(&'a [u8]),
}

/// A refusal at this place of the body or the content.
pub fn refused(inside: u64, why: Why) -> Option<Refusal> {
    Some(Refusal { at: 0, inside, why })
}

/// A header of 2013, of phone 013912345678.
pub fn header(id: u16, serial: u16, packet: Option<Packet>) -> Header {
    Header {
        edition: Edition::E2013,
        id,
        bit15: false,
        version: 0,
        phone: Phone {
            edition: Edition::E2013,
            digits: DIGITS,
        },
        serial,
        packet,
    }
}

/// A header of 2019, of the same phone.
pub fn header_2019(id: u16) -> Header {
    Header {
        edition: Edition::E2019,
        id,
        bit15: false,
        version: 1,
        phone: Phone {
            edition: Edition::E2019,
            digits: DIGITS,
        },
        serial: 0,
        packet: None,
    }
}
