//! The header of a content.

use jt_value::{Edition, Phone};

/// Packet fields: which packet of how many (the standard's header).
#[derive(Clone, Copy, Debug, PartialEq, Eq)]
pub struct Packet {
    /// How many packets the message has.
    pub total: u16,
    /// This packet's number, from 1 to the total.
    pub number: u16,
}

/// What stands before the body in a content (the standard's header).
#[derive(Clone, Copy, Debug, PartialEq, Eq)]
pub struct Header {
    /// The edition by whose layout the header is written.
    pub edition: Edition,
    /// The message id.
    pub id: u16,
    /// Attribute bit 15, which has no meaning: it is carried and written back (this project's own rule).
    pub bit15: bool,
    /// The protocol version of 2019, an octet. It is 0 in 2013, where the header has none.
    pub version: u8,
    /// The phone, of the header's edition.
    pub phone: Phone,
    /// The message's serial number.
    pub serial: u16,
    /// Which packet of its message this is. None where the header has no packet fields.
    pub packet: Option<Packet>,
}
