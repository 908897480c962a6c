//! The attributes, the second word of a header.

ghost use Rattle.std.specs.Prelude.{◌≡◌, ◌==◌, ◌<◌, ◌^◌, not};
ghost use Rattle.jt_header.specs.Content.{IsHeader, attributes};
ghost use Rattle.jt_header.specs.Fields.{edition_in, encryption_bits, has_bit15, has_packet, header_len_in, length_bits};

use crate::header::Header;
use jt_value::Edition;

const BODY_LEN: u16 = 0x03FF;

const ENCRYPTION: u16 = 0x1C00;

const PACKET: u16 = 0x2000;

const EDITION: u16 = 0x4000;

const BIT15: u16 = 0x8000;

/// The second word of a header (the standard's header).
#[derive(Clone, Copy)]
pub struct Attributes(pub u16);

impl Attributes {
    /// The attributes of a header before a body of this length.
    pub fn new(header: &Header, body_len: u16) -> Attributes
        requires header { IsHeader header.now }
        requires len { body_len < 2 ^ 10 }
        ensures { result.0 ≡ attributes header.now body_len }
    {
        let packet = if header.packet.is_some() { PACKET } else { 0 };
        let edition = match header.edition {
            Edition::E2013 => 0,
            Edition::E2019 => EDITION,
        };
        let bit15 = if header.bit15 { BIT15 } else { 0 };
        Attributes(body_len + packet + edition + bit15)
    }

    /// The body's length in octets.
    pub fn body_len(self) -> u16
        ensures { result ≡ length_bits self.0 }
    {
        self.0 & BODY_LEN
    }

    /// Whether the body is encrypted.
    pub fn is_encrypted(self) -> bool
        ensures { result ≡ not (encryption_bits self.0 == 0) }
    {
        self.0 & ENCRYPTION != 0
    }

    /// Whether the header has packet fields.
    pub fn has_packet(self) -> bool
        ensures { result ≡ has_packet self.0 }
    {
        self.0 & PACKET != 0
    }

    /// The header's edition.
    pub fn edition(self) -> Edition
        ensures { result ≡ edition_in self.0 }
    {
        if self.0 & EDITION != 0 {
            Edition::E2019
        } else {
            Edition::E2013
        }
    }

    /// Bit 15, which is carried.
    pub fn bit15(self) -> bool
        ensures { result ≡ has_bit15 self.0 }
    {
        self.0 & BIT15 != 0
    }

    /// The header's length in octets.
    pub fn header_len(self) -> usize
        ensures { result ≡ header_len_in self.0 }
    {
        match (self.edition(), self.has_packet()) {
            (Edition::E2013, false) => 12,
            (Edition::E2013, true) => 16,
            (Edition::E2019, false) => 17,
            (Edition::E2019, true) => 21,
        }
    }
}
