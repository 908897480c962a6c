//! Which message a packet is of.

ghost use Rattle.std.specs.Prelude.{◌≡◌};
ghost use Rattle.jt_subpacket.specs.Joining.{joined_header};
ghost use Rattle.jt_subpacket.specs.Partials.{first_serial, key_of, same_key};

use jt_header::{Header, Packet};

/// What the packets of one message have in common: one id, one total and consecutive serials (the standard's subpackets).
#[derive(Clone, Copy, Debug, PartialEq, Eq)]
pub struct PartKey {
    /// The message id.
    pub id: u16,
    /// The serial of packet 1, which is the message's.
    pub first: u16,
    /// How many packets the message has.
    pub total: u16,
}

// The serial of packet 1 of a message whose packet of this number has this serial.
fn first_serial(serial: u16, number: u16) -> u16
    ensures { result ≡ first_serial serial number }
{
    serial.wrapping_sub(number.saturating_sub(1))
}

/// The header of the message that a packet with this header completed: with the serial of packet 1, and without packet fields
/// (this project's own: the standard names no such header).
pub fn joined_header(header: &Header) -> Header
    ensures { result ≡ joined_header header.now }
{
    let number = header.packet.map_or(0, |packet| packet.number);
    Header {
        serial: first_serial(header.serial, number),
        packet: None,
        ..*header
    }
}

impl PartKey {
    // The message that a packet is of.
    pub(crate) fn of(header: &Header, packet: Packet) -> PartKey
        ensures { result ≡ key_of header.now packet }
    {
        PartKey {
            id: header.id,
            first: first_serial(header.serial, packet.number),
            total: packet.total,
        }
    }

    // Whether two keys are of one message.
    pub(crate) fn is_same(self, other: PartKey) -> bool
        ensures { result ≡ same_key self other }
    {
        self.id == other.id && self.first == other.first && self.total == other.total
    }
}
