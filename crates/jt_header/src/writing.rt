//! Writing the header of a content.

ghost use Rattle.std.specs.Prelude.{◌≡◌, ◌+◌, ◌<◌, ◌≤◌, ◌^◌, [], ◌++◌, length, is_some};
ghost use Rattle.jt_header.specs.Content.{IsHeader, header_len, header_octets};

use crate::attributes::Attributes;
use crate::header::Header;
use arrayvec::ArrayVec;
use jt_value::Edition;
use jt_value::limits::CONTENT_LIMIT;

/// Writes the header before a body of `body_len` octets, at most 1,023, into an empty `out` (the standard's header). The
/// header is of either edition, with a phone of that edition, version 0 in 2013, and a packet number from 1 to the total.
pub fn write_header(header: &Header, body_len: u16, out: &mut ArrayVec<u8, CONTENT_LIMIT>)
    requires header { IsHeader header.now }
    requires body_len { body_len < 2 ^ 10 }
    requires empty { out.old.items ≡ [] }
    ensures octets { out.new.items ≡ header_octets header.now body_len }
    ensures short { length out.new.items ≤ 21 }
    ensures len { length out.new.items ≡ header_len header.now.edition (is_some header.now.packet) }
{
    put(out, &header.id.to_be_bytes());
    put(out, &Attributes::new(header, body_len).0.to_be_bytes());
    if header.edition == Edition::E2019 {
        put(out, &[header.version]);
    }
    put(out, header.phone.octets().as_slice());
    put(out, &header.serial.to_be_bytes());
    if let Some(packet) = header.packet {
        put(out, &packet.total.to_be_bytes());
        put(out, &packet.number.to_be_bytes());
    }
}

fn put(out: &mut ArrayVec<u8, CONTENT_LIMIT>, octets: &[u8])
    requires { length out.old.items + length octets.now ≤ CONTENT_LIMIT }
    ensures { out.new.items ≡ out.old.items ++ octets.now }
{
    out.try_extend_from_slice(octets).unwrap();
}
