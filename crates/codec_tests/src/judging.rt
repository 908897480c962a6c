ghost use Rattle.std.specs.Prelude.{◌<◌, ◌^◌, length};

use crate::values::{POSITION, header, header_2019, refused};
use jt_codec::judge_message;
use jt_header::{Header, Packet};
use jt_value::{Refusal, Why};
use std::alloc::Global;

// Whether this body is judged so.
fn is_judged(alloc: Global, header: &Header, body: &[u8], wanted: Option<Refusal>) -> bool
    requires { length body.now < 2 ^ 10 }
{
    judge_message(alloc, header, body) == Ok(wanted)
}

// The same of a message of 2013 that is no packet.
fn is_judged_2013(alloc: Global, id: u16, body: &[u8], wanted: Option<Refusal>) -> bool {
    body.len() < 1024 && is_judged(alloc, &header(id, 0, None), body, wanted)
}

// Of a registration's reply a message is made; of parameters no list; all others are judged in place.
#[test]
fn judgements(rt: HostRuntime) {
    let rows: &[(u16, &[u8])] = &[
        (0x0002, b""),
        (0x0200, &POSITION),
        (0x8001, b"\0\x07\0\x02\0"),
        (0x0900, b"A\x01"),
        (0x8100, b"\0\x05\x04"),
        (0x8103, b"\0"),
        (0x8201, b""),
        (0x8202, b"\0\0"),
        (0x8300, b"\x01"),
        (0x8105, b"\x03"),
    ];
    for &(id, body) in rows {
        assert!(rt; is_judged_2013(rt.alloc(), id, body, None));
    }
    let packet = Packet {
        total: 3,
        number: 2,
    };
    assert!(rt; is_judged(rt.alloc(), &header(0x0002, 0, Some(packet)), &[7], None));
}

#[test]
fn judgements_against_bodies(rt: HostRuntime) {
    let rows: &[(u16, &[u8], u64, Why)] = &[
        (0x0002, b"\x07", 12, Why::Trailing),
        (0x0200, &POSITION[..27], 34, Why::Truncated),
        (0x8001, b"\0\x07\0\x02", 16, Why::Truncated),
        (0x8100, b"\0\x05\x03A", 15, Why::Trailing),
        (0x8103, b"", 12, Why::Truncated),
        (0x8104, b"\x07", 12, Why::Trailing),
        (0x8202, b"\0\x05", 14, Why::Truncated),
        (0x8300, b"", 12, Why::Truncated),
    ];
    for &(id, body, inside, why) in rows {
        assert!(rt; is_judged_2013(rt.alloc(), id, body, refused(inside, why)));
    }
}

// Bodies that are lists, of 2013, whose bodies begin behind twelve octets.
#[test]
fn lists_are_judged(rt: HostRuntime) {
    let rows: &[(u16, &[u8])] = &[
        (0x8003, b"\0\x0a\x02\0\x01\0\x02"),
        (0x8103, b"\x01\0\0\0\x01\x04\0\0\0\x3c"),
        (0x8106, b"\x01\0\0\0\x01"),
        (0x0104, b"\0\x07\0"),
        (0x8600, b"\0\0"),
        (0x8602, b"\0\0"),
        (0x8604, b"\0\0\0\x09\0\0\0\0"),
        (0x8606, b"\0\0\0\x09\0\0\0\0"),
        (0x8601, b"\x01\0\0\0\x07"),
        (0x8603, b"\0"),
        (0x8605, b"\0"),
        (0x8607, b"\0"),
    ];
    for &(id, body) in rows {
        assert!(rt; is_judged_2013(rt.alloc(), id, body, None));
    }
}

#[test]
fn lists_are_refused_where_they_go_wrong(rt: HostRuntime) {
    let rows: &[(u16, &[u8], u64, Why)] = &[
        (0x8003, b"\0\x0a\x03\0\x01\0\x02", 14, Why::BadCount),
        (0x8103, b"\x01\0\0\0\x01\x04\0\0\0", 18, Why::Truncated),
        (0x8106, b"\x02\0\0\0\x01\0\0\0", 17, Why::Truncated),
        (0x0104, b"\0\x07\0\0", 15, Why::Trailing),
        (0x8600, b"\0\x01", 14, Why::Truncated),
        (0x8602, b"\0\0\0", 14, Why::Trailing),
        (
            0x8604,
            b"\0\0\0\x09\0\0\0\x01\0\0\0\x01",
            24,
            Why::Truncated,
        ),
        (0x8606, b"\0\0\0\x09\0\0\0\x01\0\0\0", 20, Why::Truncated),
        (0x8601, b"\x01\0\0\0\x07\0", 17, Why::Trailing),
        (0x8607, b"", 12, Why::Truncated),
    ];
    for &(id, body, inside, why) in rows {
        assert!(rt; is_judged_2013(rt.alloc(), id, body, refused(inside, why)));
    }
}

// A body of 2019 begins behind seventeen octets.
#[test]
fn requests_of_2019_are_judged(rt: HostRuntime) {
    let header = header_2019(0x0005);
    let right = b"\0\x0a\x02\0\x01\0\x02";
    assert!(rt; is_judged(rt.alloc(), &header, right, None));
    let wrong = b"\0\x0a\0\x03\0\x01\0\x07";
    assert!(rt; is_judged(rt.alloc(), &header, wrong, refused(19, Why::BadCount)));
}
