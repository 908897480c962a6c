use crate::reading::{fits, is_kept, reads, refusal_of};
use crate::values::{Fields, POSITION, refused};
use jt_codec::Message;
use jt_value::{Edition, Octets, Why};

#[test]
fn empty_bodies(rt: HostRuntime) {
    let rows: &[(Edition, u16)] = &[
        (Edition::E2013, 0x0002),
        (Edition::E2013, 0x0003),
        (Edition::E2013, 0x8104),
        (Edition::E2013, 0x8201),
        (Edition::E2019, 0x0002),
        (Edition::E2019, 0x0003),
        (Edition::E2019, 0x8104),
        (Edition::E2019, 0x8201),
    ];
    for &(edition, id) in rows {
        assert!(rt; is_kept(rt.alloc(), edition, id, &[], false));
        assert!(rt; refusal_of(rt.alloc(), edition, id, &[7]) == refused(0, Why::Trailing));
    }
}

#[test]
fn opaque_bodies(rt: HostRuntime) {
    let ids: &[u16] = &[0x0000, 0x0FFF, 0x8600, 0x8602, 0x8604, 0x8606, 0xFFFF];
    for &id in ids {
        assert!(rt; is_kept(rt.alloc(), Edition::E2019, id, &[7, 9], true));
    }
    let known = Message::Opaque {
        id: 0x8201,
        body: Octets::new(rt.alloc()),
    };
    assert!(rt; !fits(known, Edition::E2013));
}

const REGISTER: [u8; 39] =
    *b"\0\x2C\x01\x2C70111A1\0\0\0\0\0\0\0\0\0\0\0\0\0\0\0\0\0\01234567\x02\xD4\xC1";

const CIRCLE: [u8; 20] = *b"\x01\x01\0\0\0\x09\0\0\x01\x31\x2D\0\x06\xBC\x3E\x40\0\0\0\x64";

const RECTANGLE: [u8; 24] =
    *b"\0\x01\0\0\0\x07\0\0\x01\x31\x2D\x0A\x06\xBC\x3E\x40\x01\x31\x2D\0\x06\xBC\x3E\x4A";

const POLYGON: [u8; 32] =
    *b"\0\0\0\x09\0\0\0\x03\0\0\0\0\x06\xBC\x3E\x36\0\0\0\x0A\x06\xBC\x3E\x4A\0\0\0\0\x06\xBC\x3E\x4A";

// A route with times and one point, which has thresholds and a limit.
const ROUTE: [u8; 45] =
    *b"\0\0\0\x05\0\x01\x24\x01\x01\0\0\0\x24\x01\x02\0\0\0\0\x01\0\0\0\x06\0\0\0\x07\x01\x31\x2D\0\x06\xBC\x3E\x40\x0A\x03\0\x3C\0\x1E\0\x50\x05";

#[test]
fn bodies_with_rows(rt: HostRuntime) {
    let rows: &[(u16, &[u8])] = &[
        (0x0001, b"\0\x07\x81\x03\x02"),
        (0x8001, b"\xFF\xFF\0\x02\xFF"),
        (0x0100, &REGISTER),
        (0x8100, b"\0\x05\x03"),
        (0x8100, b"\0\x05\0A"),
        (0x0102, b"A\0"),
        (0x8103, b"\0"),
        (0x8103, b"\x02\0\0\0\x03\x04\0\0\0\x05\0\0\0\x03\x02\0\x05"),
        (0x8106, b"\x01\0\0\0\x01"),
        (
            0x0104,
            b"\0\x07\x02\0\0\0\x01\x04\0\0\0\x3c\0\0\0\x13\x03abc",
        ),
        (0x8202, b"\0\0"),
        (0x8202, b"\0\0\0\0\0\x09"),
        (0x8202, b"\0\x05\0\0\x02\x58"),
        (0x8300, b"\x01"),
        (0x8300, b"\x01\x02A"),
        (0x8105, b"\x03\xD6\0"),
        (0x0200, &POSITION),
        (
            0x0201,
            b"\0\x09\0\0\0\0\0\0\0\0\0\0\0\0\0\0\0\0\0\0\0\0\0\0\0\0\0\0\0\0",
        ),
        (0x0704, b"\0\0\x01"),
        (
            0x0704,
            b"\0\x01\0\0\x1C\0\0\0\0\0\0\0\0\0\0\0\0\0\0\0\0\0\0\0\0\0\0\0\0\0\0\0\0",
        ),
        (0x8600, &CIRCLE),
        (0x8602, &RECTANGLE),
        (0x8604, &POLYGON),
        (0x8606, &ROUTE),
        (0x8601, b"\0"),
        (0x8603, b"\0"),
        (0x8605, b"\x01\0\0\0\x07"),
        (0x8607, b"\x02\0\0\0\x07\0\0\x01\0"),
    ];
    for &(id, body) in rows {
        assert!(rt; is_kept(rt.alloc(), Edition::E2013, id, body, false));
    }
}

#[test]
fn responses(rt: HostRuntime) {
    let body = b"\0\x07\x81\x03\x02";
    let rows: &[(u16, Fields)] = &[
        (0x0001, Fields::TerminalAck(7, 0x8103, 2)),
        (0x8001, Fields::PlatformAck(7, 0x8103, 2)),
    ];
    for &(id, fields) in rows {
        assert!(rt; reads(rt.alloc(), Edition::E2019, id, body, fields) == (true, true));
    }
}

#[test]
fn tracks(rt: HostRuntime) {
    let rows: &[(&[u8], Fields)] = &[
        (b"\0\0", Fields::Track(0, None)),
        (b"\0\0\0\0\0\x09", Fields::Track(0, Some(9))),
        (b"\0\x05\0\0\x02\x58", Fields::Track(5, Some(600))),
    ];
    for &(body, fields) in rows {
        assert!(rt; reads(rt.alloc(), Edition::E2019, 0x8202, body, fields) == (true, true));
    }
    let endless = Message::Track {
        interval: 5,
        validity: None,
    };
    assert!(rt; !fits(endless, Edition::E2013));
}

#[test]
fn refused_tracks(rt: HostRuntime) {
    let rows: &[(&[u8], u64, Why)] = &[
        (b"\0\x05", 2, Why::Truncated),
        (b"\0\x05\0\0\x02", 2, Why::Truncated),
        (b"\0\0\0", 2, Why::Truncated),
        (b"\0", 0, Why::Truncated),
        (b"\0\0\0\0\0\x09\x01", 6, Why::Trailing),
    ];
    for &(body, inside, why) in rows {
        assert!(rt; refusal_of(rt.alloc(), Edition::E2013, 0x8202, body) == refused(inside, why));
    }
}

// A text of 2013 has no kind, and an order has its own octets.
#[test]
fn texts_and_orders(rt: HostRuntime) {
    let rows: &[(Edition, u16, &[u8], Fields, bool)] = &[
        (
            Edition::E2013,
            0x8300,
            b"\x01\x02A",
            Fields::Text(1, None, b"\x02A"),
            false,
        ),
        (
            Edition::E2019,
            0x8105,
            b"\x03",
            Fields::Control(3, b""),
            true,
        ),
    ];
    for &(edition, id, body, fields, fits_2019) in rows {
        assert!(rt; reads(rt.alloc(), edition, id, body, fields) == (true, fits_2019));
    }
    let kind = Message::Text {
        flag: 1,
        kind: Some(2),
        text: Octets::new(rt.alloc()),
    };
    assert!(rt; !fits(kind, Edition::E2013));
}

// A registration is read in 2013, and fits that edition alone.
#[test]
fn registrations_of_2013(rt: HostRuntime) {
    let rows: &[(u16, &[u8], Fields)] = &[
        (0x0100, &REGISTER, Fields::Plate(b"\xD4\xC1")),
        (0x0102, b"A", Fields::Code(b"A")),
    ];
    for &(id, body, fields) in rows {
        assert!(rt; reads(rt.alloc(), Edition::E2013, id, body, fields) == (true, false));
    }
}
