use jt_codec::{Message, read_body, write_body};
use jt_value::{CodecError, Edition, Refusal, Why};
use std::alloc::Global;

// The editions of which a row is.
const BOTH: &[Edition] = &[Edition::E2013, Edition::E2019];

const EARLIER: &[Edition] = &[Edition::E2013];

const LATER: &[Edition] = &[Edition::E2019];

// What a test asks of a body.
#[derive(Clone, Copy)]
enum Asked {
    // It is read under its id, fits its edition and is written back, and is no opaque octets.
    Kept,
    // The same, as opaque octets.
    KeptOpaque,
    // It is refused so.
    Refused(Refusal),
    // It is a request of the terminal that begins with packet 10 and names the packets 1 and 2, with a count of two octets
    // or not.
    ForTwo(bool),
    // It is a message that fits the edition of 2019, and not that of 2013.
    OnlyOf2019,
    // It is an authentication with no code and a tail of zeros.
    AuthOfZeros,
}

// Whether the message fits the edition, and is written as this body.
fn is_written(alloc: Global, edition: Edition, message: &Message, body: &[u8]) -> bool {
    if !message.fits(edition) {
        return false;
    }
    match &write_body(alloc, edition, message) {
        Ok(octets) => octets.as_slice() == body,
        Err(_) => false,
    }
}

fn is_opaque(message: &Message) -> bool {
    matches!(message, Message::Opaque { .. })
}

fn is_request_for_two(message: &Message, has_wide_count: bool) -> bool {
    match message {
        Message::TerminalResend(resend) => {
            resend.first == 10
                && resend.wide == has_wide_count
                && resend.numbers.as_slice() == [1, 2].as_slice()
        }
        _ => false,
    }
}

fn is_auth_of_zeros(message: &Message) -> bool {
    match message {
        Message::Auth(auth) => match &auth.tail {
            Some(tail) => {
                auth.code.as_slice().is_empty()
                    && tail.imei.as_slice() == [0; 15].as_slice()
                    && tail.software.as_slice() == [0; 20].as_slice()
            }
            None => false,
        },
        _ => false,
    }
}

// Whether the message of this body is what is asked.
fn is_message_so(
    alloc: Global,
    edition: Edition,
    body: &[u8],
    message: &Message,
    asked: Asked,
) -> bool {
    match asked {
        Asked::Kept => !is_opaque(message) && is_written(alloc, edition, message, body),
        Asked::KeptOpaque => is_opaque(message) && is_written(alloc, edition, message, body),
        Asked::Refused(_) => false,
        Asked::ForTwo(has_wide_count) => is_request_for_two(message, has_wide_count),
        Asked::OnlyOf2019 => message.fits(Edition::E2019) && !message.fits(Edition::E2013),
        Asked::AuthOfZeros => is_auth_of_zeros(message),
    }
}

fn is_refused_so(refusal: &Refusal, asked: Asked) -> bool {
    match asked {
        Asked::Refused(wanted) => *refusal == wanted,
        _ => false,
    }
}

fn is_read_so(
    alloc: Global,
    edition: Edition,
    id: u16,
    body: &[u8],
    read: &Result<Message, CodecError>,
    asked: Asked,
) -> bool {
    match read {
        Ok(message) => {
            message.id() == Some(id) && is_message_so(alloc, edition, body, message, asked)
        }
        Err(CodecError::Refused(refusal)) => is_refused_so(refusal, asked),
        Err(CodecError::Memory) => false,
    }
}

// Whether the body is what is asked. Only here a message is owned: each step of a function that owns one takes long to prove.
fn is_so(alloc: Global, edition: Edition, id: u16, body: &[u8], asked: Asked) -> bool {
    let read = read_body(alloc, edition, id, body);
    is_read_so(alloc, edition, id, body, &read, asked)
}

// Whether the body is kept in each of these editions.
fn is_kept_in(alloc: Global, editions: &[Edition], id: u16, body: &[u8]) -> bool {
    for &edition in editions {
        if !is_so(alloc, edition, id, body, Asked::Kept) {
            return false;
        }
    }
    true
}

#[test]
fn each_row_in_each_edition_that_has_it(rt: HostRuntime) {
    let rows: &[(&[Edition], u16, &[u8])] = &[
        (BOTH, 0x0001, b"\x00\x07\x81\x03\x02"),
        (BOTH, 0x8001, b"\xff\xff\x00\x02\xff"),
        (BOTH, 0x0002, b""),
        (BOTH, 0x0003, b""),
        (BOTH, 0x8100, b"\x00\x05\x00\x41"),
        (
            BOTH,
            0x8103,
            b"\x02\x00\x00\x00\x03\x04\x00\x00\x00\x05\x00\x00\x00\x03\x02\x00\x05",
        ),
        (BOTH, 0x8104, b""),
        (BOTH, 0x8106, b"\x01\x00\x00\x00\x01"),
        (
            BOTH,
            0x0104,
            b"\x00\x07\x01\x00\x00\x00\x01\x04\x00\x00\x00\x3c",
        ),
        (
            BOTH,
            0x0200,
            b"\x00\x00\x00\x00\x00\x00\x00\x03\x01\x31\x2d\x00\x06\xbc\x3e\x40\x00\x00\x00\x00\x00\x00\x24\x01\x01\x00\x00\x00\x01\x04\x00\x00\x00\x0a",
        ),
        (
            BOTH,
            0x0201,
            b"\x00\x09\x00\x00\x00\x00\x00\x00\x00\x03\x01\x31\x2d\x00\x06\xbc\x3e\x40\x00\x00\x00\x00\x00\x00\x24\x01\x01\x00\x00\x00",
        ),
        (BOTH, 0x8201, b""),
        (BOTH, 0x8202, b"\x00\x05\x00\x00\x02\x58"),
        (
            BOTH,
            0x0704,
            b"\x00\x01\x00\x00\x1c\x00\x00\x00\x00\x00\x00\x00\x03\x01\x31\x2d\x00\x06\xbc\x3e\x40\x00\x00\x00\x00\x00\x00\x24\x01\x01\x00\x00\x00",
        ),
        (BOTH, 0x8105, b"\x03\xd6\x00"),
        (BOTH, 0x8601, b"\x00"),
        (BOTH, 0x8603, b"\x01\x00\x00\x00\x07"),
        (BOTH, 0x8605, b"\x01\x00\x00\x00\x07"),
        (BOTH, 0x8607, b"\x02\x00\x00\x00\x07\x00\x00\x01\x00"),
        (BOTH, 0x8003, b"\x00\x0a\x02\x00\x01\x00\x02"),
        (BOTH, 0x8300, b"\x01\x02\x41"),
        (
            EARLIER,
            0x0100,
            b"\x00\x2c\x01\x2c\x37\x30\x31\x31\x31\x41\x31\x00\x00\x00\x00\x00\x00\x00\x00\x00\x00\x00\x00\x00\x00\x00\x00\x00\x00\x30\x31\x32\x33\x34\x35\x36\x02\xd4\xc1",
        ),
        (EARLIER, 0x0102, b"\x41\x00"),
        (
            EARLIER,
            0x8600,
            b"\x01\x01\x00\x00\x00\x09\x00\x00\x01\x31\x2d\x00\x06\xbc\x3e\x40\x00\x00\x00\x64",
        ),
        (
            EARLIER,
            0x8602,
            b"\x00\x01\x00\x00\x00\x07\x00\x00\x01\x31\x2d\x0a\x06\xbc\x3e\x40\x01\x31\x2d\x00\x06\xbc\x3e\x4a",
        ),
        (
            EARLIER,
            0x8604,
            b"\x00\x00\x00\x09\x00\x00\x00\x03\x00\x00\x00\x00\x06\xbc\x3e\x36\x00\x00\x00\x0a\x06\xbc\x3e\x4a\x00\x00\x00\x00\x06\xbc\x3e\x4a",
        ),
        (
            EARLIER,
            0x8606,
            b"\x00\x00\x00\x05\x00\x01\x24\x01\x01\x00\x00\x00\x24\x01\x02\x00\x00\x00\x00\x01\x00\x00\x00\x06\x00\x00\x00\x07\x01\x31\x2d\x00\x06\xbc\x3e\x40\x0a\x03\x00\x3c\x00\x1e\x00\x50\x05",
        ),
        (LATER, 0x0005, b"\x00\x0a\x02\x00\x01\x00\x02"),
        (LATER, 0x0005, b"\x00\x0a\x00\x02\x00\x01\x00\x02"),
        (LATER, 0x8003, b"\x00\x0a\x00\x02\x00\x01\x00\x02"),
        (
            LATER,
            0x0100,
            b"\x00\x2c\x01\x2c\x37\x30\x31\x31\x31\x00\x00\x00\x00\x00\x00\x41\x31\x00\x00\x00\x00\x00\x00\x00\x00\x00\x00\x00\x00\x00\x00\x00\x00\x00\x00\x00\x00\x00\x00\x00\x00\x00\x00\x00\x00\x30\x31\x32\x33\x34\x35\x36\x00\x00\x00\x00\x00\x00\x00\x00\x00\x00\x00\x00\x00\x00\x00\x00\x00\x00\x00\x00\x00\x00\x00\x02\xd4\xc1",
        ),
        (
            LATER,
            0x0102,
            b"\x02\x41\x42\x31\x32\x33\x34\x35\x36\x37\x38\x39\x30\x31\x32\x33\x34\x35\x76\x31\x00\x00\x00\x00\x00\x00\x00\x00\x00\x00\x00\x00\x00\x00\x00\x00\x00\x00",
        ),
    ];
    for &(editions, id, body) in rows {
        assert!(rt; is_kept_in(rt.alloc(), editions, id, body), "{id}");
    }
}

#[test]
fn ids_without_a_row_in_an_edition(rt: HostRuntime) {
    let rows: &[(Edition, u16)] = &[
        (Edition::E2013, 0x0005),
        (Edition::E2019, 0x8600),
        (Edition::E2019, 0x8602),
        (Edition::E2019, 0x8604),
        (Edition::E2019, 0x8606),
        (Edition::E2013, 0x0FFF),
        (Edition::E2019, 0x0FFF),
    ];
    for &(edition, id) in rows {
        assert!(rt;
            is_so(rt.alloc(), edition, id, b"\x01\x00", Asked::KeptOpaque),
            "{id}"
        );
    }
}

#[test]
fn refusals_of_bodies(rt: HostRuntime) {
    let rows: &[(Edition, u16, &[u8], u64, Why)] = &[
        (
            Edition::E2019,
            0x0005,
            b"\x00\x0a\x00\x03\x00\x01\x00\x02",
            2,
            Why::BadCount,
        ),
        (
            Edition::E2019,
            0x0005,
            b"\x00\x0a\x03\x00\x01\x00\x02",
            2,
            Why::BadCount,
        ),
        (Edition::E2019, 0x8003, b"\x00\x0a", 2, Why::Truncated),
        (Edition::E2019, 0x8003, b"\x00", 0, Why::Truncated),
        (
            Edition::E2013,
            0x8003,
            b"\x00\x0a\x03\x00\x01\x00\x02",
            2,
            Why::BadCount,
        ),
        (Edition::E2013, 0x8003, b"", 0, Why::Truncated),
        (Edition::E2013, 0x8003, b"\x00", 0, Why::Truncated),
        (Edition::E2013, 0x8003, b"\x00\x0a", 2, Why::Truncated),
        (
            Edition::E2013,
            0x8003,
            b"\x00\x0a\x00\x00",
            2,
            Why::BadCount,
        ),
        (Edition::E2019, 0x0102, b"\x05\x41\x42", 1, Why::Truncated),
        (Edition::E2019, 0x0102, b"", 0, Why::Truncated),
        (
            Edition::E2019,
            0x0102,
            b"\x00\x00\x00\x00\x00\x00\x00\x00\x00\x00\x00\x00\x00\x00\x00",
            1,
            Why::Truncated,
        ),
        (
            Edition::E2019,
            0x0102,
            b"\x00\x00\x00\x00\x00\x00\x00\x00\x00\x00\x00\x00\x00\x00\x00\x00\x00\x00\x00\x00\x00\x00\x00\x00\x00\x00\x00\x00\x00\x00\x00\x00\x00\x00\x00",
            16,
            Why::Truncated,
        ),
        (
            Edition::E2019,
            0x0102,
            b"\x00\x00\x00\x00\x00\x00\x00\x00\x00\x00\x00\x00\x00\x00\x00\x00\x00\x00\x00\x00\x00\x00\x00\x00\x00\x00\x00\x00\x00\x00\x00\x00\x00\x00\x00\x00\x00",
            36,
            Why::Trailing,
        ),
        (
            Edition::E2019,
            0x0100,
            b"\x00\x00\x00\x00\x00\x00\x00\x00\x00\x00\x00\x00\x00\x00\x00\x00\x00\x00\x00\x00\x00\x00\x00\x00\x00\x00\x00\x00\x00\x00\x00\x00\x00\x00\x00\x00\x00\x00\x00\x00\x00\x00\x00\x00\x00\x00\x00\x00\x00\x00\x00\x00\x00\x00\x00\x00\x00\x00\x00\x00\x00\x00\x00\x00\x00\x00\x00\x00\x00\x00\x00\x00\x00\x00",
            45,
            Why::Truncated,
        ),
        (
            Edition::E2019,
            0x0100,
            b"\x00\x2c\x01\x2c\x37\x30\x31\x31\x31\x41\x31\x00\x00\x00\x00\x00\x00\x00\x00\x00\x00\x00\x00\x00\x00\x00\x00\x00\x00\x30\x31\x32\x33\x34\x35\x36\x02\xd4\xc1",
            15,
            Why::Truncated,
        ),
        (Edition::E2019, 0x8300, b"\x01", 1, Why::Truncated),
        (
            Edition::E2013,
            0x8604,
            b"\x02\x7e\xff\x80\x00\x03\x33\x10\x10\x01\x43\x05\x40",
            12,
            Why::Truncated,
        ),
        (
            Edition::E2013,
            0x8604,
            b"\x02\x7e\xff\x80\x00\x03\x33\x10\x10\x01\x43",
            6,
            Why::Truncated,
        ),
        (
            Edition::E2013,
            0x8604,
            b"\x02\x7e\xff\x80\x00\x03\x33\x10\x10\x01\x43\x05\x40\x01\x02\x03\x04\x05",
            18,
            Why::Truncated,
        ),
    ];
    for &(edition, id, body, inside, why) in rows {
        let refusal = Refusal { at: 0, inside, why };
        assert!(rt;
            is_so(rt.alloc(), edition, id, body, Asked::Refused(refusal)),
            "{id}"
        );
    }
}

#[test]
fn a_count_of_one_octet_and_one_of_two(rt: HostRuntime) {
    let rows: &[(&[u8], bool)] = &[
        (b"\x00\x0A\x02\x00\x01\x00\x02", false),
        (b"\x00\x0A\x00\x02\x00\x01\x00\x02", true),
    ];
    for &(body, has_wide_count) in rows {
        let asked = Asked::ForTwo(has_wide_count);
        assert!(rt; is_so(rt.alloc(), Edition::E2019, 0x0005, body, asked));
    }
}

// A request with a count of two octets, and an authentication whose octets are all zero.
#[test]
fn what_an_edition_has_not_does_not_fit_it(rt: HostRuntime) {
    let rows: &[(u16, &[u8], Asked)] = &[
        (0x8003, b"\x00\x0A\x00\x00", Asked::OnlyOf2019),
        (0x0102, &[0; 36], Asked::OnlyOf2019),
        (0x0102, &[0; 36], Asked::AuthOfZeros),
    ];
    for &(id, body, asked) in rows {
        assert!(rt; is_so(rt.alloc(), Edition::E2019, id, body, asked));
    }
}
