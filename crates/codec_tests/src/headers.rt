ghost use Rattle.std.specs.Prelude.{◌<◌, ◌≤◌, ◌^◌, length};
ghost use Rattle.jt_header.specs.Content.{IsHeader};
ghost use Rattle.jt_codec.specs.Frames.{FrameAnswers};

use arrayvec::ArrayVec;
use jt_codec::{Message, frame_into, parse_frame, write_body};
use jt_header::{Header, Packet, read_header, write_header};
use jt_value::{CodecError, Edition, Phone, Refusal, Why};
use std::alloc::Global;

const PHONE: Phone = Phone {
    edition: Edition::E2019,
    digits: [0, 0, 0, 0, 0x01, 0x39, 0x12, 0x34, 0x56, 0x78],
};

// Whether the content has this header, and a body of so many octets.
fn has_header(content: &[u8], wanted: Header, len: usize) -> bool
    requires { length content.now ≤ 1045 }
{
    match read_header(content) {
        Ok((header, body)) => header == wanted && body.len() == len,
        Err(_) => false,
    }
}

// Whether the content has a header, and begins with what is written of it.
fn keeps_header(content: &[u8]) -> bool
    requires { length content.now ≤ 1045 }
{
    match read_header(content) {
        Ok((header, body)) => {
            let mut octets = ArrayVec::new();
            write_header(&header, body.len() as u16, &mut octets);
            content.starts_with(octets.as_slice())
        }
        Err(_) => false,
    }
}

fn header(bit15: bool, version: u8, serial: u16, packet: Option<Packet>) -> Header {
    Header {
        edition: Edition::E2019,
        id: 0x0104,
        bit15,
        version,
        phone: PHONE,
        serial,
        packet,
    }
}

const PLAIN: &[u8; 18] =
    b"\x01\x04\x40\x00\x01\x00\x00\x00\x00\x01\x39\x12\x34\x56\x78\x00\x00\x74";

const WITH_BIT15: &[u8; 20] =
    b"\x01\x04\xc0\x02\xff\x00\x00\x00\x00\x01\x39\x12\x34\x56\x78\x00\x0a\x00\x07\x05";

const OF_A_PACKET: &[u8; 24] =
    b"\x01\x04\x60\x02\x00\x00\x00\x00\x00\x01\x39\x12\x34\x56\x78\x00\x0a\x00\x03\x00\x01\x00\x07\x58";

#[test]
fn headers_of_2019(rt: HostRuntime) {
    let packet = Some(Packet {
        total: 3,
        number: 1,
    });
    assert!(rt; has_header(PLAIN, header(false, 1, 0, None), 0));
    assert!(rt; has_header(WITH_BIT15, header(true, 255, 10, None), 2));
    assert!(rt; has_header(OF_A_PACKET, header(false, 0, 10, packet), 2));
}

#[test]
fn headers_of_2019_written_back(rt: HostRuntime) {
    assert!(rt; keeps_header(PLAIN));
    assert!(rt; keeps_header(WITH_BIT15));
    assert!(rt; keeps_header(OF_A_PACKET));
}

#[test]
fn refusals_of_headers_of_2019(rt: HostRuntime) {
    let rows: &[(&[u8], u64, Why)] = &[
        (
            b"\x01\x04\x40\x00\x01\x00\x00\x00\x00\x01\x39\x12\x34\x56\x78\x00\x74",
            17,
            Why::TooShort,
        ),
        (
            b"\x01\x04\x60\x00\x01\x00\x00\x00\x00\x01\x39\x12\x34\x56\x78\x00\x00\x00\x03\x00\x57",
            21,
            Why::TooShort,
        ),
        (
            b"\x01\x04\x50\x00\x01\x00\x00\x00\x00\x01\x39\x12\x34\x56\x78\x00\x00\x64",
            2,
            Why::Encrypted,
        ),
        (
            b"\x01\x04\x40\x00\x01\xa0\x00\x00\x00\x01\x39\x12\x34\x56\x78\x00\x00\xd4",
            5,
            Why::PhoneDigit,
        ),
        (
            b"\x01\x04\x40\x00\x01\x00\x00\x00\x00\x01\x39\x12\x34\x56\x7a\x00\x00\x76",
            14,
            Why::PhoneDigit,
        ),
        (
            b"\x01\x04\x60\x00\x01\x00\x00\x00\x00\x01\x39\x12\x34\x56\x78\x00\x00\x00\x00\x00\x00\x54",
            17,
            Why::BadPacketNumber,
        ),
        (
            b"\x01\x04\x60\x00\x01\x00\x00\x00\x00\x01\x39\x12\x34\x56\x78\x00\x00\x00\x03\x00\x00\x57",
            17,
            Why::BadPacketNumber,
        ),
    ];
    for &(content, inside, why) in rows {
        assert!(rt; content.len() <= 1045);
        let refusal = Refusal { at: 0, inside, why };
        assert!(rt; read_header(content) == Err(refusal));
    }
}

// Whether this is the frame of the header and the body.
fn is_frame_of(header: &Header, body: &[u8], frame: &[u8]) -> bool
    requires { IsHeader header.now }
{
    if body.len() > 1023 {
        return false;
    }
    let mut octets = ArrayVec::new();
    frame_into(header, body, &mut octets);
    octets.as_slice() == frame
}

// Whether the message fits the header's edition, and this is its frame.
fn is_framed(alloc: Global, header: &Header, message: &Message, frame: &[u8]) -> bool
    requires { IsHeader header.now }
{
    if !message.fits(header.edition) {
        return false;
    }
    match &write_body(alloc, header.edition, message) {
        Ok(body) => is_frame_of(header, body.as_slice(), frame),
        Err(_) => false,
    }
}

// Whether the content was parsed, and this is the frame of what it is.
fn is_parsed_so(
    alloc: Global,
    _content: &[u8],
    parsed: &Result<(Header, Message), CodecError>,
    frame: &[u8],
) -> bool
    requires { FrameAnswers _content.now parsed.now }
{
    match parsed {
        Ok((header, message)) => is_framed(alloc, header, message, frame),
        Err(_) => false,
    }
}

// Whether the content is read, and its frame written back.
fn is_written_back(alloc: Global, content: &[u8], frame: &[u8]) -> bool
    requires { length content.now ≤ 1045 }
{
    let parsed = parse_frame(alloc, content);
    is_parsed_so(alloc, content, &parsed, frame)
}

#[test]
fn frames_written_back(rt: HostRuntime) {
    let rows: &[(&[u8], &[u8])] = &[
        (
            b"\x00\x02\x40\x00\x01\x00\x00\x00\x00\x01\x39\x12\x34\x56\x78\x00\x00\x73",
            b"\x7e\x00\x02\x40\x00\x01\x00\x00\x00\x00\x01\x39\x12\x34\x56\x78\x00\x00\x73\x7e",
        ),
        (
            b"\x00\x02\xc0\x00\xff\x00\x00\x00\x00\x01\x39\x12\x34\x56\x78\xff\xff\x0d",
            b"\x7e\x00\x02\xc0\x00\xff\x00\x00\x00\x00\x01\x39\x12\x34\x56\x78\xff\xff\x0d\x7e",
        ),
        (
            b"\x80\x01\xc0\x05\x01\x00\x00\x00\x00\x01\x39\x12\x34\x56\x78\x7e\x7d\x00\x00\x00\x02\x00\x74",
            b"\x7e\x80\x01\xc0\x05\x01\x00\x00\x00\x00\x01\x39\x12\x34\x56\x78\x7d\x02\x7d\x01\x00\x00\x00\x02\x00\x74\x7e",
        ),
        (
            b"\x01\x02\x40\x26\x01\x00\x00\x00\x00\x01\x39\x12\x34\x56\x78\x00\x02\x02\x41\x42\x31\x32\x33\x34\x35\x36\x37\x38\x39\x30\x31\x32\x33\x34\x35\x76\x31\x00\x00\x00\x00\x00\x00\x00\x00\x00\x00\x00\x00\x00\x00\x00\x00\x00\x00\x20",
            b"\x7e\x01\x02\x40\x26\x01\x00\x00\x00\x00\x01\x39\x12\x34\x56\x78\x00\x02\x02\x41\x42\x31\x32\x33\x34\x35\x36\x37\x38\x39\x30\x31\x32\x33\x34\x35\x76\x31\x00\x00\x00\x00\x00\x00\x00\x00\x00\x00\x00\x00\x00\x00\x00\x00\x00\x00\x20\x7e",
        ),
        (
            b"\x80\x03\x40\x08\x01\x00\x00\x00\x00\x01\x39\x12\x34\x56\x78\x00\x00\x00\x0a\x00\x02\x00\x01\x00\x02\xf1",
            b"\x7e\x80\x03\x40\x08\x01\x00\x00\x00\x00\x01\x39\x12\x34\x56\x78\x00\x00\x00\x0a\x00\x02\x00\x01\x00\x02\xf1\x7e",
        ),
        (
            b"\x80\x03\x80\x07\x01\x39\x12\x34\x56\x78\x00\x00\x00\x0a\x02\x00\x01\x00\x02\x3f",
            b"\x7e\x80\x03\x80\x07\x01\x39\x12\x34\x56\x78\x00\x00\x00\x0a\x02\x00\x01\x00\x02\x3f\x7e",
        ),
    ];
    for &(content, frame) in rows {
        assert!(rt; content.len() <= 1045);
        assert!(rt; is_written_back(rt.alloc(), content, frame));
    }
}
