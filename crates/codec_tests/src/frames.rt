ghost use Rattle.std.specs.Prelude.{◌≡◌, ◌≤◌, ◌<◌, ◌^◌, length, IfSome};
ghost use Rattle.jt_header.specs.Content.{IsHeader};

use crate::reading::is_written;
use crate::values::{header, refused};
use arrayvec::ArrayVec;
use jt_codec::{Message, frame_into, parse_frame};
use jt_escape::{Split, Splitter};
use jt_header::{Header, Packet};
use jt_value::limits::FRAME_LIMIT;
use jt_value::{CodecError, Edition, Refusal, Why};
use std::alloc::Global;

// Why the content of a frame is refused.
fn frame_refusal(alloc: Global, content: &[u8]) -> Option<Refusal>
    requires { length content.now ≤ 1045 }
{
    match &parse_frame(alloc, content) {
        Err(CodecError::Refused(refusal)) => Some(*refusal),
        Err(CodecError::Memory) | Ok(_) => None,
    }
}

#[test]
fn refused_contents(rt: HostRuntime) {
    let rows: &[(&[u8], u64, Why)] = &[
        (
            b"\x81\x00\x00\x04\x01\x39\x12\x34\x56\x78\x00\x00\x00\x05\x03\x41\xF2",
            15,
            Why::Trailing,
        ),
        (
            b"\x07\x04\x00\x06\x01\x39\x12\x34\x56\x78\x00\x00\x00\x01\x00\x00\x1C\x00\x28",
            17,
            Why::Truncated,
        ),
        (
            b"\x00\x02\x00\x01\x01\x39\x12\x34\x56\x78\x00\x00\x07\x34",
            12,
            Why::Trailing,
        ),
        (
            b"\x82\x01\x80\x02\x01\x39\x12\x34\x56\x78\x00\x00\x07\x07\x31",
            12,
            Why::Trailing,
        ),
        (
            b"\x00\x02\x00\x01\x01\x39\x12\x34\x56\x78\x00\x00\x07\x33",
            13,
            Why::CheckMismatch {
                computed: 0x34,
                found: 0x33,
            },
        ),
        (
            b"\x00\x02\x00\x00\x01\x3A\x12\x34\x56\x78\x00\x00\x31",
            5,
            Why::PhoneDigit,
        ),
    ];
    for &(content, inside, why) in rows {
        assert!(rt; content.len() <= 1045);
        assert!(rt; frame_refusal(rt.alloc(), content) == refused(inside, why));
    }
}

// Whether a message is a part of these octets, which fits no edition of its own.
fn is_part_of(message: &Message, body: &[u8]) -> bool {
    let part = matches!(message, Message::Part(part) if part.as_slice() == body);
    part && message.id().is_none() && !message.fits(Edition::E2013)
}

// Whether this content is a part with this header and body.
fn is_part(alloc: Global, content: &[u8], header: Header, body: &[u8]) -> bool
    requires { length content.now ≤ 1045 }
{
    match &parse_frame(alloc, content) {
        Ok((read, message)) => *read == header && is_part_of(message, body),
        Err(_) => false,
    }
}

#[test]
fn packets(rt: HostRuntime) {
    let rows: &[(&[u8], u16, u16, Packet, &[u8])] = &[
        (
            b"\x01\x04\x20\x02\x01\x39\x12\x34\x56\x78\x00\x0A\x00\x03\x00\x01\x00\x07\x18",
            0x0104,
            10,
            Packet {
                total: 3,
                number: 1,
            },
            b"\x00\x07",
        ),
        (
            b"\x00\x02\x20\x01\x01\x39\x12\x34\x56\x78\x00\x00\x00\x01\x00\x01\x07\x14",
            0x0002,
            0,
            Packet {
                total: 1,
                number: 1,
            },
            b"\x07",
        ),
    ];
    for &(content, id, serial, packet, body) in rows {
        assert!(rt; content.len() <= 1045);
        let header = header(id, serial, Some(packet));
        assert!(rt; is_part(rt.alloc(), content, header, body));
    }
}

// Whether a frame is written as these octets.
fn is_framed(header: &Header, body: &[u8], octets: &[u8]) -> bool
    requires header { IsHeader header.now }
    requires body { length body.now < 2 ^ 10 }
{
    let mut frame = ArrayVec::new();
    frame_into(header, body, &mut frame);
    frame.as_slice() == octets
}

// The header of a content.
fn header_of(alloc: Global, content: &[u8]) -> Option<Header>
    requires { length content.now ≤ 1045 }
    ensures { IfSome result IsHeader }
{
    match parse_frame(alloc, content) {
        Ok((read, _message)) => Some(read),
        Err(_) => None,
    }
}

// Whether this content is a message of this header, which is written back as this body.
fn is_read_back(alloc: Global, content: &[u8], header: &Header, body: &[u8]) -> bool
    requires { length content.now ≤ 1045 }
{
    match &parse_frame(alloc, content) {
        Ok((read, message)) => {
            *read == *header
                && message.id() == Some(header.id)
                && is_written(alloc, Edition::E2013, message, body)
        }
        Err(_) => false,
    }
}

#[test]
fn frames(rt: HostRuntime) {
    let content = b"\x00\x02\x00\x00\x01\x39\x12\x34\x56\x78\x00\x00\x32";
    let heartbeat = header_of(rt.alloc(), content).expect(&rt, "a header");
    assert!(rt; heartbeat == header(0x0002, 0, None));
    assert!(rt; is_read_back(rt.alloc(), content, &heartbeat, b""));
    let frame = b"\x7E\x00\x02\x00\x00\x01\x39\x12\x34\x56\x78\x00\x00\x32\x7E";
    assert!(rt; is_framed(&heartbeat, &[], frame));
}

// What the last of these octets brings.
fn last_split(splitter: &mut Splitter, octets: &[u8]) -> Split
    requires { splitter.old.place ≡ 0 }
{
    let mut last = Split::More;
    for octet in octets {
        last = splitter.push(*octet);
    }
    last
}

// Whether the frame of this header and body gives them back.
fn is_split(
    alloc: Global,
    header: &Header,
    body: &[u8],
    frame: &ArrayVec<u8, FRAME_LIMIT>,
) -> bool {
    let mut splitter = Splitter::new();
    last_split(&mut splitter, frame.as_slice()) == Split::Content
        && is_read_back(alloc, splitter.content(), header, body)
}

// A frame of flags alone is the longest of its body's length, and is read back as the same.
#[test]
fn frame_of_flags(rt: HostRuntime) {
    let content = b"\x0F\xFF\x00\x00\x01\x39\x12\x34\x56\x78\x00\x00\xC0";
    let opaque = header_of(rt.alloc(), content).expect(&rt, "a header");
    let body = [0x7E; 1023];
    let mut frame = ArrayVec::new();
    frame_into(&opaque, &body, &mut frame);
    assert!(rt; frame.len() == 2061);
    assert!(rt; frame.as_slice().get(2059) == Some(&0x42));
    assert!(rt; opaque.id == 0x0FFF);
    assert!(rt; is_split(rt.alloc(), &opaque, &body, &frame));
}
