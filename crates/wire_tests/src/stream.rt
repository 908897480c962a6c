ghost use Rattle.std.specs.Prelude.{◌<◌, ◌≤◌, ◌+◌, ◌^◌, length};

use arrayvec::ArrayVec;
use jt_escape::{Split, check, escape_into};
use jt_header::{Header, Packet, write_header};
use jt_stream::{Stream, StreamItem};
use jt_value::{Edition, Phone, Refusal, Why};
use std::test::Fail;

const HEARTBEAT: [u8; 15] = [
    0x7E, 0x00, 0x02, 0x00, 0x00, 0x01, 0x39, 0x12, 0x34, 0x56, 0x78, 0x00, 0x00, 0x32, 0x7E,
];

fn header(id: u16, serial: u16, packet: Option<Packet>) -> Header {
    Header {
        edition: Edition::E2013,
        id,
        bit15: false,
        version: 0,
        phone: Phone {
            edition: Edition::E2013,
            digits: [0, 0, 0, 0, 0x01, 0x39, 0x12, 0x34, 0x56, 0x78],
        },
        serial,
        packet,
    }
}

fn refused(at: u64, inside: u64, why: Why) -> StreamItem {
    StreamItem::Refused(Refusal { at, inside, why })
}

// Whether this piece brings just these answers, each after so many more octets.
fn brings(stream: &mut Stream, piece: &[u8], answers: &[(usize, StreamItem)]) -> bool
    requires { stream.old.splitter.place + length piece.now < 2 ^ 63 }
    ensures { stream.new.splitter.place ≤ stream.old.splitter.place + length piece.now }
{
    let mut rest = piece;
    let mut all = true;
    for answer in answers {
        let (taken, item) = stream.take(rest);
        all = all && *answer == (taken, item);
        rest = &rest[taken..];
    }
    all && rest.is_empty()
}

// Whether this piece ends a frame, which is this or is refused so.
fn gives(stream: &mut Stream, piece: &[u8], wanted: Result<(u64, Header, &[u8]), Refusal>) -> bool
    requires { stream.old.splitter.place + length piece.now < 2 ^ 63 }
    ensures { stream.new.splitter.place ≤ stream.old.splitter.place + length piece.now }
{
    let (taken, split) = stream.take_in_place(piece);
    match split {
        Split::Content => taken == piece.len() && stream.frame_in(&piece[..taken]) == wanted,
        Split::More | Split::Refused(_) => false,
    }
}

#[test]
fn in_place(rt: HostRuntime) {
    let none: &[u8] = &[];
    let heartbeat = header(0x0002, 0, None);
    let mut stream = Stream::new();
    assert!(rt; gives(&mut stream, &HEARTBEAT, Ok((0, heartbeat, none))));
    assert!(rt; stream.frame() == None);

    let mut wrong = HEARTBEAT;
    wrong[13] = 0x33;
    let refusal = Refusal {
        at: 15,
        inside: 12,
        why: Why::CheckMismatch {
            computed: 0x32,
            found: 0x33,
        },
    };
    assert!(rt; gives(&mut stream, &wrong, Err(refusal)));

    let escaped = b"\x7E\x0F\x01\x00\x01\x01\x39\x12\x34\x56\x78\x00\x00\x7D\x02\x41\x7E";
    let body: &[u8] = &[0x7E];
    assert!(rt;
        gives(
            &mut stream,
            escaped,
            Ok((30, header(0x0F01, 0, None), body))
        )
    );

    assert!(rt; stream.take_in_place(&HEARTBEAT[..5]) == (5, Split::More));
    assert!(rt; gives(&mut stream, &HEARTBEAT[5..], Ok((47, heartbeat, none))));
}

#[test]
fn cut_in_two(rt: HostRuntime) {
    for cut in 1..15 {
        let mut stream = Stream::new();
        assert!(rt; stream.take(&HEARTBEAT[..cut]) == (cut, StreamItem::More));
        assert!(rt; stream.frame() == None);
        assert!(rt; stream.take(&HEARTBEAT[cut..]) == (15 - cut, StreamItem::Frame));
        let body: &[u8] = &[];
        assert!(rt; stream.frame() == Some((0, header(0x0002, 0, None), body)));
        assert!(rt; stream.finish() == None);
    }
}

#[test]
fn unfinished(rt: HostRuntime) {
    let mut stream = Stream::new();
    assert!(rt; stream.take(&HEARTBEAT[..14]) == (14, StreamItem::More));
    assert!(rt; stream.frame() == None);
    let refusal = Refusal {
        at: 14,
        inside: 0,
        why: Why::Truncated,
    };
    assert!(rt; stream.finish() == Some(refusal));
}

fn an_empty_frame_is_refused() -> bool {
    let mut stream = Stream::new();
    let empty = refused(0, 0, Why::EmptyFrame);
    let opens = brings(&mut stream, &[0x7E], &[(1, StreamItem::More)]);
    let answers = [(1, empty), (14, StreamItem::Frame)];
    let all = brings(&mut stream, &HEARTBEAT, &answers);
    opens && all && stream.frame().map(|frame| frame.0) == Some(1)
}

fn a_stray_run_is_refused() -> bool {
    let mut stream = Stream::new();
    let stray = refused(0, 0, Why::Stray);
    let answers = [(1, stray), (1, StreamItem::More)];
    let runs = brings(&mut stream, &[0x00, 0x00], &answers);
    let all = brings(&mut stream, &HEARTBEAT, &[(15, StreamItem::Frame)]);
    runs && all && stream.frame().map(|frame| frame.0) == Some(2)
}

fn a_bad_escape_is_refused() -> bool {
    let mut stream = Stream::new();
    let bad = refused(4, 0, Why::BadEscape);
    let octets = [0x7E, 0x00, 0x02, 0x7D, 0x03, 0x7E];
    let all = brings(&mut stream, &octets, &[(5, bad), (1, StreamItem::More)]);
    all && stream.finish() == None
}

fn a_long_frame_is_refused() -> bool {
    let mut stream = Stream::new();
    let long = refused(1046, 0, Why::TooLong);
    let stray = refused(1048, 0, Why::Stray);
    let opens = brings(&mut stream, &[0x7E], &[(1, StreamItem::More)]);
    let refuses = brings(&mut stream, &[0x00; 1046], &[(1046, long)]);
    let answers = [(2, stray), (13, StreamItem::More)];
    let all = brings(&mut stream, &HEARTBEAT, &answers);
    let end = stream.finish().map(|end| (end.at, end.why));
    opens && refuses && all && end == Some((1062, Why::Truncated))
}

#[test]
fn refusals_of_the_line(rt: HostRuntime) {
    assert!(rt; an_empty_frame_is_refused());
    assert!(rt; a_stray_run_is_refused());
    assert!(rt; a_bad_escape_is_refused());
    assert!(rt; a_long_frame_is_refused());
}

#[test]
fn refusals_of_contents(rt: HostRuntime) {
    let rows: &[(&[u8], u64, Why)] = &[
        (
            b"\x7E\x00\x02\x00\x00\x01\x39\x12\x34\x56\x78\x00\x00\x33\x7E",
            12,
            Why::CheckMismatch {
                computed: 0x32,
                found: 0x33,
            },
        ),
        (
            b"\x7E\x00\x02\x04\x00\x01\x39\x12\x34\x56\x78\x00\x00\x36\x7E",
            2,
            Why::Encrypted,
        ),
        (
            b"\x7E\x00\x02\x04\x00\x01\x39\x12\x34\x56\x78\x00\x00\x32\x7E",
            12,
            Why::CheckMismatch {
                computed: 0x36,
                found: 0x32,
            },
        ),
        (
            b"\x7E\x00\x02\x00\x01\x01\x39\x12\x34\x56\x78\x00\x00\x33\x7E",
            2,
            Why::LengthMismatch {
                declared: 1,
                actual: 0,
            },
        ),
        (
            b"\x7E\x00\x02\x00\x00\x01\x3A\x12\x34\x56\x78\x00\x00\x31\x7E",
            5,
            Why::PhoneDigit,
        ),
        (b"\x7E\x00\x7E", 1, Why::TooShort),
        (
            b"\x7E\x01\x04\x20\x02\x01\x39\x12\x34\x56\x78\x00\x0A\x00\x03\x00\x04\x00\x07\x1D\x7E",
            12,
            Why::BadPacketNumber,
        ),
        (
            b"\x7E\x00\x02\x44\x00\x01\x00\x00\x00\x00\x01\x39\x12\x34\x56\x78\x00\x00\x77\x7E",
            2,
            Why::Encrypted,
        ),
        (
            b"\x7E\x00\x02\x40\x00\x01\x39\x12\x34\x56\x78\x00\x00\x72\x7E",
            13,
            Why::TooShort,
        ),
    ];
    for &(octets, inside, why) in rows {
        assert!(rt; octets.len() <= 21);
        let mut stream = Stream::new();
        assert!(rt;
            brings(
                &mut stream,
                octets,
                &[(octets.len(), refused(0, inside, why))]
            )
        );
        assert!(rt; stream.frame() == None);
        assert!(rt; stream.finish() == None);
        assert!(rt; brings(&mut stream, &HEARTBEAT, &[(15, StreamItem::Frame)]));
        assert!(rt; stream.frame().map(|frame| frame.0) == Some(octets.len() as u64));
    }
}

#[test]
fn packets(rt: HostRuntime) {
    let octets =
        b"\x7E\x01\x04\x20\x02\x01\x39\x12\x34\x56\x78\x00\x0A\x00\x03\x00\x01\x00\x07\x18\x7E";
    let packet = Packet {
        total: 3,
        number: 1,
    };
    let mut stream = Stream::new();
    assert!(rt; brings(&mut stream, octets, &[(21, StreamItem::Frame)]));
    let body: &[u8] = &[0x00, 0x07];
    assert!(rt; stream.frame() == Some((0, header(0x0104, 10, Some(packet)), body)));
}

#[test]
fn written_back(rt: HostRuntime) -> Result<(), Fail> {
    let mut line = [0; 2061];
    line[..13].copy_from_slice(b"\x7E\x0F\xFF\x03\xFF\x01\x39\x12\x34\x56\x78\x00\x00");
    for place in 0..1023 {
        line[13 + 2 * place] = 0x7D;
        line[14 + 2 * place] = 0x02;
    }
    line[2059] = 0x42;
    line[2060] = 0x7E;
    let mut stream = Stream::new();
    assert!(rt; stream.take(&line) == (2061, StreamItem::Frame));
    let (place, read, body) = stream.frame().expect(&rt, "a frame");
    assert!(rt; place == 0);
    assert!(rt; read == header(0x0FFF, 0, None));
    assert!(rt; body == [0x7E; 1023].as_slice());

    let mut content = ArrayVec::new();
    write_header(&read, 1023, &mut content);
    content
        .try_extend_from_slice(body)
        .expect(&rt, "room for the body");
    let last = check(content.as_slice());
    assert!(rt; last == 0x42);
    content
        .try_push(last)
        .expect(&rt, "room for the check octet");
    let mut frame = ArrayVec::new();
    escape_into(content.as_slice(), &mut frame);
    assert!(rt; frame.as_slice() == line.as_slice());
    Ok(())
}
