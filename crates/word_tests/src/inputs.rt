//! What `view` and `check` do with inputs that are too long or come in pieces, and lines of their own.

ghost use Rattle.std.specs.Prelude.{◌<◌, ◌≤◌, ◌^◌, length};

use jt_cli::{refusal_line, view_line};
use jt_codec::{Message, read_message};
use jt_header::{Header, read_header};
use jt_outside::{MemSink, MemSource, Source, StdSource};
use jt_value::{CodecError, Memory, Octets, Refusal, Seq, Why};
use jt_view::{Command, Encoding, Report, Status, report};
use std::alloc::Global;
use std::io::Read;
use std::process::Abort;

const HEX: &[u8] = b"7e000200000139123456780000327e";

const HEARTBEAT: &[u8] = b"\x7e\x00\x02\x00\x00\x01\x39\x12\x34\x56\x78\x00\x00\x32\x7e";

const LINE: &str =
    "0 2013 0x0002 heartbeat phone=013912345678 serial=0 body=0\nframes=1 refused=0\n";

const VIEW: Command = Command {
    report: Report::View,
    encoding: Encoding::Octets,
};

const CHECK: Command = Command {
    report: Report::Check,
    encoding: Encoding::Octets,
};

const VIEW_HEX: Command = Command {
    report: Report::View,
    encoding: Encoding::Hex,
};

fn source(alloc: Global, octets: &[u8]) -> Result<MemSource, Memory> {
    let octets = Octets::from_vec(octets.to_vec(alloc)?);
    Ok(MemSource::new(octets, Seq::new(alloc)))
}

fn sink(alloc: Global) -> Result<MemSink, Memory> {
    MemSink::new(alloc, 200, Seq::new(alloc))
}

// Whether the source is reported so, with this written.
fn is_reported<S: Source>(
    rt: &impl Abort,
    alloc: Global,
    source: &mut S,
    command: Command,
    most: u64,
    status: Status,
    written: &str,
) -> bool
    requires { most ≤ 2 ^ 40 }
{
    let mut sink = sink(alloc).expect(rt, "a sink");
    let ended = report(alloc, source, &mut sink, command, most);
    ended == status && sink.octets() == written.as_bytes()
}

#[test]
fn inputs_that_are_too_long(rt: HostRuntime) {
    let rows: &[(Command, &[u8], u64, Status, &str)] = &[
        (VIEW, HEARTBEAT, 15, Status::Done, LINE),
        (VIEW, HEARTBEAT, 14, Status::Refused, "input too long\n"),
        (VIEW, b"", 0, Status::Done, "frames=0 refused=0\n"),
        (CHECK, HEARTBEAT, 14, Status::Refused, "input too long\n"),
        (CHECK, b"\0\0", 1, Status::Refused, "0+0 refused Stray\n"),
        (VIEW_HEX, HEX, 30, Status::Done, LINE),
        (VIEW_HEX, HEX, 29, Status::Refused, "input too long\n"),
        (VIEW_HEX, b"7ex", 2, Status::Refused, "input too long\n"),
        (VIEW_HEX, b"7ex7", 3, Status::Refused, "hex refused at 2\n"),
    ];
    for &(command, octets, most, status, written) in rows {
        assert!(rt; most <= 1 << 40);
        let mut source = source(rt.alloc(), octets).expect(&rt, "a source");
        let is_so = is_reported(&rt, rt.alloc(), &mut source, command, most, status, written);
        assert!(rt; is_so, "{written}");
    }
}

#[test]
fn numbers_of_statuses(rt: HostRuntime) {
    let rows: &[(Status, u8)] = &[
        (Status::Done, 0),
        (Status::Refused, 1),
        (Status::Usage, 2),
        (Status::ReadFault, 3),
        (Status::WriteFault, 4),
        (Status::Memory, 8),
    ];
    for &(status, number) in rows {
        assert!(rt; status.number() == number);
    }
}

// Whether a view of these digits, read in two pieces, ends so, with this written.
fn is_viewed(
    rt: &impl Abort,
    alloc: Global,
    text: &[u8],
    cut: usize,
    status: Status,
    written: &str,
) -> bool
    requires { cut ≤ length text.now }
{
    let mut source = StdSource::new(text[..cut].chain(&text[cut..]));
    is_reported(rt, alloc, &mut source, VIEW_HEX, 1 << 40, status, written)
}

// Views the digits of each row, ` => ` and what is written of them, cut at each place.
fn expect_in_pieces(rt: &impl Abort, alloc: Global, status: Status, rows: &[&str]) {
    for row in rows {
        let (digits, written) = row.split_once(" => ").expect(rt, "a row");
        let digits = digits.as_bytes();
        for cut in 0..=digits.len() {
            assert!(rt;
                is_viewed(rt, alloc, digits, cut, status, written),
                "{written}"
            );
        }
    }
}

// An octet is two digits in either case, and blanks stand anywhere. Wrong octets, and a digit left at the end, are refused
// at their place. The rows with more than one octet are the body of a frame under an id without a row.
#[test]
fn hexadecimal_input(rt: HostRuntime) {
    let done: &[&str] = &[
        " => frames=0 refused=0\n",
        "7e0f01000401391234567800009aBcDeF0327e => 0 2013 0x0f01 opaque phone=013912345678 serial=0 body=4 body-octets=9abcdef0\nframes=1 refused=0\n",
        "7e0f0100030139123456780000 \t\r\n0 1\t2\r3\n\n4  5\r\n5a7e => 0 2013 0x0f01 opaque phone=013912345678 serial=0 body=3 body-octets=012345\nframes=1 refused=0\n",
        " \n => frames=0 refused=0\n",
    ];
    expect_in_pieces(&rt, rt.alloc(), Status::Done, done);
    let refused: &[&str] = &[
        "7e 7 => hex refused at 4\n",
        "7e0 => hex refused at 3\n",
        "7eg => hex refused at 2\n",
        "7e07e/ => hex refused at 5\n",
        "00\x0C11 => 0+0 refused Stray\nhex refused at 2\n",
        "ff@ => 0+0 refused Stray\nhex refused at 2\n",
        "ff` => 0+0 refused Stray\nhex refused at 2\n",
        "ffG => 0+0 refused Stray\nhex refused at 2\n",
        "ff: => 0+0 refused Stray\nhex refused at 2\n",
        "f => hex refused at 1\n",
    ];
    expect_in_pieces(&rt, rt.alloc(), Status::Refused, refused);
}

// Whether there is a message, and this is its line, where its frame stands at octet 7.
fn is_line(
    alloc: Global,
    header: &Header,
    message: &Result<Message, CodecError>,
    line: &[u8],
) -> bool {
    match message {
        Ok(message) => is_line_of(alloc, header, message, line),
        Err(_) => false,
    }
}

fn is_line_of(alloc: Global, header: &Header, message: &Message, line: &[u8]) -> bool {
    match &view_line(alloc, 7, header, message, 0) {
        Ok(octets) => octets.as_slice() == line,
        Err(_) => false,
    }
}

fn is_line_of_body(alloc: Global, header: &Header, body: &[u8], line: &[u8]) -> bool
    requires { length body.now < 2 ^ 10 }
{
    let message = read_message(alloc, header, body);
    is_line(alloc, header, &message, line)
}

// Whether this is the line of the heartbeat, as a message of its own.
fn is_line_of_heartbeat(alloc: Global, line: &[u8]) -> bool {
    match read_header(&HEARTBEAT[1..14]) {
        Ok((header, body)) => is_line_of_body(alloc, &header, body, line),
        Err(_) => false,
    }
}

// Whether this is the line of the refusal.
fn is_line_of_refusal(alloc: Global, refusal: &Refusal, line: &[u8]) -> bool {
    match &refusal_line(alloc, refusal) {
        Ok(octets) => octets.as_slice() == line,
        Err(_) => false,
    }
}

#[test]
fn lines_of_their_own(rt: HostRuntime) {
    let line = b"7 2013 0x0002 heartbeat phone=013912345678 serial=0 body=0\n";
    assert!(rt; is_line_of_heartbeat(rt.alloc(), line));
    let refusal = Refusal {
        at: 3,
        inside: 2,
        why: Why::LengthMismatch {
            declared: 1,
            actual: 0,
        },
    };
    let line = b"3+2 refused LengthMismatch declared=1 actual=0\n";
    assert!(rt; is_line_of_refusal(rt.alloc(), &refusal, line));
}
