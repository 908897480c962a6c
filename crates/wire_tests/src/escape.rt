ghost use Rattle.std.specs.Prelude.{◌≡◌, ◌≤◌, ◌<◌, ◌+◌, ◌^◌, length};

use arrayvec::ArrayVec;
use jt_escape::{Split, Splitter, check, escape_into};
use jt_value::{Refusal, Why};

const HEARTBEAT: [u8; 15] = [
    0x7E, 0x00, 0x02, 0x00, 0x00, 0x01, 0x39, 0x12, 0x34, 0x56, 0x78, 0x00, 0x00, 0x32, 0x7E,
];

fn refusal(why: Why, at: u64) -> Refusal {
    Refusal { at, inside: 0, why }
}

// Whether these octets bring just these answers, each with the last octet that it needs.
fn brings(splitter: &mut Splitter, octets: &[u8], answers: &[(usize, Split)]) -> bool
    requires { splitter.old.place + length octets.now < 2 ^ 63 }
    ensures { splitter.new.place ≡ splitter.old.place + length octets.now }
{
    let mut all = true;
    for (index, octet) in octets.iter().enumerate() {
        let answer = splitter.push(*octet);
        let wanted = answers.iter().find(|(at, _)| *at == index);
        all = all && answer == wanted.map_or(Split::More, |(_, split)| *split);
    }
    all
}

// Whether taking this piece brings what pushing its octets brings.
fn agree(bulk: &mut Splitter, plain: &mut Splitter, piece: &[u8]) -> bool
    requires bulk { bulk.old.place + length piece.now < 2 ^ 63 }
    requires plain { plain.old.place + length piece.now < 2 ^ 63 }
    ensures bulk { bulk.new.place ≡ bulk.old.place + length piece.now }
    ensures plain { plain.new.place ≡ plain.old.place + length piece.now }
{
    let mut same = true;
    let mut at = 0;
    while at < piece.len() {
        let (taken, split) = bulk.take(&piece[at..]);
        let pushed = brings(plain, &piece[at..at + taken], &[(taken - 1, split)]);
        let content = bulk.content() == plain.content() && bulk.opened() == plain.opened();
        same = same && pushed && content;
        at += taken;
    }
    same && bulk.finish() == plain.finish()
}

// The same of octets that are taken in place, and of the content that is left in the piece.
fn agree_in_place(lending: &mut Splitter, plain: &mut Splitter, piece: &[u8]) -> bool
    requires lending { lending.old.place + length piece.now < 2 ^ 63 }
    requires plain { plain.old.place + length piece.now < 2 ^ 63 }
    ensures lending { lending.new.place ≡ lending.old.place + length piece.now }
    ensures plain { plain.new.place ≡ plain.old.place + length piece.now }
{
    let mut same = true;
    let mut at = 0;
    while at < piece.len() {
        let (taken, split) = lending.take_in_place(&piece[at..]);
        let octets = &piece[at..at + taken];
        let pushed = brings(plain, octets, &[(taken - 1, split)]);
        let content = lending.content_in(octets) == plain.content()
            && lending.opened() == plain.opened();
        same = same && pushed && (content || split != Split::Content);
        at += taken;
    }
    same && lending.finish() == plain.finish()
}

// Whether taking two pieces brings what pushing their octets brings.
fn agree_on_both(first: &[u8], second: &[u8]) -> bool
    requires { length first.now + length second.now ≤ 2200 }
{
    let mut bulk = Splitter::new();
    let mut plain = Splitter::new();
    agree(&mut bulk, &mut plain, first) && agree(&mut bulk, &mut plain, second)
}

// The same where they are taken in place.
fn agree_on_both_in_place(first: &[u8], second: &[u8]) -> bool
    requires { length first.now + length second.now ≤ 2200 }
{
    let mut lending = Splitter::new();
    let mut plain = Splitter::new();
    agree_in_place(&mut lending, &mut plain, first)
        && agree_in_place(&mut lending, &mut plain, second)
}

// Whether both hold of a stream, wherever it is cut in two within its first 70 octets.
fn agree_cut(stream: &[u8]) -> bool {
    if 2200 < stream.len() {
        return false;
    }
    for cut in 0..stream.len().min(70) {
        let (first, second) = (&stream[..cut], &stream[cut..]);
        if !agree_on_both(first, second) || !agree_on_both_in_place(first, second) {
            return false;
        }
    }
    true
}

fn long_contents() -> [u8; 2200] {
    let mut long = [0x55; 2200];
    for place in [0, 1046, 1047, 2093] {
        long[place] = 0x7E;
    }
    long
}

fn many_escapes() -> [u8; 2200] {
    let mut escapes = [0x7D; 2200];
    for place in 0..1100 {
        escapes[2 * place + 1] = 0x02;
    }
    escapes[0] = 0x7E;
    escapes[1] = 0x31;
    escapes
}

#[test]
fn pieces(rt: HostRuntime) {
    let streams: &[&[u8]] = &[
        b"\x00\x7D\x7E\x7E\x30\x7D\x02\x08\x7D\x01\x7E\x01\x7E",
        b"\x7E\x30\x7D\x03\x31\x7E\x7E\x32\x7E\x33\x34\x7E\x7E",
        b"\x7E\x7D\x7E\x7E\x7D\x02\x7E\x7E\x35\x7D\x7E\x36\x36\x37",
        b"\x7E\x7D\x02\x30\x7D\x01\x31\x32\x33\x34\x35\x36\x37\x38\x39\x7D\x01\x40\x7D\x05\x41\x7E\x7E\x7D\x02\x7D\x7E",
        b"\x7E\x7D\x02\x30\x31\x32\x33\x34\x35\x36\x37\x38\x7D\x01\x7D\x02\x39\x7E\x7E\x30\x7E",
        &HEARTBEAT,
        &[0x7E; 40],
    ];
    for &stream in streams {
        assert!(rt; agree_cut(stream));
    }
    assert!(rt; agree_cut(&long_contents()));
    assert!(rt; agree_cut(&many_escapes()));
}

#[test]
fn check_octets(rt: HostRuntime) {
    assert!(rt; check(&[]) == 0);
    assert!(rt; check(&HEARTBEAT[1..13]) == 0x32);
    let numbers =
        *b"\x01\x02\x03\x04\x05\x06\x07\x08\x09\x0A\x0B\x0C\x0D\x0E\x0F\x10\x11\x12\x13\x14\x15\x16\x17\x18\x19\x1A\x1B\x1C\x1D\x1E\x1F\x20\x21\x22\x23";
    for (count, all) in [
        (15, 0x00),
        (16, 0x10),
        (17, 0x01),
        (32, 0x20),
        (33, 0x01),
        (35, 0x00),
    ] {
        assert!(rt; count <= 35);
        assert!(rt; check(&numbers[..count]) == all);
    }
}

#[test]
fn frames(rt: HostRuntime) {
    let mut frame = ArrayVec::new();
    escape_into(&[0x30, 0x7E, 0x08, 0x7D, 0x55], &mut frame);
    assert!(rt;
        frame.as_slice() == [0x7E, 0x30, 0x7D, 0x02, 0x08, 0x7D, 0x01, 0x55, 0x7E].as_slice()
    );
}

#[test]
fn contents(rt: HostRuntime) {
    let mut splitter = Splitter::new();
    assert!(rt; brings(&mut splitter, &HEARTBEAT, &[(14, Split::Content)]));
    assert!(rt; splitter.content() == &HEARTBEAT[1..14]);
    assert!(rt; splitter.opened() == 0);
    assert!(rt; splitter.finish() == None);
    let escaped = [0x7E, 0x30, 0x7D, 0x02, 0x08, 0x7D, 0x01, 0x55, 0x7E];
    assert!(rt; brings(&mut splitter, &escaped, &[(8, Split::Content)]));
    assert!(rt; splitter.content() == [0x30, 0x7E, 0x08, 0x7D, 0x55].as_slice());
    assert!(rt; splitter.opened() == 15);
}

// Whether two short frames of 9 and 15 octets are taken in place.
fn takes_two(splitter: &mut Splitter) -> bool
    requires { splitter.old.place ≡ 0 }
    ensures { splitter.new.place ≤ 24 }
{
    let escaped = b"\x7E\x30\x7D\x02\x08\x7D\x01\x55\x7E";
    let first = splitter.take_in_place(escaped);
    let is_first = first == (9, Split::Content)
        && splitter.content_in(escaped) == b"\x30\x7E\x08\x7D\x55".as_slice();
    let second = splitter.take_in_place(&HEARTBEAT);
    is_first
        && second == (15, Split::Content)
        && splitter.content_in(&HEARTBEAT) == &HEARTBEAT[1..14]
        && splitter.content().is_empty()
        && splitter.opened() == 9
}

// Whether a frame of 1,046 octets is too long behind them, and one of 1,045 is not.
fn takes_the_longest(splitter: &mut Splitter) -> bool
    requires { splitter.old.place ≤ 24 }
{
    let mut frame = [0x55; 1048];
    frame[0] = 0x7E;
    frame[1047] = 0x7E;
    let long = Split::Refused(refusal(Why::TooLong, 1070));
    let first = splitter.take_in_place(&frame);
    let second = splitter.take_in_place(&frame[1047..]);
    frame[1046] = 0x7E;
    let third = splitter.take_in_place(&frame);
    first == (1047, long)
        && second == (1, Split::More)
        && third == (1047, Split::Content)
        && splitter.content_in(&frame[..1047]) == [0x55; 1045].as_slice()
        && splitter.opened() == 1072
}

#[test]
fn in_place(rt: HostRuntime) {
    let mut splitter = Splitter::new();
    assert!(rt; takes_two(&mut splitter));
    assert!(rt; takes_the_longest(&mut splitter));
}

#[test]
fn refusals(rt: HostRuntime) {
    let mut splitter = Splitter::new();
    let empty = Split::Refused(refusal(Why::EmptyFrame, 0));
    assert!(rt; brings(&mut splitter, &[0x7E], &[]));
    assert!(rt;
        brings(
            &mut splitter,
            &HEARTBEAT,
            &[(0, empty), (14, Split::Content)]
        )
    );
    assert!(rt; splitter.opened() == 1);

    let mut splitter = Splitter::new();
    let stray = Split::Refused(refusal(Why::Stray, 0));
    assert!(rt; brings(&mut splitter, &[0x00, 0x00], &[(0, stray)]));
    assert!(rt; brings(&mut splitter, &HEARTBEAT, &[(14, Split::Content)]));
    assert!(rt; splitter.opened() == 2);

    let rows: [(&[u8], u64); 3] = [
        (b"\x7E\x00\x02\x7D\x03\x7E", 4),
        (b"\x7E\x7D\x7D\x01\x02\x7E", 2),
        (b"\x7E\x00\x02\x00\x7D\x7E", 5),
    ];
    for (octets, place) in rows {
        assert!(rt; octets.len() <= 6);
        let mut splitter = Splitter::new();
        let bad = Split::Refused(refusal(Why::BadEscape, place));
        assert!(rt; brings(&mut splitter, octets, &[(place as usize, bad)]));
        assert!(rt; splitter.finish() == None);
        assert!(rt; brings(&mut splitter, &HEARTBEAT, &[(14, Split::Content)]));
    }
}

#[test]
fn lengths(rt: HostRuntime) {
    let mut splitter = Splitter::new();
    assert!(rt; brings(&mut splitter, &[0x7E], &[]));
    assert!(rt; brings(&mut splitter, &[0x00; 1045], &[]));
    assert!(rt; brings(&mut splitter, &[0x7E], &[(0, Split::Content)]));
    assert!(rt; splitter.content() == [0x00; 1045].as_slice());

    let mut splitter = Splitter::new();
    let long = Split::Refused(refusal(Why::TooLong, 1046));
    let stray = Split::Refused(refusal(Why::Stray, 1048));
    assert!(rt; brings(&mut splitter, &[0x7E], &[]));
    assert!(rt; brings(&mut splitter, &[0x00; 1046], &[(1045, long)]));
    assert!(rt; brings(&mut splitter, &HEARTBEAT, &[(1, stray)]));
    assert!(rt; splitter.finish() == Some(refusal(Why::Truncated, 1062)));
}

#[test]
fn ends(rt: HostRuntime) {
    let mut splitter = Splitter::new();
    assert!(rt; splitter.finish() == None);
    assert!(rt; brings(&mut splitter, &HEARTBEAT[..14], &[]));
    assert!(rt; splitter.finish() == Some(refusal(Why::Truncated, 14)));
    assert!(rt; brings(&mut splitter, &[0x7D], &[]));
    assert!(rt; splitter.finish() == Some(refusal(Why::Truncated, 15)));
}
