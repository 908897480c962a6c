use crate::events::{Said, says};
use jt_script::{EventLine, WorldEvent, event_line, first_word, number_up_to, octets_of};
use std::alloc::Global;
use std::process::Abort;

// A fix without items: status 3, latitude 7, longitude 113,000,000, the first second of 2024.
const LINE: &[u8] = b"raw 00000000000000030000000706bc3e40000000000000240101000000";

const OCTETS: &[u8] =
    b"\x00\x00\x00\x00\x00\x00\x00\x03\x00\x00\x00\x07\x06\xbc\x3e\x40\x00\x00\x00\x00\x00\x00\x24\x01\x01\x00\x00\x00";

// Lines of digits, and what each says.
const ROWS: &[(&str, Said)] = &[
    (
        "raw 00000000000000030000000706bc3e40000000000000240101000000",
        Said::Raw,
    ),
    (
        "raw 00000000000000030000000706BC3E40000000000000240101000000",
        Said::Raw,
    ),
    // an item that ends with the octets, one that is cut short, and an octet too few
    (
        "raw 00000000000000030000000706bc3e400000000000002401010000001000",
        Said::Raw,
    ),
    (
        "raw 00000000000000030000000706bc3e400000000000002401010000001001",
        Said::Bad,
    ),
    (
        "raw 00000000000000030000000706bc3e400000000000002401010000",
        Said::Bad,
    ),
    // an odd number of digits, a sign that is none, a space, a carriage return, a second word
    (
        "raw 00000000000000030000000706bc3e4000000000000024010100000",
        Said::Bad,
    ),
    (
        "raw 00000000000000030000000706bc3e4g000000000000240101000000",
        Said::Bad,
    ),
    (
        "raw 00000000000000030000000706bc3e40000000000000240101000000 ",
        Said::Bad,
    ),
    (
        "raw 00000000000000030000000706bc3e40000000000000240101000000\r",
        Said::Bad,
    ),
    (
        "raw 000000000000000300000007 06bc3e40000000000000240101000000",
        Said::Bad,
    ),
    (
        "raw  00000000000000030000000706bc3e40000000000000240101000000",
        Said::Bad,
    ),
    (
        "Raw 00000000000000030000000706bc3e40000000000000240101000000",
        Said::Bad,
    ),
    ("raw", Said::Bad),
    ("raw ", Said::Bad),
    ("raw -", Said::Bad),
    ("raw 00", Said::Bad),
];

#[test]
fn lines_of_octets(rt: HostRuntime) {
    for &(line, said) in ROWS {
        assert!(rt; says(&rt, rt.alloc(), line.as_bytes()) == said, "{line}");
    }
}

fn is_that_fix(line: &EventLine) -> bool {
    match line {
        EventLine::Event(WorldEvent::Raw(fix)) => fix.as_slice() == OCTETS,
        _ => false,
    }
}

#[test]
fn the_octets_of_a_fix(rt: HostRuntime) {
    let line = event_line(rt.alloc(), LINE).expect(&rt, "memory");
    assert!(rt; is_that_fix(&line));
}

// What a fix says that has so many items without a value: 28 octets, and two for each.
fn says_with_items(rt: &impl Abort, alloc: Global, count: u32) -> Said {
    let mut line = String::from_str(
        alloc,
        "raw 00000000000000030000000706bc3e40000000000000240101000000",
    )
    .expect(rt, "a line");
    for _ in 0..count {
        line.push_str("1000").expect(rt, "a line");
    }
    says(rt, alloc, line.as_bytes())
}

#[test]
fn fixes_of_at_most_1023_octets(rt: HostRuntime) {
    let alloc = rt.alloc();
    assert!(rt; says_with_items(&rt, alloc, 497) == Said::Raw);
    assert!(rt; says_with_items(&rt, alloc, 498) == Said::Bad);
}

#[test]
fn words_of_a_line(rt: HostRuntime) {
    assert!(rt;
        first_word(b"issue 8300 0141") == (b"issue".as_slice(), Some(b"8300 0141".as_slice()))
    );
    assert!(rt; first_word(b"a ") == (b"a".as_slice(), Some(b"".as_slice())));
    assert!(rt; first_word(b" a") == (b"".as_slice(), Some(b"a".as_slice())));
    assert!(rt; first_word(b"pump") == (b"pump".as_slice(), None));
    assert!(rt; first_word(b"") == (b"".as_slice(), None));
}

#[test]
fn numbers_of_words(rt: HostRuntime) {
    assert!(rt; number_up_to(20_000, b"20000") == Some(20_000));
    assert!(rt; number_up_to(20_000, b"20001").is_none());
    assert!(rt; number_up_to(20_000, b"").is_none());
    assert!(rt; number_up_to(0, b"0") == Some(0));
}

fn are_octets(rt: &impl Abort, alloc: Global, word: &[u8], octets: &[u8]) -> bool {
    match octets_of(alloc, word).expect(rt, "memory") {
        Some(written) => written.as_slice() == octets,
        None => false,
    }
}

fn are_none(rt: &impl Abort, alloc: Global, word: &[u8]) -> bool {
    octets_of(alloc, word).expect(rt, "memory").is_none()
}

#[test]
fn octets_of_words(rt: HostRuntime) {
    let alloc = rt.alloc();
    assert!(rt; are_octets(&rt, alloc, b"8300", b"\x83\x00"));
    assert!(rt; are_octets(&rt, alloc, b"aBfF", b"\xab\xff"));
    assert!(rt; are_octets(&rt, alloc, b"", b""));
    assert!(rt; are_none(&rt, alloc, b"830"));
    assert!(rt; are_none(&rt, alloc, b"-"));
    assert!(rt; are_none(&rt, alloc, b"83 00"));
}
