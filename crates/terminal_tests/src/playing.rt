//! A terminal and its line, to which something happens row by row.

ghost use Rattle.std.specs.Prelude.{◌≡◌, ◌≤◌};

use crate::scene::{note, note_at, open, started, tick, transcript};
use crate::starting::octets;
use crate::written::{octets_in, words_of};
use jt_position::{Fix, FixError};
use jt_store::MemVault;
use jt_terminal::{Terminal, TerminalLine};
use jt_value::{Edition, Memory, Octets, Seq};
use std::alloc::Global;
use std::process::Abort;

fn note_read(
    alloc: Global,
    terminal: &mut Terminal<MemVault>,
    position: &[u8],
) -> Result<Octets, Memory>
    ensures { terminal.new.state.time ≡ terminal.old.state.time }
{
    match Fix::read(alloc, position) {
        Ok(fix) => note(alloc, terminal, &fix),
        Err(FixError::Long(_) | FixError::Refused(_) | FixError::Memory) => octets(
            alloc, b"no fix",
        ),
    }
}

// What a circle has behind its id: no attribute, a latitude, a longitude and a radius.
const CIRCLE: &[u8] = b"\x00\x00\x00\x00\x00\x01\x00\x00\x00\x02\x00\x00\x00\x03";

// The most octets of a body in one packet here.
const PACKET: usize = 1_000;

// A setting and a count, and so many circles with ids in a row.
fn circles(alloc: Global, setting: u8, count: u8, first: u32) -> Result<Vec<u8>, Memory> {
    let mut body = Vec::from_slice(alloc, &[setting, count])?;
    for place in 0..count {
        body.extend_from_slice(&first.wrapping_add(u32::from(place)).to_be_bytes())?;
        body.extend_from_slice(CIRCLE)?;
    }
    Ok(body)
}

fn push_escaped(octet: u8, frame: &mut Vec<u8>) -> Result<(), Memory> {
    match octet {
        0x7e => frame.extend_from_slice(b"\x7d\x02")?,
        0x7d => frame.extend_from_slice(b"\x7d\x01")?,
        _ => frame.push(octet)?,
    }
    Ok(())
}

fn push_frame(content: &[u8], frames: &mut Vec<u8>) -> Result<(), Memory> {
    let mut check = 0;
    frames.push(0x7e)?;
    for octet in content {
        check ^= *octet;
        push_escaped(*octet, frames)?;
    }
    push_escaped(check, frames)?;
    frames.push(0x7e)?;
    Ok(())
}

// One packet: its front with the length put in, the serial's low octet, total and number, and its part of the body.
fn push_packet(
    alloc: Global,
    front: &[u8],
    total: u8,
    number: u8,
    part: &[u8],
    frames: &mut Vec<u8>,
) -> Result<(), Memory> {
    let mut content = Vec::from_slice(alloc, front)?;
    let [above, low] = ((part.len() % 1_024) as u16).to_be_bytes();
    if content.len() > 3 {
        content[2] |= above;
        content[3] = low;
    }
    content.extend_from_slice(&[number, 0, total, 0, number])?;
    content.extend_from_slice(part)?;
    push_frame(content.as_slice(), frames)
}

// A message of circles in packets. What is given is a packet's front with length 0, up to the high octet of its serial, and then
// a setting and a count. The low octet of a packet's serial is its number.
fn message_of_circles(alloc: Global, given: &[u8], first: u32) -> Result<Octets, Memory> {
    let mut frames = Vec::new(alloc);
    if given.len() > 2 {
        let (front, list) = given.split_at(given.len() - 2);
        let body = circles(alloc, list[0], list[1], first)?;
        let total = (body.len().div_ceil(PACKET) % 256) as u8;
        for (place, part) in body.as_slice().chunks(PACKET).enumerate() {
            let number = (place % 255) as u8 + 1;
            push_packet(alloc, front, total, number, part, &mut frames)?;
        }
    }
    Ok(Octets::from_vec(frames))
}

// How many octets a line is handed here at most.
const MOST: u64 = 1 << 40;

// The line hands the terminal octets of the platform.
fn hand(
    alloc: Global,
    terminal: &mut Terminal<MemVault>,
    line: &mut TerminalLine,
    read: &mut u64,
    given: &[u8],
) -> Result<Octets, Memory>
    requires { line.old.stream.place ≤ read.old }
    ensures time { terminal.new.state.time ≡ terminal.old.state.time }
    ensures place { line.new.stream.place ≤ read.new }
{
    let count = given.len() as u64;
    if *read > MOST || count > MOST {
        return octets(alloc, b"too many octets");
    }
    let result = line.feed(alloc, terminal, given);
    *read += count;
    transcript(alloc, &result)
}

/// A row: what happens, a number, octets that come, and what is said then.
#[derive(Drop)]
pub struct Row {
    what: u8,
    number: u32,
    given: Vec<u8>,
    said: Vec<u8>,
}

// What a row says happens: a line is opened (O), a fix at this latitude (F) or of these octets (G) is recorded, octets of the
// platform come (D), circles with ids from this number on come in packets (C), or it is this moment (T).
fn happens(
    alloc: Global,
    terminal: &mut Terminal<MemVault>,
    line: &mut TerminalLine,
    read: &mut u64,
    time: &mut u32,
    row: &Row,
) -> Result<Octets, Memory>
    requires time { terminal.old.state.time ≤ time.old }
    requires place { line.old.stream.place ≤ read.old }
    ensures time { terminal.new.state.time ≤ time.new }
    ensures place { line.new.stream.place ≤ read.new }
{
    let (number, given) = (row.number, row.given.as_slice());
    match row.what {
        b'O' => {
            *line = TerminalLine::new(alloc);
            open(alloc, terminal)
        }
        b'F' => note_at(alloc, terminal, number),
        b'G' => note_read(alloc, terminal, given),
        b'D' => hand(alloc, terminal, line, read, given),
        b'C' => {
            let message = message_of_circles(alloc, given, number)?;
            hand(alloc, terminal, line, read, message.as_slice())
        }
        _ => {
            if number < *time {
                return octets(alloc, b"no moment");
            }
            *time = number;
            tick(alloc, terminal, u64::from(number))
        }
    }
}

/// The first row whose octets are not what the terminal said, or the number of rows.
fn first_wrong(alloc: Global, edition: Edition, rows: &[Row]) -> usize {
    let Some(mut terminal) = started(alloc, edition, Seq::new(alloc)) else {
        return 0;
    };
    let mut line = TerminalLine::new(alloc);
    let mut read = 0;
    wrong_row(alloc, &mut terminal, &mut line, &mut read, rows)
}

/// The first place at which the octets, cut in two there, are answered by something else after these rows, or their number.
pub fn first_wrong_cut(
    alloc: Global,
    edition: Edition,
    rows: &[Row],
    given: &[u8],
    said: &[u8],
) -> usize {
    for cut in 0..given.len() {
        if !cut_says(alloc, edition, rows, &given[..cut], &given[cut..], said) {
            return cut;
        }
    }
    given.len()
}

fn cut_says(
    alloc: Global,
    edition: Edition,
    rows: &[Row],
    first: &[u8],
    second: &[u8],
    said: &[u8],
) -> bool {
    let Some(mut terminal) = started(alloc, edition, Seq::new(alloc)) else {
        return false;
    };
    let mut line = TerminalLine::new(alloc);
    says_in_two(alloc, &mut terminal, &mut line, rows, first, second, said)
}

// Whether the rows hold, and this is said at two pieces behind them.
fn says_in_two(
    alloc: Global,
    terminal: &mut Terminal<MemVault>,
    line: &mut TerminalLine,
    rows: &[Row],
    first: &[u8],
    second: &[u8],
    said: &[u8],
) -> bool
    requires time { terminal.old.state.time ≡ 0 }
    requires place { line.old.stream.place ≡ 0 }
{
    let mut read = 0;
    if wrong_row(alloc, terminal, line, &mut read, rows) < rows.len() {
        return false;
    }
    match said_in_two(alloc, terminal, line, &mut read, first, second) {
        Ok(octets) => octets.as_slice() == said,
        Err(Memory) => false,
    }
}

// What is said at two pieces, one behind the other.
fn said_in_two(
    alloc: Global,
    terminal: &mut Terminal<MemVault>,
    line: &mut TerminalLine,
    read: &mut u64,
    first: &[u8],
    second: &[u8],
) -> Result<Octets, Memory>
    requires { line.old.stream.place ≤ read.old }
{
    let one = hand(alloc, terminal, line, read, first)?;
    let two = hand(alloc, terminal, line, read, second)?;
    let mut whole = Vec::from_slice(alloc, one.as_slice())?;
    whole.extend_from_slice(two.as_slice())?;
    Ok(Octets::from_vec(whole))
}

fn wrong_row(
    alloc: Global,
    terminal: &mut Terminal<MemVault>,
    line: &mut TerminalLine,
    read: &mut u64,
    rows: &[Row],
) -> usize
    requires time { terminal.old.state.time ≡ 0 }
    requires place { line.old.stream.place ≤ read.old }
    ensures { line.new.stream.place ≤ read.new }
{
    let mut time = 0;
    for (place, row) in rows.iter().enumerate() {
        match happens(alloc, terminal, line, read, &mut time, row) {
            Ok(octets) => {
                if octets.as_slice() != row.said.as_slice() {
                    return place;
                }
            }
            Err(Memory) => return place,
        }
    }
    rows.len()
}

// The terminal is let in: it registers, and authenticates itself.
const LIVE: &str = "
    O 0 - 7e0100002a0139123456780000000000000000000000000000000000000000000000000000000000000031323334353637014a54383038047e
        - 7e0100405101000000000139123456780000000000000000000000000000000000000000000000000000000000000000000000000000000000000000000000313233343536370000000000000000000000000000000000000000000000014a543830383e7e
    D 0 7e8100000501391234567800000000004142b77e 7e0102000201391234567800014142337e
        7e81004005010000000001391234567800000000004142f67e 7e01024026010000000001391234567800010241420000000000000000000000000000000000000000000000000000000000000000000000547e
    D 0 7e8001000501391234567800010001010200b77e -
        7e80014005010000000001391234567800010001010200f67e -";

fn row_of(
    rt: &impl Abort,
    alloc: Global,
    what: &str,
    number: &str,
    given: &str,
    said: &str,
) -> Row {
    Row {
        what: what.as_bytes().first().copied().unwrap_or(b'-'),
        number: number.parse().expect(rt, "a number"),
        given: octets_in(alloc, given).expect(rt, "octets"),
        said: octets_in(alloc, said).expect(rt, "octets"),
    }
}

// Puts the rows of a text behind others: four words each, or six, in which the octets of 2013 stand before those of 2019.
fn push_rows(
    rt: &impl Abort,
    alloc: Global,
    edition: Edition,
    has_both: bool,
    text: &str,
    rows: &mut Vec<Row>,
) {
    let words = words_of(alloc, text).expect(rt, "words");
    for row in words.as_slice().chunks(if has_both { 6 } else { 4 }) {
        let (given, said) = if has_both && edition == Edition::E2019 {
            (4, 5)
        } else {
            (2, 3)
        };
        assert!(rt; said < row.len());
        rows.push(row_of(rt, alloc, row[0], row[1], row[given], row[said]))
            .expect(rt, "a row");
    }
}

/// The rows of one edition that let the terminal in, and those of a text: four words each, which are what happens, a number, and
/// in hexadecimal digits the octets that come and what is said then.
pub fn live_in(rt: &impl Abort, alloc: Global, edition: Edition, text: &str) -> Vec<Row> {
    let mut rows = Vec::new(alloc);
    push_rows(rt, alloc, edition, true, LIVE, &mut rows);
    push_rows(rt, alloc, edition, false, text, &mut rows);
    rows
}

/// A terminal that is let in says in this edition what the rows of a text say.
pub fn expect_in(rt: &impl Abort, alloc: Global, edition: Edition, text: &str) {
    let rows = live_in(rt, alloc, edition, text);
    assert!(rt; first_wrong(alloc, edition, rows.as_slice()) == rows.len());
}

/// In each edition the terminal says what the rows of a text say, once it is let in or from its start. Behind the octets of 2013
/// stand those of 2019, so these are six words each.
pub fn expect_both(rt: &impl Abort, alloc: Global, is_live: bool, text: &str) {
    for edition in [Edition::E2013, Edition::E2019] {
        let mut rows = Vec::new(alloc);
        if is_live {
            push_rows(rt, alloc, edition, true, LIVE, &mut rows);
        }
        push_rows(rt, alloc, edition, true, text, &mut rows);
        assert!(rt; first_wrong(alloc, edition, rows.as_slice()) == rows.len());
    }
}
