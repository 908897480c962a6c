//! A terminal to which something happens row by row.

ghost use Rattle.std.specs.Prelude.{◌≡◌, ◌≤◌};

use crate::said::said_by;
use crate::scene::{note_at, open, started, tick, transcript};
use crate::starting::{octets, phone};
use jt_codec::Message;
use jt_header::Header;
use jt_register::RegisterReply;
use jt_store::MemVault;
use jt_terminal::{Event, Terminal, TerminalLine};
use jt_value::{Edition, Memory, Octets, Seq};
use std::alloc::Global;
use std::process::Abort;

fn lose(alloc: Global, terminal: &mut Terminal<MemVault>) -> Result<Octets, Memory>
    ensures { terminal.new.state.time ≡ terminal.old.state.time }
{
    let result = terminal.event(alloc, Event::Lost);
    transcript(alloc, &result)
}

/// A heartbeat is asked for.
pub fn beat(alloc: Global, terminal: &mut Terminal<MemVault>) -> Result<Octets, Memory>
    ensures { terminal.new.state.time ≡ terminal.old.state.time }
{
    let result = terminal.event(alloc, Event::Beat);
    transcript(alloc, &result)
}

// The terminal hears a message of the platform, in its phone's edition.
fn hear(
    alloc: Global,
    terminal: &mut Terminal<MemVault>,
    edition: Edition,
    message: Message,
) -> Result<Octets, Memory>
    ensures { terminal.new.state.time ≡ terminal.old.state.time }
{
    let (Some(id), Some(phone)) = (message.id(), phone(edition)) else {
        return octets(alloc, b"no message");
    };
    if !message.fits(edition) {
        return octets(alloc, b"no message");
    }
    let header = Header {
        edition,
        id,
        bit15: false,
        version: 0,
        phone,
        serial: 0,
        packet: None,
    };
    let result = terminal.event(alloc, Event::Received(header, message));
    transcript(alloc, &result)
}

fn hear_reply(
    alloc: Global,
    terminal: &mut Terminal<MemVault>,
    edition: Edition,
    reply: u16,
    answer: u8,
    code: &[u8],
) -> Result<Octets, Memory>
    ensures { terminal.new.state.time ≡ terminal.old.state.time }
{
    let reply = RegisterReply {
        reply,
        result: answer,
        code: octets(alloc, code)?,
    };
    hear(alloc, terminal, edition, Message::RegisterReply(reply))
}

fn hear_ack(
    alloc: Global,
    terminal: &mut Terminal<MemVault>,
    edition: Edition,
    reply: u16,
    id: u16,
    answer: u8,
) -> Result<Octets, Memory>
    ensures { terminal.new.state.time ≡ terminal.old.state.time }
{
    let message = Message::PlatformAck {
        reply,
        id,
        result: answer,
    };
    hear(alloc, terminal, edition, message)
}

// How many octets a line is handed here at most.
const MOST: usize = 4_096;

// The terminal reads octets of the platform on a line that just began.
fn hand(alloc: Global, terminal: &mut Terminal<MemVault>, given: &[u8]) -> Result<Octets, Memory>
    ensures { terminal.new.state.time ≡ terminal.old.state.time }
{
    if given.len() > MOST {
        return octets(alloc, b"too many octets");
    }
    let mut line = TerminalLine::new(alloc);
    let result = line.feed(alloc, terminal, given);
    transcript(alloc, &result)
}

// A serial of sixteen bits.
fn number_of(number: u32) -> u16 {
    (number % 65_536) as u16
}

// What a row says happens: a line is opened (O) or lost (L), a heartbeat is asked for (B), a fix at this latitude is recorded (F),
// the reply to a registration (R) or a general response (A) of this serial is read, octets of the platform come (D), or it is this
// moment (T).
fn happens(
    alloc: Global,
    terminal: &mut Terminal<MemVault>,
    time: &mut u32,
    edition: Edition,
    what: u8,
    number: u32,
    id: u16,
    answer: u8,
    code: &[u8],
) -> Result<Octets, Memory>
    requires { terminal.old.state.time ≤ time.old }
    ensures { terminal.new.state.time ≤ time.new }
{
    match what {
        b'O' => open(alloc, terminal),
        b'L' => lose(alloc, terminal),
        b'B' => beat(alloc, terminal),
        b'F' => note_at(alloc, terminal, number),
        b'R' => hear_reply(alloc, terminal, edition, number_of(number), answer, code),
        b'D' => hand(alloc, terminal, code),
        b'A' => hear_ack(alloc, terminal, edition, number_of(number), id, answer),
        _ => {
            if number < *time {
                return octets(alloc, b"no moment");
            }
            *time = number;
            tick(alloc, terminal, u64::from(number))
        }
    }
}

/// A row: what happens, a number, an id, a result, a code or octets, and the name of what is said then.
pub type Row<'a> = (u8, u32, u16, u8, &'a [u8], &'a str);

/// The first row whose octets are not what the terminal said, or the number of rows. Of the vault these calls fail.
pub fn first_wrong(alloc: Global, edition: Edition, failing: &[u64], rows: &[Row]) -> usize {
    let Ok(failing) = Vec::from_slice(alloc, failing) else {
        return 0;
    };
    let Some(mut terminal) = started(alloc, edition, Seq::from_vec(failing)) else {
        return 0;
    };
    let mut time = 0;
    wrong_row(alloc, &mut terminal, &mut time, edition, rows)
}

// Whether the octets are those of a name.
fn is_said(alloc: Global, edition: Edition, octets: &Result<Octets, Memory>, name: &str) -> bool {
    match (octets, &said_by(alloc, edition, name)) {
        (Ok(octets), Ok(said)) => octets.as_slice() == said.as_slice(),
        _ => false,
    }
}

/// The same of a terminal that has begun, at this moment or before it.
pub fn wrong_row(
    alloc: Global,
    terminal: &mut Terminal<MemVault>,
    time: &mut u32,
    edition: Edition,
    rows: &[Row],
) -> usize
    requires { terminal.old.state.time ≤ time.old }
    ensures { terminal.new.state.time ≤ time.new }
{
    for (place, row) in rows.iter().enumerate() {
        let (what, number, id, answer, code, said) = *row;
        let result = happens(
            alloc, terminal, time, edition, what, number, id, answer, code,
        );
        if !is_said(alloc, edition, &result, said) {
            return place;
        }
    }
    rows.len()
}

/// In each edition the terminal says what the rows say.
pub fn expect_both(rt: &impl Abort, alloc: Global, rows: &[Row]) {
    for edition in [Edition::E2013, Edition::E2019] {
        assert!(rt; first_wrong(alloc, edition, &[], rows) == rows.len());
    }
}
