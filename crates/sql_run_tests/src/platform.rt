//! A platform's life over any keeper, connection by connection, and what the keeper has then.

use crate::frames::frames;
use jt_platform::{Fleet, Hub, is_closed};
use jt_session::Session;
use jt_store::{Keeper, Registered, Row, StoreError};
use jt_value::{Buffer, Edition, Memory, Octets, Phone, Seq};
use std::alloc::{AllocError, Global};
use std::fmt::Write;
use terminal_tests::octets;

/// The number of a session, and the letters of the frames that it is given and that it writes. A number that stands twice keeps
/// its right with the hub, and its frames begin at serial 0 again.
pub type Talk = (u32, &'static [u8], &'static [u8]);

/// The talks of a platform from its start on, and what its keeper has then.
pub type Life = (&'static [Talk], &'static str);

/// The phone 013912345678, and 013912345679.
const PHONES: [Phone; 2] = [
    Phone {
        edition: Edition::E2013,
        digits: [0, 0, 0, 0, 0x01, 0x39, 0x12, 0x34, 0x56, 0x78],
    },
    Phone {
        edition: Edition::E2013,
        digits: [0, 0, 0, 0, 0x01, 0x39, 0x12, 0x34, 0x56, 0x79],
    },
];

/// The most octets that a session is given.
const MOST: usize = 100_000;

/// More rows than a phone has here.
const MOST_ROWS: u32 = 10;

fn alone(alloc: Global, name: &[u8]) -> Result<Seq<Octets>, Memory> {
    let name = octets(alloc, name)?;
    let mut list = Seq::new(alloc);
    list.push(name)?;
    Ok(list)
}

fn fleet(alloc: Global) -> Result<Fleet, Memory> {
    let plates = alone(alloc, b"JT808")?;
    let terminals = alone(alloc, b"1234567")?;
    Ok(Fleet { plates, terminals })
}

// A hub over a keeper, whose fleet is one vehicle.
fn hub<P: Keeper + Drop>(alloc: Global, keeper: P) -> Option<Hub<P>> {
    match (fleet(alloc), octets(alloc, b"12")) {
        (Ok(fleet), Ok(secret)) => hub_of(alloc, keeper, fleet, secret),
        _ => None,
    }
}

fn hub_of<P: Keeper + Drop>(
    alloc: Global,
    keeper: P,
    fleet: Fleet,
    secret: Octets,
) -> Option<Hub<P>> {
    match Hub::start(alloc, keeper, fleet, secret) {
        Ok(hub) => Some(hub),
        Err(_) => None,
    }
}

// What a session that has read nothing writes of these octets.
fn written<P: Keeper>(
    alloc: Global,
    hub: &mut Hub<P>,
    number: u32,
    given: &[u8],
) -> Result<Buffer<u8>, Memory> {
    let mut out = Buffer::new(alloc);
    if given.len() > MOST || is_closed(hub.history(), number) {
        return Ok(out);
    }
    let mut session = Session::new(alloc, number)?;
    let _ = session.feed(hub, given, &mut out);
    Ok(out)
}

fn answers<P: Keeper>(alloc: Global, hub: &mut Hub<P>, talk: &Talk) -> Result<bool, Memory> {
    let (number, given, wanted) = *talk;
    let given = frames(alloc, given)?;
    let wanted = frames(alloc, wanted)?;
    let out = written(alloc, hub, number, given.as_slice())?;
    Ok(out.as_slice() == wanted.as_slice())
}

// The place of the first talk in which another answer is written.
fn first_wrong<P: Keeper>(alloc: Global, hub: &mut Hub<P>, talks: &[Talk]) -> Option<usize> {
    for (place, talk) in talks.iter().enumerate() {
        match answers(alloc, hub, talk) {
            Ok(true) => {}
            _ => return Some(place),
        }
    }
    None
}

/// The keeper that a platform has once it has lived through these talks, or the place of the first that it answers otherwise.
pub fn live<P: Keeper + Drop>(alloc: Global, keeper: P, talks: &[Talk]) -> Result<P, usize> {
    let Some(mut hub) = hub(alloc, keeper) else {
        return Err(talks.len());
    };
    let wrong = first_wrong(alloc, &mut hub, talks);
    left(hub, wrong)
}

// What is left of a hub: its keeper, or the place of a wrong talk.
fn left<P: Keeper + Drop>(hub: Hub<P>, wrong: Option<usize>) -> Result<P, usize> {
    let (keeper, _history) = hub.into_parts();
    match wrong {
        None => Ok(keeper),
        Some(place) => Err(place),
    }
}

fn push_registered(text: &mut String, found: &Option<Registered>) -> Result<(), AllocError> {
    match found {
        Some(registered) => {
            text.push_str("registered ")?;
            push_octets(text, registered.plate.as_slice())?;
            text.push_str(" ")?;
            push_octets(text, registered.terminal.as_slice())
        }
        None => text.push_str("none"),
    }
}

/// Puts octets behind a text, as pairs of digits.
pub fn push_octets(text: &mut String, octets: &[u8]) -> Result<(), AllocError> {
    for octet in octets {
        write!(text, "{octet:02x}")?;
    }
    Ok(())
}

fn push_last(text: &mut String, last: Option<u64>) -> Result<(), AllocError> {
    match last {
        Some(number) => write!(text, " last={number}\n"),
        None => text.push_str("\n"),
    }
}

fn push_row(text: &mut String, row: &Row) -> Result<(), AllocError> {
    let Row { number, id, body } = row;
    write!(text, "{number} {id:04x} ")?;
    push_octets(text, body.as_slice())?;
    text.push_str("\n")
}

// The phone's rows from the first one on.
fn push_rows<P: Keeper>(
    alloc: Global,
    keeper: &mut P,
    phone: &Phone,
    text: &mut String,
) -> Result<(), StoreError> {
    let mut from = 0u64;
    for _ in 0..MOST_ROWS {
        let Some(row) = keeper.row_from(alloc, phone, from)? else {
            return Ok(());
        };
        push_row(text, &row)?;
        from = row.number.saturating_add(1);
    }
    Ok(())
}

fn push_kept<P: Keeper>(
    alloc: Global,
    keeper: &mut P,
    phone: &Phone,
    text: &mut String,
) -> Result<(), StoreError> {
    let found = keeper.registered(alloc, phone)?;
    push_registered(text, &found)?;
    let last = keeper.last(alloc, phone)?;
    push_last(text, last)?;
    push_rows(alloc, keeper, phone, text)
}

fn kept<P: Keeper>(alloc: Global, keeper: &mut P) -> Result<String, StoreError> {
    let mut text = String::new(alloc);
    for phone in &PHONES {
        push_kept(alloc, keeper, phone, &mut text)?;
    }
    Ok(text)
}

/// Whether a keeper has this of both phones: the plate, the terminal id, the number of the last row, and the rows.
pub fn keeps<P: Keeper>(alloc: Global, keeper: &mut P, text: &str) -> bool {
    match kept(alloc, keeper) {
        Ok(kept) => kept.as_str() == text,
        Err(_) => false,
    }
}
