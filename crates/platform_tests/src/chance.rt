//! Requests by chance, the same in each run.

use crate::acting::{Ask, Who, phone, request};
use jt_platform::Request;
use jt_value::Memory;
use std::alloc::Global;

/// Where the requests begin.
pub const SEED: u64 = 20_131_208;

// From one number to the next.
const FACTOR: u64 = 6_364_136_223_846_793_005;

const SUMMAND: u64 = 1_442_695_040_888_963_407;

// After so many requests the oldest of four sessions gives way to a new one.
const REQUESTS_A_SESSION: u64 = 128;

// Behind so many they begin anew.
const SESSIONS: u64 = 10_000;

// So many requests go by until serials rise by one.
const REQUESTS_A_SERIAL: u64 = 16;

const SERIALS: u64 = 65_536;

/// A session and what it asks.
#[derive(Clone, Copy)]
pub struct Drawn {
    pub session: u32,
    pub who: Who,
    ask: Ask,
    first: u16,
    second: u8,
}

/// The number behind this one.
pub fn next(seed: u64) -> u64 {
    seed.wrapping_mul(FACTOR).wrapping_add(SUMMAND)
}

fn session(place: u64, bits: u64) -> u32 {
    let window = (place / REQUESTS_A_SESSION % SESSIONS) as u32;
    1 + window + (bits % 4) as u32
}

fn who(bits: u64) -> Who {
    match bits % 4 {
        0 => Who::Same,
        1 => Who::Second,
        _ => Who::First,
    }
}

fn ask(bits: u64) -> Ask {
    match bits % 32 {
        0 => Ask::Register,
        1 => Ask::RegisterZeros,
        2..=8 => Ask::Auth,
        9 => Ask::OtherAuth,
        10..=24 => Ask::Unit,
        25 => Ask::Deregister,
        26..=30 => Ask::Other,
        _ => Ask::Close,
    }
}

// One in four is not in the fleet.
fn plate(bits: u64) -> u16 {
    match bits % 4 {
        0 => 0x43,
        1 => 0x42,
        _ => 0x41,
    }
}

// One in four is not in the fleet.
fn terminal(bits: u64) -> u8 {
    match bits % 4 {
        0 => b'3',
        1 => b'2',
        _ => b'1',
    }
}

// A serial near those of before, or in one of 64 any.
fn serial(place: u64, bits: u64) -> u16 {
    let any = (bits / 64 % SERIALS) as u16;
    if bits % 64 == 0 {
        return any;
    }
    let near = (place / REQUESTS_A_SERIAL % SERIALS) as u16;
    near.wrapping_add(any % 4)
}

fn octet(bits: u64) -> u8 {
    if bits % 2 == 0 { b'x' } else { b'y' }
}

/// What is asked at this place, by a number.
pub fn draw(place: u64, seed: u64) -> Drawn {
    let bits = seed >> 16;
    let ask = ask(bits / 16);
    let (first, second) = match ask {
        Ask::Register | Ask::RegisterZeros => (plate(bits / 512), terminal(bits / 2048)),
        _ => (serial(place, bits / 1024), octet(bits / 512)),
    };
    Drawn {
        session: session(place, bits),
        who: who(bits / 4),
        ask,
        first,
        second,
    }
}

/// The request that was drawn.
pub fn drawn_request(alloc: Global, drawn: Drawn) -> Result<Request, Memory> {
    request(
        alloc,
        phone(drawn.who),
        drawn.ask,
        drawn.first,
        drawn.second,
    )
}
