//! What a terminal starts with.

ghost use Rattle.std.specs.Prelude.{IfSome};
ghost use Rattle.jt_terminal_rule.specs.Messages.{AreSettings};

use jt_register::{AuthTail, Register};
use jt_terminal::Settings;
use jt_value::{Edition, Memory, Octets, Phone};
use std::alloc::Global;

/// These octets.
pub fn octets(alloc: Global, octets: &[u8]) -> Result<Octets, Memory> {
    Ok(Octets::from_vec(Vec::from_slice(alloc, octets)?))
}

fn zeros(alloc: Global, front: &[u8], count: usize) -> Result<Octets, Memory> {
    let mut octets = Vec::from_slice(alloc, front)?;
    for _ in 0..count {
        octets.push(0)?;
    }
    Ok(Octets::from_vec(octets))
}

/// Phone 013912345678.
pub fn phone(edition: Edition) -> Option<Phone> {
    let read = match edition {
        Edition::E2013 => Phone::from_octets(edition, b"\x01\x39\x12\x34\x56\x78"),
        Edition::E2019 => {
            Phone::from_octets(edition, b"\x00\x00\x00\x00\x01\x39\x12\x34\x56\x78")
        }
    };
    match read {
        Ok(phone) => Some(phone),
        Err(_) => None,
    }
}

// How many octets the maker, the model, and the terminal behind its own seven have.
fn lengths(edition: Edition) -> (usize, usize, usize) {
    match edition {
        Edition::E2013 => (5, 20, 0),
        Edition::E2019 => (11, 30, 23),
    }
}

fn register(alloc: Global, edition: Edition) -> Result<Register, Memory> {
    let (maker, model, rest) = lengths(edition);
    Ok(Register {
        province: 0,
        city: 0,
        maker: zeros(alloc, b"", maker)?,
        model: zeros(alloc, b"", model)?,
        terminal: zeros(alloc, b"1234567", rest)?,
        colour: 1,
        plate: octets(alloc, b"JT808")?,
    })
}

fn tail(edition: Edition) -> Option<AuthTail> {
    match edition {
        Edition::E2013 => None,
        Edition::E2019 => Some(AuthTail {
            imei: [0; 15],
            software: [0; 20],
        }),
    }
}

/// Good settings of phone 013912345678: heartbeats of 60 seconds, waits of 10 and three repeats.
pub fn settings(alloc: Global, edition: Edition) -> Option<Settings>
    ensures { IfSome result AreSettings }
{
    let phone = phone(edition)?;
    let Ok(register) = register(alloc, edition) else {
        return None;
    };
    let settings = Settings {
        phone,
        register,
        tail: tail(edition),
        heartbeat: 60,
        answer: 10,
        repeats: 3,
    };
    if settings.fits() {
        Some(settings)
    } else {
        None
    }
}
