//! Calls of any vault, which look first whether they may be made, and what it answers.

use crate::units::unit_of;
use jt_position::Fix;
use jt_store::{Loaded, StoreError, Vault};
use jt_value::gap;
use std::alloc::Global;

/// The greatest gap of a unit that is formed.
const NEAR: u16 = 32_766;

/// A call of a vault.
#[derive(Clone, Copy)]
pub enum Call {
    /// Records a fix at this latitude.
    Note(u32),
    /// Forms a unit of so many of the oldest fixes that are in none: a position, or a batch of two and more.
    Form(usize),
    /// Accepts the oldest unit.
    Accept,
    /// Sets the code to one octet, or removes it.
    Code(Option<u8>),
    /// How many fixes are in no unit and how many units wait, the mark, the next serial, and how many fixes are recorded and
    /// accepted.
    Load,
    /// The serial of the oldest unit that waits, how many fixes it carries, and the first octet of the code.
    Oldest,
    /// The latitude of the oldest fix that is in no unit.
    Next,
}

/// What a vault answers.
#[derive(Clone, Copy, Debug, PartialEq, Eq)]
pub enum Said {
    Done,
    /// So many do not wait, or the units are too far from the mark.
    Nothing,
    Held(usize, usize, u16, u16, u64, u64),
    Oldest(u16, u32, Option<u8>),
    /// The last octet of the latitude.
    Next(u8),
    Refused(StoreError),
}

/// Records a fix at this latitude.
pub fn note<V: Vault>(alloc: Global, vault: &mut V, lat: u32) -> Result<bool, StoreError> {
    let fix = Fix::at(alloc, lat)?;
    vault.note_fix(alloc, &fix)?;
    Ok(true)
}

/// Forms a unit of so many of the oldest fixes. False where not so many wait, or the units are too far from the mark.
pub fn form<V: Vault>(alloc: Global, vault: &mut V, count: usize) -> Result<bool, StoreError> {
    let loaded = vault.load(alloc)?;
    if gap(loaded.mark, loaded.next) > NEAR {
        return Ok(false);
    }
    let Some(unit) = unit_of(alloc, loaded.next, loaded.fixes.as_slice(), count)? else {
        return Ok(false);
    };
    vault.form(alloc, &unit)?;
    Ok(true)
}

/// Accepts the oldest unit. False where none waits.
pub fn accept<V: Vault>(alloc: Global, vault: &mut V) -> Result<bool, StoreError> {
    let loaded = vault.load(alloc)?;
    if loaded.units.is_empty() {
        return Ok(false);
    }
    vault.accept(alloc)?;
    Ok(true)
}

fn set_code<V: Vault>(alloc: Global, vault: &mut V, code: Option<u8>) -> Result<bool, StoreError> {
    match code {
        Some(octet) => vault.set_code(alloc, Some(&[octet]))?,
        None => vault.set_code(alloc, None)?,
    }
    Ok(true)
}

/// What is said of an answer.
pub fn said_of(answer: Result<bool, StoreError>) -> Said {
    match answer {
        Ok(true) => Said::Done,
        Ok(false) => Said::Nothing,
        Err(error) => Said::Refused(error),
    }
}

fn said_of_held(answer: Result<Loaded, StoreError>) -> Said {
    match answer {
        Ok(loaded) => Said::Held(
            loaded.fixes.len(),
            loaded.units.len(),
            loaded.mark,
            loaded.next,
            loaded.recorded,
            loaded.accepted,
        ),
        Err(error) => Said::Refused(error),
    }
}

fn first_octet(loaded: &Loaded) -> Option<u8> {
    match &loaded.code {
        Some(octets) => octets.as_slice().first().copied(),
        None => None,
    }
}

fn said_of_oldest(answer: Result<Loaded, StoreError>) -> Said {
    match answer {
        Ok(loaded) => match loaded.units.get(0) {
            Some(unit) => Said::Oldest(unit.serial, unit.count, first_octet(&loaded)),
            None => Said::Nothing,
        },
        Err(error) => Said::Refused(error),
    }
}

fn said_of_next(answer: Result<Loaded, StoreError>) -> Said {
    match answer {
        Ok(loaded) => match loaded.fixes.get(0) {
            Some(fix) => Said::Next(fix.as_slice().get(11).copied().unwrap_or(0)),
            None => Said::Nothing,
        },
        Err(error) => Said::Refused(error),
    }
}

/// What the vault answers to a call.
pub fn answer<V: Vault>(alloc: Global, vault: &mut V, call: Call) -> Said {
    match call {
        Call::Note(lat) => said_of(note(alloc, vault, lat)),
        Call::Form(count) => said_of(form(alloc, vault, count)),
        Call::Accept => said_of(accept(alloc, vault)),
        Call::Code(code) => said_of(set_code(alloc, vault, code)),
        Call::Load => said_of_held(vault.load(alloc)),
        Call::Oldest => said_of_oldest(vault.load(alloc)),
        Call::Next => said_of_next(vault.load(alloc)),
    }
}

/// The place of the first call that is not answered so.
pub fn first_wrong<V: Vault>(
    alloc: Global,
    vault: &mut V,
    calls: &[(Call, Said)],
) -> Option<usize> {
    for (place, (call, said)) in calls.iter().enumerate() {
        if answer(alloc, vault, *call) != *said {
            return Some(place);
        }
    }
    None
}
