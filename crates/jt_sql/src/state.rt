//! The one row of a vault's state. Each call is a part of a transaction.

use crate::asking::{all_rows, change, value};
use crate::refused::Refused;
use jt_value::Octets;
use sqlite::{Alter, Row, Transaction, params};

const READ: &str = "SELECT units_accepted, fixes_accepted, mark, next, code FROM state LIMIT 2";

const SET_NEXT: &str = "UPDATE state SET next = ?1";

const SET_ACCEPTED: &str = "UPDATE state SET units_accepted = ?1, fixes_accepted = ?2, mark = ?3";

const SET_CODE: &str = "UPDATE state SET code = ?1";

/// What a vault knows beside its fixes and units.
#[derive(Drop)]
pub(crate) struct State {
    /// How many units are accepted, and how many fixes they carry.
    pub units_accepted: i64,
    pub fixes_accepted: i64,
    /// The serial of the last unit that was accepted.
    pub mark: u16,
    /// The serial of the next unit.
    pub next: u16,
    /// The platform's code.
    pub code: Option<Octets>,
}

/// A serial that stands in a column.
pub(crate) fn serial_in(row: &Row, column: usize) -> Result<u16, Refused> {
    let number: u32 = value(row, column)?;
    match u16::try_from(number) {
        Ok(serial) => Ok(serial),
        Err(_) => Err(Refused::Failed),
    }
}

// The code in the last column.
fn code_in(row: &Row) -> Result<Option<Octets>, Refused> {
    let code: Option<Vec<u8>> = value(row, 4)?;
    match code {
        Some(octets) => Ok(Some(Octets::from_vec(octets))),
        None => Ok(None),
    }
}

/// The state. A table with no state, or with two, is refused.
pub(crate) fn read<S: Alter>(work: &mut Transaction<'_, S>) -> Result<State, Refused> {
    let rows = all_rows(work, READ, &[])?;
    match rows.as_slice() {
        [row] => state_in(row),
        _ => Err(Refused::Failed),
    }
}

// The state in the five columns.
fn state_in(row: &Row) -> Result<State, Refused> {
    let units_accepted = value(row, 0)?;
    let fixes_accepted = value(row, 1)?;
    let mark = serial_in(row, 2)?;
    let next = serial_in(row, 3)?;
    let code = code_in(row)?;
    Ok(State {
        units_accepted,
        fixes_accepted,
        mark,
        next,
        code,
    })
}

// Whether a change was one of the only row. A change of no row, or of two, is refused, and so undone.
fn changed_one(rows: usize) -> Result<(), Refused> {
    if rows == 1 {
        Ok(())
    } else {
        Err(Refused::Failed)
    }
}

/// Sets the serial of the next unit.
pub(crate) fn set_next<S: Alter>(work: &mut Transaction<'_, S>, next: u16) -> Result<(), Refused> {
    changed_one(change(work, SET_NEXT, params![i64::from(next)])?)
}

/// Sets how many units and fixes are accepted, and the serial of the last unit that is.
pub(crate) fn set_accepted<S: Alter>(
    work: &mut Transaction<'_, S>,
    units: i64,
    fixes: i64,
    mark: u16,
) -> Result<(), Refused> {
    changed_one(change(work, SET_ACCEPTED, params![units, fixes, i64::from(mark)])?)
}

/// Sets the platform's code, or removes it.
pub(crate) fn set_code<S: Alter>(
    work: &mut Transaction<'_, S>,
    code: Option<&[u8]>,
) -> Result<(), Refused> {
    changed_one(change(work, SET_CODE, params![code])?)
}
