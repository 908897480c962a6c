//! The table of all recorded fixes, at places from 0 on. Each call is a part of a transaction.

use crate::asking::{all_rows, change, one_row, value};
use crate::places::{count_places, place_behind};
use crate::refused::Refused;
use jt_position::{Fix, FixError};
use jt_value::Seq;
use sqlite::{Alter, Row, Transaction, params};
use std::alloc::Global;

const LAST: &str = "SELECT place FROM fix ORDER BY place DESC LIMIT 1";

const PLACES: &str = "SELECT place FROM fix ORDER BY place";

const FROM: &str = "SELECT body FROM fix WHERE place >= ?1 ORDER BY place";

const ADD: &str = "INSERT INTO fix (place, body) VALUES (?1, ?2)";

/// How many fixes are recorded.
pub(crate) fn count<S: Alter>(work: &mut Transaction<'_, S>) -> Result<i64, Refused> {
    let last = one_row(work, LAST, &[])?;
    place_behind(last)
}

/// How many fixes are recorded, where each stands at its place. Others are refused.
pub(crate) fn count_all<S: Alter>(work: &mut Transaction<'_, S>) -> Result<i64, Refused> {
    count_places(work, PLACES)
}

// The fix in the only column. Octets that are no fix are refused.
fn fix_in(alloc: Global, row: &Row) -> Result<Fix, Refused> {
    let octets: Vec<u8> = value(row, 0)?;
    match Fix::read(alloc, octets.as_slice()) {
        Ok(fix) => Ok(fix),
        Err(FixError::Memory) => Err(Refused::Memory),
        Err(_) => Err(Refused::Failed),
    }
}

/// The fixes from a place on.
pub(crate) fn from<S: Alter>(
    alloc: Global,
    work: &mut Transaction<'_, S>,
    place: i64,
) -> Result<Seq<Fix>, Refused> {
    let found = all_rows(work, FROM, params![place])?;
    let mut fixes = Seq::new(alloc);
    for row in &found {
        fixes.push(fix_in(alloc, row)?)?;
    }
    Ok(fixes)
}

/// Puts a fix at a place.
pub(crate) fn add<S: Alter>(
    work: &mut Transaction<'_, S>,
    place: i64,
    fix: &Fix,
) -> Result<(), Refused> {
    change(work, ADD, params![place, fix.as_slice()])?;
    Ok(())
}
