//! The table of all units, at places from 0 on. Each call is a part of a transaction.

use crate::asking::{all_rows, change, one_row, value};
use crate::places::{count_places, place_behind};
use crate::refused::Refused;
use crate::state::serial_in;
use jt_store::Unit;
use jt_value::{Octets, Seq};
use sqlite::{Alter, Row, Transaction, params};
use std::alloc::Global;

const LAST: &str = "SELECT place FROM unit ORDER BY place DESC LIMIT 1";

const PLACES: &str = "SELECT place FROM unit ORDER BY place";

const CARRIED: &str = "SELECT SUM(fixes) FROM unit WHERE place < ?1";

const AT: &str = "SELECT serial, id, body, fixes FROM unit WHERE place = ?1";

const FROM: &str = "SELECT serial, id, body, fixes FROM unit WHERE place >= ?1 ORDER BY place";

const ADD: &str = "INSERT INTO unit (place, serial, id, body, fixes) VALUES (?1, ?2, ?3, ?4, ?5)";

// The unit in the four columns.
fn unit_in(row: &Row) -> Result<Unit, Refused> {
    let serial = serial_in(row, 0)?;
    let id = serial_in(row, 1)?;
    let body = Octets::from_vec(value(row, 2)?);
    let count = value(row, 3)?;
    Ok(Unit {
        serial,
        id,
        body,
        count,
    })
}

/// How many units were formed.
pub(crate) fn count<S: Alter>(work: &mut Transaction<'_, S>) -> Result<i64, Refused> {
    let last = one_row(work, LAST, &[])?;
    place_behind(last)
}

/// How many units were formed, where each stands at its place. Others are refused.
pub(crate) fn count_all<S: Alter>(work: &mut Transaction<'_, S>) -> Result<i64, Refused> {
    count_places(work, PLACES)
}

/// How many fixes the units before a place carry.
pub(crate) fn carried<S: Alter>(work: &mut Transaction<'_, S>, place: i64) -> Result<i64, Refused> {
    let Some(row) = one_row(work, CARRIED, params![place])? else {
        return Err(Refused::Failed);
    };
    let sum: Option<i64> = value(&row, 0)?;
    Ok(sum.unwrap_or(0))
}

/// The unit at a place.
pub(crate) fn at<S: Alter>(
    work: &mut Transaction<'_, S>,
    place: i64,
) -> Result<Option<Unit>, Refused> {
    let Some(row) = one_row(work, AT, params![place])? else {
        return Ok(None);
    };
    let unit = unit_in(&row)?;
    Ok(Some(unit))
}

/// The units from a place on.
pub(crate) fn from<S: Alter>(
    alloc: Global,
    work: &mut Transaction<'_, S>,
    place: i64,
) -> Result<Seq<Unit>, Refused> {
    let found = all_rows(work, FROM, params![place])?;
    let mut units = Seq::new(alloc);
    for row in &found {
        units.push(unit_in(row)?)?;
    }
    Ok(units)
}

/// Puts a unit at a place.
pub(crate) fn add<S: Alter>(
    work: &mut Transaction<'_, S>,
    place: i64,
    unit: &Unit,
) -> Result<(), Refused> {
    let serial = i64::from(unit.serial);
    let body = unit.body.as_slice();
    change(
        work,
        ADD,
        params![place, serial, i64::from(unit.id), body, unit.count],
    )?;
    Ok(())
}
