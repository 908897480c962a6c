//! The table of rows. Each call is a part of a transaction.

ghost use Rattle.std.specs.Prelude.{◌<◌, ◌≤◌, ◌^◌, IfOk, IfSome};

use crate::asking::{all_rows, change, has_row, one_row, value};
use crate::refused::Refused;
use jt_store::Row;
use jt_store_answers::{Adding, is_from};
use jt_value::limits::ROW_LIMIT;
use jt_value::{Octets, Seq};
use sqlite::{Alter, Transaction, params};
use std::alloc::Global;

// How far the greatest key of as many rows as a phone may have is above the least one, at least.
const KEYS: i64 = ROW_LIMIT as i64 - 1;

// Every number of a row is below this one, 2^47.
const NUMBERS: u64 = 140_737_488_355_328;

// How far above the last row's number the next one's may be, and what the first one's is below.
const FARTHEST: u64 = 131_071;

const FIRST_NUMBERS: u64 = 65_536;

const LAST: &str = "SELECT number FROM rows808 WHERE phone = ?1 ORDER BY number DESC LIMIT 1";

const COUNT: &str = "SELECT COUNT(*) FROM rows808 WHERE phone = ?1";

// The keys that the database itself gives the rows of all phones. They differ, so there are no more rows than keys from the
// least to the greatest.
const LEAST_KEY: &str = "SELECT rowid FROM rows808 ORDER BY rowid LIMIT 1";

const GREATEST_KEY: &str = "SELECT rowid FROM rows808 ORDER BY rowid DESC LIMIT 1";

const AT: &str = "SELECT number, id, body FROM rows808 WHERE phone = ?1 AND number = ?2";

const FROM: &str =
    "SELECT number, id, body FROM rows808 WHERE phone = ?1 AND number >= ?2 ORDER BY number LIMIT 1";

// Of each phone of which rows were moved into another database (tools/archive.py): the number of the last one of them. A file
// of which no rows were moved has no such table.
const LEFT_TABLE: &str = "SELECT 1 FROM sqlite_schema WHERE name = 'left808' COLLATE NOCASE";

const LEFT: &str = "SELECT number FROM left808 WHERE phone = ?1 AND number >= ?2";

const ALL: &str = "SELECT number, id, body FROM rows808 WHERE phone = ?1 ORDER BY number";

const ADD: &str = "INSERT INTO rows808 (phone, number, id, body) VALUES (?1, ?2, ?3, ?4)";

const REMOVE: &str = "DELETE FROM rows808 WHERE phone = ?1";

// A number that a row may have.
fn number_in(value: i64) -> Result<u64, Refused>
    ensures { IfOk result (λ number. number < 2 ^ 47) }
{
    match u64::try_from(value) {
        Ok(number) if number < NUMBERS => Ok(number),
        _ => Err(Refused::Failed),
    }
}

// The row of the three columns. One that no keeper would have written is refused.
fn row_in(row: &sqlite::Row) -> Result<Row, Refused>
    ensures { IfOk result (λ read. read.number < 2 ^ 47) }
{
    let number = number_in(value(row, 0)?)?;
    let id: u32 = value(row, 1)?;
    let Ok(id) = u16::try_from(id) else {
        return Err(Refused::Failed);
    };
    let body = Octets::from_vec(value(row, 2)?);
    Ok(Row { number, id, body })
}

/// The number of the last row.
pub(crate) fn last<S: Alter>(
    work: &mut Transaction<'_, S>,
    phone: &[u8],
) -> Result<Option<u64>, Refused>
    ensures { IfOk result (λ last. IfSome last (λ number. number < 2 ^ 47)) }
{
    let Some(row) = one_row(work, LAST, params![phone])? else {
        return Ok(None);
    };
    let number = number_in(value(&row, 0)?)?;
    Ok(Some(number))
}

// The row that is found by a phone and a number.
fn find<S: Alter>(
    work: &mut Transaction<'_, S>,
    sql: &str,
    phone: &[u8],
    number: u64,
) -> Result<Option<Row>, Refused>
    ensures { IfOk result (λ found. IfSome found (λ row. row.number < 2 ^ 47)) }
{
    let Ok(number) = i64::try_from(number) else {
        return Ok(None);
    };
    let Some(row) = one_row(work, sql, params![phone, number])? else {
        return Ok(None);
    };
    let row = row_in(&row)?;
    Ok(Some(row))
}

/// The row of this number.
pub(crate) fn at<S: Alter>(
    work: &mut Transaction<'_, S>,
    phone: &[u8],
    number: u64,
) -> Result<Option<Row>, Refused> {
    find(work, AT, phone, number)
}

// Whether rows of this number or above it were moved into another database.
fn have_left<S: Alter>(
    work: &mut Transaction<'_, S>,
    phone: &[u8],
    number: u64,
) -> Result<bool, Refused> {
    let Ok(number) = i64::try_from(number) else {
        return Ok(false);
    };
    if !has_row(work, LEFT_TABLE, &[])? {
        return Ok(false);
    }
    has_row(work, LEFT, params![phone, number])
}

/// The row of the least number from this one on. It fails where rows from there on were moved into another database: who goes
/// through all rows would pass over them.
pub(crate) fn from<S: Alter>(
    work: &mut Transaction<'_, S>,
    phone: &[u8],
    number: u64,
) -> Result<Option<Row>, Refused>
    ensures { IfOk result (λ found.
        IfSome found (λ row. (number ≤ row.number) × (row.number < 2 ^ 47))) }
{
    if have_left(work, phone, number)? {
        return Err(Refused::Failed);
    }
    match find(work, FROM, phone, number)? {
        Some(row) if is_from(&row, number) => Ok(Some(row)),
        Some(_) => Err(Refused::Failed),
        None => Ok(None),
    }
}

/// All rows of a phone, in the order of their numbers.
pub(crate) fn all<S: Alter>(
    alloc: Global,
    work: &mut Transaction<'_, S>,
    phone: &[u8],
) -> Result<Seq<Row>, Refused> {
    let found = all_rows(work, ALL, params![phone])?;
    let mut rows = Seq::new(alloc);
    // Each row of the database goes as its own row is made, so that all are held once.
    for row in found {
        rows.push(row_in(&row)?)?;
    }
    Ok(rows)
}

/// Removes all rows of a phone.
pub(crate) fn remove<S: Alter>(work: &mut Transaction<'_, S>, phone: &[u8]) -> Result<(), Refused> {
    change(work, REMOVE, params![phone])?;
    Ok(())
}

/// Puts a row into the table.
pub(crate) fn add<S: Alter>(
    work: &mut Transaction<'_, S>,
    phone: &[u8],
    row: &Row,
) -> Result<(), Refused> {
    let Ok(number) = i64::try_from(row.number) else {
        return Err(Refused::Failed);
    };
    let body = row.body.as_slice();
    change(work, ADD, params![phone, number, i64::from(row.id), body])?;
    Ok(())
}

// The key that is found, or 0 where there is no row.
fn key<S: Alter>(work: &mut Transaction<'_, S>, sql: &str) -> Result<i64, Refused> {
    match one_row(work, sql, &[])? {
        Some(row) => value(&row, 0),
        None => Ok(0),
    }
}

// Whether the file may have as many rows as a phone may have.
fn may_be_full<S: Alter>(work: &mut Transaction<'_, S>) -> Result<bool, Refused> {
    let least = key(work, LEAST_KEY)?;
    let greatest = key(work, GREATEST_KEY)?;
    Ok(greatest.saturating_sub(least) >= KEYS)
}

// How many rows a phone has.
fn count_of<S: Alter>(work: &mut Transaction<'_, S>, phone: &[u8]) -> Result<u64, Refused> {
    match one_row(work, COUNT, params![phone])? {
        Some(row) => value(&row, 0),
        None => Err(Refused::Failed),
    }
}

// Whether a phone has as many rows as it may have. The numbers of its rows differ, so they are counted only once the last
// one is so great that there may be as many, and only in a file that may have as many.
fn is_full<S: Alter>(
    work: &mut Transaction<'_, S>,
    phone: &[u8],
    last: Option<u64>,
) -> Result<bool, Refused> {
    match last {
        Some(last) if last >= ROW_LIMIT - 1 => {
            if !may_be_full(work)? {
                return Ok(false);
            }
            let count = count_of(work, phone)?;
            Ok(count >= ROW_LIMIT)
        }
        _ => Ok(false),
    }
}

// Whether a row of this number may stand behind the last one.
fn may_follow(last: Option<u64>, number: u64) -> bool {
    match last {
        Some(last) => last < number && number - last <= FARTHEST,
        None => number < FIRST_NUMBERS,
    }
}

/// Puts a row behind a phone's others. A number that may not follow is refused.
pub(crate) fn append<S: Alter>(
    work: &mut Transaction<'_, S>,
    phone: &[u8],
    row: &Row,
) -> Result<Adding, Refused> {
    let last = last(work, phone)?;
    if is_full(work, phone, last)? {
        return Ok(Adding::Full);
    }
    if !may_follow(last, row.number) {
        return Err(Refused::Failed);
    }
    add(work, phone, row)?;
    Ok(Adding::Done)
}
