//! Files of the earlier version, in which a phone had an octet of its edition before its digits.

ghost use Rattle.std.specs.Prelude.{None, IsTrue};
ghost use Rattle.jt_store.specs.Migrating.{AreAppended};
ghost use Rattle.jt_store.specs.Tables.{MayAppend};

use crate::asking::{all_rows, change, value};
use crate::phones::phone_of;
use crate::refused::{Refused, refused_by};
use crate::{registrations, rows};
use jt_store::{NewPhone, OldPhone, Row, migrate};
use jt_value::limits::ROW_LIMIT;
use jt_value::{Edition, Phone, Seq};
use sqlite::{Alter, Transaction, params};
use std::alloc::Global;

const PHONES: &str = "SELECT phone FROM registered UNION SELECT phone FROM rows808";

const SET_VERSION: &str = "UPDATE meta SET version = 2";

// The octets of the editions of 2013 and 2019.
const EARLIER: u8 = 0;

const LATER: u8 = 1;

/// Moves all phones to their digits alone, one after another, and then sets the version.
pub(crate) fn migrate_all<S: Alter>(
    alloc: Global,
    work: &mut Transaction<'_, S>,
) -> Result<(), Refused> {
    let found = all_rows(work, PHONES, &[])?;
    for row in &found {
        let octets: Vec<u8> = value(row, 0)?;
        migrate_one(alloc, work, octets.as_slice())?;
    }
    change(work, SET_VERSION, &[])?;
    Ok(())
}

// Moves the phones of both editions with the digits of this one, if that was not done yet.
fn migrate_one<S: Alter>(
    alloc: Global,
    work: &mut Transaction<'_, S>,
    octets: &[u8],
) -> Result<(), Refused> {
    let Some((edition, digits)) = octets.split_first() else {
        return Err(Refused::Failed);
    };
    if *edition > LATER {
        return Err(Refused::Failed);
    }
    let mut old = Seq::new(alloc);
    take(alloc, work, Edition::E2013, digits, &mut old)?;
    take(alloc, work, Edition::E2019, digits, &mut old)?;
    let new = migrated(alloc, &old)?;
    put_all(work, &new)
}

// The octet of an edition before a phone's digits.
fn edition_octet(edition: Edition) -> u8 {
    match edition {
        Edition::E2013 => EARLIER,
        Edition::E2019 => LATER,
    }
}

// Takes what is kept of the phone of this edition with these digits out of the tables, and puts it behind the others.
fn take<S: Alter>(
    alloc: Global,
    work: &mut Transaction<'_, S>,
    edition: Edition,
    digits: &[u8],
    old: &mut Seq<OldPhone>,
) -> Result<(), Refused> {
    let phone = phone_of(edition, digits)?;
    let mut key = Vec::from_slice(alloc, &[edition_octet(edition)])?;
    key.extend_from_slice(digits)?;
    let found = take_key(alloc, work, phone, key.as_slice())?;
    if found.registered.is_some() || !found.rows.is_empty() {
        old.push(found)?;
    }
    Ok(())
}

// Takes what is kept under some octets out of the tables.
fn take_key<S: Alter>(
    alloc: Global,
    work: &mut Transaction<'_, S>,
    phone: Phone,
    key: &[u8],
) -> Result<OldPhone, Refused> {
    let registered = registrations::read(work, key)?;
    let rows = rows::all(alloc, work, key)?;
    registrations::remove(work, key)?;
    rows::remove(work, key)?;
    Ok(OldPhone {
        phone,
        registered,
        rows,
    })
}

// Whether a row of this number may stand behind the last one.
fn may_follow(last: Option<u64>, number: u64) -> bool
    ensures { IsTrue result → MayAppend last number }
{
    match last {
        None => number < 65_536,
        Some(last) => last < number && number - last <= 131_071,
    }
}

// Whether the numbers of rows are such as a keeper puts one behind another.
fn are_appended(rows: &[Row]) -> bool
    ensures { IsTrue result → AreAppended None rows.now }
{
    let mut last = None;
    for row in rows {
        if !may_follow(last, row.number) {
            return false;
        }
        last = Some(row.number);
    }
    true
}

// What old phones become. Rows that no keeper would have put one behind another are refused, and so are more of them than a
// phone may have.
fn migrated(alloc: Global, old: &Seq<OldPhone>) -> Result<Seq<NewPhone>, Refused> {
    let all = old
        .as_slice()
        .iter()
        .all(|phone| are_appended(phone.rows.as_slice()));
    if !all {
        return Err(Refused::Failed);
    }
    match migrate(alloc, old, ROW_LIMIT) {
        Ok(new) => Ok(new),
        Err(error) => Err(refused_by(error)),
    }
}

fn put_all<S: Alter>(work: &mut Transaction<'_, S>, new: &Seq<NewPhone>) -> Result<(), Refused> {
    for phone in new.as_slice() {
        put(work, phone)?;
    }
    Ok(())
}

fn put<S: Alter>(work: &mut Transaction<'_, S>, phone: &NewPhone) -> Result<(), Refused> {
    if let Some(registered) = &phone.registered {
        registrations::set(work, phone.digits.as_slice(), registered)?;
    }
    for row in phone.rows.as_slice() {
        rows::add(work, phone.digits.as_slice(), row)?;
    }
    Ok(())
}
