//! The calls of a keeper, each one transaction over a connection.

ghost use Rattle.std.specs.Option.{option_copied, option_map};
ghost use Rattle.std.specs.Prelude.{◌<◌, ◌≤◌, ◌^◌, IfOk, IfSome};
ghost use Rattle.jt_store.specs.Tables.{IsBehind};
ghost use Rattle.jt_value.specs.Sameness.{key_of};

use crate::asking::make;
use crate::migration::migrate_all;
use crate::opening::{begun, settled};
use crate::refused::Refused;
use crate::versions::version;
use crate::{registrations, rows};
use jt_store::{Registered, Row};
use jt_store_answers::Adding;
use jt_value::Phone;
use sqlite::{Alter, Connection, Transaction};
use std::alloc::Global;

// The version in which a phone is its ten octets of digits, and the one before, in which an octet of the edition stood first.
const VERSION: i64 = 2;

const EARLIER: i64 = 1;

const MAKE: &str = "CREATE TABLE meta (version INTEGER); \
     INSERT INTO meta (version) VALUES (2); \
     CREATE TABLE registered (phone BLOB PRIMARY KEY, plate BLOB UNIQUE, terminal BLOB UNIQUE); \
     CREATE TABLE rows808 (phone BLOB, number INTEGER, id INTEGER, body BLOB, PRIMARY KEY (phone, number))";

// Makes the tables in a new file, migrates those of the earlier version, and refuses all others.
fn prepare<S: Alter>(alloc: Global, work: &mut Transaction<'_, S>) -> Result<(), Refused> {
    match version(work)? {
        None => make(work, MAKE),
        Some(VERSION) => Ok(()),
        Some(EARLIER) => migrate_all(alloc, work),
        Some(_) => Err(Refused::Failed),
    }
}

// Begins a transaction over tables of the present version.
fn begin<S: Alter>(
    alloc: Global,
    connection: &mut Connection<S>,
) -> Result<Transaction<'_, S>, Refused> {
    let mut work = begun(connection)?;
    prepare(alloc, &mut work)?;
    Ok(work)
}

/// What the phone is registered with.
pub(crate) fn registered<S: Alter>(
    alloc: Global,
    connection: &mut Connection<S>,
    phone: &Phone,
) -> Result<Option<Registered>, Refused> {
    let mut work = begin(alloc, connection)?;
    let found = registrations::read(&mut work, phone.digits.as_slice());
    settled(work, found)
}

/// The phone of 2019 with the digits of the one that is registered with this plate.
pub(crate) fn plate_owner<S: Alter>(
    alloc: Global,
    connection: &mut Connection<S>,
    plate: &[u8],
) -> Result<Option<Phone>, Refused> {
    let mut work = begin(alloc, connection)?;
    let owner = registrations::plate_owner(&mut work, plate);
    settled(work, owner)
}

/// The phone of 2019 with the digits of the one that is registered with this terminal id.
pub(crate) fn terminal_owner<S: Alter>(
    alloc: Global,
    connection: &mut Connection<S>,
    terminal: &[u8],
) -> Result<Option<Phone>, Refused> {
    let mut work = begin(alloc, connection)?;
    let owner = registrations::terminal_owner(&mut work, terminal);
    settled(work, owner)
}

/// The phone with the least digits behind those of `after`, or with the least of all, and its registration.
pub(crate) fn next_registered<S: Alter>(
    alloc: Global,
    connection: &mut Connection<S>,
    after: Option<&Phone>,
) -> Result<Option<(Phone, Registered)>, Refused>
    ensures { IfOk result (λ found. IfSome found (λ one.
        IsBehind (option_map key_of (option_copied after.entry)) (key_of one.0))) }
{
    let mut work = begin(alloc, connection)?;
    let found = registrations::next(&mut work, after);
    settled(work, found)
}

/// Registers the phone, or replaces its registration.
pub(crate) fn register<S: Alter>(
    alloc: Global,
    connection: &mut Connection<S>,
    phone: &Phone,
    registered: &Registered,
) -> Result<(), Refused> {
    let mut work = begin(alloc, connection)?;
    let done = registrations::set(&mut work, phone.digits.as_slice(), registered);
    settled(work, done)
}

/// Removes the phone's registration, if there is one.
pub(crate) fn unregister<S: Alter>(
    alloc: Global,
    connection: &mut Connection<S>,
    phone: &Phone,
) -> Result<(), Refused> {
    let mut work = begin(alloc, connection)?;
    let done = registrations::remove(&mut work, phone.digits.as_slice());
    settled(work, done)
}

/// The number of the phone's last row.
pub(crate) fn last<S: Alter>(
    alloc: Global,
    connection: &mut Connection<S>,
    phone: &Phone,
) -> Result<Option<u64>, Refused>
    ensures { IfOk result (λ last. IfSome last (λ number. number < 2 ^ 47)) }
{
    let mut work = begin(alloc, connection)?;
    let last = rows::last(&mut work, phone.digits.as_slice());
    settled(work, last)
}

/// The phone's row of this number.
pub(crate) fn row_at<S: Alter>(
    alloc: Global,
    connection: &mut Connection<S>,
    phone: &Phone,
    number: u64,
) -> Result<Option<Row>, Refused> {
    let mut work = begin(alloc, connection)?;
    let row = rows::at(&mut work, phone.digits.as_slice(), number);
    settled(work, row)
}

/// The phone's row of the least number from this one on.
pub(crate) fn row_from<S: Alter>(
    alloc: Global,
    connection: &mut Connection<S>,
    phone: &Phone,
    number: u64,
) -> Result<Option<Row>, Refused>
    ensures { IfOk result (λ found.
        IfSome found (λ row. (number ≤ row.number) × (row.number < 2 ^ 47))) }
{
    let mut work = begin(alloc, connection)?;
    let row = rows::from(&mut work, phone.digits.as_slice(), number);
    settled(work, row)
}

/// Puts a row at the end of the phone's.
pub(crate) fn append<S: Alter>(
    alloc: Global,
    connection: &mut Connection<S>,
    phone: &Phone,
    row: &Row,
) -> Result<Adding, Refused> {
    let mut work = begin(alloc, connection)?;
    let adding = rows::append(&mut work, phone.digits.as_slice(), row);
    settled(work, adding)
}
