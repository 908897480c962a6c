//! The calls of a vault, each one transaction over a connection.

ghost use Rattle.std.specs.Prelude.{IfOk};
ghost use Rattle.jt_store.specs.Vaults.{AreInOrder};

use crate::asking::make;
use crate::opening::{begun, settled};
use crate::refused::Refused;
use crate::state::{self, State};
use crate::versions::version;
use crate::{fixes, units};
use jt_position::Fix;
use jt_store::{Loaded, Unit};
use jt_store_answers::{Adding, are_in_order, is_unit, may_form};
use jt_value::Seq;
use jt_value::limits::FIX_LIMIT;
use sqlite::{Alter, Connection, Transaction};
use std::alloc::Global;

const VERSION: i64 = 1;

const MAKE: &str = "CREATE TABLE meta (version INTEGER); \
     INSERT INTO meta (version) VALUES (1); \
     CREATE TABLE fix (place INTEGER PRIMARY KEY, body BLOB); \
     CREATE TABLE unit (place INTEGER PRIMARY KEY, serial INTEGER, id INTEGER, body BLOB, fixes INTEGER); \
     CREATE TABLE state (one INTEGER PRIMARY KEY, units_accepted INTEGER, fixes_accepted INTEGER, mark INTEGER, next INTEGER, code BLOB); \
     INSERT INTO state (one, units_accepted, fixes_accepted, mark, next, code) VALUES (1, 0, 0, 65535, 0, NULL)";

// Makes the tables in a new file, and refuses another version.
fn prepare<S: Alter>(work: &mut Transaction<'_, S>) -> Result<(), Refused> {
    match version(work)? {
        None => make(work, MAKE),
        Some(VERSION) => Ok(()),
        Some(_) => Err(Refused::Failed),
    }
}

// Begins a transaction over tables of the present version.
fn begin<S: Alter>(connection: &mut Connection<S>) -> Result<Transaction<'_, S>, Refused> {
    let mut work = begun(connection)?;
    prepare(&mut work)?;
    Ok(work)
}

// How many fixes are in units, by the units that are not accepted.
fn formed(accepted: i64, units: &[Unit]) -> i64 {
    let mut formed = accepted;
    for unit in units {
        formed = formed.saturating_add(i64::from(unit.count));
    }
    formed
}

// Whether so many that were found from a place on are all that stand there, where there are `count` in all.
fn are_all(from: i64, found: usize, count: i64) -> bool {
    match i64::try_from(found) {
        Ok(found) => 0 <= from && from <= count && count - from == found,
        Err(_) => false,
    }
}

// The units that are not accepted. They are refused where a unit, also an accepted one, is missing before the last that stands,
// and where the accepted ones do not carry as many fixes as are accepted.
fn pending<S: Alter>(
    alloc: Global,
    work: &mut Transaction<'_, S>,
    state: &State,
) -> Result<Seq<Unit>, Refused> {
    let accepted = state.units_accepted;
    let count = units::count_all(work)?;
    let carried = units::carried(work, accepted)?;
    let units = units::from(alloc, work, accepted)?;
    if carried == state.fixes_accepted && are_all(accepted, units.len(), count) {
        Ok(units)
    } else {
        Err(Refused::Failed)
    }
}

// What is loaded, where it is such as a vault keeps it.
fn loaded(state: State, recorded: i64, units: Seq<Unit>, fixes: Seq<Fix>) -> Result<Loaded, Refused>
    ensures { IfOk result (λ loaded. AreInOrder loaded.mark loaded.next loaded.units loaded.code) }
{
    let (Ok(recorded), Ok(accepted)) = (
        u64::try_from(recorded),
        u64::try_from(state.fixes_accepted),
    ) else {
        return Err(Refused::Failed);
    };
    if !are_in_order(state.mark, state.next, units.as_slice(), &state.code) {
        return Err(Refused::Failed);
    }
    Ok(Loaded {
        fixes,
        units,
        mark: state.mark,
        next: state.next,
        code: state.code,
        recorded,
        accepted,
    })
}

// What the tables hold that is not accepted. It is refused where a fix or unit is missing before the last that stands.
fn load_within<S: Alter>(alloc: Global, work: &mut Transaction<'_, S>) -> Result<Loaded, Refused>
    ensures { IfOk result (λ loaded. AreInOrder loaded.mark loaded.next loaded.units loaded.code) }
{
    let state = state::read(work)?;
    let recorded = fixes::count_all(work)?;
    let units = pending(alloc, work, &state)?;
    let formed = formed(state.fixes_accepted, units.as_slice());
    let fixes = fixes::from(alloc, work, formed)?;
    if !are_all(formed, fixes.len(), recorded) {
        return Err(Refused::Failed);
    }
    loaded(state, recorded, units, fixes)
}

/// What a terminal begins with.
pub(crate) fn load<S: Alter>(
    alloc: Global,
    connection: &mut Connection<S>,
) -> Result<Loaded, Refused>
    ensures { IfOk result (λ loaded. AreInOrder loaded.mark loaded.next loaded.units loaded.code) }
{
    let mut work = begin(connection)?;
    let loaded = load_within(alloc, &mut work);
    settled(work, loaded)
}

// Whether as many fixes as may be are recorded and not accepted.
fn is_full(recorded: i64, accepted: i64) -> bool {
    match u64::try_from(recorded.saturating_sub(accepted)) {
        Ok(waiting) => waiting >= FIX_LIMIT,
        Err(_) => false,
    }
}

// Records a fix behind the others.
fn note_within<S: Alter>(work: &mut Transaction<'_, S>, fix: &Fix) -> Result<Adding, Refused> {
    let state = state::read(work)?;
    let recorded = fixes::count(work)?;
    if is_full(recorded, state.fixes_accepted) {
        return Ok(Adding::Full);
    }
    fixes::add(work, recorded, fix)?;
    Ok(Adding::Done)
}

/// Records a fix behind the others.
pub(crate) fn note_fix<S: Alter>(
    connection: &mut Connection<S>,
    fix: &Fix,
) -> Result<Adding, Refused> {
    let mut work = begin(connection)?;
    let adding = note_within(&mut work, fix);
    settled(work, adding)
}

// Puts a unit behind the others. A unit that no load would take is refused: one whose serial would not be in order, and one
// that does not count as many fixes as its body says.
fn form_within<S: Alter>(work: &mut Transaction<'_, S>, unit: &Unit) -> Result<(), Refused> {
    let state = state::read(work)?;
    if !is_unit(unit) || !may_form(state.mark, state.next, unit.serial) {
        return Err(Refused::Failed);
    }
    let place = units::count(work)?;
    units::add(work, place, unit)?;
    state::set_next(work, unit.serial.wrapping_add(1))
}

/// Puts a unit of the next fixes behind the others.
pub(crate) fn form<S: Alter>(connection: &mut Connection<S>, unit: &Unit) -> Result<(), Refused> {
    let mut work = begin(connection)?;
    let done = form_within(&mut work, unit);
    settled(work, done)
}

// Accepts the oldest unit that is not accepted. Where none is, the call is refused.
fn accept_within<S: Alter>(work: &mut Transaction<'_, S>) -> Result<(), Refused> {
    let state = state::read(work)?;
    let Some(unit) = units::at(work, state.units_accepted)? else {
        return Err(Refused::Failed);
    };
    let units = state.units_accepted.saturating_add(1);
    let fixes = state.fixes_accepted.saturating_add(i64::from(unit.count));
    state::set_accepted(work, units, fixes, unit.serial)
}

/// Accepts the oldest unit that is not accepted.
pub(crate) fn accept<S: Alter>(connection: &mut Connection<S>) -> Result<(), Refused> {
    let mut work = begin(connection)?;
    let done = accept_within(&mut work);
    settled(work, done)
}

/// Sets the platform's code, or removes it.
pub(crate) fn set_code<S: Alter>(
    connection: &mut Connection<S>,
    code: Option<&[u8]>,
) -> Result<(), Refused> {
    let mut work = begin(connection)?;
    let done = state::set_code(&mut work, code);
    settled(work, done)
}
