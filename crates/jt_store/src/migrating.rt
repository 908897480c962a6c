//! Phones that were kept by edition and digits, moved to their digits alone.

ghost use Rattle.std.specs.Prelude.{◌≡◌, ◌<◌, ◌≤◌, ◌^◌, ◌↔◌, ℕ, List, None, Some, All, IfOk, IfSome, IsTrue, OnOk, option_copied, if◌then◌else◌};
ghost use Rattle.std.specs.Option.{option_or};
ghost use Rattle.jt_value.specs.declared.limits.TheConstants.{ROW_LIMIT};
ghost use Rattle.jt_value.specs.Sameness.{key_of, same_key};
ghost use Rattle.jt_store.specs.Memory.{under};
ghost use Rattle.jt_store.specs.Migrating.{AreAppended, Migrates};
ghost use Rattle.jt_store.specs.Places.{IsNumbered, IsStored, Moves, TakesAllIn, TakesIn, with_row_place, places_in, standing};
ghost use Rattle.jt_store.specs.Tables.{AreRows, Rises, last_of};

use crate::by_phone::Key;
use crate::error::StoreError;
use crate::row::{Registered, Row, copy_registered, copy_row};
use crate::rows::{find, last_number};
use jt_value::{Edition, Memory, Phone, Place, Seq, place};
use std::alloc::Global;
use std::collections::BTreeMap;

/// What a keeper had of a phone while an edition and digits were one.
#[derive(Drop)]
pub struct OldPhone {
    /// The phone of one edition.
    pub phone: Phone,
    /// What it was registered with.
    pub registered: Option<Registered>,
    /// Its rows, whose numbers rise.
    pub rows: Seq<Row>,
}

/// What a keeper has of the phones with the same digits.
#[derive(Drop)]
pub struct NewPhone {
    /// The twenty digits, two an octet.
    pub digits: [u8; 10],
    /// What they are registered with.
    pub registered: Option<Registered>,
    /// Their rows, whose numbers rise.
    pub rows: Seq<Row>,
}

/// Where the phones with some digits stand in a list, the one of 2013 and the one of 2019.
#[derive(Clone, Copy, Drop)]
pub struct Places {
    pub earlier: Option<usize>,
    pub later: Option<usize>,
}

/// Moves phones that were kept by edition and digits to their digits alone, in the order of digits. A phone that was kept
/// in both editions keeps the registration of 2019, if there is one, and its rows of 2019 are taken as units behind those
/// of 2013. The limit is at most 1,000,000,000; Full comes exactly where a phone would have more rows. The rows' numbers
/// are such as `append` asks for. It never answers Failed.
pub fn migrate(alloc: Global, old: &Seq<OldPhone>, limit: u64) -> Result<Seq<NewPhone>, StoreError>
    requires limit { limit ≤ ROW_LIMIT }
    requires rows { All (λ o. AreAppended None o.rows) old.now }
    ensures answer { Migrates limit old.now result }
{
    let phones = old.as_slice();
    let places = gather(alloc, phones)?;
    let mut new = Seq::new(alloc);
    for (digits, places) in &places {
        let moved = move_phone(
            alloc,
            *digits,
            phone_at(phones, places.earlier),
            phone_at(phones, places.later),
            limit,
        )?;
        new.push(moved)?;
    }
    Ok(new)
}

// Where the phones with each digits stand.
fn gather(alloc: Global, old: &[OldPhone]) -> Result<BTreeMap<Key, Places>, Memory>
    ensures { IfOk result (λ places. (q : List ℕ) → under places.entries q ≡ places_in old.now q) }
{
    let mut places = BTreeMap::new(alloc);
    for (place, phone) in old.iter().enumerate() {
        note(&mut places, &phone.phone, place)?;
    }
    Ok(places)
}

// Notes the place of one more phone.
fn note(places: &mut BTreeMap<Key, Places>, phone: &Phone, place: usize) -> Result<(), Memory>
    ensures { OnOk result
        ((q : List ℕ) → under places.new.entries q ≡ (if same_key (key_of phone.now) q
        then Some (with_row_place (under places.old.entries q) phone.now.edition place)
        else under places.old.entries q)) }
{
    let now = with_place(places.get(&phone.digits).copied(), phone.edition, place);
    places.insert(phone.digits, now)?;
    Ok(())
}

// The places with one more. The first of an edition stays.
fn with_place(places: Option<Places>, edition: Edition, place: usize) -> Places
    ensures { result ≡ with_row_place places edition place }
{
    let (earlier, later) = match places {
        Some(places) => (places.earlier, places.later),
        None => (None, None),
    };
    match edition {
        Edition::E2013 => Places {
            earlier: earlier.or(Some(place)),
            later,
        },
        Edition::E2019 => Places {
            earlier,
            later: later.or(Some(place)),
        },
    }
}

fn phone_at(old: &[OldPhone], place: Option<usize>) -> Option<&OldPhone>
    ensures { option_copied result ≡ standing old.now place }
{
    match place {
        Some(place) => old.get(place),
        None => None,
    }
}

// What the phones with some digits become. One of them is there.
fn move_phone(
    alloc: Global,
    digits: Key,
    earlier: Option<&OldPhone>,
    later: Option<&OldPhone>,
    limit: u64,
) -> Result<NewPhone, StoreError>
    requires limit { limit ≤ ROW_LIMIT }
    requires there { option_copied earlier ≡ None → option_copied later ≡ None → ⊥ }
    requires earlier { IfSome (option_copied earlier) (λ o. AreAppended None o.rows) }
    requires later { IfSome (option_copied later) (λ o. AreAppended None o.rows) }
    ensures answer { Moves limit digits (option_copied earlier.entry)
        (option_copied later.entry) result }
{
    match (earlier, later) {
        (Some(earlier), Some(later)) => join(alloc, digits, earlier, later, limit),
        (Some(one), None) => move_one(alloc, digits, one, limit),
        (None, Some(one)) => move_one(alloc, digits, one, limit),
        (None, None) => unreachable!(),
    }
}

fn move_one(alloc: Global, digits: Key, one: &OldPhone, limit: u64) -> Result<NewPhone, StoreError>
    requires { AreAppended None one.now.rows }
    ensures earlier { Moves limit digits (Some one.now) None result }
    ensures later { Moves limit digits None (Some one.now) result }
{
    if one.rows.len() as u64 > limit {
        return Err(StoreError::Full(limit));
    }
    let registered = copy_registration(alloc, &one.registered)?;
    let rows = copy_rows(alloc, one.rows.as_slice())?;
    Ok(NewPhone {
        digits,
        registered,
        rows,
    })
}

fn join(
    alloc: Global,
    digits: Key,
    earlier: &OldPhone,
    later: &OldPhone,
    limit: u64,
) -> Result<NewPhone, StoreError>
    requires limit { limit ≤ ROW_LIMIT }
    requires rows { AreAppended None earlier.now.rows }
    ensures { Moves limit digits (Some earlier.now) (Some later.now) result }
{
    if earlier.rows.len() as u64 > limit {
        return Err(StoreError::Full(limit));
    }
    let registered = copy_first(alloc, &later.registered, &earlier.registered)?;
    let mut rows = copy_rows(alloc, earlier.rows.as_slice())?;
    take_all_in(alloc, &mut rows, later.rows.as_slice(), limit)?;
    Ok(NewPhone {
        digits,
        registered,
        rows,
    })
}

// Takes rows as units, each over the rows so far.
fn take_all_in(
    alloc: Global,
    rows: &mut Seq<Row>,
    more: &[Row],
    limit: u64,
) -> Result<(), StoreError>
    requires limit { limit ≤ ROW_LIMIT }
    requires rows { AreRows limit rows.old }
    ensures { TakesAllIn limit rows.old rows.new more.now result }
{
    for row in more {
        take_in(alloc, rows, row, limit)?;
    }
    Ok(())
}

// Takes a row as a unit over the rows so far.
fn take_in(alloc: Global, rows: &mut Seq<Row>, row: &Row, limit: u64) -> Result<(), StoreError>
    requires limit { limit ≤ ROW_LIMIT }
    requires rows { AreRows limit rows.old }
    ensures { TakesIn limit rows.old rows.new row.now result }
{
    let Some(number) = number_for(rows.as_slice(), row) else {
        return Ok(());
    };
    if rows.len() as u64 == limit {
        return Err(StoreError::Full(limit));
    }
    let body = row.body.copy(alloc)?;
    rows.push(Row {
        number,
        id: row.id,
        body,
    })?;
    Ok(())
}

// The number under which a row is taken in. None where it repeats a row.
fn number_for(rows: &[Row], row: &Row) -> Option<u64>
    requires rise { Rises 0 rows.now }
    requires low { IfSome (last_of rows.now) (λ n. n < 2 ^ 60) }
    ensures { IsNumbered rows.now row.now result }
{
    match place(last_number(rows), (row.number % 65_536) as u16) {
        Place::First(number) | Place::New(number) => Some(number),
        Place::Back { candidate, anew } => {
            if is_stored(rows, candidate, row) {
                return None;
            }
            Some(anew)
        }
    }
}

// Whether the row of this number has the row's id and body.
fn is_stored(rows: &[Row], number: Option<u64>, row: &Row) -> bool
    requires { Rises 0 rows.now }
    ensures { IsTrue result ↔ IsStored rows.now number row.now }
{
    match number {
        Some(number) => match find(rows, number) {
            Some(stored) => is_same_unit(stored, row),
            None => false,
        },
        None => false,
    }
}

fn is_same_unit(a: &Row, b: &Row) -> bool
    ensures { IsTrue result ↔ ((a.now.id ≡ b.now.id) × (a.now.body ≡ b.now.body)) }
{
    a.id == b.id && a.body.as_slice() == b.body.as_slice()
}

fn copy_rows(alloc: Global, rows: &[Row]) -> Result<Seq<Row>, Memory>
    ensures { IfOk result (λ copy. copy ≡ rows.now) }
{
    let mut copies = Vec::with_capacity(alloc, rows.len())?;
    for row in rows {
        copies.push(copy_row(alloc, row)?)?;
    }
    Ok(Seq::from_vec(copies))
}

fn copy_registration(
    alloc: Global,
    registered: &Option<Registered>,
) -> Result<Option<Registered>, Memory>
    ensures { IfOk result (λ copy. copy ≡ registered.now) }
{
    match registered {
        Some(registered) => Ok(Some(copy_registered(alloc, registered)?)),
        None => Ok(None),
    }
}

// The first registration that is there.
fn copy_first(
    alloc: Global,
    first: &Option<Registered>,
    second: &Option<Registered>,
) -> Result<Option<Registered>, Memory>
    ensures { IfOk result (λ copy. copy ≡ option_or first.now second.now) }
{
    match first {
        Some(registered) => Ok(Some(copy_registered(alloc, registered)?)),
        None => copy_registration(alloc, second),
    }
}
