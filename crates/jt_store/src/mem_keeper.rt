//! A keeper in memory, with a list of the calls that fail.

ghost use Rattle.std.specs.Option.{option_map};
ghost use Rattle.std.specs.Prelude.{◌≡◌, ◌<◌, ◌≤◌, ◌^◌, None, Some, [], IfOk, IfSome, OnOk, option_copied};
ghost use Rattle.jt_value.specs.declared.limits.TheConstants.{ROW_LIMIT};
ghost use Rattle.jt_value.specs.Sameness.{key_of};
ghost use Rattle.jt_store.specs.Memory.{is_listed, list_under, owner_of, tables_of, InOrder};
ghost use Rattle.jt_store.specs.Tables.{AreNamedOnce, AreRows, Appends, Finds, FindsFrom, FindsNext, HasCause, IsBehind, IsOwner, IsSteady, IsTrimmed, MayAppend, MayRegister, Reads, Writes, last_of, plates, registered_set, terminals};

use crate::by_phone::{ByPhone, Key};
use crate::calls::Calls;
use crate::error::StoreError;
use crate::keeper::{Keeper, Registrations};
use crate::registry::Registry;
use crate::row::{Registered, Row, copy_registered, copy_row};
use crate::rows::{find, find_from, last_number};
use jt_value::{Edition, Memory, Phone, Seq};
use std::alloc::Global;
use std::marker::Model;

/// Keeps everything and tells it, and fails exactly the calls whose numbers are listed, counted from 1.
#[derive(Drop)]
pub struct MemKeeper {
    registry: Registry,
    rows: ByPhone<Seq<Row>>,
    limit: u64,
    calls: Calls,
}

impl Model for MemKeeper {
    ghost use Rattle.std.specs.Prelude.{◌≤◌, List, ℕ};
    ghost use Rattle.jt_store.specs.Memory.{list_under, KeeperState};
    ghost use Rattle.jt_store.specs.Tables.{AreRows};
    ghost use Rattle.jt_value.specs.declared.limits.TheConstants.{ROW_LIMIT};

    ghost Value = { KeeperState };

    ghost view = { λ keeper. record { registered = keeper.registry; rows = keeper.rows; limit = keeper.limit; calls = keeper.calls } };

    ghost invariant = { λ keeper. (keeper.limit ≤ ROW_LIMIT) × ((key : List ℕ) → AreRows keeper.limit (list_under keeper.rows key)) };
}

impl MemKeeper {
    /// Nothing kept, and no memory taken. A phone may have so many rows, at most 1,000,000,000. `failing` has the
    /// numbers of the calls that fail; the number stays at 2^64 - 1 once it is there.
    pub fn new(alloc: Global, limit: u64, failing: Seq<u64>) -> MemKeeper
        requires { limit ≤ ROW_LIMIT }
        ensures { result ≡ record {
          registered = [];
          rows = [];
          limit = limit;
          calls = record { failing = failing; count = 0; faults = 0 };
        } }
    {
        MemKeeper {
            registry: Registry::new(alloc),
            rows: ByPhone::new(alloc),
            limit,
            calls: Calls::new(failing),
        }
    }

    /// The rows of a phone, the oldest first. It copies nothing, and is no call that is counted or fails.
    pub fn rows(&self, phone: &Phone) -> &[Row]
        ensures { result.now ≡ (tables_of self.now).rows (key_of phone.now) }
    {
        rows_of(&self.rows, phone)
    }

    // The least phone behind this one, or the least of all, and what it is registered with.
    fn next_after(
        &self,
        alloc: Global,
        after: Option<&Phone>,
    ) -> Result<Option<(Phone, Registered)>, Memory>
        ensures found { IfOk result (FindsNext (tables_of self.now).registered
            (option_map key_of (option_copied after.entry))) }
        ensures names { OnOk result (AreNamedOnce (tables_of self.now).registered) }
    {
        match self.registry.next(after) {
            Some((phone, registered)) => Ok(Some((phone, copy_registered(alloc, registered)?))),
            None => Ok(None),
        }
    }
}

// The phone of 2019 with these digits.
fn owner(key: Option<Key>) -> Option<Phone>
    ensures { result ≡ owner_of key }
{
    match key {
        Some(digits) => Some(Phone {
            edition: Edition::E2019,
            digits,
        }),
        None => None,
    }
}

// The rows of a phone.
fn rows_of<'a>(rows: &'a ByPhone<Seq<Row>>, phone: &Phone) -> &'a [Row]
    ensures { result.now ≡ list_under rows.now (key_of phone.now) }
{
    match rows.get(&phone.digits) {
        Some(rows) => rows.as_slice(),
        None => &[],
    }
}

fn copy_found(alloc: Global, found: Option<&Row>) -> Result<Option<Row>, Memory>
    ensures { IfOk result (λ copy. copy ≡ option_copied found.entry) }
{
    match found {
        Some(row) => Ok(Some(copy_row(alloc, row)?)),
        None => Ok(None),
    }
}

fn copy_found_registered(
    alloc: Global,
    found: Option<&Registered>,
) -> Result<Option<Registered>, Memory>
    ensures { IfOk result (λ copy. copy ≡ option_copied found.entry) }
{
    match found {
        Some(registered) => Ok(Some(copy_registered(alloc, registered)?)),
        None => Ok(None),
    }
}

impl Keeper for MemKeeper {
    ghost tables = { λ keeper. Some (tables_of keeper) };

    ghost limit = { λ keeper. keeper.limit };

    ghost faults = { λ keeper. keeper.calls.faults };

    ghost may_fail = { λ keeper. is_listed keeper.calls.failing };

    fn registered(&mut self, alloc: Global, phone: &Phone) -> Result<Option<Registered>, StoreError>
        ensures answer { Reads (Some (tables_of self.old)) (Some (tables_of self.new))
            (λ t found. found ≡ t.registered (key_of phone.now)) result }
        ensures names { OnOk result (AreNamedOnce (tables_of self.old).registered) }
        ensures limit { self.new.limit ≡ self.old.limit }
        ensures bound { self.old.limit ≤ ROW_LIMIT }
        ensures cause { HasCause self.old.calls.faults self.new.calls.faults result }
        ensures steady { IsSteady (is_listed self.old.calls.failing)
            (is_listed self.new.calls.failing) result }
        ensures in_order { InOrder self.old.calls self.new.calls result }
    {
        if !self.calls.goes() {
            return Err(StoreError::Failed);
        }
        let found = copy_found_registered(alloc, self.registry.get(&phone.digits))?;
        Ok(found)
    }

    fn plate_owner(&mut self, _alloc: Global, plate: &[u8]) -> Result<Option<Phone>, StoreError>
        ensures answer { Reads (Some (tables_of self.old)) (Some (tables_of self.new))
            (λ t found. IsOwner plates t.registered plate.now found) result }
        ensures names { OnOk result (AreNamedOnce (tables_of self.old).registered) }
        ensures limit { self.new.limit ≡ self.old.limit }
        ensures bound { self.old.limit ≤ ROW_LIMIT }
        ensures cause { HasCause self.old.calls.faults self.new.calls.faults result }
        ensures steady { IsSteady (is_listed self.old.calls.failing)
            (is_listed self.new.calls.failing) result }
        ensures in_order { InOrder self.old.calls self.new.calls result }
    {
        if !self.calls.goes() {
            return Err(StoreError::Failed);
        }
        Ok(owner(self.registry.plate_holder(plate)))
    }

    fn terminal_owner(
        &mut self,
        _alloc: Global,
        terminal: &[u8],
    ) -> Result<Option<Phone>, StoreError>
        ensures answer { Reads (Some (tables_of self.old)) (Some (tables_of self.new))
            (λ t found. IsOwner terminals t.registered terminal.now found) result }
        ensures names { OnOk result (AreNamedOnce (tables_of self.old).registered) }
        ensures limit { self.new.limit ≡ self.old.limit }
        ensures bound { self.old.limit ≤ ROW_LIMIT }
        ensures cause { HasCause self.old.calls.faults self.new.calls.faults result }
        ensures steady { IsSteady (is_listed self.old.calls.failing)
            (is_listed self.new.calls.failing) result }
        ensures in_order { InOrder self.old.calls self.new.calls result }
    {
        if !self.calls.goes() {
            return Err(StoreError::Failed);
        }
        Ok(owner(self.registry.terminal_holder(terminal)))
    }

    fn register(
        &mut self,
        alloc: Global,
        phone: &Phone,
        registered: &Registered,
    ) -> Result<(), StoreError>
        requires trimmed { IsTrimmed registered.now.terminal }
        requires may { MayRegister (tables_of self.old).registered (key_of phone.now)
            registered.now }
        ensures answer { Writes (Some (tables_of self.old))
            (registered_set (key_of phone.now) (Some registered.now) (Some (tables_of self.old)))
            (Some (tables_of self.new)) result }
        ensures limit { self.new.limit ≡ self.old.limit }
        ensures bound { self.old.limit ≤ ROW_LIMIT }
        ensures cause { HasCause self.old.calls.faults self.new.calls.faults result }
        ensures steady { IsSteady (is_listed self.old.calls.failing)
            (is_listed self.new.calls.failing) result }
        ensures in_order { InOrder self.old.calls self.new.calls result }
    {
        if !self.calls.goes() {
            return Err(StoreError::Failed);
        }
        self.registry.set(alloc, phone.digits, registered)?;
        Ok(())
    }

    fn unregister(&mut self, _alloc: Global, phone: &Phone) -> Result<(), StoreError>
        ensures answer { Writes (Some (tables_of self.old))
            (registered_set (key_of phone.now) None (Some (tables_of self.old)))
            (Some (tables_of self.new)) result }
        ensures limit { self.new.limit ≡ self.old.limit }
        ensures bound { self.old.limit ≤ ROW_LIMIT }
        ensures cause { HasCause self.old.calls.faults self.new.calls.faults result }
        ensures steady { IsSteady (is_listed self.old.calls.failing)
            (is_listed self.new.calls.failing) result }
        ensures in_order { InOrder self.old.calls self.new.calls result }
    {
        if !self.calls.goes() {
            return Err(StoreError::Failed);
        }
        self.registry.remove(&phone.digits);
        Ok(())
    }

    fn last(&mut self, _alloc: Global, phone: &Phone) -> Result<Option<u64>, StoreError>
        ensures answer { Reads (Some (tables_of self.old)) (Some (tables_of self.new))
            (λ t last. last ≡ last_of (t.rows (key_of phone.now))) result }
        ensures low { IfOk result (λ last. IfSome last (λ n. n < 2 ^ 47)) }
        ensures rows { AreRows self.old.limit ((tables_of self.old).rows (key_of phone.now)) }
        ensures limit { self.new.limit ≡ self.old.limit }
        ensures bound { self.old.limit ≤ ROW_LIMIT }
        ensures cause { HasCause self.old.calls.faults self.new.calls.faults result }
        ensures steady { IsSteady (is_listed self.old.calls.failing)
            (is_listed self.new.calls.failing) result }
        ensures in_order { InOrder self.old.calls self.new.calls result }
    {
        if !self.calls.goes() {
            return Err(StoreError::Failed);
        }
        Ok(last_number(rows_of(&self.rows, phone)))
    }

    fn row_at(
        &mut self,
        alloc: Global,
        phone: &Phone,
        number: u64,
    ) -> Result<Option<Row>, StoreError>
        ensures answer { Reads (Some (tables_of self.old)) (Some (tables_of self.new))
            (λ t found. Finds (t.rows (key_of phone.now)) number found) result }
        ensures rows { AreRows self.old.limit ((tables_of self.old).rows (key_of phone.now)) }
        ensures limit { self.new.limit ≡ self.old.limit }
        ensures bound { self.old.limit ≤ ROW_LIMIT }
        ensures cause { HasCause self.old.calls.faults self.new.calls.faults result }
        ensures steady { IsSteady (is_listed self.old.calls.failing)
            (is_listed self.new.calls.failing) result }
        ensures in_order { InOrder self.old.calls self.new.calls result }
    {
        if !self.calls.goes() {
            return Err(StoreError::Failed);
        }
        let found = copy_found(alloc, find(rows_of(&self.rows, phone), number))?;
        Ok(found)
    }

    fn row_from(
        &mut self,
        alloc: Global,
        phone: &Phone,
        number: u64,
    ) -> Result<Option<Row>, StoreError>
        ensures answer { Reads (Some (tables_of self.old)) (Some (tables_of self.new))
            (λ t found. FindsFrom (t.rows (key_of phone.now)) number found) result }
        ensures within { IfOk result (λ found.
            IfSome found (λ row. (number ≤ row.number) × (row.number < 2 ^ 47))) }
        ensures rows { AreRows self.old.limit ((tables_of self.old).rows (key_of phone.now)) }
        ensures limit { self.new.limit ≡ self.old.limit }
        ensures bound { self.old.limit ≤ ROW_LIMIT }
        ensures cause { HasCause self.old.calls.faults self.new.calls.faults result }
        ensures steady { IsSteady (is_listed self.old.calls.failing)
            (is_listed self.new.calls.failing) result }
        ensures in_order { InOrder self.old.calls self.new.calls result }
    {
        if !self.calls.goes() {
            return Err(StoreError::Failed);
        }
        let found = copy_found(alloc, find_from(rows_of(&self.rows, phone), number))?;
        Ok(found)
    }

    fn append(&mut self, alloc: Global, phone: &Phone, row: &Row) -> Result<(), StoreError>
        requires { MayAppend (last_of ((tables_of self.old).rows (key_of phone.now)))
            row.now.number }
        ensures answer { Appends self.old.limit (key_of phone.now) row.now
            (Some (tables_of self.old)) (Some (tables_of self.new)) result }
        ensures limit { self.new.limit ≡ self.old.limit }
        ensures bound { self.old.limit ≤ ROW_LIMIT }
        ensures cause { HasCause self.old.calls.faults self.new.calls.faults result }
        ensures steady { IsSteady (is_listed self.old.calls.failing)
            (is_listed self.new.calls.failing) result }
        ensures in_order { InOrder self.old.calls self.new.calls result }
    {
        if !self.calls.goes() {
            return Err(StoreError::Failed);
        }
        if rows_of(&self.rows, phone).len() as u64 == self.limit {
            return Err(StoreError::Full(self.limit));
        }
        let copy = copy_row(alloc, row)?;
        match self.rows.push(alloc, phone.digits, copy) {
            Err(Memory) => return Err(StoreError::Memory),
            Ok(()) => {}
        }
        Ok(())
    }
}

impl Registrations for MemKeeper {
    fn next_registered(
        &mut self,
        alloc: Global,
        after: Option<&Phone>,
    ) -> Result<Option<(Phone, Registered)>, StoreError>
        ensures answer { Reads (Some (tables_of self.old)) (Some (tables_of self.new))
            (λ t found. FindsNext t.registered (option_map key_of (option_copied after.entry)) found)
            result }
        ensures behind { IfOk result (λ found. IfSome found (λ one.
            IsBehind (option_map key_of (option_copied after.entry)) (key_of one.0))) }
        ensures names { OnOk result (AreNamedOnce (tables_of self.old).registered) }
        ensures limit { self.new.limit ≡ self.old.limit }
        ensures bound { self.old.limit ≤ ROW_LIMIT }
        ensures cause { HasCause self.old.calls.faults self.new.calls.faults result }
        ensures steady { IsSteady (is_listed self.old.calls.failing)
            (is_listed self.new.calls.failing) result }
        ensures in_order { InOrder self.old.calls self.new.calls result }
    {
        if !self.calls.goes() {
            return Err(StoreError::Failed);
        }
        let found = self.next_after(alloc, after)?;
        Ok(found)
    }
}
