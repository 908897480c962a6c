//! A keeper under the rules of a fleet.

ghost use Rattle.std.specs.Option.{option_copied, option_map};
ghost use Rattle.std.specs.Prelude.{◌≡◌, Ok, Some, false, true, IfOk, IsTrue, OnErr, OnOk, take};
ghost use Rattle.jt_store.specs.Memory.{under};
ghost use Rattle.jt_store.specs.Tables.{IsOwner, IsTrimmed, MayAppend, MayRegister, Reads, WhereKnown, Writes, plates, row_added, terminals};
ghost use Rattle.jt_value.specs.Sameness.{key_of};
ghost use Rattle.dewfelt_keeper.specs.Registries.{Forgets, IsPage, IsRegisteredOr, left_by};
ghost use Rattle.dewfelt_keeper.specs.RowPages.{rows_at};
ghost use Rattle.dewfelt_keeper.specs.Rules.{AreBehind, AreForgotten, AreListed, Becomes, IsApplied, IsOnTheWay, is_barred, own_of};

use crate::applying::settle;
use crate::paging::page_of;
use crate::row_pages::page_of_rows;
use dewfelt_fleet::Fleet;
use jt_store::{Keeper, Registered, Registrations, Row, StoreError};
use jt_value::{Edition, Phone, Seq};
use std::alloc::Global;
use std::marker::Model;

/// A phone that no terminal has: its octets are no digits.
pub const NOBODY: Phone = Phone {
    edition: Edition::E2019,
    digits: [0xff; 10],
};

/// What became of a phone whose registration an operator wanted to be forgotten.
#[derive(Clone, Copy, Debug, PartialEq, Eq)]
pub enum Forgetting {
    /// It is registered no more.
    Done,
    /// It was not registered.
    NotRegistered,
    /// The fleet binds it, so it stays registered.
    Bound,
}

// Whether a row of this number may stand behind the last one.
fn may_follow(last: Option<u64>, number: u64) -> bool
    ensures { IsTrue result → MayAppend last number }
{
    match last {
        None => number < 65_536,
        Some(last) => last < number && number - last <= 131_071,
    }
}

/// A keeper, and the fleet that says which registrations it may have.
#[derive(Drop)]
pub struct Registry<K> {
    pub(crate) keeper: K,
    fleet: Fleet,
}

impl<K> Model for Registry<K> {
    ghost use Rattle.dewfelt_keeper.specs.Registries.{RegistryValue};

    ghost Value = { RegistryValue K };

    ghost view = { λ r. record { keeper = r.keeper; fleet = r.fleet } };
}

impl<K: Keeper> Registry<K> {
    /// A keeper under the rules of a fleet. What it has registered already stays until `apply`.
    pub fn new(keeper: K, fleet: Fleet) -> Registry<K>
        ensures { result ≡ record { keeper = keeper; fleet = fleet } }
    {
        Registry { keeper, fleet }
    }

    /// The fleet.
    pub fn fleet(&self) -> &Fleet
        ensures { result.now ≡ self.now.fleet }
    {
        &self.fleet
    }

    /// The keeper, for what is no matter of the fleet: rows, and the file itself.
    pub fn keeper(&mut self) -> &mut K {
        &mut self.keeper
    }

    /// What the phone is registered with.
    pub fn registered(
        &mut self,
        alloc: Global,
        phone: &Phone,
    ) -> Result<Option<Registered>, StoreError>
        ensures answer { Reads (K.tables self.old.keeper) (K.tables self.new.keeper)
            (λ t found. found ≡ t.registered (key_of phone.now)) result }
        ensures fleet { self.new.fleet ≡ self.old.fleet }
    {
        self.keeper.registered(alloc, phone)
    }

    // Whether the phone that asks may not have this plate, whoever has it.
    fn bars_plate(&self, asks: Option<&Phone>, plate: &[u8]) -> bool
        ensures { result ≡ is_barred plates self.now.fleet.plates
            (own_of self.now.fleet (option_map key_of (option_copied asks.entry))) plate.now }
    {
        match self.bound_to(asks) {
            Some(own) => own.plate.as_slice() != plate,
            None => !self.fleet.has_plate(plate),
        }
    }

    // Whether the phone that asks may not have this terminal id, whoever has it.
    fn bars_terminal(&self, asks: Option<&Phone>, terminal: &[u8]) -> bool
        ensures { result ≡ is_barred terminals self.now.fleet.terminals
            (own_of self.now.fleet (option_map key_of (option_copied asks.entry))) terminal.now }
    {
        match self.bound_to(asks) {
            Some(own) => own.terminal.as_slice() != terminal,
            None => !self.fleet.has_terminal(terminal),
        }
    }

    // What the phone that asks is bound to.
    fn bound_to(&self, asks: Option<&Phone>) -> Option<&Registered>
        ensures { option_copied result
            ≡ own_of self.now.fleet (option_map key_of (option_copied asks.entry)) }
    {
        match asks {
            Some(phone) => self.fleet.bound(phone),
            None => None,
        }
    }

    /// The phone that is registered with this plate. `NOBODY` where the phone that asks may not have it: it is bound and this is not
    /// its own, or it is not bound and the plate is, or is not in the fleet.
    pub fn plate_owner(
        &mut self,
        alloc: Global,
        asks: Option<&Phone>,
        plate: &[u8],
    ) -> Result<Option<Phone>, StoreError>
        ensures barred { is_barred plates self.old.fleet.plates
            (own_of self.old.fleet (option_map key_of (option_copied asks.entry)))
            plate.now ≡ true → (result ≡ Ok (Some NOBODY)) × (self.new ≡ self.old) }
        ensures answer { is_barred plates self.old.fleet.plates
            (own_of self.old.fleet (option_map key_of (option_copied asks.entry)))
            plate.now ≡ false → Reads (K.tables self.old.keeper) (K.tables self.new.keeper)
            (λ t found. IsOwner plates t.registered plate.now found) result }
        ensures fleet { self.new.fleet ≡ self.old.fleet }
    {
        if self.bars_plate(asks, plate) {
            return Ok(Some(NOBODY));
        }
        self.keeper.plate_owner(alloc, plate)
    }

    /// The same of a terminal id, which has no zeros at its end.
    pub fn terminal_owner(
        &mut self,
        alloc: Global,
        asks: Option<&Phone>,
        terminal: &[u8],
    ) -> Result<Option<Phone>, StoreError>
        ensures barred { is_barred terminals self.old.fleet.terminals
            (own_of self.old.fleet (option_map key_of (option_copied asks.entry)))
            terminal.now ≡ true → (result ≡ Ok (Some NOBODY)) × (self.new ≡ self.old) }
        ensures answer { is_barred terminals self.old.fleet.terminals
            (own_of self.old.fleet (option_map key_of (option_copied asks.entry)))
            terminal.now ≡ false → Reads (K.tables self.old.keeper) (K.tables self.new.keeper)
            (λ t found. IsOwner terminals t.registered terminal.now found) result }
        ensures fleet { self.new.fleet ≡ self.old.fleet }
    {
        if self.bars_terminal(asks, terminal) {
            return Ok(Some(NOBODY));
        }
        self.keeper.terminal_owner(alloc, terminal)
    }

    // Whether another phone has the plate or the terminal id.
    fn is_taken(
        &mut self,
        alloc: Global,
        phone: &Phone,
        registered: &Registered,
    ) -> Result<bool, StoreError>
        ensures same { K.tables self.new.keeper ≡ K.tables self.old.keeper }
        ensures fleet { self.new.fleet ≡ self.old.fleet }
        ensures free { IfOk result (λ taken. taken ≡ false → WhereKnown (K.tables self.old.keeper)
            (λ t. MayRegister t.registered (key_of phone.now) registered.now)) }
        ensures taken { IfOk result (λ taken. taken ≡ true → WhereKnown (K.tables self.old.keeper)
            (λ t. ¬ MayRegister t.registered (key_of phone.now) registered.now)) }
    {
        if let Some(owner) = self.keeper.plate_owner(alloc, registered.plate.as_slice())? {
            if !owner.same(phone) {
                return Ok(true);
            }
        }
        match self
            .keeper
            .terminal_owner(alloc, registered.terminal.as_slice())?
        {
            Some(owner) => Ok(!owner.same(phone)),
            None => Ok(false),
        }
    }

    /// Registers the phone, or replaces its registration, where the fleet allows it and no other phone has one of the names. Where
    /// that is not so any more, the fleet was changed since the names were asked for: then the phone is left without a registration,
    /// as one that registered before that change; a bound one keeps its own.
    pub fn register(
        &mut self,
        alloc: Global,
        phone: &Phone,
        registered: &Registered,
    ) -> Result<(), StoreError>
        requires trimmed { IsTrimmed registered.now.terminal }
        ensures ok { OnOk result (Becomes (K.tables self.old.keeper) (K.tables self.new.keeper)
            (IsRegisteredOr self.old.fleet (key_of phone.now) registered.now)) }
        ensures err { OnErr result (K.tables self.new.keeper ≡ K.tables self.old.keeper) }
        ensures fleet { self.new.fleet ≡ self.old.fleet }
    {
        if !self.fleet.allows(phone, registered) || self.is_taken(alloc, phone, registered)? {
            return self.unregister(alloc, phone);
        }
        self.keeper.register(alloc, phone, registered)
    }

    /// Removes the phone's registration, if there is one. That of a bound phone stays.
    pub fn unregister(&mut self, alloc: Global, phone: &Phone) -> Result<(), StoreError>
        ensures answer { Writes (K.tables self.old.keeper)
            (left_by self.old.fleet (key_of phone.now) (K.tables self.old.keeper))
            (K.tables self.new.keeper) result }
        ensures fleet { self.new.fleet ≡ self.old.fleet }
    {
        if self.fleet.bound(phone).is_some() {
            return Ok(());
        }
        self.keeper.unregister(alloc, phone)
    }

    /// Puts a row at the end of the phone's. A number that may not follow the last one is Failed, and no row stands.
    pub fn append(&mut self, alloc: Global, phone: &Phone, row: &Row) -> Result<(), StoreError>
        ensures ok { OnOk result (K.tables self.new.keeper
            ≡ row_added (key_of phone.now) row.now (K.tables self.old.keeper)) }
        ensures err { OnErr result (K.tables self.new.keeper ≡ K.tables self.old.keeper) }
        ensures fleet { self.new.fleet ≡ self.old.fleet }
    {
        let last = self.keeper.last(alloc, phone)?;
        if !may_follow(last, row.number) {
            return Err(StoreError::Failed);
        }
        self.keeper.append(alloc, phone, row)
    }

    /// As `page_of_rows` of the keeper.
    pub fn rows_from(
        &mut self,
        alloc: Global,
        phone: &Phone,
        from: u64,
        most: usize,
    ) -> Result<Vec<Row>, StoreError>
        ensures answer { Reads (K.tables self.old.keeper) (K.tables self.new.keeper) (λ t page.
            page.items ≡ take most (rows_at from (t.rows (key_of phone.now)))) result }
        ensures fleet { self.new.fleet ≡ self.old.fleet }
    {
        page_of_rows(alloc, &mut self.keeper, phone, from, most)
    }

    /// Removes the phone's registration, for an operator. That of a bound phone stays.
    pub fn forget(&mut self, alloc: Global, phone: &Phone) -> Result<Forgetting, StoreError>
        ensures ok { IfOk result (λ done. Forgets (under self.old.fleet.bound (key_of phone.now))
            (key_of phone.now) (K.tables self.old.keeper) (K.tables self.new.keeper) done) }
        ensures err { OnErr result (K.tables self.new.keeper ≡ K.tables self.old.keeper) }
        ensures fleet { self.new.fleet ≡ self.old.fleet }
    {
        if self.fleet.bound(phone).is_some() {
            return Ok(Forgetting::Bound);
        }
        if self.keeper.registered(alloc, phone)?.is_none() {
            return Ok(Forgetting::NotRegistered);
        }
        self.keeper.unregister(alloc, phone)?;
        Ok(Forgetting::Done)
    }
}

impl<K: Registrations> Registry<K> {
    /// The registrations behind those of `after`, or from the first one on, in the order of their digits, at most so many.
    pub fn page(
        &mut self,
        alloc: Global,
        after: Option<&Phone>,
        most: usize,
    ) -> Result<Seq<(Phone, Registered)>, StoreError>
        ensures answer { Reads (K.tables self.old.keeper) (K.tables self.new.keeper) (λ t page.
            IsPage t.registered (option_map key_of (option_copied after.entry)) most page) result }
        ensures fleet { self.new.fleet ≡ self.old.fleet }
    {
        page_of(alloc, &mut self.keeper, after, most)
    }

    /// Takes a new fleet, whose rules hold from now on, and brings the registrations in line with it: one that it does not allow is
    /// removed, its phone is put behind those that are `forgotten`, and then each bound phone is registered as it is bound. Rows
    /// stay. After an error each phone is registered as before, or as it is to be, or is bound and not registered yet; a phone
    /// whose registration is gone is behind those that are `forgotten`, and so may be that at which the error came. Full, with
    /// 2^64 - 1, comes where there are more registrations than that.
    pub fn apply(
        &mut self,
        alloc: Global,
        fleet: Fleet,
        forgotten: &mut Seq<Phone>,
    ) -> Result<(), StoreError>
        ensures ok { OnOk result (Becomes (K.tables self.old.keeper) (K.tables self.new.keeper)
            (IsApplied fleet)) }
        ensures err { OnErr result (Becomes (K.tables self.old.keeper) (K.tables self.new.keeper)
            (IsOnTheWay fleet)) }
        ensures listed { Becomes (K.tables self.old.keeper) (K.tables self.new.keeper)
            (AreListed forgotten.new) }
        ensures forgotten { OnOk result (WhereKnown (K.tables self.old.keeper)
            (λ t. AreForgotten fleet t forgotten.old forgotten.new)) }
        ensures behind { AreBehind forgotten.old forgotten.new }
        ensures fleet { self.new.fleet ≡ fleet }
    {
        self.fleet = fleet;
        settle(alloc, &mut self.keeper, &self.fleet, forgotten)
    }
}
