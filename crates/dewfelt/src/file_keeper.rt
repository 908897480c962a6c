//! The keeper of a file, under a type without parameters.

ghost use Rattle.std.specs.Prelude.{None, true};
ghost use Rattle.jt_value.specs.declared.limits.TheConstants.{ROW_LIMIT};

use jt_sql::SqlKeeper;
use jt_store::{Keeper, Registered, Registrations, Row, StoreError};
use jt_value::Phone;
use std::alloc::Global;

/// The keeper of a file. (a type of its own, since a proof that passes on what is known of the keeper within takes too many steps)
#[derive(Drop)]
pub(crate) struct FileKeeper {
    pub(crate) keeper: SqlKeeper<HostRuntime>,
}

impl Keeper for FileKeeper {
    ghost tables = { λ _. None };

    ghost limit = { λ _. ROW_LIMIT };

    ghost faults = { λ k. k.keeper };

    ghost may_fail = { λ _. true };

    fn registered(
        &mut self,
        alloc: Global,
        phone: &Phone,
    ) -> Result<Option<Registered>, StoreError> {
        self.keeper.registered(alloc, phone)
    }

    fn plate_owner(&mut self, alloc: Global, plate: &[u8]) -> Result<Option<Phone>, StoreError> {
        self.keeper.plate_owner(alloc, plate)
    }

    fn terminal_owner(
        &mut self,
        alloc: Global,
        terminal: &[u8],
    ) -> Result<Option<Phone>, StoreError> {
        self.keeper.terminal_owner(alloc, terminal)
    }

    fn register(
        &mut self,
        alloc: Global,
        phone: &Phone,
        registered: &Registered,
    ) -> Result<(), StoreError> {
        self.keeper.register(alloc, phone, registered)
    }

    fn unregister(&mut self, alloc: Global, phone: &Phone) -> Result<(), StoreError> {
        self.keeper.unregister(alloc, phone)
    }

    fn last(&mut self, alloc: Global, phone: &Phone) -> Result<Option<u64>, StoreError> {
        self.keeper.last(alloc, phone)
    }

    fn row_at(
        &mut self,
        alloc: Global,
        phone: &Phone,
        number: u64,
    ) -> Result<Option<Row>, StoreError> {
        self.keeper.row_at(alloc, phone, number)
    }

    fn row_from(
        &mut self,
        alloc: Global,
        phone: &Phone,
        number: u64,
    ) -> Result<Option<Row>, StoreError> {
        self.keeper.row_from(alloc, phone, number)
    }

    fn append(&mut self, alloc: Global, phone: &Phone, row: &Row) -> Result<(), StoreError> {
        self.keeper.append(alloc, phone, row)
    }
}

impl Registrations for FileKeeper {
    fn next_registered(
        &mut self,
        alloc: Global,
        after: Option<&Phone>,
    ) -> Result<Option<(Phone, Registered)>, StoreError> {
        self.keeper.next_registered(alloc, after)
    }
}
