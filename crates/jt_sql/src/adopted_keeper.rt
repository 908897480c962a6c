//! A keeper over a connection: one that was handed in, or that of a file.

ghost use Rattle.std.specs.Prelude.{◌≡◌, None, true};
ghost use Rattle.jt_value.specs.declared.limits.TheConstants.{ROW_LIMIT};

use crate::keeping;
use crate::opens::{Opens, is_shut};
use jt_store::{Keeper, Registered, Registrations, Row, StoreError};
use jt_store_answers::{added, answered, changed};
use jt_value::Phone;
use jt_value::limits::ROW_LIMIT;
use sqlite::{Alter, Connection};
use std::alloc::Global;
use std::marker::Model;

/// Keeps registrations and rows by a connection, over any store of `sqlite`: an open one, or that of a file, which is `SqlKeeper`,
/// with the same tables, calls and refusals. A connection that was handed in with a transaction of its own makes each call Failed.
#[derive(Drop)]
pub struct AdoptedKeeper<C> {
    connection: C,
    faults: u64,
}

impl<C> Model for AdoptedKeeper<C> {
    ghost use Rattle.std.specs.Prelude.{◌≤◌, ◌-◌, ◌^◌, ℕ};

    ghost Value = { ℕ };

    ghost view = { λ s. s.faults };

    ghost invariant = { λ s. s.faults ≤ 2 ^ 64 - 1 };
}

impl<C> AdoptedKeeper<C> {
    /// No fault so far.
    pub(crate) fn new(connection: C) -> AdoptedKeeper<C>
        ensures { result ≡ 0 }
    {
        AdoptedKeeper {
            connection,
            faults: 0,
        }
    }
}

impl<S: Alter> AdoptedKeeper<Connection<S>> {
    /// Gives the connection back.
    pub fn into_connection(self) -> Connection<S> {
        let AdoptedKeeper {
            connection,
            faults: _,
        } = self;
        connection
    }
}

impl<O: Opens> Keeper for AdoptedKeeper<O> {
    ghost tables = { λ _. None };

    ghost limit = { λ _. ROW_LIMIT };

    ghost faults = { λ keeper. keeper };

    ghost may_fail = { λ _. true };

    fn registered(
        &mut self,
        alloc: Global,
        phone: &Phone,
    ) -> Result<Option<Registered>, StoreError> {
        let answer = match self.connection.opened() {
            Ok(connection) => keeping::registered(alloc, connection, phone),
            Err(refused) => Err(refused),
        };
        if is_shut(&answer) {
            self.connection.let_go();
        }
        answered(&mut self.faults, answer)
    }

    fn plate_owner(&mut self, alloc: Global, plate: &[u8]) -> Result<Option<Phone>, StoreError> {
        let answer = match self.connection.opened() {
            Ok(connection) => keeping::plate_owner(alloc, connection, plate),
            Err(refused) => Err(refused),
        };
        if is_shut(&answer) {
            self.connection.let_go();
        }
        answered(&mut self.faults, answer)
    }

    fn terminal_owner(
        &mut self,
        alloc: Global,
        terminal: &[u8],
    ) -> Result<Option<Phone>, StoreError> {
        let answer = match self.connection.opened() {
            Ok(connection) => keeping::terminal_owner(alloc, connection, terminal),
            Err(refused) => Err(refused),
        };
        if is_shut(&answer) {
            self.connection.let_go();
        }
        answered(&mut self.faults, answer)
    }

    fn register(
        &mut self,
        alloc: Global,
        phone: &Phone,
        registered: &Registered,
    ) -> Result<(), StoreError> {
        let answer = match self.connection.opened() {
            Ok(connection) => keeping::register(alloc, connection, phone, registered),
            Err(refused) => Err(refused),
        };
        if is_shut(&answer) {
            self.connection.let_go();
        }
        changed(&mut self.faults, answer)
    }

    fn unregister(&mut self, alloc: Global, phone: &Phone) -> Result<(), StoreError> {
        let answer = match self.connection.opened() {
            Ok(connection) => keeping::unregister(alloc, connection, phone),
            Err(refused) => Err(refused),
        };
        if is_shut(&answer) {
            self.connection.let_go();
        }
        changed(&mut self.faults, answer)
    }

    fn last(&mut self, alloc: Global, phone: &Phone) -> Result<Option<u64>, StoreError> {
        let answer = match self.connection.opened() {
            Ok(connection) => keeping::last(alloc, connection, phone),
            Err(refused) => Err(refused),
        };
        if is_shut(&answer) {
            self.connection.let_go();
        }
        answered(&mut self.faults, answer)
    }

    fn row_at(
        &mut self,
        alloc: Global,
        phone: &Phone,
        number: u64,
    ) -> Result<Option<Row>, StoreError> {
        let answer = match self.connection.opened() {
            Ok(connection) => keeping::row_at(alloc, connection, phone, number),
            Err(refused) => Err(refused),
        };
        if is_shut(&answer) {
            self.connection.let_go();
        }
        answered(&mut self.faults, answer)
    }

    fn row_from(
        &mut self,
        alloc: Global,
        phone: &Phone,
        number: u64,
    ) -> Result<Option<Row>, StoreError> {
        let answer = match self.connection.opened() {
            Ok(connection) => keeping::row_from(alloc, connection, phone, number),
            Err(refused) => Err(refused),
        };
        if is_shut(&answer) {
            self.connection.let_go();
        }
        answered(&mut self.faults, answer)
    }

    fn append(&mut self, alloc: Global, phone: &Phone, row: &Row) -> Result<(), StoreError> {
        let answer = match self.connection.opened() {
            Ok(connection) => keeping::append(alloc, connection, phone, row),
            Err(refused) => Err(refused),
        };
        if is_shut(&answer) {
            self.connection.let_go();
        }
        added(&mut self.faults, ROW_LIMIT, answer)
    }
}

impl<O: Opens> Registrations for AdoptedKeeper<O> {
    fn next_registered(
        &mut self,
        alloc: Global,
        after: Option<&Phone>,
    ) -> Result<Option<(Phone, Registered)>, StoreError> {
        let answer = match self.connection.opened() {
            Ok(connection) => keeping::next_registered(alloc, connection, after),
            Err(refused) => Err(refused),
        };
        if is_shut(&answer) {
            self.connection.let_go();
        }
        answered(&mut self.faults, answer)
    }
}
