//! A vault over a connection: one that was handed in, or that of a file.

ghost use Rattle.std.specs.Prelude.{◌≡◌, None, true};
ghost use Rattle.jt_value.specs.declared.limits.TheConstants.{FIX_LIMIT};

use crate::opens::{Opens, is_shut};
use crate::vaulting;
use jt_position::Fix;
use jt_store::{Loaded, StoreError, Unit, Vault};
use jt_store_answers::{added, answered, changed};
use jt_value::limits::FIX_LIMIT;
use sqlite::{Alter, Connection};
use std::alloc::Global;
use std::marker::Model;

/// Keeps fixes and units by a connection, over any store of `sqlite`: an open one, or that of a file, which is `SqlVault`, with the
/// same tables, calls and refusals. A connection that was handed in with a transaction of its own makes each call Failed.
#[derive(Drop)]
pub struct AdoptedVault<C> {
    connection: C,
    faults: u64,
}

impl<C> Model for AdoptedVault<C> {
    ghost use Rattle.std.specs.Prelude.{◌≤◌, ◌-◌, ◌^◌, ℕ};

    ghost Value = { ℕ };

    ghost view = { λ s. s.faults };

    ghost invariant = { λ s. s.faults ≤ 2 ^ 64 - 1 };
}

impl<C> AdoptedVault<C> {
    /// No fault so far.
    pub(crate) fn new(connection: C) -> AdoptedVault<C>
        ensures { result ≡ 0 }
    {
        AdoptedVault {
            connection,
            faults: 0,
        }
    }
}

impl<S: Alter> AdoptedVault<Connection<S>> {
    /// Gives the connection back.
    pub fn into_connection(self) -> Connection<S> {
        let AdoptedVault {
            connection,
            faults: _,
        } = self;
        connection
    }
}

impl<O: Opens> Vault for AdoptedVault<O> {
    ghost holds = { λ _. None };

    ghost limit = { λ _. FIX_LIMIT };

    ghost faults = { λ vault. vault };

    ghost may_fail = { λ _. true };

    fn load(&mut self, alloc: Global) -> Result<Loaded, StoreError> {
        let answer = match self.connection.opened() {
            Ok(connection) => vaulting::load(alloc, connection),
            Err(refused) => Err(refused),
        };
        if is_shut(&answer) {
            self.connection.let_go();
        }
        answered(&mut self.faults, answer)
    }

    fn note_fix(&mut self, _alloc: Global, fix: &Fix) -> Result<(), StoreError> {
        let answer = match self.connection.opened() {
            Ok(connection) => vaulting::note_fix(connection, fix),
            Err(refused) => Err(refused),
        };
        if is_shut(&answer) {
            self.connection.let_go();
        }
        added(&mut self.faults, FIX_LIMIT, answer)
    }

    fn form(&mut self, _alloc: Global, unit: &Unit) -> Result<(), StoreError> {
        let answer = match self.connection.opened() {
            Ok(connection) => vaulting::form(connection, unit),
            Err(refused) => Err(refused),
        };
        if is_shut(&answer) {
            self.connection.let_go();
        }
        changed(&mut self.faults, answer)
    }

    fn accept(&mut self, _alloc: Global) -> Result<(), StoreError> {
        let answer = match self.connection.opened() {
            Ok(connection) => vaulting::accept(connection),
            Err(refused) => Err(refused),
        };
        if is_shut(&answer) {
            self.connection.let_go();
        }
        changed(&mut self.faults, answer)
    }

    fn set_code(&mut self, _alloc: Global, code: Option<&[u8]>) -> Result<(), StoreError> {
        let answer = match self.connection.opened() {
            Ok(connection) => vaulting::set_code(connection, code),
            Err(refused) => Err(refused),
        };
        if is_shut(&answer) {
            self.connection.let_go();
        }
        changed(&mut self.faults, answer)
    }
}
