//! A registry behind a lock, as a hub's keeper.

ghost use Rattle.std.specs.Prelude.{◌≡◌, ◌≤◌, None, Ok, true, IfOk};
ghost use Rattle.jt_store.specs.declared.error.StoreError.TheVariants.{Memory as NoMemory};
ghost use Rattle.jt_value.specs.declared.limits.TheConstants.{ROW_LIMIT};

use crate::registry::Registry;
use jt_store::{Keeper, Registered, Row, StoreError};
use jt_store_answers::{Adding, Refusal, added, answered, changed};
use jt_value::Phone;
use std::alloc::Global;
use std::marker::Model;
use std::sync::{Arc, Mutex, Wait};

/// A registry that a hub shares with those who change its fleet, as the hub's keeper. Each call is one of the registry, under the
/// lock. It tells nothing of what is kept, since that changes between its calls.
///
/// It serves one hub: who asks for the owner of a name is the phone of the last call of `registered`, as the hub asks.
#[derive(Drop)]
pub struct SharedKeeper<R, K> {
    rt: R,
    registry: Arc<Mutex<Registry<K>>>,
    limit: u64,
    asks: Option<Phone>,
    faults: u64,
}

impl<R, K> Model for SharedKeeper<R, K> {
    ghost use Rattle.std.specs.Prelude.{◌≤◌, ◌-◌, ◌^◌, ℕ};
    ghost use Rattle.jt_value.specs.declared.limits.TheConstants.{ROW_LIMIT};
    ghost use Rattle.dewfelt_keeper.specs.Shared.{SharedValue};

    ghost Value = { SharedValue };

    ghost view = { λ s. record { limit = s.limit; faults = s.faults } };

    ghost invariant = { λ s. (s.limit ≤ ROW_LIMIT) × (s.faults ≤ 2 ^ 64 - 1) };
}

impl<R: Wait, K: Keeper> SharedKeeper<R, K> {
    /// A keeper with no fault so far. Its limit is said to be this one, which is to be that of the registry's keeper.
    pub fn over(rt: R, registry: Arc<Mutex<Registry<K>>>, limit: u64) -> SharedKeeper<R, K>
        requires { limit ≤ ROW_LIMIT }
        ensures { result ≡ record { limit = limit; faults = 0 } }
    {
        SharedKeeper {
            rt,
            registry,
            limit,
            asks: None,
            faults: 0,
        }
    }
}

// Why a call of the registry gave up.
#[derive(Drop)]
struct Refused(StoreError);

impl Refusal for Refused {
    ghost wants_memory = { λ refused. refused.0 ≡ NoMemory };

    fn is_memory(&self) -> bool {
        self.0 == StoreError::Memory
    }
}

fn refusable<T: Drop>(answer: Result<T, StoreError>) -> Result<T, Refused>
    ensures { IfOk result (λ found. answer ≡ Ok found) }
{
    match answer {
        Ok(found) => Ok(found),
        Err(error) => Err(Refused(error)),
    }
}

// The same of a call that appends.
fn adding(answer: Result<(), StoreError>) -> Result<Adding, Refused> {
    match answer {
        Ok(()) => Ok(Adding::Done),
        Err(StoreError::Full(_)) => Ok(Adding::Full),
        Err(error) => Err(Refused(error)),
    }
}

impl<R: Wait, K: Keeper> Keeper for SharedKeeper<R, K> {
    ghost tables = { λ _. None };

    ghost limit = { λ keeper. keeper.limit };

    ghost faults = { λ keeper. keeper.faults };

    ghost may_fail = { λ _. true };

    fn registered(
        &mut self,
        alloc: Global,
        phone: &Phone,
    ) -> Result<Option<Registered>, StoreError> {
        self.asks = Some(*phone);
        let answer = self.registry.lock(&self.rt).registered(alloc, phone);
        answered(&mut self.faults, refusable(answer))
    }

    fn plate_owner(&mut self, alloc: Global, plate: &[u8]) -> Result<Option<Phone>, StoreError> {
        let asks = self.asks;
        let answer = self
            .registry
            .lock(&self.rt)
            .plate_owner(alloc, asks.as_ref(), plate);
        answered(&mut self.faults, refusable(answer))
    }

    fn terminal_owner(
        &mut self,
        alloc: Global,
        terminal: &[u8],
    ) -> Result<Option<Phone>, StoreError> {
        let asks = self.asks;
        let answer = self
            .registry
            .lock(&self.rt)
            .terminal_owner(alloc, asks.as_ref(), terminal);
        answered(&mut self.faults, refusable(answer))
    }

    fn register(
        &mut self,
        alloc: Global,
        phone: &Phone,
        registered: &Registered,
    ) -> Result<(), StoreError> {
        let answer = self
            .registry
            .lock(&self.rt)
            .register(alloc, phone, registered);
        changed(&mut self.faults, refusable(answer))
    }

    fn unregister(&mut self, alloc: Global, phone: &Phone) -> Result<(), StoreError> {
        let answer = self.registry.lock(&self.rt).unregister(alloc, phone);
        changed(&mut self.faults, refusable(answer))
    }

    fn last(&mut self, alloc: Global, phone: &Phone) -> Result<Option<u64>, StoreError> {
        let answer = self.registry.lock(&self.rt).keeper.last(alloc, phone);
        answered(&mut self.faults, refusable(answer))
    }

    fn row_at(
        &mut self,
        alloc: Global,
        phone: &Phone,
        number: u64,
    ) -> Result<Option<Row>, StoreError> {
        let answer = self
            .registry
            .lock(&self.rt)
            .keeper
            .row_at(alloc, phone, number);
        answered(&mut self.faults, refusable(answer))
    }

    fn row_from(
        &mut self,
        alloc: Global,
        phone: &Phone,
        number: u64,
    ) -> Result<Option<Row>, StoreError> {
        let answer = self
            .registry
            .lock(&self.rt)
            .keeper
            .row_from(alloc, phone, number);
        answered(&mut self.faults, refusable(answer))
    }

    fn append(&mut self, alloc: Global, phone: &Phone, row: &Row) -> Result<(), StoreError> {
        let answer = self.registry.lock(&self.rt).append(alloc, phone, row);
        added(&mut self.faults, self.limit, adding(answer))
    }
}
