//! A relay that wants memory: a stored row can't be read.

ghost use Rattle.std.specs.Prelude.{None, false};

use crate::relays::recorded;
use crate::rows::PHONE;
use jt_cli::Status;
use jt_outside::MemSink;
use jt_relay_command::relay;
use jt_store::{Keeper, MemVault, Registered, Row, StoreError};
use jt_value::{Phone, Seq};
use std::alloc::Global;

// A keeper that gets no memory for any answer, and tells nothing of its tables.
#[derive(Drop)]
struct NoMemory;

impl Keeper for NoMemory {
    ghost tables = { λ _. None };

    ghost limit = { λ _. 0 };

    ghost faults = { λ _. 0 };

    ghost may_fail = { λ _. false };

    fn registered(
        &mut self,
        _alloc: Global,
        _phone: &Phone,
    ) -> Result<Option<Registered>, StoreError> {
        Err(StoreError::Memory)
    }

    fn plate_owner(&mut self, _alloc: Global, _plate: &[u8]) -> Result<Option<Phone>, StoreError> {
        Err(StoreError::Memory)
    }

    fn terminal_owner(
        &mut self,
        _alloc: Global,
        _terminal: &[u8],
    ) -> Result<Option<Phone>, StoreError> {
        Err(StoreError::Memory)
    }

    fn register(
        &mut self,
        _alloc: Global,
        _phone: &Phone,
        _registered: &Registered,
    ) -> Result<(), StoreError> {
        Err(StoreError::Memory)
    }

    fn unregister(&mut self, _alloc: Global, _phone: &Phone) -> Result<(), StoreError> {
        Err(StoreError::Memory)
    }

    fn last(&mut self, _alloc: Global, _phone: &Phone) -> Result<Option<u64>, StoreError> {
        Err(StoreError::Memory)
    }

    fn row_at(
        &mut self,
        _alloc: Global,
        _phone: &Phone,
        _number: u64,
    ) -> Result<Option<Row>, StoreError> {
        Err(StoreError::Memory)
    }

    fn row_from(
        &mut self,
        _alloc: Global,
        _phone: &Phone,
        _number: u64,
    ) -> Result<Option<Row>, StoreError> {
        Err(StoreError::Memory)
    }

    fn append(&mut self, _alloc: Global, _phone: &Phone, _row: &Row) -> Result<(), StoreError> {
        Err(StoreError::Memory)
    }
}

// It is told by the status alone: nothing is written, and nothing recorded.
#[test]
fn a_relay_that_wants_memory(rt: HostRuntime) {
    let alloc = rt.alloc();
    let mut sink = MemSink::new(alloc, 64, Seq::new(alloc)).expect(&rt, "a sink");
    let mut keeper = NoMemory;
    let mut vault = MemVault::new(alloc, 9, Seq::new(alloc));
    let status = relay(alloc, &mut sink, &mut keeper, &mut vault, &PHONE);
    assert!(rt; status == Status::Memory);
    assert!(rt; sink.octets().is_empty());
    assert!(rt; recorded(&rt, alloc, &mut vault) == 0);
    drop(vault);
}
