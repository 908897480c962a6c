//! A log in memory, with a list of the calls that fail.

ghost use Rattle.std.specs.Prelude.{◌≡◌, [], Some};
ghost use Rattle.jt_store.specs.Memory.{is_listed, InOrder};
ghost use Rattle.jt_store.specs.Tables.{HasCause, IsSteady, Reads, Writes};
ghost use Rattle.jt_order.specs.Books.{with_performed};

use crate::log::OrderLog;
use crate::order::Order;
use crate::performed::Performed;
use jt_store::{Calls, StoreError};
use jt_value::Seq;
use std::alloc::Global;
use std::marker::Model;

/// Keeps everything and tells it, and fails exactly the calls whose numbers are listed, counted from 1.
#[derive(Drop)]
pub struct MemLog {
    performed: Seq<Performed>,
    calls: Calls,
}

impl Model for MemLog {
    ghost use Rattle.jt_order.specs.Memory.{LogStock};

    ghost Value = { LogStock };

    ghost view = { λ l. record { performed = l.performed; calls = l.calls } };
}

impl MemLog {
    /// Nothing performed, and no memory taken. `failing` has the numbers of the calls that fail; the number stays at
    /// 2^64 - 1 once it is there.
    pub fn new(alloc: Global, failing: Seq<u64>) -> MemLog
        ensures { result ≡ record {
          performed = [];
          calls = record { failing = failing; count = 0; faults = 0 };
        } }
    {
        MemLog {
            performed: Seq::new(alloc),
            calls: Calls::new(failing),
        }
    }

    /// The orders that were performed, in order.
    pub fn performed(&self) -> &[Performed]
        ensures { result.now ≡ self.now.performed }
    {
        self.performed.as_slice()
    }
}

impl OrderLog for MemLog {
    ghost holds = { λ log. Some log.performed };

    ghost faults = { λ log. log.calls.faults };

    ghost may_fail = { λ log. is_listed log.calls.failing };

    fn perform(&mut self, _alloc: Global, order: &Order, outcome: u8) -> Result<(), StoreError>
        ensures answer { Writes (Some self.old.performed)
            (with_performed (record { order = order.now; result = outcome })
            (Some self.old.performed))
            (Some self.new.performed) result }
        ensures cause { HasCause self.old.calls.faults self.new.calls.faults result }
        ensures steady { IsSteady (is_listed self.old.calls.failing)
            (is_listed self.new.calls.failing) result }
        ensures in_order { InOrder self.old.calls self.new.calls result }
    {
        if !self.calls.goes() {
            return Err(StoreError::Failed);
        }
        let copy = order.clone()?;
        self.performed.push(Performed {
            order: copy,
            result: outcome,
        })?;
        Ok(())
    }

    fn load(&mut self, alloc: Global) -> Result<Seq<Performed>, StoreError>
        ensures answer { Reads (Some self.old.performed) (Some self.new.performed)
            (λ held found. found ≡ held) result }
        ensures cause { HasCause self.old.calls.faults self.new.calls.faults result }
        ensures steady { IsSteady (is_listed self.old.calls.failing)
            (is_listed self.new.calls.failing) result }
        ensures in_order { InOrder self.old.calls self.new.calls result }
    {
        if !self.calls.goes() {
            return Err(StoreError::Failed);
        }
        let found = self.performed.copy(alloc)?;
        Ok(found)
    }
}
