//! A book in memory, with a list of the calls that fail.

ghost use Rattle.std.specs.Prelude.{◌≡◌, ◌<◌, [], Some, IfOk, option_copied};
ghost use Rattle.jt_store.specs.Memory.{is_listed, InOrder};
ghost use Rattle.jt_store.specs.Tables.{HasCause, IsSteady, Reads, Writes};
ghost use Rattle.jt_order.specs.Books.{HasUnanswered, IsBook, IsSound, IsStateOf, Issues, with_result};
ghost use Rattle.jt_order.specs.declared.book.TheConstants.{ORDER_LIMIT};

use crate::book::{BookState, ORDER_LIMIT, OrderBook};
use crate::order::Order;
use jt_store::{Calls, StoreError};
use jt_value::{Memory, Octets, Seq};
use std::alloc::Global;
use std::marker::Model;

/// Keeps everything and tells it, and fails exactly the calls whose numbers are listed, counted from 1.
#[derive(Drop)]
pub struct MemBook {
    issued: Seq<Order>,
    results: Octets,
    calls: Calls,
}

impl Model for MemBook {
    ghost use Rattle.jt_order.specs.Books.{IsBook};
    ghost use Rattle.jt_order.specs.Memory.{BookStock};

    ghost Value = { BookStock };

    ghost view = { λ b. record { book = record { issued = b.issued; results = b.results }; calls = b.calls } };

    ghost invariant = { λ b. IsBook (record { issued = b.issued; results = b.results }) };
}

impl MemBook {
    /// Nothing issued, and no memory taken. `failing` has the numbers of the calls that fail; the number stays at 2^64 - 1
    /// once it is there.
    pub fn new(alloc: Global, failing: Seq<u64>) -> MemBook
        ensures { result ≡ record {
          book = record { issued = []; results = [] };
          calls = record { failing = failing; count = 0; faults = 0 };
        } }
    {
        MemBook {
            issued: Seq::new(alloc),
            results: Octets::new(alloc),
            calls: Calls::new(failing),
        }
    }

    /// The results of the orders that are answered, in order.
    pub fn results(&self) -> &[u8]
        ensures { result.now ≡ self.now.book.results }
    {
        self.results.as_slice()
    }
}

fn copy_found(alloc: Global, found: Option<&Order>) -> Result<Option<Order>, Memory>
    ensures { IfOk result (λ copy. copy ≡ option_copied found.entry) }
{
    match found {
        Some(order) => Ok(Some(order.clone()?)),
        None => Ok(None),
    }
}

impl OrderBook for MemBook {
    ghost holds = { λ book. Some book.book };

    ghost faults = { λ book. book.calls.faults };

    ghost may_fail = { λ book. is_listed book.calls.failing };

    fn issue(&mut self, _alloc: Global, order: &Order) -> Result<u64, StoreError>
        ensures answer { Issues order.now (Some self.old.book) (Some self.new.book) result }
        ensures low { IfOk result (λ number. number < ORDER_LIMIT) }
        ensures sound { IsBook self.old.book }
        ensures cause { HasCause self.old.calls.faults self.new.calls.faults result }
        ensures steady { IsSteady (is_listed self.old.calls.failing)
            (is_listed self.new.calls.failing) result }
        ensures in_order { InOrder self.old.calls self.new.calls result }
    {
        if !self.calls.goes() {
            return Err(StoreError::Failed);
        }
        let number = self.issued.len() as u64;
        if number == ORDER_LIMIT {
            return Err(StoreError::Full(ORDER_LIMIT));
        }
        let copy = order.clone()?;
        self.issued.push(copy)?;
        Ok(number)
    }

    fn answer(&mut self, _alloc: Global, outcome: u8) -> Result<(), StoreError>
        requires { HasUnanswered self.old.book }
        ensures answer { Writes (Some self.old.book) (with_result outcome (Some self.old.book))
            (Some self.new.book) result }
        ensures sound { IsBook self.old.book }
        ensures cause { HasCause self.old.calls.faults self.new.calls.faults result }
        ensures steady { IsSteady (is_listed self.old.calls.failing)
            (is_listed self.new.calls.failing) result }
        ensures in_order { InOrder self.old.calls self.new.calls result }
    {
        if !self.calls.goes() {
            return Err(StoreError::Failed);
        }
        self.results.push(outcome)?;
        Ok(())
    }

    fn load(&mut self, alloc: Global) -> Result<BookState, StoreError>
        ensures answer { Reads (Some self.old.book) (Some self.new.book) IsStateOf result }
        ensures state { IfOk result IsSound }
        ensures sound { IsBook self.old.book }
        ensures cause { HasCause self.old.calls.faults self.new.calls.faults result }
        ensures steady { IsSteady (is_listed self.old.calls.failing)
            (is_listed self.new.calls.failing) result }
        ensures in_order { InOrder self.old.calls self.new.calls result }
    {
        if !self.calls.goes() {
            return Err(StoreError::Failed);
        }
        let oldest = copy_found(alloc, self.issued.get(self.results.len()))?;
        Ok(BookState {
            issued: self.issued.len() as u64,
            answered: self.results.len() as u64,
            oldest,
        })
    }
}
