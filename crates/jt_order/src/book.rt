//! What keeps the orders that a platform issues.

ghost use Rattle.std.specs.Prelude.{◌≡◌, ◌<◌, ℕ, Bool, Option, IfOk};
ghost use Rattle.jt_store.specs.Tables.{HasCause, IsSteady, Reads, WhereKnown, Writes};
ghost use Rattle.jt_order.specs.Books.{Book, HasUnanswered, IsBook, IsSound, IsStateOf, Issues, with_result};
ghost use Rattle.jt_order.specs.declared.book.TheConstants.{ORDER_LIMIT};

use crate::order::Order;
use jt_store::StoreError;
use std::alloc::Global;

/// The orders that a book takes at most (this project's own).
pub const ORDER_LIMIT: u64 = 1_000_000;

/// What a book tells of itself.
#[derive(Drop)]
pub struct BookState {
    /// How many orders were issued, at most 1,000,000.
    pub issued: u64,
    /// How many of them are answered: the first ones.
    pub answered: u64,
    /// The oldest order that is not answered. None exactly where each is.
    pub oldest: Option<Order>,
}

/// Keeps the orders that a platform issued, and the results of the first of them, which are answered.
///
/// After each error the book is as before. Failed comes only where its count of faults rose in the call, Full from `issue`
/// alone.
pub trait OrderBook {
    /// What the book holds, where it tells it.
    ghost holds: { Self → Option Book };

    /// How often the book failed. The count never falls. That it rose in a call holds also where it stands at 2^64 - 1.
    ghost faults: { Self → ℕ };

    /// Whether a call may fail yet.
    ghost may_fail: { Self → Bool };

    /// Puts an order behind the others, and answers its number: they count from 0. Full(1000000) comes exactly where as
    /// many were issued.
    fn issue(&mut self, alloc: Global, order: &Order) -> Result<u64, StoreError>
        ensures answer { Issues order.now (holds self.old) (holds self.new) result }
        ensures low { IfOk result (λ number. number < ORDER_LIMIT) }
        ensures sound { WhereKnown (holds self.old) IsBook }
        ensures cause { HasCause (faults self.old) (faults self.new) result }
        ensures steady { IsSteady (may_fail self.old) (may_fail self.new) result };

    /// The oldest order that is not answered is answered, with this result.
    fn answer(&mut self, alloc: Global, outcome: u8) -> Result<(), StoreError>
        requires { WhereKnown (holds self.old) HasUnanswered }
        ensures answer { Writes (holds self.old) (with_result outcome (holds self.old))
            (holds self.new) result }
        ensures sound { WhereKnown (holds self.old) IsBook }
        ensures cause { HasCause (faults self.old) (faults self.new) result }
        ensures steady { IsSteady (may_fail self.old) (may_fail self.new) result };

    /// How many orders were issued and answered, and the oldest that is not answered.
    fn load(&mut self, alloc: Global) -> Result<BookState, StoreError>
        ensures answer { Reads (holds self.old) (holds self.new) IsStateOf result }
        ensures state { IfOk result IsSound }
        ensures sound { WhereKnown (holds self.old) IsBook }
        ensures cause { HasCause (faults self.old) (faults self.new) result }
        ensures steady { IsSteady (may_fail self.old) (may_fail self.new) result };
}
