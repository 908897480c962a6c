//! What keeps the orders that a terminal performed.

ghost use Rattle.std.specs.Prelude.{◌≡◌, ℕ, Bool, List, Option};
ghost use Rattle.jt_store.specs.Tables.{HasCause, IsSteady, Reads, Writes};
ghost use Rattle.jt_order.specs.Books.{with_performed};
ghost use Rattle.jt_order.specs.declared.performed.Performed.{Performed};

use crate::order::Order;
use crate::performed::Performed;
use jt_store::StoreError;
use jt_value::Seq;
use std::alloc::Global;

/// Keeps the orders that a terminal performed, with their results, in order.
///
/// After each error the log is as before. Failed comes only where its count of faults rose in the call; Full never comes.
pub trait OrderLog {
    /// What the log holds, where it tells it.
    ghost holds: { Self → Option (List Performed) };

    /// How often the log failed. The count never falls. That it rose in a call holds also where it stands at 2^64 - 1.
    ghost faults: { Self → ℕ };

    /// Whether a call may fail yet.
    ghost may_fail: { Self → Bool };

    /// Puts an order that is performed, with its result, behind the others.
    fn perform(&mut self, alloc: Global, order: &Order, outcome: u8) -> Result<(), StoreError>
        ensures answer { Writes (holds self.old)
            (with_performed (record { order = order.now; result = outcome }) (holds self.old))
            (holds self.new) result }
        ensures cause { HasCause (faults self.old) (faults self.new) result }
        ensures steady { IsSteady (may_fail self.old) (may_fail self.new) result };

    /// All that were performed.
    fn load(&mut self, alloc: Global) -> Result<Seq<Performed>, StoreError>
        ensures answer { Reads (holds self.old) (holds self.new)
            (λ held found. found ≡ held) result }
        ensures cause { HasCause (faults self.old) (faults self.new) result }
        ensures steady { IsSteady (may_fail self.old) (may_fail self.new) result };
}
