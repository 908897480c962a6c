//! What keeps a platform's registrations and rows.

ghost use Rattle.std.specs.Option.{option_copied, option_map};
ghost use Rattle.std.specs.Prelude.{◌≡◌, ◌<◌, ◌≤◌, ◌^◌, ℕ, Bool, None, Some, Option, IfOk, IfSome, OnOk};
ghost use Rattle.jt_value.specs.declared.limits.TheConstants.{ROW_LIMIT};
ghost use Rattle.jt_value.specs.Sameness.{key_of};
ghost use Rattle.jt_store.specs.Tables.{Tables, WhereKnown, IsTrimmed, MayRegister, MayAppend, AreRows, AreNamedOnce, last_of, Finds, FindsFrom, FindsNext, IsBehind, plates, terminals, IsOwner, row_added, registered_set, Reads, Writes, Appends, HasCause, IsSteady};

use crate::error::StoreError;
use crate::row::{Registered, Row};
use jt_value::Phone;
use std::alloc::Global;

/// Keeps the registration and the rows of each phone. Two phones are the same where their twenty digits are.
///
/// After each error the keeper is as before. Failed comes only where its count of faults rose in the call, and at every other
/// answer that count stood still. Full comes from `append` alone.
pub trait Keeper {
    /// The registrations and the rows, where the keeper tells them.
    ghost tables: { Self → Option Tables };

    /// How many rows a phone may have, at most 1,000,000,000.
    ghost limit: { Self → ℕ };

    /// How often the keeper failed. The count never falls. That it rose in a call holds also where it stands at 2^64 - 1.
    ghost faults: { Self → ℕ };

    /// Whether a call may fail yet.
    ghost may_fail: { Self → Bool };

    /// What the phone is registered with. None exactly where it is not registered.
    fn registered(&mut self, alloc: Global, phone: &Phone) -> Result<Option<Registered>, StoreError>
        ensures answer { Reads (tables self.old) (tables self.new)
            (λ t found. found ≡ t.registered (key_of phone.now)) result }
        ensures names { OnOk result
            (WhereKnown (tables self.old) (λ t. AreNamedOnce t.registered)) }
        ensures limit { limit self.new ≡ limit self.old }
        ensures bound { limit self.old ≤ ROW_LIMIT }
        ensures cause { HasCause (faults self.old) (faults self.new) result }
        ensures steady { IsSteady (may_fail self.old) (may_fail self.new) result };

    /// The phone of 2019 with the digits of the one that is registered with this plate. None exactly where none is.
    fn plate_owner(&mut self, alloc: Global, plate: &[u8]) -> Result<Option<Phone>, StoreError>
        ensures answer { Reads (tables self.old) (tables self.new)
            (λ t found. IsOwner plates t.registered plate.now found) result }
        ensures names { OnOk result
            (WhereKnown (tables self.old) (λ t. AreNamedOnce t.registered)) }
        ensures limit { limit self.new ≡ limit self.old }
        ensures bound { limit self.old ≤ ROW_LIMIT }
        ensures cause { HasCause (faults self.old) (faults self.new) result }
        ensures steady { IsSteady (may_fail self.old) (may_fail self.new) result };

    /// The phone of 2019 with the digits of the one that is registered with this terminal id. None exactly where none is.
    fn terminal_owner(
        &mut self,
        alloc: Global,
        terminal: &[u8],
    ) -> Result<Option<Phone>, StoreError>
        ensures answer { Reads (tables self.old) (tables self.new)
            (λ t found. IsOwner terminals t.registered terminal.now found) result }
        ensures names { OnOk result
            (WhereKnown (tables self.old) (λ t. AreNamedOnce t.registered)) }
        ensures limit { limit self.new ≡ limit self.old }
        ensures bound { limit self.old ≤ ROW_LIMIT }
        ensures cause { HasCause (faults self.old) (faults self.new) result }
        ensures steady { IsSteady (may_fail self.old) (may_fail self.new) result };

    /// Registers the phone, or replaces its registration, with a plate and a terminal id that no other phone has. The
    /// terminal id does not end in a zero octet.
    fn register(
        &mut self,
        alloc: Global,
        phone: &Phone,
        registered: &Registered,
    ) -> Result<(), StoreError>
        requires trimmed { IsTrimmed registered.now.terminal }
        requires may { WhereKnown (tables self.old) (λ t.
            MayRegister t.registered (key_of phone.now) registered.now) }
        ensures answer { Writes (tables self.old)
            (registered_set (key_of phone.now) (Some registered.now) (tables self.old))
            (tables self.new) result }
        ensures limit { limit self.new ≡ limit self.old }
        ensures bound { limit self.old ≤ ROW_LIMIT }
        ensures cause { HasCause (faults self.old) (faults self.new) result }
        ensures steady { IsSteady (may_fail self.old) (may_fail self.new) result };

    /// Removes the phone's registration, if there is one. Its rows stay.
    fn unregister(&mut self, alloc: Global, phone: &Phone) -> Result<(), StoreError>
        ensures answer { Writes (tables self.old)
            (registered_set (key_of phone.now) None (tables self.old)) (tables self.new) result }
        ensures limit { limit self.new ≡ limit self.old }
        ensures bound { limit self.old ≤ ROW_LIMIT }
        ensures cause { HasCause (faults self.old) (faults self.new) result }
        ensures steady { IsSteady (may_fail self.old) (may_fail self.new) result };

    /// The number of the phone's last row. None exactly where it has no row.
    fn last(&mut self, alloc: Global, phone: &Phone) -> Result<Option<u64>, StoreError>
        ensures answer { Reads (tables self.old) (tables self.new)
            (λ t last. last ≡ last_of (t.rows (key_of phone.now))) result }
        ensures low { IfOk result (λ last. IfSome last (λ n. n < 2 ^ 47)) }
        ensures rows { WhereKnown (tables self.old) (λ t.
            AreRows (limit self.old) (t.rows (key_of phone.now))) }
        ensures limit { limit self.new ≡ limit self.old }
        ensures bound { limit self.old ≤ ROW_LIMIT }
        ensures cause { HasCause (faults self.old) (faults self.new) result }
        ensures steady { IsSteady (may_fail self.old) (may_fail self.new) result };

    /// The phone's row of this number. None exactly where no row has it.
    fn row_at(
        &mut self,
        alloc: Global,
        phone: &Phone,
        number: u64,
    ) -> Result<Option<Row>, StoreError>
        ensures answer { Reads (tables self.old) (tables self.new)
            (λ t found. Finds (t.rows (key_of phone.now)) number found) result }
        ensures rows { WhereKnown (tables self.old) (λ t.
            AreRows (limit self.old) (t.rows (key_of phone.now))) }
        ensures limit { limit self.new ≡ limit self.old }
        ensures bound { limit self.old ≤ ROW_LIMIT }
        ensures cause { HasCause (faults self.old) (faults self.new) result }
        ensures steady { IsSteady (may_fail self.old) (may_fail self.new) result };

    /// The phone's row of the least number from this one on. None exactly where there is none.
    fn row_from(
        &mut self,
        alloc: Global,
        phone: &Phone,
        number: u64,
    ) -> Result<Option<Row>, StoreError>
        ensures answer { Reads (tables self.old) (tables self.new)
            (λ t found. FindsFrom (t.rows (key_of phone.now)) number found) result }
        ensures within { IfOk result (λ found.
            IfSome found (λ row. (number ≤ row.number) × (row.number < 2 ^ 47))) }
        ensures rows { WhereKnown (tables self.old) (λ t.
            AreRows (limit self.old) (t.rows (key_of phone.now))) }
        ensures limit { limit self.new ≡ limit self.old }
        ensures bound { limit self.old ≤ ROW_LIMIT }
        ensures cause { HasCause (faults self.old) (faults self.new) result }
        ensures steady { IsSteady (may_fail self.old) (may_fail self.new) result };

    /// Puts a row at the end of the phone's. The first number is below 65,536, each other 1 to 131,071 above the last.
    /// Full comes exactly where the phone has as many rows as the limit, and has the limit.
    fn append(&mut self, alloc: Global, phone: &Phone, row: &Row) -> Result<(), StoreError>
        requires { WhereKnown (tables self.old) (λ t.
            MayAppend (last_of (t.rows (key_of phone.now))) row.now.number) }
        ensures answer { Appends (limit self.old) (key_of phone.now) row.now
            (tables self.old) (tables self.new) result }
        ensures limit { limit self.new ≡ limit self.old }
        ensures bound { limit self.old ≤ ROW_LIMIT }
        ensures cause { HasCause (faults self.old) (faults self.new) result }
        ensures steady { IsSteady (may_fail self.old) (may_fail self.new) result };
}

/// A keeper that also lists its registrations, one call each.
pub trait Registrations: Keeper {
    /// The phone with the least digits behind those of `after`, or with the least of all, as a phone of 2019, and what it is
    /// registered with. None exactly where no phone behind is registered.
    fn next_registered(
        &mut self,
        alloc: Global,
        after: Option<&Phone>,
    ) -> Result<Option<(Phone, Registered)>, StoreError>
        ensures answer { Reads (Self.tables self.old) (Self.tables self.new)
            (λ t found. FindsNext t.registered (option_map key_of (option_copied after.entry)) found)
            result }
        ensures behind { IfOk result (λ found. IfSome found (λ one.
            IsBehind (option_map key_of (option_copied after.entry)) (key_of one.0))) }
        ensures names { OnOk result
            (WhereKnown (Self.tables self.old) (λ t. AreNamedOnce t.registered)) }
        ensures limit { Self.limit self.new ≡ Self.limit self.old }
        ensures bound { Self.limit self.old ≤ ROW_LIMIT }
        ensures cause { HasCause (Self.faults self.old) (Self.faults self.new) result }
        ensures steady { IsSteady (Self.may_fail self.old) (Self.may_fail self.new) result };
}
