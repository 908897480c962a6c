//! What keeps a terminal's fixes and units.

ghost use Rattle.std.specs.Prelude.{◌≡◌, ◌<◌, ◌≤◌, ℕ, Bool, Option, IfOk, IfSome, length};
ghost use Rattle.jt_value.specs.declared.limits.TheConstants.{CODE_LIMIT, FIX_LIMIT};
ghost use Rattle.jt_store.specs.Tables.{HasCause, IsSteady, Reads, WhereKnown};
ghost use Rattle.jt_store.specs.Vaults.{Accepts, AreInOrder, Changes, Forms, Held, IsLoaded, IsUnit, IsWhole, MayCommit, Records, Sets, octets_of};

use crate::error::StoreError;
use crate::unit::{Loaded, Unit};
use jt_position::Fix;
use std::alloc::Global;

/// Keeps what a terminal recorded, what it formed of it, and what of that was accepted.
///
/// After each error the vault is as before. Failed comes only where its count of faults rose in the call, and at every other
/// answer that count stood still. Full comes from `note_fix` alone.
pub trait Vault {
    /// What the vault holds, where it tells it.
    ghost holds: { Self → Option Held };

    /// How many fixes may be recorded and not accepted, at most 100,000.
    ghost limit: { Self → ℕ };

    /// How often the vault failed. The count never falls. That it rose in a call holds also where it stands at 2^64 - 1.
    ghost faults: { Self → ℕ };

    /// Whether a call may fail yet.
    ghost may_fail: { Self → Bool };

    /// What a terminal begins with. The gaps of the units' serials from mark rise and are 1 to 32,766; the gap of next
    /// is above them, and 1 to 32,767. A vault that tells holds units that carry the first fixes recorded, and mark is the
    /// serial of the last one accepted.
    fn load(&mut self, alloc: Global) -> Result<Loaded, StoreError>
        ensures answer { Reads (holds self.old) (holds self.new) IsLoaded result }
        ensures order { IfOk result (λ loaded.
            AreInOrder loaded.mark loaded.next loaded.units loaded.code) }
        ensures whole { WhereKnown (holds self.old) IsWhole }
        ensures limit { limit self.new ≡ limit self.old }
        ensures bound { limit self.old ≤ FIX_LIMIT }
        ensures cause { HasCause (faults self.old) (faults self.new) result }
        ensures steady { IsSteady (may_fail self.old) (may_fail self.new) result };

    /// Records a fix behind the others. Full comes exactly where as many fixes as the limit are not accepted, and has
    /// the limit.
    fn note_fix(&mut self, alloc: Global, fix: &Fix) -> Result<(), StoreError>
        ensures answer { Records (limit self.old) fix.now (holds self.old) (holds self.new) result }
        ensures limit { limit self.new ≡ limit self.old }
        ensures bound { limit self.old ≤ FIX_LIMIT }
        ensures cause { HasCause (faults self.old) (faults self.new) result }
        ensures steady { IsSteady (may_fail self.old) (may_fail self.new) result };

    /// Puts a unit of the next fixes behind the others. Its serial is next, or a later one whose gap from mark is at
    /// most 32,766. The serial behind it is then next.
    fn form(&mut self, alloc: Global, unit: &Unit) -> Result<(), StoreError>
        requires unit { IsUnit unit.now }
        requires may { WhereKnown (holds self.old) (λ held. MayCommit held unit.now) }
        ensures answer { Changes (Forms unit.now) (holds self.old) (holds self.new) result }
        ensures limit { limit self.new ≡ limit self.old }
        ensures bound { limit self.old ≤ FIX_LIMIT }
        ensures cause { HasCause (faults self.old) (faults self.new) result }
        ensures steady { IsSteady (may_fail self.old) (may_fail self.new) result };

    /// The oldest unit that is not accepted becomes accepted, and mark its serial.
    fn accept(&mut self, alloc: Global) -> Result<(), StoreError>
        requires { WhereKnown (holds self.old) (λ held. held.accepted < length held.units) }
        ensures answer { Changes Accepts (holds self.old) (holds self.new) result }
        ensures limit { limit self.new ≡ limit self.old }
        ensures bound { limit self.old ≤ FIX_LIMIT }
        ensures cause { HasCause (faults self.old) (faults self.new) result }
        ensures steady { IsSteady (may_fail self.old) (may_fail self.new) result };

    /// Sets the platform's code, of at most 255 octets, or removes it.
    fn set_code(&mut self, alloc: Global, code: Option<&[u8]>) -> Result<(), StoreError>
        requires { IfSome (octets_of code) (λ octets. length octets ≤ CODE_LIMIT) }
        ensures answer { Changes (Sets (octets_of code.entry))
            (holds self.old) (holds self.new) result }
        ensures limit { limit self.new ≡ limit self.old }
        ensures bound { limit self.old ≤ FIX_LIMIT }
        ensures cause { HasCause (faults self.old) (faults self.new) result }
        ensures steady { IsSteady (may_fail self.old) (may_fail self.new) result };
}
