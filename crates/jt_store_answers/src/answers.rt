//! What a store answers, and its count of faults.

ghost use Rattle.std.specs.Prelude.{◌≡◌, ◌↔◌, ◌≤◌, ◌-◌, ◌^◌, ℕ, List, None, Ok, IfOk, IsErrAnd, IsErrOf, length, true};
ghost use Rattle.jt_store.specs.Tables.{HasCause, IsSteady, Tables, Writes, WritesWithin};
ghost use Rattle.jt_value.specs.Counts.{Rose};
ghost use Rattle.jt_store.specs.Vaults.{Held, pending_count};
ghost use Rattle.jt_store_answers.specs.Untold.{IsNotFull};

use crate::refusal::Refusal;
use jt_store::StoreError;

/// What became of something that is put behind others, of which there may be so many.
#[derive(Clone, Copy, Debug, PartialEq, Eq)]
pub enum Adding {
    /// It stands behind the others.
    Done,
    /// There are as many as there may be.
    Full,
}

// Counts a fault.
fn failed(faults: &mut u64) -> StoreError
    ensures failed { result ≡ StoreError.Failed }
    ensures later { faults.old ≤ faults.new }
    ensures range { faults.new ≤ 2 ^ 64 - 1 }
    ensures rose { Rose faults.old faults.new }
{
    *faults = faults.saturating_add(1);
    StoreError::Failed
}

/// What a store answers. Every refusal other than want of memory is counted.
pub fn answered<T: Drop, R: Refusal + Drop>(
    faults: &mut u64,
    answer: Result<T, R>,
) -> Result<T, StoreError>
    requires range { faults.old ≤ 2 ^ 64 - 1 }
    ensures found { IfOk result (λ x. answer ≡ Ok x) }
    ensures memory { IsErrOf result StoreError.Memory ↔ IsErrAnd answer R.wants_memory }
    ensures untold { IsNotFull result }
    ensures range { faults.new ≤ 2 ^ 64 - 1 }
    ensures cause { HasCause faults.old faults.new result }
    ensures steady { IsSteady true true result }
{
    match answer {
        Ok(found) => Ok(found),
        Err(refusal) if refusal.is_memory() => Err(StoreError::Memory),
        Err(_) => Err(failed(faults)),
    }
}

/// The same of a call that changes what is kept.
pub fn changed<R: Refusal + Drop>(faults: &mut u64, answer: Result<(), R>) -> Result<(), StoreError>
    requires range { faults.old ≤ 2 ^ 64 - 1 }
    ensures tables { Writes {H = Tables} None None None result }
    ensures held { Writes {H = Held} None None None result }
    ensures memory { IsErrOf result StoreError.Memory ↔ IsErrAnd answer R.wants_memory }
    ensures range { faults.new ≤ 2 ^ 64 - 1 }
    ensures cause { HasCause faults.old faults.new result }
    ensures steady { IsSteady true true result }
{
    match answer {
        Ok(()) => Ok(()),
        Err(refusal) if refusal.is_memory() => Err(StoreError::Memory),
        Err(_) => Err(failed(faults)),
    }
}

/// The same of a call that puts something behind others, of which there may be `limit`.
pub fn added<R: Refusal + Drop>(
    faults: &mut u64,
    limit: u64,
    answer: Result<Adding, R>,
) -> Result<(), StoreError>
    requires range { faults.old ≤ 2 ^ 64 - 1 }
    ensures tables { (key : List ℕ) →
        WritesWithin limit (λ (t : Tables). length (t.rows key)) None None None result }
    ensures held { WritesWithin limit pending_count None None None result }
    ensures memory { IsErrOf result StoreError.Memory ↔ IsErrAnd answer R.wants_memory }
    ensures full { IsErrOf result (StoreError.Full limit) ↔ (answer ≡ Ok Adding.Full) }
    ensures range { faults.new ≤ 2 ^ 64 - 1 }
    ensures cause { HasCause faults.old faults.new result }
    ensures steady { IsSteady true true result }
{
    match answer {
        Ok(Adding::Done) => Ok(()),
        Ok(Adding::Full) => Err(StoreError::Full(limit)),
        Err(refusal) if refusal.is_memory() => Err(StoreError::Memory),
        Err(_) => Err(failed(faults)),
    }
}
