//! Why a store refuses.

ghost use Rattle.std.specs.Prelude.{◌≡◌};
ghost use Rattle.jt_store.specs.declared.error.StoreError.TheVariants.{Memory as NoMemory};

use jt_value::Memory;
use std::alloc::{AllocError, AllocFailed};

/// Why a store refused a call. It is then as before.
#[derive(Clone, Copy, Debug, PartialEq, Eq)]
pub enum StoreError {
    /// The store's outside failed: its count of faults rose.
    Failed,
    /// The store has as many as it may have, which is the number.
    Full(u64),
    /// Memory was wanted and refused.
    Memory,
}

impl From<Memory> for StoreError {
    ghost from_gives = { λ _ error. error ≡ NoMemory };

    fn from(_memory: Memory) -> StoreError {
        StoreError::Memory
    }
}

impl From<AllocError> for StoreError {
    ghost from_gives = { λ _ error. error ≡ NoMemory };

    fn from(_error: AllocError) -> StoreError {
        StoreError::Memory
    }
}

impl<T: Drop> From<AllocFailed<T>> for StoreError {
    ghost from_gives = { λ _ error. error ≡ NoMemory };

    fn from(_error: AllocFailed<T>) -> StoreError {
        StoreError::Memory
    }
}
