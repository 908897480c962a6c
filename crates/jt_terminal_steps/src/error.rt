//! Why an event failed.

ghost use Rattle.std.specs.Prelude.{◌≡◌, ◌↔◌};
ghost use Rattle.jt_store.specs.declared.error.StoreError.TheVariants.{Failed};
ghost use Rattle.jt_terminal_steps.specs.declared.error.TerminalError.TheVariants.{Store, Memory as NoMemory};

use jt_store::StoreError;
use jt_value::Memory;
use std::alloc::AllocError;

/// Why an event failed. The terminal is then as after Lost, over what its vault committed.
#[derive(Clone, Copy, Debug, PartialEq, Eq)]
pub enum TerminalError {
    /// The vault failed: its count of faults rose.
    Store,
    /// Memory was wanted and refused.
    Memory,
}

impl From<Memory> for TerminalError {
    ghost from_gives = { λ _ error. error ≡ NoMemory };

    fn from(_memory: Memory) -> TerminalError {
        TerminalError::Memory
    }
}

impl From<AllocError> for TerminalError {
    ghost from_gives = { λ _ error. error ≡ NoMemory };

    fn from(_error: AllocError) -> TerminalError {
        TerminalError::Memory
    }
}

// Why an event failed at a call of the vault. No call in an event answers Full.
pub(crate) fn trouble(error: StoreError) -> TerminalError
    ensures { (result ≡ Store) ↔ (error ≡ Failed) }
{
    match error {
        StoreError::Failed => TerminalError::Store,
        StoreError::Full(_) | StoreError::Memory => TerminalError::Memory,
    }
}
