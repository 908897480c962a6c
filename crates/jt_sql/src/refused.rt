//! Why a call on the database gave up.

ghost use Rattle.std.specs.Prelude.{◌≡◌, ◌↔◌};
ghost use Rattle.sqlite.specs.declared.error.Error.TheVariants.{SqliteFailure};
ghost use Rattle.sqlite.specs.declared.error.ErrorCode.TheVariants.{OutOfMemory};
ghost use Rattle.jt_sql.specs.declared.refused.Refused.TheVariants.{Memory as NoMemory};

use jt_store::StoreError;
use jt_store_answers::Refusal;
use jt_value::Memory;
use sqlite::{Error, ErrorCode};
use std::alloc::{AllocError, AllocFailed};

/// Why a call on the database gave up.
#[derive(Clone, Copy, Debug, PartialEq, Eq)]
pub enum Refused {
    /// The database refused, or what it holds is not what these stores write.
    Failed,
    /// An earlier fault of the disk has shut the connection.
    Shut,
    /// Memory was wanted and refused.
    Memory,
}

impl Refusal for Refused {
    ghost wants_memory = { λ refused. refused ≡ NoMemory };

    fn is_memory(&self) -> bool {
        matches!(self, Refused::Memory)
    }
}

// What an error of the database says of the call.
fn refused_for(error: &Error) -> Refused
    ensures memory { (result ≡ NoMemory) ↔ (error.now ≡ SqliteFailure OutOfMemory) }
{
    match error {
        Error::SqliteFailure(ErrorCode::OutOfMemory) => Refused::Memory,
        Error::SqliteFailure(ErrorCode::Closed) => Refused::Shut,
        _ => Refused::Failed,
    }
}

impl From<Error> for Refused {
    ghost from_gives = { λ error refused.
        (refused ≡ NoMemory) ↔ (error ≡ SqliteFailure OutOfMemory) };

    fn from(error: Error) -> Refused {
        refused_for(&error)
    }
}

impl From<Memory> for Refused {
    ghost from_gives = { λ _ refused. refused ≡ NoMemory };

    fn from(_memory: Memory) -> Refused {
        Refused::Memory
    }
}

impl From<AllocError> for Refused {
    ghost from_gives = { λ _ refused. refused ≡ NoMemory };

    fn from(_error: AllocError) -> Refused {
        Refused::Memory
    }
}

impl<T: Drop> From<AllocFailed<T>> for Refused {
    ghost from_gives = { λ _ refused. refused ≡ NoMemory };

    fn from(_error: AllocFailed<T>) -> Refused {
        Refused::Memory
    }
}

/// Why a migration gave up: where a phone would have too many rows, the call fails.
pub(crate) fn refused_by(error: StoreError) -> Refused {
    match error {
        StoreError::Memory => Refused::Memory,
        _ => Refused::Failed,
    }
}
