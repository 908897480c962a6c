//! Why a change is not applied.

ghost use Rattle.std.specs.Prelude.{◌≡◌};
ghost use Rattle.jt_regions.specs.declared.error.RegionError.TheVariants.{Memory};

use jt_value::Memory as NoMemory;
use std::alloc::{AllocError, AllocFailed};

/// Why a table does not take a change. The first that applies is answered.
#[derive(Clone, Copy, Debug, PartialEq, Eq)]
pub enum RegionError {
    /// The setting is above 2.
    BadSetting(u8),
    /// The table has no region under this id of a list that is to modify.
    NoRegion(u32),
    /// The kind would have this many regions, which is more than 1,024.
    TooMany(u32),
    /// Memory was wanted and refused.
    Memory,
}

impl From<AllocError> for RegionError {
    ghost from_gives = { λ _ error. error ≡ Memory };

    fn from(_error: AllocError) -> RegionError {
        RegionError::Memory
    }
}

impl<T: Drop> From<AllocFailed<T>> for RegionError {
    ghost from_gives = { λ _ error. error ≡ Memory };

    fn from(_error: AllocFailed<T>) -> RegionError {
        RegionError::Memory
    }
}

impl From<NoMemory> for RegionError {
    ghost from_gives = { λ _ error. error ≡ Memory };

    fn from(_error: NoMemory) -> RegionError {
        RegionError::Memory
    }
}
