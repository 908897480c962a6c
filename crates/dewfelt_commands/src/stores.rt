//! Stores that a command opens itself, where no service runs.

use crate::Lists;
use jt_store::{Keeper, Registered, Registrations, StoreError};
use jt_value::{Memory, Phone};
use std::alloc::Global;

/// What gives keepers of files.
pub trait Stores {
    /// A keeper of a file. Dropped, it copies its log into the file.
    type Keeper: Registrations + Drop;

    /// The keeper of the file at this path, which it opens at its first call.
    fn at(&self, path: &str) -> Result<Self::Keeper, Memory>;
}

/// A keeper whose registrations are listed.
#[derive(Drop)]
pub struct Kept<P> {
    pub keeper: P,
}

impl<P: Registrations> Lists for Kept<P> {
    fn next_registered(
        &mut self,
        alloc: Global,
        after: Option<&Phone>,
    ) -> Result<Option<(Phone, Registered)>, StoreError> {
        self.keeper.next_registered(alloc, after)
    }
}
