//! What a service does for commands.

use jt_store::{Registered, StoreError};
use jt_value::Phone;
use std::alloc::Global;
use std::io;

/// What lists registrations, one a call.
pub trait Lists {
    /// The phone with the least digits behind those of `after`, or with the least of all, and what it is registered with. None where
    /// there is none.
    fn next_registered(
        &mut self,
        alloc: Global,
        after: Option<&Phone>,
    ) -> Result<Option<(Phone, Registered)>, StoreError>;
}

/// What became of a phone's registration.
#[derive(Clone, Copy)]
pub enum Forgot {
    /// It is gone.
    Gone,
    /// There was none.
    NotRegistered,
    /// It stays: a line `vehicle` of the fleet binds the phone.
    Bound,
}

/// What a service does for commands. A clerk calls this from a thread of its own, while links are served.
pub trait Office: Lists {
    /// Removes the phone's registration, and ends the link on which the phone was let in. The phone's edition does not count.
    fn forget(&mut self, alloc: Global, phone: &Phone) -> Result<Forgot, StoreError>;

    /// Copies the files of the store, by `copy_store`, to this path, between two calls of the keeper.
    fn copy(&mut self, to: &str) -> io::Result<()>;

    /// Asks the service to stop.
    fn stop(&mut self);
}
