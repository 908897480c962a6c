//! What hubs are made of.

use jt_platform::Fleet;
use jt_store::{Keeper, StoreError};
use jt_value::Octets;
use std::alloc::Global;

/// What a hub is made of.
#[derive(Drop)]
pub struct Ground<P> {
    /// Where rows and registrations are kept.
    pub keeper: P,
    /// The plates and terminals that may register, beside vehicles that are bound.
    pub fleet: Fleet,
    /// What codes are made of.
    pub secret: Octets,
    /// How many vehicles are bound.
    pub vehicles: usize,
    /// How many registrations went when the store was opened for it, since the fleet does not allow them.
    pub forgotten: usize,
    /// How many octets the store's file has.
    pub octets: u64,
}

/// Who has what the hubs of a service are made of, one after another.
pub trait HasGround {
    type Keeper: Keeper + Drop;

    /// What the next hub is made of, over a store that is open: one that is not is opened.
    fn next(&mut self, alloc: Global) -> Result<Ground<Self::Keeper>, StoreError>;

    /// What the system says of a store that does not open, where it says anything.
    fn said(&self, alloc: Global) -> Option<String>;

    /// Lets go of a store that failed. The hub over it is gone.
    fn let_go(&mut self);
}
