//! The store and the fleet of a folder while a service runs over it: what its hubs are made of, and what is done each second.
#![tactic(auto)]

mod chores;
mod desk;
mod filling;
mod ground;
mod living;
mod present;
mod tending;

pub use chores::{Chores, do_chores};
pub use ground::{Ground, HasGround};
pub use living::{Living, Root};
pub use present::Present;
pub use tending::{Tended, Tending};
