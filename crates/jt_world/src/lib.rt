//! The rehearsal: one terminal and one platform in memory, played by a script, octet by octet.
#![tactic(auto)]

mod hearing;
mod laws;
mod making;
mod rehearsing;
mod settings;
mod world;

pub use jt_play::{WorldError, WorldEvent};
pub use laws::{law_make, law_world};
pub use making::make;
pub use rehearsing::{Rehearsed, rehearse};
pub use settings::{fleet, identity, secret};
pub use world::World;
