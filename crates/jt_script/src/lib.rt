//! The lines of a rehearsal's script.
#![tactic(auto)]

mod cutting;
mod reading;
mod world_event;

pub use cutting::{first_word, fix_of, number_up_to, octets_of};
pub use reading::{EventLine, event_line};
pub use world_event::WorldEvent;
