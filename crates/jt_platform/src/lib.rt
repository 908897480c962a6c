//! The platform's core: the hub that registers terminals, lets them in, stores their units and keeps a second session out.
#![tactic(auto)]

mod code;
mod copying;
mod desk;
mod flags;
mod history;
mod hub;
mod index;
mod journal;
mod laws;
mod log;
mod lookup;
mod registering;
mod request;
mod roll;
mod trimming;
mod unit;

pub use code::code_of;
pub use desk::HubOpening;
pub use history::{holder, is_closed, is_live};
pub use hub::Hub;
pub use journal::{GhostJournal, Journal};
pub use laws::{law_answers, law_histories, law_units};
pub use request::{Entry, Fleet, Reply, Request};
