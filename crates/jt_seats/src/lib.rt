//! The places of a service for its links: who gets one, who has to leave, and why a link is ended.
#![tactic(auto)]

mod cut;
mod limits;
mod seat;
mod seats;

pub use cut::{Away, Cut};
pub use limits::Limits;
pub use seat::{Seat, address_number};
pub use seats::{Counts, Seats};
