//! One desk that many callers share, by turns, with one history.
#![tactic(auto)]

mod desk;
mod entry;
mod known;
mod pass;
mod steps;
mod turn;

pub use desk::Desk;
pub use entry::{Ended, Entry};
pub use pass::Pass;
pub use turn::Turn;
