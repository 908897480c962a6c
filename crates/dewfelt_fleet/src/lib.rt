//! The fleet of a service: the plates and terminal ids that may register, those that are bound to a phone, and the text that names
//! them.
#![tactic(auto)]

mod bad;
mod change;
mod fleet;
mod line;
mod names;
mod reader;
mod words;

pub use bad::{BadLine, Expected, NoFleet};
pub use change::Change;
pub use fleet::Fleet;
pub use reader::read_fleet;
