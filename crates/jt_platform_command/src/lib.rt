//! The command `platform`, and the fleet that the text of a source names.
#![tactic(auto)]

mod command;
mod fleet_reader;
mod line;
mod printing;
mod telling;

pub use command::{PlatformRun, platform};
pub use fleet_reader::{FleetRead, read_fleet};
pub use line::{FleetLine, fleet_line};
