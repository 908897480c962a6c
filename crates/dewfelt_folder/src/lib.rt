//! The files of a service's folder: what is read of them, and what is wrong with them.
#![tactic(auto)]

mod checking;
mod fleet_file;
mod folder;
mod reading;
mod status;

pub use checking::check;
pub use fleet_file::FleetFile;
pub use folder::{Trouble, clerk_of, lock, path_in, read_fleet_of, read_settings_of, settings_of};
pub use reading::{octets_of, read_whole, try_store};
pub use status::Status;
