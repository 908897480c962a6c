//! Stores in SQLite files. The database's answers are not told to any contract, so these are trusted beyond their counts and
//! the bounds that every keeper and vault keeps: what is read is tested against those, and anything else is a fault.
#![tactic(auto)]

mod adopted_keeper;
mod adopted_vault;
mod asking;
mod fixes;
mod keeping;
mod migration;
mod opening;
mod opens;
mod phones;
mod places;
mod refused;
mod registrations;
mod rows;
mod sql_keeper;
mod sql_vault;
mod state;
mod units;
mod vaulting;
mod versions;

pub use adopted_keeper::AdoptedKeeper;
pub use adopted_vault::AdoptedVault;
pub use sql_keeper::SqlKeeper;
pub use sql_vault::SqlVault;
