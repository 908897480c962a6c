//! The operator's page: the files that the program sends.
#![tactic(auto)]

mod file;
mod files;

pub use file::{File, Kind, file_at};
