//! Tests that runs of platform and terminal get the same answers of stores in SQLite files as of those in memory.
#![tactic(auto)]

#[cfg(test)]
mod files;
#[cfg(test)]
mod frames;
#[cfg(test)]
mod memory;
#[cfg(test)]
mod platform;
#[cfg(test)]
mod reports;
#[cfg(test)]
mod stories;
#[cfg(test)]
mod terminal;
