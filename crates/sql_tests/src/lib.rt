//! Tests of the stores in SQLite files against those in memory, and what the tests of such stores have in common.
#![tactic(auto)]

pub mod connections;
pub mod files;
#[cfg(test)]
mod keeper_tests;
#[cfg(test)]
mod left_tests;
#[cfg(test)]
mod limit_tests;
#[cfg(test)]
mod listing_tests;
#[cfg(test)]
mod table_tests;
#[cfg(test)]
mod vault_tests;
#[cfg(test)]
mod version_tests;
