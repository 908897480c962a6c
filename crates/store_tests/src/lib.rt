//! Calls of any store for tests, which look first whether they may be made; and tests of the stores in memory and of the serial
//! rule.
#![tactic(auto)]

pub mod keeper_calls;
#[cfg(test)]
mod keeper_tests;
pub mod listing;
#[cfg(test)]
mod migrate_calls;
#[cfg(test)]
mod migrate_tests;
#[cfg(test)]
mod serial_tests;
mod units;
pub mod vault_calls;
#[cfg(test)]
mod vault_tests;
