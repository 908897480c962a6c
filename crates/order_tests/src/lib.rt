//! Tests of orders: how they are read, the three rules, and the stores in memory.
#![tactic(auto)]

#[cfg(test)]
mod book_tests;
#[cfg(test)]
mod log_tests;
#[cfg(test)]
mod reading_tests;
#[cfg(test)]
mod rule_tests;
#[cfg(test)]
mod values;
