//! A desk that counts its asks, and threads that ask it by turns: what a turn's clauses say of a history that many make. The
//! desk and the callers are no tests themselves, so that their must-fail edits are tried.
#![tactic(auto)]

mod asking;
mod counting;
mod many_threads;

pub use asking::{TwoAsked, both_ask};
pub use counting::CountingDesk;
pub use many_threads::{Told, all_ask, served};

#[cfg(test)]
mod tests;
