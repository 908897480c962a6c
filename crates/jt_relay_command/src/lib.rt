//! The command `relay`: its words, its texts, and its run over a keeper and a vault.
#![tactic(auto)]

mod command;
mod printing;
mod relay_words;

pub use command::relay;
pub use printing::{push_outcome, status_of};
pub use relay_words::RelayWords;
