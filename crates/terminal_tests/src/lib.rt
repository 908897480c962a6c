//! Tests of the terminal and of its line over a vault in memory: what it says at each event, and what it answers.
#![tactic(auto)]

mod starting;
mod written;

pub use starting::{octets, phone, settings};
pub use written::{frames_in, octets_in, words_of};

#[cfg(test)]
mod answers;
#[cfg(test)]
mod counting;
#[cfg(test)]
mod faults;
#[cfg(test)]
mod in_flight;
#[cfg(test)]
mod playing;
#[cfg(test)]
mod rows;
#[cfg(test)]
mod said;
#[cfg(test)]
mod scene;
#[cfg(test)]
mod talking;
