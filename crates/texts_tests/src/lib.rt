//! Tests of the crates of texts, through their public calls.
#![tactic(auto)]

#[cfg(test)]
mod cutter;
#[cfg(test)]
mod lists;
#[cfg(test)]
mod text;
