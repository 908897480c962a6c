//! Tests of the words of `platform`, of lines that are read one after the other, and of the fleet that a source names.
#![tactic(auto)]

#[cfg(test)]
mod fleets;
#[cfg(test)]
mod lines;
#[cfg(test)]
mod rows;
#[cfg(test)]
mod words;
