//! Tests of the words of `report` and of its lines of fixes.
#![tactic(auto)]

#[cfg(test)]
mod lines;
#[cfg(test)]
mod words;
