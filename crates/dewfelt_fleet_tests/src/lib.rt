//! Tests of fleets that texts name.
#![tactic(auto)]

#[cfg(test)]
mod change_tests;
#[cfg(test)]
mod text_tests;
