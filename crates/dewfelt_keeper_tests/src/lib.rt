//! Tests of registrations under the rules of a fleet.
#![tactic(auto)]

#[cfg(test)]
mod fleets;
#[cfg(test)]
mod registry_tests;
#[cfg(test)]
mod row_tests;
#[cfg(test)]
mod shared_tests;
