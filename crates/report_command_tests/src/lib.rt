//! Tests of `report`, and of what it prints.
#![tactic(auto)]

#[cfg(test)]
mod printing;
#[cfg(test)]
mod rows;
#[cfg(test)]
mod scene;
