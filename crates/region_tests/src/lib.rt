//! Tests of the bodies of regions and of their table, through their public calls.
#![tactic(auto)]

#[cfg(test)]
mod region_bodies;
#[cfg(test)]
mod regions;
