//! Tests of the bodies of positions, registrations and parameters, through their public calls.
#![tactic(auto)]

#[cfg(test)]
mod params;
#[cfg(test)]
mod position;
#[cfg(test)]
mod register;
