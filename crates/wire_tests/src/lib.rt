//! Tests of the crates of the wire, through their public calls.
#![tactic(auto)]

#[cfg(test)]
mod escape;
#[cfg(test)]
mod header;
#[cfg(test)]
mod layout;
#[cfg(test)]
mod outside;
#[cfg(test)]
mod stream;
#[cfg(test)]
mod value;
