//! Tests of sessions.
#![tactic(auto)]

#[cfg(test)]
mod beginning;
#[cfg(test)]
mod ends;
#[cfg(test)]
mod faults;
#[cfg(test)]
mod rows;
#[cfg(test)]
mod running;
#[cfg(test)]
mod serving;
