//! Tests of sessions that send orders.
#![tactic(auto)]

#[cfg(test)]
mod answering;
#[cfg(test)]
mod faults;
#[cfg(test)]
mod frames;
#[cfg(test)]
mod setting;
