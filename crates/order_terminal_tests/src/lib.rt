//! Tests of a terminal that performs orders, over a vault and a log in memory.
#![tactic(auto)]

#[cfg(test)]
mod editions;
#[cfg(test)]
mod events;
#[cfg(test)]
mod faults;
#[cfg(test)]
mod frames;
#[cfg(test)]
mod performing;
#[cfg(test)]
mod serials;
#[cfg(test)]
mod setting;
