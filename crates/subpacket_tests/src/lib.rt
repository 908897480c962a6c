//! Tests of messages in packets.
#![tactic(auto)]

#[cfg(test)]
mod assembling;
#[cfg(test)]
mod splitting;
