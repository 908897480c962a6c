//! Tests of whole frames and of the table of bodies in both editions, through their public calls.
#![tactic(auto)]

#[cfg(test)]
mod bodies;
#[cfg(test)]
mod editions;
#[cfg(test)]
mod frames;
#[cfg(test)]
mod headers;
#[cfg(test)]
mod judging;
#[cfg(test)]
mod reading;
#[cfg(test)]
mod values;
#[cfg(test)]
mod views;
