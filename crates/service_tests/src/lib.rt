//! Tests of a platform that runs on.
#![tactic(auto)]

#[cfg(test)]
mod boards;
#[cfg(test)]
mod counting;
#[cfg(test)]
mod links;
#[cfg(test)]
mod rows;
#[cfg(test)]
mod serving;
#[cfg(test)]
mod sockets;
#[cfg(test)]
mod tokens;
