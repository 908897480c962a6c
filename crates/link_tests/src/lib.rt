//! Tests of links, dials, listeners and clocks, in memory and over TCP.
#![tactic(auto)]

#[cfg(test)]
mod accepts;
#[cfg(test)]
mod addresses;
#[cfg(test)]
mod endless;
#[cfg(test)]
mod interrupted;
#[cfg(test)]
mod scripts;
#[cfg(test)]
mod shaky;
#[cfg(test)]
mod sockets;
