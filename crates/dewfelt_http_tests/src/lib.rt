//! Tests of the board, the interface over HTTP and the page.
#![tactic(auto)]

#[cfg(test)]
mod boards;
#[cfg(test)]
mod gates;
#[cfg(test)]
mod hosts;
#[cfg(test)]
mod kept;
#[cfg(test)]
mod rows;
#[cfg(test)]
mod sockets;
#[cfg(test)]
mod tracks;
