//! Where links come in.

use jt_outside::Link;
use std::net::SocketAddr;

/// What a look at the door gave.
#[derive(Drop)]
pub enum Arrived<L> {
    /// A link that came, with the other end's address, where it is known.
    Link(L, Option<SocketAddr>),
    /// No link came within a second, or one that failed was passed over.
    Nobody,
    /// Descriptors or memory were short for a second.
    Short,
    /// The listener failed.
    Failed,
    /// No link is left to come.
    Over,
}

/// Gives links as they come. Each call answers within a second or so, but for links in memory.
pub trait Door {
    type Link: Link + Drop;

    /// The next link, where one comes soon.
    fn next(&mut self) -> Arrived<Self::Link>;
}
