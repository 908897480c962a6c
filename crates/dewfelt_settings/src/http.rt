//! Where the interface over HTTP is.

use std::fmt;
use std::net::SocketAddr;

/// Where the interface over HTTP is.
#[derive(Clone, Copy)]
pub enum Http {
    /// Nowhere.
    Off,
    /// At this address and port.
    At(SocketAddr),
}

impl fmt::Display for Http {
    fn fmt<W: fmt::Write>(&self, f: &mut fmt::Formatter<W>) -> fmt::Result {
        match self {
            Http::Off => write!(f, "none"),
            Http::At(address) => write!(f, "{address}"),
        }
    }
}
