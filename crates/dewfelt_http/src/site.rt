//! What answers are made of beside the board.

use crate::requests::Requests;
use dewfelt_asked::Gate;
use sha2::{Digest, Sha256};
use std::alloc::{AllocError, Global};
use std::net::SocketAddr;
use std::sync::atomic::{AtomicBool, Ordering};

/// A base map, as the operator wrote it.
#[derive(Drop)]
pub struct Base {
    pub content: Vec<u8>,
    /// A strong ETag, with its quotes.
    pub tag: String,
}

// So many octets of a digest make an ETag.
const TAG: usize = 8;

impl Base {
    /// The base map of these octets.
    pub fn of(alloc: Global, content: Vec<u8>) -> Result<Base, AllocError> {
        let mut hasher = Sha256::new();
        hasher.update(content.as_slice());
        let digest = hasher.finalize();
        let digits = hex::encode(alloc, &digest[..TAG])?;
        let tag = format!(in alloc; "\"{digits}\"")?;
        Ok(Base { content, tag })
    }
}

/// What answers are made of beside the board.
#[derive(Drop)]
pub struct Site {
    pub gate: Gate,
    /// When the service began, in seconds since 1970.
    pub started: u64,
    /// Where terminals come in.
    pub terminals: SocketAddr,
    pub version: &'static str,
    /// The base map, if there is one.
    pub base: Option<Base>,
    pub requests: Requests,
    /// Whether links of terminals are served.
    pub is_ready: AtomicBool,
}

impl Site {
    /// Says whether links of terminals are served.
    pub fn set_ready(&self, is_ready: bool) {
        self.is_ready.store(is_ready, Ordering::SeqCst);
    }

    /// Whether links of terminals are served.
    pub fn is_ready(&self) -> bool {
        self.is_ready.load(Ordering::SeqCst)
    }
}
