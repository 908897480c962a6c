//! The file of the fleet, looked at each second.

use crate::reading::read_whole;
use std::rt::Files;
use std::time::SystemTime;
use std::{fs, io};

// What tells a changed file from the one that was.
#[derive(Clone, Copy, PartialEq, Eq)]
struct Stamp {
    length: u64,
    modified: Option<SystemTime>,
}

/// The file of a fleet. It is read once it stayed the same from one look to the next, so that one that is being written is not read.
#[derive(Drop)]
pub struct FleetFile {
    path: String,
    // What was seen when it was read last.
    read: Option<Stamp>,
    // What was seen at the last look.
    seen: Option<Stamp>,
}

fn stamp_of<R: Files>(rt: &R, path: &str) -> Option<Stamp> {
    match fs::metadata(rt, path) {
        Ok(about) => Some(Stamp {
            length: about.len(),
            modified: about.modified().ok(),
        }),
        Err(_) => None,
    }
}

impl FleetFile {
    /// A file that was not read yet.
    pub fn new(path: String) -> FleetFile {
        FleetFile {
            path,
            read: None,
            seen: None,
        }
    }

    /// The file is to be read again, as if it had changed.
    pub fn forget(&mut self) {
        self.read = None;
    }

    /// Its octets, where it changed since it was read last and stays so. An error is what the system says of it, at each look.
    pub fn look<R: Files + AllocGlobal>(&mut self, rt: &R) -> Option<io::Result<Vec<u8>>> {
        let stamp = stamp_of(rt, self.path.as_str());
        let stays = stamp == self.seen;
        self.seen = stamp;
        if !stays || stamp == self.read {
            return None;
        }
        let text = read_whole(rt, self.path.as_str());
        if text.is_ok() {
            self.read = stamp;
        }
        Some(text)
    }
}
