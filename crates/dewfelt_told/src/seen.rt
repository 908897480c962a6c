//! On which sessions somebody was let in.

use std::alloc::{AllocError, Global};

// The greatest number that a session has, and one more (this project's own, as jt_service's `Limits::of` has it).
const SESSIONS: u32 = 1 << 24;

const BITS: u32 = 64;

/// On which sessions of a hub somebody was let in so far: a bit for each number, in 2 MB that are taken at the start.
#[derive(Drop)]
pub(crate) struct Seen {
    words: Vec<u64>,
}

impl Seen {
    /// On none so far.
    pub(crate) fn new(alloc: Global) -> Result<Seen, AllocError> {
        let count = (SESSIONS / BITS) as usize;
        Ok(Seen {
            words: vec![in alloc; 0; count]?,
        })
    }

    /// On none of a new hub so far.
    pub(crate) fn clear(&mut self) {
        for word in &mut self.words {
            *word = 0;
        }
    }

    /// Marks a session. Tells whether it was marked before, as one with a greater number than any session has always is.
    pub(crate) fn mark(&mut self, session: u32) -> bool {
        let bit = 1u64 << (session % BITS);
        match self.words.get_mut((session / BITS) as usize) {
            Some(word) => {
                let was_marked = *word & bit != 0;
                *word |= bit;
                was_marked
            }
            None => true,
        }
    }
}
