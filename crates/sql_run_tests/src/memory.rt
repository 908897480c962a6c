//! Lives over stores in memory, which outlive the ends.

use crate::{platform, terminal};
use jt_store::{MemKeeper, MemVault};
use jt_value::Seq;
use std::alloc::Global;

/// The first life of a platform that goes otherwise, where each begins anew over the same keeper, and the place in it; or none.
pub fn first_platform(alloc: Global, lives: &[platform::Life]) -> Option<(usize, usize)> {
    let mut keeper = MemKeeper::new(alloc, 1_000_000_000, Seq::new(alloc));
    for (life, (talks, text)) in lives.iter().enumerate() {
        match platform::live(alloc, keeper, talks) {
            Ok(left) => keeper = left,
            Err(place) => return Some((life, place)),
        }
        if !platform::keeps(alloc, &mut keeper, text) {
            return Some((life, talks.len()));
        }
    }
    None
}

/// The first life of a terminal that goes otherwise, where each begins anew over the same vault; or none.
pub fn first_terminal(alloc: Global, lives: &[terminal::Life]) -> Option<usize> {
    let mut vault = MemVault::new(alloc, 100_000, Seq::new(alloc));
    for (place, (edition, moments, text)) in lives.iter().enumerate() {
        match terminal::live(alloc, *edition, vault, moments) {
            Some(left) => vault = left,
            None => return Some(place),
        }
        if !terminal::holds(alloc, &mut vault, text) {
            return Some(place);
        }
    }
    None
}
