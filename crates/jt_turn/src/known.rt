//! What the table's rule knows of a pass.

use crate::entry::{Ended, Entry};
use std::collections::LinkedList;

/// The view of a seat: what contracts see of its pass, and what the wait for the desk adds. No value of it is made.
#[derive(Drop)]
pub struct Known<A, B, O> {
    pub number: u32,
    /// Whether it has drawn a ticket.
    pub waits: bool,
    /// Whether it has the desk.
    pub turn: bool,
    pub ticket: u64,
    pub opening: O,
    pub base: u64,
    pub seen: LinkedList<Entry<A, B>>,
    /// What the last pass that was joined into it had seen.
    pub heard: LinkedList<Entry<A, B>>,
    pub mine: LinkedList<Entry<A, B>>,
    pub faults: u64,
    pub found: LinkedList<Entry<A, B>>,
    pub found_faults: u64,
    pub failed: u64,
    pub ended: LinkedList<Ended<A, B>>,
    pub lent: u64,
    /// One more than `lent`, as it was before the last join, which can tell nothing itself.
    pub lent_before: u64,
    pub given: u32,
}
