//! The entries of a desk's history.

use std::collections::LinkedList;

/// An act that made an entry.
#[derive(Drop)]
pub struct Entry<A, B> {
    /// Whose act it was.
    pub number: u32,
    /// What was asked.
    pub ask: A,
    /// What was answered.
    pub answer: B,
}

/// A pass that was joined into another. Contracts speak of it; no value of it is made.
#[derive(Drop)]
pub struct Ended<A, B> {
    /// The number of its entries.
    pub number: u32,
    /// Its entries, oldest first.
    pub mine: LinkedList<Entry<A, B>>,
}
