//! How many requests were answered.

use dewfelt_asked::Route;
use http::StatusCode;
use std::alloc::{AllocError, Global};
use std::sync::atomic::{AtomicU64, Ordering};

/// The first digits of statuses.
pub const CLASSES: usize = 6;

// One place more is that of what is no route.
const PLACES: usize = Route::COUNT + 1;

/// How many requests were answered, by route and first digit of the status.
#[derive(Drop)]
pub struct Requests {
    counts: Vec<AtomicU64>,
    connections: AtomicU64,
}

fn class_of(status: StatusCode) -> usize {
    ((status.as_u16() / 100) as usize).min(CLASSES - 1)
}

// Where the count of a place and a class stands.
fn index_of(place: usize, class: usize) -> usize {
    place.saturating_mul(CLASSES).saturating_add(class)
}

impl Requests {
    /// None so far.
    pub fn new(alloc: Global) -> Result<Requests, AllocError> {
        let mut counts = Vec::with_capacity(alloc, PLACES * CLASSES)?;
        for _ in 0..PLACES * CLASSES {
            counts.push(AtomicU64::new(0))?;
        }
        Ok(Requests {
            counts,
            connections: AtomicU64::new(0),
        })
    }

    /// A request was answered with this status; None is what is no route.
    pub fn count(&self, route: Option<Route>, status: StatusCode) {
        let place = match route {
            Some(route) => route.place(),
            None => Route::COUNT,
        };
        if let Some(count) = self.counts.get(index_of(place, class_of(status))) {
            count.fetch_add(1, Ordering::SeqCst);
        }
    }

    /// How many of a route's requests had a status of this first digit.
    pub fn get(&self, place: usize, class: usize) -> u64 {
        match self.counts.get(index_of(place, class)) {
            Some(count) => count.load(Ordering::SeqCst),
            None => 0,
        }
    }

    /// A connection was accepted.
    pub fn connected(&self) {
        self.connections.fetch_add(1, Ordering::SeqCst);
    }

    /// How many connections were accepted.
    pub fn connections(&self) -> u64 {
        self.connections.load(Ordering::SeqCst)
    }
}
