//! Where connections wait for a thread.

use std::alloc::{AllocError, Global};
use std::sync::{Condvar, Mutex, Wait};

// Connections that wait, how many threads are free, and whether no connection comes any more.
#[derive(Drop)]
struct Places<K: Drop> {
    waiting: Vec<K>,
    free: usize,
    is_shut: bool,
}

/// Where connections wait for a thread. No more wait than threads are free.
#[derive(Drop)]
pub struct Line<K: Drop> {
    places: Mutex<Places<K>>,
    bell: Condvar,
}

impl<K: Drop> Line<K> {
    /// Nobody waits, and no thread is free. The memory for so many that wait is taken now.
    pub fn new(alloc: Global, most: usize) -> Result<Line<K>, AllocError> {
        Ok(Line {
            places: Mutex::new(Places {
                waiting: Vec::with_capacity(alloc, most)?,
                free: 0,
                is_shut: false,
            }),
            bell: Condvar::new(),
        })
    }

    /// Hands a connection on to a free thread, or gives it back where none is.
    pub fn put<R: Wait>(&self, rt: &R, link: K) -> Option<K> {
        let mut places = self.places.lock(rt);
        if places.waiting.len() >= places.free {
            return Some(link);
        }
        match places.waiting.push(link) {
            Ok(()) => {}
            Err(failed) => return Some(failed.value),
        }
        self.bell.notify_one();
        None
    }

    /// No connection comes any more.
    pub fn shut<R: Wait>(&self, rt: &R) {
        self.places.lock(rt).is_shut = true;
        self.bell.notify_all();
    }

    /// The next connection, for a thread that is free until then; None where none comes any more.
    pub fn take<R: Wait>(&self, rt: &R) -> Option<K> {
        let mut places = self.places.lock(rt);
        places.free = places.free.saturating_add(1);
        for _ in rt.forever() {
            if let Some(link) = places.waiting.pop() {
                places.free = places.free.saturating_sub(1);
                return Some(link);
            }
            if places.is_shut {
                return None;
            }
            places = self.bell.wait(rt, places);
        }
        unreachable!()
    }
}
