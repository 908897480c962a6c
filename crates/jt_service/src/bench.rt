//! Workers that wait for a link, the one that came last in front.

use jt_value::Memory;
use std::alloc::Global;

// What is known of a worker.
#[derive(Clone, Copy)]
struct Seat {
    waits: bool,
    // Who waited before it came.
    behind: Option<usize>,
}

// The workers of a hall, by their numbers from 0 on, and which of them wait.
#[derive(Drop)]
pub(crate) struct Bench {
    seats: Vec<Seat>,
    front: Option<usize>,
    entered: usize,
}

impl Bench {
    // A bench for so many workers, which takes no more memory later.
    pub(crate) fn new(alloc: Global, workers: usize) -> Result<Bench, Memory> {
        let mut seats = Vec::with_capacity(alloc, workers)?;
        for _ in 0..workers {
            seats.push(Seat {
                waits: false,
                behind: None,
            })?;
        }
        Ok(Bench {
            seats,
            front: None,
            entered: 0,
        })
    }

    // The number of one more worker.
    pub(crate) fn enter(&mut self) -> usize {
        let worker = self.entered;
        self.entered = worker.saturating_add(1);
        worker
    }

    // Whether a worker waits and was not called.
    pub(crate) fn waits(&self, worker: usize) -> bool {
        match self.seats.get(worker) {
            Some(seat) => seat.waits,
            None => false,
        }
    }

    // A worker waits from now on.
    pub(crate) fn sit(&mut self, worker: usize) {
        let behind = self.front;
        if let Some(seat) = self.seats.get_mut(worker) {
            *seat = Seat {
                waits: true,
                behind,
            };
            self.front = Some(worker);
        }
    }

    // Calls the worker that came last, if one waits.
    pub(crate) fn call(&mut self) -> Option<usize> {
        let worker = self.front?;
        let seat = self.seats.get_mut(worker)?;
        seat.waits = false;
        self.front = seat.behind;
        Some(worker)
    }
}
