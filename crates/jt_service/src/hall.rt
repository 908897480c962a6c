//! Where links wait for a worker.

ghost use Rattle.jt_platform.specs.Hub.{opening_of};
ghost use Rattle.jt_service.specs.Roots.{IsNext};
ghost use Rattle.std.proofs.Props.{props};

use crate::bench::Bench;
use crate::root::{Root, Which};
use jt_platform::{Hub, Journal};
use jt_store::Keeper;
use jt_turn::Pass;
use jt_value::Memory;
use std::alloc::{AllocFailed, Global};
use std::marker::PhantomData;
use std::net::SocketAddr;
use std::sync::{Condvar, Mutex, Wait};

// A link that came, with what it is served by.
#[derive(Drop)]
pub(crate) struct Arrival<N: Which, K: Drop, P: Keeper, J: Journal> {
    pub(crate) link: K,
    pub(crate) peer: Option<SocketAddr>,
    pub(crate) place: usize,
    pub(crate) since: u64,
    pub(crate) pass: Pass<Hub<P, J>>,
    pub(crate) of: PhantomData<N>,
    ghost is_next: { IsNext
        (λ o. opening_of (P.tables o.start) (P.limit o.start) o.fleet o.secret)
        N.turn N.opening pass } by { Prim.hlevel props },
}

// Links that wait, whether none comes behind them, and the workers that wait.
#[derive(Drop)]
struct Line<N: Which, K: Drop, P: Keeper, J: Journal> {
    arrivals: Vec<Arrival<N, K, P, J>>,
    is_shut: bool,
    bench: Bench,
}

// Where links wait for a worker, and who gives the numbers. Each worker has a bell of its own.
#[derive(Drop)]
pub(crate) struct Hall<N: Which, K: Drop, P: Keeper, J: Journal> {
    line: Mutex<Line<N, K, P, J>>,
    bells: Vec<Condvar>,
    pub(crate) root: Mutex<Root<N, P, J>>,
}

// A bell for each of so many workers.
fn bells_for(alloc: Global, workers: usize) -> Result<Vec<Condvar>, Memory> {
    let mut bells = Vec::with_capacity(alloc, workers)?;
    for _ in 0..workers {
        bells.push(Condvar::new())?;
    }
    Ok(bells)
}

impl<N: Which, K: Drop, P: Keeper, J: Journal> Hall<N, K, P, J> {
    // A hall for so many workers, in which as many links may wait.
    pub(crate) fn new(
        alloc: Global,
        root: Root<N, P, J>,
        links: u32,
    ) -> Result<Hall<N, K, P, J>, Root<N, P, J>> {
        let workers = links as usize;
        let Ok(arrivals) = Vec::with_capacity(alloc, workers) else {
            return Err(root);
        };
        let Ok(bench) = Bench::new(alloc, workers) else {
            return Err(root);
        };
        let Ok(bells) = bells_for(alloc, workers) else {
            return Err(root);
        };
        Ok(Hall {
            line: Mutex::new(Line {
                arrivals,
                is_shut: false,
                bench,
            }),
            bells,
            root: Mutex::new(root),
        })
    }

    // Wakes a worker.
    fn ring(&self, worker: usize) {
        if let Some(bell) = self.bells.get(worker) {
            bell.notify_one();
        }
    }

    // Hands a link on to the worker that waits since the shortest time: so no more threads are used than links were open at once,
    // and their stacks are memory that stays. Memory gives the link back.
    pub(crate) fn put<R: Wait>(
        &self,
        rt: &R,
        arrival: Arrival<N, K, P, J>,
    ) -> Result<(), Arrival<N, K, P, J>> {
        let mut line = self.line.lock(rt);
        match line.arrivals.push(arrival) {
            Ok(()) => {}
            Err(failed) => {
                let AllocFailed { value } = failed;
                return Err(value);
            }
        }
        if let Some(worker) = line.bench.call() {
            self.ring(worker);
        }
        Ok(())
    }

    // No link comes any more.
    pub(crate) fn shut<R: Wait>(&self, rt: &R) {
        self.line.lock(rt).is_shut = true;
        for bell in self.bells.as_slice() {
            bell.notify_all();
        }
    }

    // A number for a worker, below that of workers for which the hall was made.
    pub(crate) fn enter<R: Wait>(&self, rt: &R) -> usize {
        self.line.lock(rt).bench.enter()
    }

    // The next link for a worker, or None where none comes any more.
    pub(crate) fn take<R: Wait>(&self, rt: &R, worker: usize) -> Option<Arrival<N, K, P, J>> {
        let bell = self.bells.get(worker)?;
        let mut line = self.line.lock(rt);
        for _ in rt.forever() {
            if !line.bench.waits(worker) {
                if let Some(arrival) = line.arrivals.pop() {
                    return Some(arrival);
                }
                line.bench.sit(worker);
            }
            if line.is_shut {
                return None;
            }
            line = bell.wait(rt, line);
        }
        unreachable!()
    }

    // Who gave the numbers.
    pub(crate) fn into_root(self) -> Root<N, P, J> {
        let Hall {
            line: _,
            bells: _,
            root,
        } = self;
        root.into_inner()
    }
}
