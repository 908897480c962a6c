//! When a store that does not open is tried again.

use dewfelt_tending::{Ground, HasGround};
use dewfelt_told::{Opened, Told, say_opened, say_unopened};
use jt_service::Watch;
use jt_store::StoreError;
use std::alloc::Global;
use std::sync::Wait;
use std::thread;
use std::time::{Clock, Duration};

// So many seconds pass between two tries to open a store (this project's own).
const AGAIN: u64 = 10;

const MILLISECONDS: u64 = 1_000;

// The present moment in milliseconds, from an arbitrary start on; 0 where the clock can't be read.
fn milliseconds<R: Clock>(rt: &R) -> u64 {
    match rt.monotonic() {
        Ok(since) => u64::try_from(since.as_millis()).unwrap_or(u64::MAX),
        Err(_) => 0,
    }
}

fn fault_word(fault: StoreError) -> &'static str {
    match fault {
        StoreError::Failed => "failed",
        StoreError::Full(_) => "full",
        StoreError::Memory => "memory",
    }
}

// What is said of a store that was opened for this ground, which took so long.
fn opened_of<P>(ground: &Ground<P>, milliseconds: u64) -> Opened {
    Opened {
        vehicles: ground.vehicles,
        plates: ground.fleet.plates.len(),
        terminals: ground.fleet.terminals.len(),
        forgotten: ground.forgotten,
        octets: ground.octets,
        milliseconds,
    }
}

/// Has what hubs are made of, and tries again where a store does not open.
#[derive(Drop)]
pub(crate) struct Opener<G> {
    ground: G,
    is_open: bool,
    // When the store was tried last, in milliseconds, where the next try is to wait.
    tried: Option<u64>,
    // Whether it was said that it does not open.
    is_said: bool,
}

// Waits until this moment, for ten seconds at most. Each second it looks whether the service is to stop.
fn wait_until<R: Clock, T: Wait + Clock + Drop>(rt: &R, watch: &Watch<Told<T>>, moment: u64) {
    for _ in 0..AGAIN {
        if watch.is_stopped() || milliseconds(rt) >= moment {
            return;
        }
        thread::sleep(rt, Duration::from_secs(1));
    }
}

impl<G: HasGround> Opener<G> {
    pub(crate) fn new(ground: G) -> Opener<G> {
        Opener {
            ground,
            is_open: false,
            tried: None,
            is_said: false,
        }
    }

    /// Lets go of a store that failed. The next try comes ten seconds behind the last one.
    pub(crate) fn let_go(&mut self) {
        self.ground.let_go();
        self.is_open = false;
    }

    // What the next hub is made of, where the store opens. What is to be said of that is said.
    fn try_once<R: Wait + Clock, T: Wait + Clock + Drop>(
        &mut self,
        rt: &R,
        alloc: Global,
        watch: &Watch<Told<T>>,
    ) -> Option<Ground<G::Keeper>> {
        let began = milliseconds(rt);
        let answer = self.ground.next(alloc);
        let took = milliseconds(rt).saturating_sub(began);
        match answer {
            Ok(ground) => {
                if !self.is_open {
                    say_opened(&mut watch.told().lock(rt), opened_of(&ground, took));
                    self.tried = Some(began);
                }
                self.is_open = true;
                self.is_said = false;
                Some(ground)
            }
            Err(fault) => {
                if !self.is_said {
                    let said = self.ground.said(alloc);
                    say_unopened(&mut watch.told().lock(rt), fault_word(fault), said);
                }
                self.is_said = true;
                self.tried = Some(began);
                None
            }
        }
    }

    /// What the next hub is made of. A store that is not open is tried each ten seconds. None means that the service is to stop.
    pub(crate) fn next<R: Wait + Clock, T: Wait + Clock + Drop>(
        &mut self,
        rt: &R,
        alloc: Global,
        watch: &Watch<Told<T>>,
    ) -> Option<Ground<G::Keeper>> {
        for _ in rt.forever() {
            if let (false, Some(tried)) = (self.is_open, self.tried) {
                wait_until(rt, watch, tried.saturating_add(AGAIN * MILLISECONDS));
            }
            if watch.is_stopped() {
                return None;
            }
            if let Some(ground) = self.try_once(rt, alloc, watch) {
                return Some(ground);
            }
        }
        unreachable!()
    }
}
