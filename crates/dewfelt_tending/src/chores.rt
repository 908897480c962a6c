//! What is done each second while a service runs.

use dewfelt_told::Told;
use jt_service::Watch;
use std::sync::Wait;
use std::sync::atomic::{AtomicBool, Ordering};
use std::thread;
use std::time::{Clock, Duration};

// How long nothing is done between two looks, in milliseconds, in so many parts (this project's own).
const PAUSE: u64 = 200;

const PAUSES: u32 = 5;

/// What a thread of its own does each second while a service runs.
pub trait Chores<T> {
    /// Does what is to be done now.
    fn look<R: Wait>(&mut self, rt: &R, watch: &Watch<Told<T>>);
}

/// Does the chores until the service is over, and sets a flag then.
pub fn do_chores<R: Wait + Clock, T, C: Chores<T> + Drop>(
    rt: &R,
    watch: &Watch<Told<T>>,
    mut chores: C,
    is_over: &AtomicBool,
    is_done: &AtomicBool,
) {
    let mut pauses = 0;
    for _ in rt.forever() {
        if is_over.load(Ordering::SeqCst) {
            break;
        }
        if pauses == 0 {
            chores.look(rt, watch);
        }
        pauses = if pauses >= PAUSES - 1 { 0 } else { pauses + 1 };
        thread::sleep(rt, Duration::from_millis(PAUSE));
    }
    is_done.store(true, Ordering::SeqCst);
}
