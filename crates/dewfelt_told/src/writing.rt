//! The thread that writes lines as they come.

use crate::Told;
use jt_outside::{Sink, write_all};
use jt_service::Watch;
use std::sync::Wait;
use std::sync::atomic::{AtomicBool, Ordering};
use std::thread;
use std::time::{Clock, Duration};

// How long lines wait at most before they are written, in milliseconds (this project's own).
const PAUSE: u64 = 200;

// After so many pauses there is a line of counts: each minute (this project's own).
const ROUNDS: u32 = 300;

// What comes behind the lines that wait.
#[derive(Clone, Copy)]
enum Behind {
    Nothing,
    Counts,
    End,
}

// Takes the lines that wait, for an empty room, into which goes what comes behind them.
fn take<R: Wait + Clock, T: Wait + Clock + Drop>(
    rt: &R,
    watch: &Watch<Told<T>>,
    empty: Vec<u8>,
    behind: Behind,
) -> Vec<u8> {
    match behind {
        Behind::Nothing => watch.told().lock(rt).take(empty),
        Behind::Counts => {
            let now = watch.counts(rt);
            watch.told().lock(rt).take_and_count(empty, now)
        }
        Behind::End => {
            let now = watch.counts(rt);
            watch.told().lock(rt).take_and_end(empty, now)
        }
    }
}

// Writes the lines that wait. Meanwhile others put lines into the empty room. Gives the room back.
fn write_once<R: Wait + Clock, T: Wait + Clock + Drop, K: Sink>(
    rt: &R,
    watch: &Watch<Told<T>>,
    sink: &mut K,
    empty: Vec<u8>,
    behind: Behind,
) -> Vec<u8> {
    let lines = take(rt, watch, empty, behind);
    let _ = write_all(sink, lines.as_slice());
    lines
}

/// Writes lines as they come until the service is done, and the last ones then.
pub fn write_lines<R: Wait + Clock, T: Wait + Clock + Drop, K: Sink>(
    rt: &R,
    watch: &Watch<Told<T>>,
    mut sink: K,
    mut room: Vec<u8>,
    is_done: &AtomicBool,
)
where
    K: Drop,
{
    let mut rounds = 0;
    for _ in rt.forever() {
        if is_done.load(Ordering::SeqCst) {
            break;
        }
        let behind = if rounds == ROUNDS {
            Behind::Counts
        } else {
            Behind::Nothing
        };
        rounds = if rounds >= ROUNDS { 1 } else { rounds + 1 };
        room = write_once(rt, watch, &mut sink, room, behind);
        thread::sleep(rt, Duration::from_millis(PAUSE));
    }
    room = write_once(rt, watch, &mut sink, room, Behind::End);
    write_once(rt, watch, &mut sink, room, Behind::Nothing);
}
