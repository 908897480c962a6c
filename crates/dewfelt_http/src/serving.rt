//! Connections of browsers, a thread each.

ghost use Rattle.std.specs.Thread.{IsSync};

use crate::answering::Desk;
use crate::conversing::converse;
use crate::line::Line;
use crate::site::Site;
use dewfelt_shown::Sight;
use jt_outside::{Link, Sink};
use jt_service::{Arrived, Door};
use std::alloc::Global;
use std::hash::RandomState;
use std::random::RandomSource;
use std::sync::Wait;
use std::sync::atomic::{AtomicBool, Ordering};
use std::thread;
use std::thread::{Scope, Threads};
use std::time::{Clock, Duration};

/// So many connections are answered at once; the next one gets 503 (this project's own).
pub const CONNECTIONS: usize = 64;

// How often in a row a listener may fail, and how many seconds pass between (this project's own).
const MOST_FAILED: u32 = 60;

const FAILED_WAIT: u64 = 1;

// What a connection is answered for which no thread is free.
const BUSY: &[u8] =
    b"HTTP/1.1 503 Service Unavailable\r\nretry-after: 2\r\nconnection: close\r\ncontent-length: 0\r\n\r\n";

/// Why no more connections are answered (this project's own).
#[derive(Clone, Copy, Debug, PartialEq, Eq)]
pub enum HttpEnd {
    /// The flag is set.
    Stopped,
    /// The listener said that no connection is left to come.
    Over,
    /// The listener failed 60 times, a second apart at least, and no connection came between.
    ListenerFailed,
    /// No thread could be made.
    NoThread,
    /// Memory was wanted and refused, before any connection was accepted.
    Memory,
}

// Answers one connection, and hangs up.
fn answer_one<R: RandomSource + Clock, K: Link + Drop, S: Sight>(
    rt: &R,
    alloc: Global,
    site: &Site,
    sight: &S,
    mut link: K,
    stops: &AtomicBool,
) {
    site.requests.connected();
    let mut desk = Desk::new(alloc, site, sight);
    if let Ok(keys) = RandomState::new(rt) {
        converse(rt, alloc, keys, &mut link, &mut desk, stops);
    }
    link.hang_up();
}

// Answers one connection after another, until none comes any more.
fn work<R: RandomSource + Wait + Clock, K: Link + Drop, S: Sight>(
    rt: &R,
    alloc: Global,
    site: &Site,
    sight: &S,
    line: &Line<K>,
    stops: &AtomicBool,
) {
    for _ in rt.forever() {
        match line.take(rt) {
            Some(link) => answer_one(rt, alloc, site, sight, link, stops),
            None => return,
        }
    }
}

// Tells a connection that no thread is free.
fn turn_away<K: Link + Drop>(mut link: K) {
    let _ = link.write(BUSY);
    link.hang_up();
}

// Accepts connections and hands them on, until the flag is set. Says why it ended.
fn receive<R: Wait + Clock, D: Door + Drop>(
    rt: &R,
    mut door: D,
    line: &Line<D::Link>,
    stops: &AtomicBool,
) -> HttpEnd {
    let mut failed: u32 = 0;
    for _ in rt.forever() {
        if stops.load(Ordering::SeqCst) {
            return HttpEnd::Stopped;
        }
        match door.next() {
            Arrived::Link(link, _) => {
                failed = 0;
                if let Some(link) = line.put(rt, link) {
                    turn_away(link);
                }
            }
            Arrived::Nobody | Arrived::Short => {}
            Arrived::Failed => {
                failed = failed.saturating_add(1);
                if failed == MOST_FAILED {
                    return HttpEnd::ListenerFailed;
                }
                thread::sleep(rt, Duration::from_secs(FAILED_WAIT));
            }
            Arrived::Over => return HttpEnd::Over,
        }
    }
    unreachable!()
}

// Starts a thread that answers. Tells whether it could be made.
fn start<'t, E, R, K, S>(
    scope: &'t Scope<'t, E>,
    rt: &'t R,
    alloc: Global,
    site: &'t Site,
    sight: &'t S,
    line: &'t Line<K>,
    stops: &'t AtomicBool,
) -> bool
where
    R: Threads + RandomSource + Wait + Clock + Sync + 't,
    K: Link + Send + Drop + 't,
    S: Sight + Sync + 't,
{
    scope
        .spawn(move || work(rt, alloc, site, sight, line, stops))
        .is_ok()
}

// Starts as many threads as there may be connections, or as there can be threads. Tells whether there is one.
fn start_all<'t, E, R, K, S>(
    scope: &'t Scope<'t, E>,
    rt: &'t R,
    alloc: Global,
    site: &'t Site,
    sight: &'t S,
    line: &'t Line<K>,
    stops: &'t AtomicBool,
) -> bool
where
    R: Threads + RandomSource + Wait + Clock + Sync + 't,
    K: Link + Send + Drop + 't,
    S: Sight + Sync + 't,
{
    for count in 0..CONNECTIONS {
        if !start(scope, rt, alloc, site, sight, line, stops) {
            return count > 0;
        }
    }
    true
}

/// Answers the connections that come in at a door, 64 at once, until the flag is set, no connection is left to come, or the
/// listener failed 60 times in a row.
pub fn serve_http<R, D, S>(
    rt: &R,
    alloc: Global,
    door: D,
    site: &Site,
    sight: &S,
    stops: &AtomicBool,
) -> HttpEnd
where
    R: Threads + RandomSource + Wait + Clock + Sync,
    D: Door + Send + Drop,
    D::Link: Send,
    S: Sight + Sync,
{
    let Ok(line) = Line::new(alloc, CONNECTIONS) else {
        return HttpEnd::Memory;
    };
    serve_line(rt, alloc, door, site, sight, &line, stops)
}

// Has threads answer, and accepts connections.
fn serve_line<R, D, S>(
    rt: &R,
    alloc: Global,
    door: D,
    site: &Site,
    sight: &S,
    line: &Line<D::Link>,
    stops: &AtomicBool,
) -> HttpEnd
where
    R: Threads + RandomSource + Wait + Clock + Sync,
    D: Door + Send + Drop,
    D::Link: Send,
    S: Sight + Sync,
{
    thread::scope(
        thread::scope_env(),
        rt,
        move |scope| -> HttpEnd
            requires sync { IsSync R.row }
        {
            if !start_all(scope, rt, alloc, site, sight, line, stops) {
                return HttpEnd::NoThread;
            }
            let end = receive(rt, door, line, stops);
            line.shut(rt);
            end
        },
    )
}
