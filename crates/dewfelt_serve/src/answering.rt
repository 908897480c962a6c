//! The thread that answers browsers.

use crate::interface::Interface;
use dewfelt_http::{HasRows, HttpEnd, Shared, serve_http};
use dewfelt_told::Told;
use jt_service::{Door, Watch};
use std::alloc::Global;
use std::random::RandomSource;
use std::sync::Wait;
use std::thread::Threads;
use std::time::Clock;

// Why nobody is answered any more, where the service goes on.
fn fault_word(end: HttpEnd) -> Option<&'static str> {
    match end {
        HttpEnd::Stopped | HttpEnd::Over => None,
        HttpEnd::ListenerFailed => Some("listener-failed"),
        HttpEnd::NoThread => Some("no-thread"),
        HttpEnd::Memory => Some("memory"),
    }
}

/// Answers browsers until the interface is to end, and says so where it can't go on.
pub(crate) fn answer_browsers<R, T, H, Q>(
    rt: &R,
    alloc: Global,
    watch: &Watch<Told<T>>,
    door: H,
    interface: &Interface,
    rows: &Q,
)
where
    R: Threads + RandomSource + Wait + Clock + Sync,
    T: Wait + Clock + Drop,
    H: Door + Send + Drop,
    H::Link: Send,
    Q: HasRows + Sync,
{
    let sight = Shared::new(rt, &*interface.board, rows);
    let end = serve_http(rt, alloc, door, &interface.site, &sight, &*interface.ends);
    if let Some(word) = fault_word(end) {
        watch.told().lock(rt).say("fault", "http", word);
    }
}
