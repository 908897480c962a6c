//! A connection of a browser.

ghost use Rattle.std.specs.Prelude.{◌<◌, ◌≤◌, length};

use crate::server_json::BODY_LIMIT;
use http_server::{Config, Connection, Service};
use jt_outside::{Link, LinkGot, Put, Sink};
use std::alloc::Global;
use std::hash::RandomState;
use std::sync::atomic::{AtomicBool, Ordering};
use std::time::Clock;

// A read takes so many octets at most.
const READ: usize = 4_096;

// How long a connection may be idle, in milliseconds (this project's own).
const IDLE: u64 = 5_000;

// How long a request may take to come whole, in milliseconds (this project's own).
const REQUEST: u64 = 10_000;

// How long an answer may take to be taken, in milliseconds (this project's own).
const ANSWER: u64 = 60_000;

// The present moment in milliseconds, from an arbitrary start on; 0 where the clock can't be read.
fn milliseconds<R: Clock>(rt: &R) -> u64 {
    match rt.monotonic() {
        Ok(since) => u64::try_from(since.as_millis()).unwrap_or(u64::MAX),
        Err(_) => 0,
    }
}

// Since when a connection waits, and whether for the rest of a request.
#[derive(Clone, Copy)]
struct Waiting {
    since: u64,
    is_begun: bool,
}

impl Waiting {
    fn is_over(&self, now: u64) -> bool {
        let most = if self.is_begun { REQUEST } else { IDLE };
        now.saturating_sub(self.since) >= most
    }
}

// Writes a part of what waits to be sent. Tells whether the link took it.
fn write_some<K: Sink>(connection: &mut Connection, link: &mut K) -> bool {
    let octets = connection.output();
    if octets.is_empty() {
        return false;
    }
    match link.write(octets) {
        Put::Count(count) => {
            connection.sent(count);
            true
        }
        Put::Failed => false,
    }
}

// Writes all that waits to be sent. Tells whether the link took it in time.
fn write_all<R: Clock, K: Sink, S: Service>(
    rt: &R,
    connection: &mut Connection,
    link: &mut K,
    service: &mut S,
) -> bool {
    let begun = milliseconds(rt);
    for _ in 0..u64::MAX {
        if !connection.wants_write() {
            return true;
        }
        if milliseconds(rt).saturating_sub(begun) >= ANSWER || !write_some(connection, link) {
            return false;
        }
        connection.advance(service);
    }
    false
}

// Takes in octets that came. Tells whether there was memory for them.
fn take_in<S: Service>(connection: &mut Connection, octets: &[u8], service: &mut S) -> bool {
    let mut rest = octets;
    for _ in 0..octets.len() {
        if rest.is_empty() || !connection.wants_read() {
            break;
        }
        if connection.read_from(&mut rest).is_err() {
            return false;
        }
    }
    connection.advance(service);
    true
}

// What is known of a connection between two reads.
#[derive(Drop)]
struct Talk {
    connection: Connection,
    waiting: Waiting,
}

// Reads once and answers what is whole. Tells whether the connection goes on.
fn turn<R: Clock, K: Link, S: Service>(
    rt: &R,
    talk: &mut Talk,
    link: &mut K,
    service: &mut S,
) -> bool {
    let mut room = [0; READ];
    match link.read(&mut room) {
        LinkGot::Bytes(count) => {
            if !talk.waiting.is_begun {
                talk.waiting = Waiting {
                    since: milliseconds(rt),
                    is_begun: true,
                };
            }
            if !take_in(&mut talk.connection, &room[..count], service) {
                return false;
            }
        }
        LinkGot::Quiet => {}
        LinkGot::End | LinkGot::Failed => return false,
    }
    if talk.connection.wants_write() {
        if !write_all(rt, &mut talk.connection, link, service) {
            return false;
        }
        talk.waiting = Waiting {
            since: milliseconds(rt),
            is_begun: false,
        };
    }
    !talk.connection.is_done() && !talk.waiting.is_over(milliseconds(rt))
}

/// Answers the requests that come on a link, until it ends, is idle for five seconds, a request takes more than ten, or the flag is
/// set.
pub fn converse<R: Clock, K: Link, S: Service>(
    rt: &R,
    alloc: Global,
    keys: RandomState,
    link: &mut K,
    service: &mut S,
    stops: &AtomicBool,
) {
    let config = Config {
        max_body_len: BODY_LIMIT,
        ..Config::default()
    };
    let mut talk = Talk {
        connection: Connection::new(alloc, keys, config),
        waiting: Waiting {
            since: milliseconds(rt),
            is_begun: false,
        },
    };
    for _ in 0..u64::MAX {
        if stops.load(Ordering::SeqCst) || !turn(rt, &mut talk, link, service) {
            return;
        }
    }
}
