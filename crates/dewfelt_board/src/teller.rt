//! Who tells the board.

use crate::board::Board;
use jt_platform::Entry;
use jt_service::{Away, Ended, Tell};
use jt_value::Phone;
use std::net::SocketAddr;
use std::sync::{Arc, Mutex, Wait};
use std::time::Clock;

/// Tells a board that others look at. Each call waits for as long as one of these has the board.
#[derive(Drop)]
pub struct Teller<R> {
    rt: R,
    board: Arc<Mutex<Board>>,
}

impl<R: Wait + Clock> Teller<R> {
    /// The moments are those of the runtime's clock.
    pub fn new(rt: R, board: Arc<Mutex<Board>>) -> Teller<R> {
        Teller { rt, board }
    }

    // Seconds since 1970; 0 where the clock can't be read.
    fn now(&self) -> u64 {
        match self.rt.since_1970() {
            Ok(since) => since.as_secs(),
            Err(_) => 0,
        }
    }

    /// A hub is gone, and the next one begins, behind so many sessions.
    pub fn begin_anew(&mut self, before: u64) {
        let before = u32::try_from(before).unwrap_or(u32::MAX);
        self.board.lock(&self.rt).begin_anew(before);
    }
}

impl<R: Wait + Clock + Drop> Tell for Teller<R> {
    fn began(&mut self, session: u32, peer: Option<SocketAddr>) {
        let now = self.now();
        self.board.lock(&self.rt).began(session, peer, now);
    }

    fn noted(&mut self, entry: &Entry) {
        let now = self.now();
        self.board.lock(&self.rt).noted(entry, now);
    }

    fn let_in(&mut self, session: u32, phone: &Phone) {
        self.board.lock(&self.rt).let_in(session, phone);
    }

    fn ended(&mut self, ended: &Ended) {
        let now = self.now();
        self.board.lock(&self.rt).ended(ended, now);
    }

    fn turned_away(&mut self, _peer: Option<SocketAddr>, _why: Away) {
        self.board.lock(&self.rt).turned_away();
    }

    fn short(&mut self) {}

    fn accept_failed(&mut self) {
        self.board.lock(&self.rt).accept_failed();
    }

    fn few_threads(&mut self, _count: u32) {}
}
