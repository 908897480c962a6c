//! How answers look at the board and the rows.

use dewfelt_board::{
    Board, Changes, Counters, Cursor, EndedSession, OpenSession, Stranger, Vehicle,
};
use jt_store::{Row, StoreError};
use jt_value::{Edition, Phone};
use std::alloc::{AllocError, Global};
use std::sync::{Mutex, Wait};
use std::time::Clock;

/// What gives the rows of phones. Nothing of it changes them.
pub trait HasRows {
    /// At most so many rows of a phone from a number on, in order of their numbers; fewer only where no more is kept. At most 64
    /// are asked for at a time, and after Full it is as after Failed.
    fn rows_from(
        &self,
        alloc: Global,
        phone: &Phone,
        from: u64,
        limit: usize,
    ) -> Result<Vec<Row>, StoreError>;
}

/// What answers see of the board and the rows. Nothing of it changes them.
pub trait Sight {
    /// The present moment, in seconds since 1970.
    fn now(&self) -> u64;

    /// What was counted.
    fn counters(&self) -> Counters;

    /// How many vehicles, sessions that go on, and terminals that were turned away there are.
    fn sizes(&self) -> Sizes;

    /// As `Board::changes`.
    fn changes(
        &self,
        alloc: Global,
        since: Option<(u32, Cursor)>,
        limit: usize,
    ) -> Result<Changes, AllocError>;

    /// As `Board::vehicle`.
    fn vehicle(&self, digits: &[u8; 10]) -> Option<Vehicle>;

    /// As `Board::vehicles_behind`.
    fn vehicles_behind(
        &self,
        alloc: Global,
        after: Option<[u8; 10]>,
        limit: usize,
    ) -> Result<Vec<Vehicle>, AllocError>;

    /// As `Sessions::open_behind`.
    fn open_behind(
        &self,
        alloc: Global,
        after: u32,
        limit: usize,
    ) -> Result<Vec<OpenSession>, AllocError>;

    /// As `Sessions::ended`.
    fn ended(&self, alloc: Global) -> Result<Vec<EndedSession>, AllocError>;

    /// The terminals that were turned away, the one that came last at the end.
    fn strangers(&self, alloc: Global) -> Result<Vec<Stranger>, AllocError>;

    /// As `HasRows::rows_from`, of the phone of these digits.
    fn rows_from(
        &self,
        alloc: Global,
        digits: &[u8; 10],
        from: u64,
        limit: usize,
    ) -> Result<Vec<Row>, StoreError>;
}

/// How many there are.
#[derive(Clone, Copy, Debug, PartialEq, Eq)]
pub struct Sizes {
    pub vehicles: usize,
    pub sessions: usize,
    pub strangers: usize,
}

/// A board that others change meanwhile, and rows. Each call has the board for itself, and copies what it gives.
#[derive(Clone, Copy)]
pub struct Shared<'a, R, S> {
    rt: &'a R,
    board: &'a Mutex<Board>,
    rows: &'a S,
}

impl<'a, R: Wait + Clock, S: HasRows> Shared<'a, R, S> {
    /// Looks at this board and these rows. The moments are those of the runtime's clock.
    pub fn new(rt: &'a R, board: &'a Mutex<Board>, rows: &'a S) -> Shared<'a, R, S> {
        Shared { rt, board, rows }
    }
}

impl<'a, R: Wait + Clock, S: HasRows> Sight for Shared<'a, R, S> {
    fn now(&self) -> u64 {
        match self.rt.since_1970() {
            Ok(since) => since.as_secs(),
            Err(_) => 0,
        }
    }

    fn counters(&self) -> Counters {
        self.board.lock(self.rt).counters()
    }

    fn sizes(&self) -> Sizes {
        let board = self.board.lock(self.rt);
        Sizes {
            vehicles: board.count(),
            sessions: board.sessions().count(),
            strangers: board.strangers().as_slice().len(),
        }
    }

    fn changes(
        &self,
        alloc: Global,
        since: Option<(u32, Cursor)>,
        limit: usize,
    ) -> Result<Changes, AllocError> {
        self.board.lock(self.rt).changes(alloc, since, limit)
    }

    fn vehicle(&self, digits: &[u8; 10]) -> Option<Vehicle> {
        self.board.lock(self.rt).vehicle(digits)
    }

    fn vehicles_behind(
        &self,
        alloc: Global,
        after: Option<[u8; 10]>,
        limit: usize,
    ) -> Result<Vec<Vehicle>, AllocError> {
        self.board
            .lock(self.rt)
            .vehicles_behind(alloc, after, limit)
    }

    fn open_behind(
        &self,
        alloc: Global,
        after: u32,
        limit: usize,
    ) -> Result<Vec<OpenSession>, AllocError> {
        self.board
            .lock(self.rt)
            .sessions()
            .open_behind(alloc, after, limit)
    }

    fn ended(&self, alloc: Global) -> Result<Vec<EndedSession>, AllocError> {
        self.board.lock(self.rt).sessions().ended(alloc)
    }

    fn strangers(&self, alloc: Global) -> Result<Vec<Stranger>, AllocError> {
        let board = self.board.lock(self.rt);
        board.strangers().as_slice().to_vec(alloc)
    }

    fn rows_from(
        &self,
        alloc: Global,
        digits: &[u8; 10],
        from: u64,
        limit: usize,
    ) -> Result<Vec<Row>, StoreError> {
        let phone = Phone {
            edition: Edition::E2019,
            digits: *digits,
        };
        self.rows.rows_from(alloc, &phone, from, limit)
    }
}
