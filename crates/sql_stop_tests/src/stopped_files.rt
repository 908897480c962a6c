//! Stores over files in memory that stop at some call. All is generic in the files.

use sqlite::{Alter, Connection, FileStore, Files, Options};
use sqlite_disk::{Crash, Disk, Fuse, Memory};
use std::alloc::Global;

/// A small cache, since each open makes it anew, and a log that is copied into the database before nearly each change.
const OPTIONS: Options = Options {
    cache_pages: 16,
    spill_pages: 2000,
    checkpoint_frames: 2,
    seed: 7,
};

/// A file in memory that fails from some call on.
pub trait Stopping: Crash + Drop {
    /// A new one, which fails after so many calls.
    fn stopping(alloc: Global, calls: u64) -> Self;

    /// One with all that was written to this one, and nothing more to be synced, which fails after so many calls. It lacks some
    /// of it where memory was refused.
    fn copied(&self, alloc: Global, calls: u64) -> Self;
}

impl Stopping for Fuse<Memory> {
    fn stopping(alloc: Global, calls: u64) -> Fuse<Memory> {
        Fuse::new(Memory::new(alloc), calls)
    }

    fn copied(&self, alloc: Global, calls: u64) -> Fuse<Memory> {
        let mut copy = Memory::new(alloc);
        let _ = copy.write_at(0, self.inner().bytes());
        let _ = copy.sync();
        copy.crash();
        Fuse::new(copy, calls)
    }
}

/// Calls of a store, which may stop at each call on its files.
pub trait Story {
    /// How many calls there are.
    fn calls() -> usize;

    /// The files before the first of them.
    fn files<D: Stopping>(alloc: Global) -> Files<D>;

    /// Makes the calls up to the first that is refused, and counts those before it.
    fn play<S: Alter + Drop>(alloc: Global, connection: Connection<S>) -> (usize, Connection<S>);

    /// Whether a store over the connection has what so many of the calls leave, or those and one more.
    fn leaves<S: Alter + Drop>(alloc: Global, connection: Connection<S>, done: usize) -> bool;
}

/// What stops after each number of calls in a range leave.
#[derive(Clone, Copy, Debug, PartialEq, Eq)]
pub enum Stops {
    /// After so many calls on a file the tables are not those after some whole calls of the store.
    Torn(u64),
    /// The tables are those after whole calls, and no number was enough for all of them.
    Whole,
    /// The same, and some number was enough for all of them.
    Ended,
}

/// Two new files, of which the log fails after so many calls and the database after so many.
pub fn new_files<D: Stopping>(alloc: Global, log_calls: u64, db_calls: u64) -> Files<D> {
    Files {
        log: D::stopping(alloc, log_calls),
        db: D::stopping(alloc, db_calls),
    }
}

// Copies of files, of which the log fails after so many calls and the database after so many.
fn copies<D: Stopping>(alloc: Global, files: &Files<D>, log_calls: u64, db_calls: u64) -> Files<D> {
    Files {
        log: files.log.copied(alloc, log_calls),
        db: files.db.copied(alloc, db_calls),
    }
}

/// Opens files. Where that is refused, what is left of them.
pub fn open<D: Stopping>(
    alloc: Global,
    files: Files<D>,
) -> Result<Connection<FileStore<D>>, Files<D>> {
    if !files.log.may_be_used() || !files.db.may_be_used() {
        return Err(files);
    }
    match Connection::open_files(alloc, files, OPTIONS) {
        Ok(connection) => Ok(connection),
        Err((_, left)) => Err(left.into_files()),
    }
}

/// The files of a connection, with no further call on them.
pub fn files_of<D: Disk + Drop>(connection: Connection<FileStore<D>>) -> Files<D> {
    connection.into_store().close()
}

// Makes the calls on copies of files that stop, and counts those that were not refused. What is left of the copies.
fn play_on<T: Story, D: Stopping>(
    alloc: Global,
    files: &Files<D>,
    log_calls: u64,
    db_calls: u64,
) -> (usize, Files<D>) {
    match open(alloc, copies(alloc, files, log_calls, db_calls)) {
        Ok(connection) => {
            let (done, connection) = T::play(alloc, connection);
            (done, files_of(connection))
        }
        Err(left) => (0, left),
    }
}

// Whether the files, opened again, have what so many calls leave, or those and one more.
fn is_whole<T: Story, D: Stopping>(alloc: Global, files: Files<D>, done: usize) -> bool {
    match open(alloc, files) {
        Ok(connection) => T::leaves(alloc, connection, done),
        Err(_) => false,
    }
}

// How many calls were not refused on files that stop, and whether the files, opened again after a stop of the process and after
// one of the machine, have what these left, or those and the one that was refused. A process that is killed leaves what was
// written, a machine what was synced.
fn stop_after<T: Story, D: Stopping>(
    alloc: Global,
    files: &Files<D>,
    log_calls: u64,
    db_calls: u64,
) -> (usize, bool) {
    let (done, mut left) = play_on::<T, D>(alloc, files, log_calls, db_calls);
    let killed = copies(alloc, &left, u64::MAX, u64::MAX);
    left.log.crash();
    left.db.crash();
    let is_whole = is_whole::<T, D>(alloc, killed, done) && is_whole::<T, D>(alloc, left, done);
    (done, is_whole)
}

/// What a story leaves that stops after each number of calls in a range, on the log or on the database, up to one that is enough
/// for all.
pub fn play_stopped<T: Story, D: Stopping>(
    alloc: Global,
    in_log: bool,
    from: u64,
    to: u64,
) -> Stops {
    let files = T::files::<D>(alloc);
    for calls in from..to {
        let (log_calls, db_calls) = if in_log {
            (calls, u64::MAX)
        } else {
            (u64::MAX, calls)
        };
        let (done, is_whole) = stop_after::<T, D>(alloc, &files, log_calls, db_calls);
        if !is_whole {
            return Stops::Torn(calls);
        }
        if done == T::calls() {
            return Stops::Ended;
        }
    }
    Stops::Whole
}
