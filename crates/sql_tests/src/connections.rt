//! Connections over tables that a test makes, and keepers over them. All is generic in where the tables lie.

use jt_sql::SqlKeeper;
use sqlite::{Alter, Connection, FileStore, MemStore, Row};
use sqlite_disk::Disk;
use std::alloc::Global;
use store_tests::keeper_calls::{Call, Said, first_wrong};

/// A store of tables in memory.
pub trait InMemory: Alter + Drop {
    /// A connection without tables. None where there is no memory.
    fn connection(alloc: Global) -> Option<Connection<Self>>;
}

impl InMemory for MemStore {
    fn connection(alloc: Global) -> Option<Connection<MemStore>> {
        match Connection::open_in_memory(alloc) {
            Ok(connection) => Some(connection),
            Err(_) => None,
        }
    }
}

/// A connection in memory over which these texts were run.
pub fn made<S: InMemory>(alloc: Global, texts: &[&str]) -> Option<Connection<S>> {
    let mut connection = S::connection(alloc)?;
    for text in texts {
        if !ran(&mut connection, text) {
            return None;
        }
    }
    Some(connection)
}

/// Whether a text of statements was run.
pub fn ran<S: Alter>(connection: &mut Connection<S>, sql: &str) -> bool {
    connection.execute_batch(sql).is_ok()
}

fn number_in(row: &Row) -> Option<i64> {
    row.get(0).ok()
}

/// The number that a query finds. None where it finds none, or more than one row.
pub fn number<S: Alter>(connection: &mut Connection<S>, sql: &str) -> Option<i64> {
    match connection.query_row(sql, &[]) {
        Ok(row) => number_in(&row),
        Err(_) => None,
    }
}

/// Whether the texts were run over a file, which is then closed.
pub fn filled<D: Disk + Drop>(mut connection: Connection<FileStore<D>>, texts: &[&str]) -> bool {
    for text in texts {
        if !ran(&mut connection, text) {
            return false;
        }
    }
    connection.close().is_ok()
}

/// The place of the first call that a keeper over the connection does not answer so, and the connection.
pub fn wrong_over<S: Alter + Drop>(
    alloc: Global,
    connection: Connection<S>,
    calls: &[(Call, Said)],
) -> (Option<usize>, Connection<S>) {
    let mut keeper = SqlKeeper::over(connection);
    let wrong = first_wrong(alloc, &mut keeper, calls);
    (wrong, keeper.into_connection())
}

/// Whether a keeper over the connection answers so. The connection is then let go of.
pub fn answers<S: Alter + Drop>(
    alloc: Global,
    connection: Connection<S>,
    calls: &[(Call, Said)],
) -> bool {
    let (wrong, connection) = wrong_over(alloc, connection, calls);
    drop(connection);
    wrong == None
}
