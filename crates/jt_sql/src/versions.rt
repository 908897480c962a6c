//! The version of a file, which says what its tables mean.

use crate::asking::value;
use crate::refused::Refused;
use sqlite::{Alter, Error, Row, Transaction};

const READ_VERSION: &str = "SELECT version FROM meta LIMIT 2";

const COUNT_TABLES: &str = "SELECT COUNT(*) FROM sqlite_schema";

/// The version of a file. None where nothing was made in it yet.
pub(crate) fn version<S: Alter>(work: &mut Transaction<'_, S>) -> Result<Option<i64>, Refused> {
    match work.query_all(READ_VERSION, &[]) {
        Ok(rows) => only_version(rows.as_slice()),
        Err(Error::SqlInputError(_)) => without_version(work),
        Err(error) => Err(Refused::from(error)),
    }
}

// The version in the only row. No row, and two, are refused.
fn only_version(rows: &[Row]) -> Result<Option<i64>, Refused> {
    match rows {
        [row] => Ok(Some(value(row, 0)?)),
        _ => Err(Refused::Failed),
    }
}

// A file with tables but without a version is none of ours.
fn without_version<S: Alter>(work: &mut Transaction<'_, S>) -> Result<Option<i64>, Refused> {
    let count: i64 = work.query_row(COUNT_TABLES, &[])?.get(0)?;
    if count == 0 {
        Ok(None)
    } else {
        Err(Refused::Failed)
    }
}
