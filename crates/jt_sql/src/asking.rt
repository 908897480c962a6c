//! What the stores ask of the database, with no clause. The database's answers are told to no contract, and a proof that has
//! none of the database's own clauses among its facts is short.

use crate::refused::Refused;
use sqlite::types::{FromSql, ValueRef};
use sqlite::{Alter, Error, Row, Transaction};

/// The row that is asked for, if there is one.
pub(crate) fn one_row<S: Alter>(
    work: &mut Transaction<'_, S>,
    sql: &str,
    values: &[ValueRef<'_>],
) -> Result<Option<Row>, Refused> {
    match work.query_row(sql, values) {
        Ok(row) => Ok(Some(row)),
        Err(Error::QueryReturnedNoRows) => Ok(None),
        Err(error) => Err(Refused::from(error)),
    }
}

/// Whether there is a row that is asked for.
pub(crate) fn has_row<S: Alter>(
    work: &mut Transaction<'_, S>,
    sql: &str,
    values: &[ValueRef<'_>],
) -> Result<bool, Refused> {
    let row = one_row(work, sql, values)?;
    Ok(row.is_some())
}

/// All rows that are asked for.
pub(crate) fn all_rows<S: Alter>(
    work: &mut Transaction<'_, S>,
    sql: &str,
    values: &[ValueRef<'_>],
) -> Result<Vec<Row>, Refused> {
    match work.query_all(sql, values) {
        Ok(rows) => Ok(rows),
        Err(error) => Err(Refused::from(error)),
    }
}

/// Changes rows, and says how many.
pub(crate) fn change<S: Alter>(
    work: &mut Transaction<'_, S>,
    sql: &str,
    values: &[ValueRef<'_>],
) -> Result<usize, Refused> {
    match work.execute(sql, values) {
        Ok(rows) => Ok(rows),
        Err(error) => Err(Refused::from(error)),
    }
}

/// Makes tables.
pub(crate) fn make<S: Alter>(work: &mut Transaction<'_, S>, sql: &str) -> Result<(), Refused> {
    match work.execute_batch(sql) {
        Ok(()) => Ok(()),
        Err(error) => Err(Refused::from(error)),
    }
}

/// What stands in a column.
pub(crate) fn value<T: FromSql>(row: &Row, column: usize) -> Result<T, Refused> {
    match row.get(column) {
        Ok(value) => Ok(value),
        Err(error) => Err(Refused::from(error)),
    }
}
