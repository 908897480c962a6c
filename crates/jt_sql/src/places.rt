//! The places of a table's rows, which are 0, 1, 2 and so on. Each call is a part of a transaction.

use crate::asking::value;
use crate::refused::Refused;
use sqlite::{Alter, Row, Transaction};

/// The place behind the last one, which is 0 where there is none.
pub(crate) fn place_behind(last: Option<Row>) -> Result<i64, Refused> {
    let Some(row) = last else {
        return Ok(0);
    };
    let place: i64 = value(&row, 0)?;
    match place.checked_add(1) {
        Some(behind) if behind > 0 => Ok(behind),
        _ => Err(Refused::Failed),
    }
}

/// How many rows there are, where their places, which the query gives in rising order, are 0, 1, 2 and so on. Others are
/// refused.
pub(crate) fn count_places<S: Alter>(
    work: &mut Transaction<'_, S>,
    places: &str,
) -> Result<i64, Refused> {
    let mut rows = work.query(places, &[])?;
    for place in 0..i64::MAX {
        let Some(row) = rows.next()? else {
            return Ok(place);
        };
        let found: i64 = value(row, 0)?;
        if found != place {
            return Err(Refused::Failed);
        }
    }
    Err(Refused::Failed)
}
