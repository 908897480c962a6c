//! Rows in memory.

use crate::gates::LORRY;
use dewfelt_http::HasRows;
use jt_store::{Row, StoreError};
use jt_value::{Octets, Phone};
use std::alloc::Global;
use std::process::Abort;

/// A row as a test writes it: number, id, body.
pub type Told = (u64, u16, &'static [u8]);

/// The rows of one lorry, or of a store that fails.
#[derive(Drop)]
pub struct Kept {
    pub rows: Vec<Row>,
    pub fails: bool,
}

fn copy_of(alloc: Global, row: &Row) -> Result<Row, StoreError> {
    Ok(Row {
        number: row.number,
        id: row.id,
        body: row.body.copy(alloc)?,
    })
}

/// A row of these octets.
pub fn row(rt: &impl Abort, alloc: Global, number: u64, id: u16, body: &[u8]) -> Row {
    Row {
        number,
        id,
        body: Octets::from_vec(Vec::from_slice(alloc, body).expect(rt, "memory")),
    }
}

impl Kept {
    /// No rows.
    pub fn none(alloc: Global) -> Kept {
        Kept {
            rows: Vec::new(alloc),
            fails: false,
        }
    }

    /// These rows.
    pub fn of(rt: &impl Abort, alloc: Global, told: &[Told]) -> Kept {
        let mut kept = Kept::none(alloc);
        for (number, id, body) in told {
            kept.rows
                .push(row(rt, alloc, *number, *id, body))
                .expect(rt, "memory");
        }
        kept
    }
}

impl HasRows for Kept {
    fn rows_from(
        &self,
        alloc: Global,
        phone: &Phone,
        from: u64,
        limit: usize,
    ) -> Result<Vec<Row>, StoreError> {
        if self.fails {
            return Err(StoreError::Failed);
        }
        let mut found = Vec::new(alloc);
        for row in &self.rows {
            if phone.digits == LORRY.digits && row.number >= from && found.len() < limit {
                found.push(copy_of(alloc, row)?)?;
            }
        }
        Ok(found)
    }
}
