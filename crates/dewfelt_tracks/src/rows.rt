//! Rows of a phone, as lines of JSON.

use dewfelt_asked::{Refused, read_rows};
use dewfelt_board::phone_text;
use dewfelt_shown::{Sight, put_count, put_hex, put_text};
use json::Writer;
use jt_store::Row;
use std::alloc::{AllocError, Global};

/// So many rows are asked for at a time (this project's own).
pub const PIECE: usize = 64;

// A page ends behind the row with which its text has so many octets (this project's own).
const PAGE_ROOM: usize = 4 << 20;

/// A page of rows.
#[derive(Drop)]
pub struct RowsPage {
    /// A line of JSON for each row.
    pub text: Vec<u8>,
    /// The number from which on the next page tells.
    pub next: u64,
    /// Whether a row stands behind this page.
    pub is_more: bool,
}

fn put_row(alloc: Global, writer: &mut Writer, phone: &str, row: &Row) -> Result<(), AllocError> {
    let id = row.id;
    let id = format!(in alloc; "0x{id:04x}")?;
    writer.begin_object()?;
    put_text(writer, "phone", phone)?;
    put_count(writer, "number", row.number)?;
    put_text(writer, "id", id.as_str())?;
    writer.key("body")?;
    put_hex(alloc, writer, row.body.as_slice())?;
    writer.end_object()
}

// Puts a row's line at the end of a text.
fn push_line(alloc: Global, text: &mut Vec<u8>, phone: &str, row: &Row) -> Result<(), AllocError> {
    let mut writer = Writer::new(Vec::new(alloc));
    put_row(alloc, &mut writer, phone, row)?;
    text.extend_from_slice(writer.into_inner().as_slice())?;
    Ok(text.push(b'\n')?)
}

impl RowsPage {
    // Puts rows at the end, until the page has its octets. Says how many were put.
    fn put_all(&mut self, alloc: Global, phone: &str, rows: &[Row]) -> Result<usize, AllocError> {
        let mut count: usize = 0;
        for row in rows {
            if self.text.len() >= PAGE_ROOM {
                break;
            }
            push_line(alloc, &mut self.text, phone, row)?;
            self.next = row.number.saturating_add(1);
            count = count.saturating_add(1);
        }
        Ok(count)
    }

    // Puts at most so many rows, in pieces.
    fn fill<S: Sight>(
        &mut self,
        alloc: Global,
        sight: &S,
        digits: &[u8; 10],
        limit: usize,
    ) -> Result<(), Refused> {
        let phone = phone_text(alloc, digits)?;
        let mut left = limit;
        for _ in 0..limit {
            let asked = left.min(PIECE);
            let rows = read_rows(alloc, sight.rows_from(alloc, digits, self.next, asked))?;
            let count = self.put_all(alloc, phone.as_str(), rows.as_slice())?;
            left = left.saturating_sub(count);
            if count < asked || left == 0 {
                break;
            }
        }
        Ok(())
    }
}

/// At most so many rows of a phone from a number on: fewer only where the page has its octets, or no more is kept.
pub fn rows_page<S: Sight>(
    alloc: Global,
    sight: &S,
    digits: &[u8; 10],
    from: u64,
    limit: usize,
) -> Result<RowsPage, Refused> {
    let mut page = RowsPage {
        text: Vec::new(alloc),
        next: from,
        is_more: false,
    };
    page.fill(alloc, sight, digits, limit)?;
    let behind = read_rows(alloc, sight.rows_from(alloc, digits, page.next, 1))?;
    page.is_more = !behind.is_empty();
    Ok(page)
}
