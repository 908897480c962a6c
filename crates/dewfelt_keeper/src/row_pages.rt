//! Pages of rows.

ghost use Rattle.std.specs.Prelude.{◌≡◌, ◌≤◌, ◌<◌, ◌+◌, ◌^◌, ◌++◌, ℕ, List, IfOk, IfSome, length, take};
ghost use Rattle.jt_store.specs.declared.row.Row.{Row as Stored};
ghost use Rattle.jt_store.specs.Tables.{Reads, Rises};
ghost use Rattle.jt_value.specs.Sameness.{key_of};
ghost use Rattle.dewfelt_keeper.specs.RowPages.{AddsFrom, next_of, pages, room_of, rows_at};

use jt_store::{Keeper, Row, StoreError};
use jt_value::Phone;
use std::alloc::Global;

// Puts the phone's row of the least number from this one on at the end of a page. The number behind it, if there is one.
fn add_from<K: Keeper>(
    alloc: Global,
    keeper: &mut K,
    phone: &Phone,
    number: u64,
    page: &mut Vec<Row>,
) -> Result<Option<u64>, StoreError>
    ensures answer { Reads (K.tables keeper.old) (K.tables keeper.new) (λ t next.
        AddsFrom (t.rows (key_of phone.now)) number page.old.items page.new.items next) result }
    ensures more { IfOk result (λ next. IfSome next (λ n.
        (n ≤ 2 ^ 47) × (length page.new.items ≡ length page.old.items + 1))) }
{
    match keeper.row_from(alloc, phone, number) {
        Ok(Some(row)) => {
            let next = row.number + 1;
            page.push(row)?;
            Ok(Some(next))
        }
        Ok(None) => Ok(None),
        Err(error) => Err(error),
    }
}

/// The rows of a phone from a number on, in order of their numbers, at most so many: fewer only where the phone has no more. Each is
/// one call of the keeper.
pub fn page_of_rows<K: Keeper>(
    alloc: Global,
    keeper: &mut K,
    phone: &Phone,
    from: u64,
    most: usize,
) -> Result<Vec<Row>, StoreError>
    ensures { Reads (K.tables keeper.old) (K.tables keeper.new) (λ t page.
        page.items ≡ take most (rows_at from (t.rows (key_of phone.now)))) result }
{
    let mut page = Vec::new(alloc);
    let mut number = from;
    while page.len() < most {
        match add_from(alloc, keeper, phone, number, &mut page) {
            Ok(Some(next)) => number = next,
            Ok(None) => return Ok(page),
            Err(error) => return Err(error),
        }
    }
    Ok(page)
}

/// Pages, each asked for from the number behind the last row of the one before, are all rows, each once: a page and what follows
/// from there on are the rows from its number on, also those that came meanwhile; and so are pages of any sizes that have room for
/// them, of rows that stand still.
pub fn law_row_pages()
    ensures one { (from most : ℕ) (rows more : List Stored) → Rises 0 (rows ++ more) →
        rows_at from (rows ++ more) ≡ take most (rows_at from rows)
        ++ rows_at (next_of from (take most (rows_at from rows))) (rows ++ more) }
    ensures all { (sizes : List ℕ) (from : ℕ) (rows : List Stored) → Rises 0 rows →
        length (rows_at from rows) ≤ room_of sizes → pages sizes from rows ≡ rows_at from rows }
    ensures whole { (rows : List Stored) → rows_at 0 rows ≡ rows }
{}
