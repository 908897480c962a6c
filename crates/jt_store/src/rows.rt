//! Rows of one phone, found by their numbers.

ghost use Rattle.std.specs.Prelude.{◌≡◌, ◌<◌, ◌≤◌, length, option_copied};
ghost use Rattle.std.specs.List.{AllWithin};
ghost use Rattle.jt_store.specs.Tables.{Finds, FindsFrom, Rises, last_of};

use crate::row::Row;

/// The number of the last row.
pub fn last_number(rows: &[Row]) -> Option<u64>
    ensures { result ≡ last_of rows.now }
{
    match rows.last() {
        Some(row) => Some(row.number),
        None => None,
    }
}

/// The row of the least number from this one on.
pub fn find_from(rows: &[Row], number: u64) -> Option<&Row>
    requires { Rises 0 rows.now }
    ensures { FindsFrom rows.now number (option_copied result) }
{
    rows.get(place_from(rows, number))
}

/// The row of this number.
pub fn find(rows: &[Row], number: u64) -> Option<&Row>
    requires { Rises 0 rows.now }
    ensures { Finds rows.now number (option_copied result) }
{
    match find_from(rows, number) {
        Some(row) => {
            if row.number == number {
                return Some(row);
            }
            None
        }
        None => None,
    }
}

// The place of the first row with a number from this one on.
fn place_from(rows: &[Row], number: u64) -> usize
    requires { Rises 0 rows.now }
    ensures within { result ≤ length rows.now }
    ensures below { AllWithin (λ row. row.number < number) rows.now 0 result }
    ensures above { AllWithin (λ row. number ≤ row.number) rows.now result (length rows.now) }
{
    rows.partition_point(|row| row.number < number)
}
