//! What is told to a reader that follows.

use crate::cursor::Cursor;
use crate::vehicle::Vehicle;

/// The vehicles that changed behind a cursor.
#[derive(Drop)]
pub struct Changes {
    /// In order of the numbers of their last changes.
    pub vehicles: Vec<Vehicle>,
    /// The run that the cursor is of.
    pub run: u32,
    /// Where the next page begins.
    pub cursor: Cursor,
    /// Whether the page is the first of all vehicles, so that a vehicle which no page of these names is gone.
    pub is_full: bool,
    /// Whether there are changes behind these.
    pub is_more: bool,
    /// How many terminals that were turned away are kept.
    pub strangers: usize,
}
