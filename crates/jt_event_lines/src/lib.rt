//! The lines that a world prints: one for each entry of its hub, and one of its totals.
#![tactic(auto)]

mod lines;
mod totals;

pub use lines::{is_told, push_entry_line, push_entry_lines};
pub use totals::{WorldTotals, push_world_totals};
