//! The line at the end of a script.

ghost use Rattle.std.specs.Prelude.{◌≡◌, ◌++◌, string_bytes, OnOk};
ghost use Rattle.jt_event_lines.specs.EntryLines.{totals_line};

use std::alloc::AllocError;
use std::fmt::Write;

/// How far a world came.
#[derive(Clone, Copy, Debug, PartialEq, Eq)]
pub struct WorldTotals {
    /// The fixes that the terminal recorded.
    pub recorded: u64,
    /// The fixes of the units whose acceptance it received.
    pub accepted: u64,
    /// The rows of its phone.
    pub rows: u64,
    /// The fixes in them.
    pub stored: u64,
}

/// Puts the line of a world's totals at the end of a text. After an error the text is a part of that.
#[tactic(auto, unfolding(crate::specs::EntryLines::totals_line))]
pub fn push_world_totals(text: &mut String, totals: WorldTotals) -> Result<(), AllocError>
    ensures { OnOk result (string_bytes text.new ≡ string_bytes text.old ++ totals_line totals) }
{
    let WorldTotals {
        recorded,
        accepted,
        rows,
        stored,
    } = totals;
    write!(
        text,
        "recorded={recorded} accepted={accepted} rows={rows} stored={stored}\n"
    )
}
