//! The lines of a report beside those of frames and refusals, each put at the end of a text.

ghost use Rattle.std.specs.Prelude.{◌≡◌, ◌++◌, string_bytes, OnOk};
ghost use Rattle.jt_view.specs.Line.{counts_line, ok_line, hex_refused_line, too_long_line};

use std::alloc::AllocError;
use std::fmt::Write;

/// The line that closes a view: how many lines of frames and of refusals stand before it.
#[tactic(auto, unfolding(crate::specs::Line::counts_line))]
pub fn push_counts_line(text: &mut String, frames: u64, refused: u64) -> Result<(), AllocError>
    ensures { OnOk result
        (string_bytes text.new ≡ string_bytes text.old ++ counts_line frames refused) }
{
    write!(text, "frames={frames} refused={refused}\n")
}

/// What a check prints of a stream without refusals.
#[tactic(auto, unfolding(crate::specs::Line::ok_line))]
pub fn push_ok_line(text: &mut String, frames: u64) -> Result<(), AllocError>
    ensures { OnOk result (string_bytes text.new ≡ string_bytes text.old ++ ok_line frames) }
{
    write!(text, "ok frames={frames}\n")
}

/// The line of an input whose hexadecimal digits go wrong at this place.
#[tactic(auto, unfolding(crate::specs::Line::hex_refused_line))]
pub fn push_hex_refused_line(text: &mut String, place: u64) -> Result<(), AllocError>
    ensures { OnOk result
        (string_bytes text.new ≡ string_bytes text.old ++ hex_refused_line place) }
{
    write!(text, "hex refused at {place}\n")
}

/// The line of an input with more octets than may be read.
#[tactic(auto, unfolding(crate::specs::Line::too_long_line))]
pub fn push_too_long_line(text: &mut String) -> Result<(), AllocError>
    ensures { OnOk result (string_bytes text.new ≡ string_bytes text.old ++ too_long_line) }
{
    text.push_str("input too long\n")
}
