//! The printed texts of bad lines of fixes, each put at the end of a text.

ghost use Rattle.std.specs.Prelude.{◌≡◌, ◌++◌, string_bytes, OnOk};
ghost use Rattle.jt_report_command.specs.BadLines.{bad_line_of, hex_line, long_line, no_position_line};

use crate::line::FixLine;
use jt_text::push_refusal_line;
use jt_value::Refusal;
use std::alloc::AllocError;
use std::fmt::Write;

#[tactic(auto, unfolding(crate::specs::BadLines::hex_line))]
fn push_hex_line(text: &mut String, number: u64) -> Result<(), AllocError>
    ensures { OnOk result (string_bytes text.new ≡ string_bytes text.old ++ hex_line number) }
{
    write!(text, "line {number} refused hex\n")
}

#[tactic(auto, unfolding(crate::specs::BadLines::long_line))]
fn push_long_line(text: &mut String, number: u64) -> Result<(), AllocError>
    ensures { OnOk result (string_bytes text.new ≡ string_bytes text.old ++ long_line number) }
{
    write!(text, "line {number} refused long\n")
}

#[tactic(auto, using(std::proofs::Common::append_assoc), unfolding(crate::specs::BadLines::no_position_line))]
fn push_no_position_line(text: &mut String, number: u64, refusal: Refusal) -> Result<(), AllocError>
    ensures { OnOk result
        (string_bytes text.new ≡ string_bytes text.old ++ no_position_line number refusal) }
{
    text.push_str("line ")?;
    let Refusal { inside, why, .. } = refusal;
    let told = Refusal {
        at: number,
        inside,
        why,
    };
    push_refusal_line(text, &told)
}

/// Puts the text of what a line of this number, from 1, says, where it is bad: `line N refused hex`, `line N refused long`, or
/// `line N+inside refused Why` with the offset of the refusal (this project's own texts). A fix, and a line that is passed
/// over, have none.
pub fn push_bad_line_of(text: &mut String, number: u64, said: &FixLine) -> Result<(), AllocError>
    ensures { OnOk result
        (string_bytes text.new ≡ string_bytes text.old ++ bad_line_of number said.now) }
{
    match said {
        FixLine::BadHex => push_hex_line(text, number),
        FixLine::Long => push_long_line(text, number),
        FixLine::Refused(refusal) => push_no_position_line(text, number, *refusal),
        FixLine::Passed | FixLine::Fix(_) => Ok(()),
    }
}
