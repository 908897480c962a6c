//! The lines of refusals.

ghost use Rattle.std.specs.Prelude.{◌≡◌, ◌+◌, ◌≤◌, ◌++◌, length, string_bytes, IfOk, OnOk};
ghost use Rattle.std.specs.Io.{StartsWith};
ghost use Rattle.jt_text.specs.Refusals.{refusal_line, why_name, why_values};

use crate::line::Line;
use jt_value::{Memory, Octets, Refusal, Why};
use std::alloc::{AllocError, Global};

fn why_name(why: Why) -> &'static str
    ensures name { result.now ≡ why_name why }
    ensures short { length result.now ≤ 15 }
{
    match why {
        Why::Stray => "Stray",
        Why::EmptyFrame => "EmptyFrame",
        Why::TooLong => "TooLong",
        Why::BadEscape => "BadEscape",
        Why::TooShort => "TooShort",
        Why::CheckMismatch { .. } => "CheckMismatch",
        Why::Encrypted => "Encrypted",
        Why::LengthMismatch { .. } => "LengthMismatch",
        Why::PhoneDigit => "PhoneDigit",
        Why::BadPacketNumber => "BadPacketNumber",
        Why::Truncated => "Truncated",
        Why::Trailing => "Trailing",
        Why::BadCount => "BadCount",
    }
}

// The values that a reason compares, if it does.
#[tactic(auto, using(std::proofs::Common::append_assoc))]
fn put_why_values(line: &mut Line, why: Why)
    requires { length line.old ≤ 400 }
    ensures text { line.new ≡ why_values why ++ line.old }
    ensures room { length line.new ≤ length line.old + 60 }
{
    match why {
        Why::CheckMismatch { computed, found } => {
            line.put_named_octet(" found=", found);
            line.put_named_octet(" computed=", computed);
        }
        Why::LengthMismatch { declared, actual } => {
            line.put_named_number(" actual=", actual as u64);
            line.put_named_number(" declared=", declared as u64);
        }
        _ => {}
    }
}

#[tactic(auto, using(std::proofs::Common::append_assoc), unfolding(crate::specs::Refusals::refusal_line))]
fn put_refusal(line: &mut Line, refusal: &Refusal)
    requires { length line.old ≤ 200 }
    ensures { line.new ≡ refusal_line refusal.now ++ line.old }
{
    line.put_str("\n");
    put_why_values(line, refusal.why);
    line.put_copy(why_name(refusal.why));
    line.put_str(" refused ");
    line.put_named_number("+", refusal.inside);
    line.put_number(refusal.at);
}

/// Puts the line of a refusal at the end of a text, as `push_refusal_line`. `line` is room that is used again.
pub fn push_refusal_line_with(
    text: &mut String,
    line: &mut Line,
    refusal: &Refusal,
) -> Result<(), AllocError>
    ensures text { OnOk result
        (string_bytes text.new ≡ string_bytes text.old ++ refusal_line refusal.now) }
    ensures kept { StartsWith (string_bytes text.new) (string_bytes text.old) }
{
    line.clear();
    put_refusal(line, refusal);
    line.push_to(text)
}

/// Puts the line of a refusal at the end of a text: its place, its offset and its reason. Where memory is refused, the text
/// still begins with what it held.
pub fn push_refusal_line(text: &mut String, refusal: &Refusal) -> Result<(), AllocError>
    ensures text { OnOk result
        (string_bytes text.new ≡ string_bytes text.old ++ refusal_line refusal.now) }
    ensures kept { StartsWith (string_bytes text.new) (string_bytes text.old) }
{
    push_refusal_line_with(text, &mut Line::new(), refusal)
}

/// The line of a refusal, as a text of its own.
pub fn refusal_line(alloc: Global, refusal: &Refusal) -> Result<Octets, Memory>
    ensures { IfOk result (λ line. line ≡ refusal_line refusal.now) }
{
    let mut text = String::new(alloc);
    push_refusal_line(&mut text, refusal)?;
    Ok(Octets::from_vec(text.into_bytes()))
}
