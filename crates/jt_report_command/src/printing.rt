//! The printed lines of `report`, each put at the end of a text.

ghost use Rattle.std.specs.Prelude.{◌≡◌, ◌++◌, ℕ, string_bytes, OnOk};
ghost use Rattle.jt_input.specs.EarlyEnds.{early_reply};
ghost use Rattle.jt_input.specs.declared.early_end.EarlyEnd.TheVariants as early;
ghost use Rattle.jt_text.specs.Values.{octets_text};
ghost use Rattle.jt_report_command.specs.Report.{denial_text, end_text, outcome_reply, timeout_text, totals_line, try_line, try_lines, try_number};

use jt_agent::{AttemptEnd, Outcome};
use jt_input::{EarlyEnd, Status};
use std::alloc::{AllocError, Global};
use std::fmt::Write;

// Octets as lower-case hexadecimal digits, and no octets as `-`.
fn push_octets(alloc: Global, text: &mut String, octets: &[u8]) -> Result<(), AllocError>
    ensures { OnOk result
        (string_bytes text.new ≡ string_bytes text.old ++ octets_text octets.now) }
{
    if octets.is_empty() {
        return text.push_str("-");
    }
    let digits = hex::encode(alloc, octets)?;
    text.push_str(digits.as_str())
}

#[tactic(auto, using(std::proofs::Common::append_assoc), unfolding(crate::specs::Report::denial_text))]
fn push_denial(alloc: Global, text: &mut String, reply: &[u8]) -> Result<(), AllocError>
    ensures { OnOk result (string_bytes text.new ≡ string_bytes text.old ++ denial_text reply.now) }
{
    text.push_str("denied ")?;
    push_octets(alloc, text, reply)
}

#[tactic(auto, unfolding(crate::specs::Report::timeout_text))]
fn push_timeout(text: &mut String, since: u64, now: u64) -> Result<(), AllocError>
    ensures { OnOk result
        (string_bytes text.new ≡ string_bytes text.old ++ timeout_text since now) }
{
    write!(text, "timeout {since} {now}")
}

// How an attempt ended.
fn push_end(alloc: Global, text: &mut String, end: &AttemptEnd) -> Result<(), AllocError>
    ensures { OnOk result (string_bytes text.new ≡ string_bytes text.old ++ end_text end.now) }
{
    match end {
        AttemptEnd::Dial => text.push_str("dial"),
        AttemptEnd::Link => text.push_str("link"),
        AttemptEnd::End => text.push_str("end"),
        AttemptEnd::Denied(reply) => push_denial(alloc, text, reply.as_slice()),
        AttemptEnd::TimedOut { since, now } => push_timeout(text, *since, *now),
        AttemptEnd::Idle => text.push_str("idle"),
        AttemptEnd::Spent => text.push_str("spent"),
    }
}

#[tactic(auto, unfolding(crate::specs::Report::try_number))]
fn push_number(text: &mut String, number: u64) -> Result<(), AllocError>
    ensures { OnOk result (string_bytes text.new ≡ string_bytes text.old ++ try_number number) }
{
    write!(text, "try {number} ")
}

// The line of an attempt, by its number.
#[tactic(auto, using(std::proofs::Common::append_assoc), unfolding(crate::specs::Report::try_line))]
fn push_try(
    alloc: Global,
    text: &mut String,
    number: u64,
    end: &AttemptEnd,
) -> Result<(), AllocError>
    ensures { OnOk result
        (string_bytes text.new ≡ string_bytes text.old ++ try_line number end.now) }
{
    push_number(text, number)?;
    push_end(alloc, text, end)?;
    text.push_str("\n")
}

// A line for each attempt, counted from 1.
fn push_tries(alloc: Global, text: &mut String, ends: &[AttemptEnd]) -> Result<(), AllocError>
    ensures { OnOk result (string_bytes text.new ≡ string_bytes text.old ++ try_lines 1 ends.now) }
{
    for i in 0..ends.len() {
        push_try(alloc, text, i as u64 + 1, &ends[i])?;
    }
    Ok(())
}

#[tactic(auto, unfolding(crate::specs::Report::totals_line))]
fn push_totals(text: &mut String, accepted: u64, recorded: u64) -> Result<(), AllocError>
    ensures { OnOk result
        (string_bytes text.new ≡ string_bytes text.old ++ totals_line accepted recorded) }
{
    write!(text, "accepted={accepted} of {recorded}\n")
}

#[tactic(auto, using(std::proofs::Common::append_assoc))]
fn push_tries_and_totals(
    alloc: Global,
    text: &mut String,
    ends: &[AttemptEnd],
    accepted: u64,
    recorded: u64,
) -> Result<(), AllocError>
    ensures { OnOk result (string_bytes text.new
        ≡ string_bytes text.old ++ (try_lines 1 ends.now ++ totals_line accepted recorded)) }
{
    push_tries(alloc, text, ends)?;
    push_totals(text, accepted, recorded)
}

#[tactic(auto, using(std::proofs::Common::append_assoc))]
fn push_tries_and_fault(
    alloc: Global,
    text: &mut String,
    ends: &[AttemptEnd],
) -> Result<(), AllocError>
    ensures { OnOk result (string_bytes text.new
        ≡ string_bytes text.old ++ (try_lines 1 ends.now ++ (early_reply early.StoreFault).text)) }
{
    push_tries(alloc, text, ends)?;
    EarlyEnd::StoreFault.push(text)
}

/// What attempts came to, with the totals of the vault: a line for each attempt that ended, and `accepted=A of R`, or
/// `store fault` where the vault failed (this project's own texts). Of want of memory nothing is put.
#[tactic(auto, unfolding(crate::specs::Report::outcome_reply))]
pub fn push_outcome(
    alloc: Global,
    text: &mut String,
    outcome: &Outcome,
    accepted: u64,
    recorded: u64,
) -> Result<(), AllocError>
    ensures { OnOk result (string_bytes text.new
        ≡ string_bytes text.old ++ (outcome_reply outcome.now accepted recorded).text) }
{
    match outcome {
        Outcome::Done(ends) => {
            push_tries_and_totals(alloc, text, ends.as_slice(), accepted, recorded)
        }
        Outcome::Unsent(ends) => {
            push_tries_and_totals(alloc, text, ends.as_slice(), accepted, recorded)
        }
        Outcome::StoreFault(ends) => push_tries_and_fault(alloc, text, ends.as_slice()),
        Outcome::Memory => Ok(()),
    }
}

/// The status that goes with what attempts came to.
#[tactic(auto, unfolding(crate::specs::Report::outcome_reply))]
pub fn status_of(outcome: &Outcome) -> Status
    ensures { (accepted recorded : ℕ) →
        result ≡ (outcome_reply outcome.now accepted recorded).status }
{
    match outcome {
        Outcome::Done(_) => Status::Done,
        Outcome::Unsent(_) => Status::Unsent,
        Outcome::StoreFault(_) => Status::StoreFault,
        Outcome::Memory => Status::Memory,
    }
}
