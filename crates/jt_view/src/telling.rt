//! What is printed of a stream, as it comes.

ghost use Rattle.std.specs.Prelude.{◌≡◌, ◌≢◌, ◌⊎◌, ◌<◌, ◌≤◌, ◌+◌, ◌^◌, ◌++◌, ◌==◌, if◌then◌else◌, length, string_bytes, IfOk, OnOk};
ghost use Rattle.jt_view.specs.Entry.{lines, end_entries, refusals};
ghost use Rattle.jt_view.specs.Reporting.{TellsOctets, TellsOn, Closes};

use crate::closing::Closing;
use crate::command::Report;
use crate::lines::{push_counts_line, push_hex_refused_line, push_ok_line, push_too_long_line};
use crate::tally::Tally;
use jt_input::Status;
use jt_stream::law_all_items;
use jt_text::{Line, push_refusal_line};
use jt_value::{Memory, Refusal};
use std::alloc::{AllocError, Global};

// Puts the lines of all entries that the octets bring.
fn view(alloc: Global, tally: &mut Tally, octets: &[u8], text: &mut String) -> Result<(), Memory>
    requires { tally.old.stream.splitter.place + length octets.now < 2 ^ 63 }
    ensures place { OnOk result
        (tally.new.stream.splitter.place ≡ tally.old.stream.splitter.place + length octets.now) }
    ensures tells { OnOk result (TellsOn Report.View tally.old tally.new octets.now
        (string_bytes text.old) (string_bytes text.new)) }
{
    let mut line = Line::new();
    let mut at = 0;
    while at < octets.len() {
        at += tally.view(alloc, &octets[at..], &mut line, text)?;
    }
    Ok(())
}

// Takes octets up to the first refusal, and puts its line: then the answer is true.
fn check(alloc: Global, tally: &mut Tally, octets: &[u8], text: &mut String) -> Result<bool, Memory>
    requires { tally.old.stream.splitter.place + length octets.now < 2 ^ 63 }
    ensures place { IfOk result (λ _.
        tally.new.stream.splitter.place ≤ tally.old.stream.splitter.place + length octets.now) }
    ensures tells { IfOk result (λ settled. TellsOctets settled Report.Check tally.old tally.new
        octets.now (string_bytes text.old) (string_bytes text.new)) }
{
    law_all_items();
    let mut at = 0;
    while at < octets.len() {
        let (count, refusal) = tally.judge(alloc, &octets[at..])?;
        at += count;
        match refusal {
            Some(refusal) => {
                push_refusal_line(text, &refusal)?;
                return Ok(true);
            }
            None => {}
        }
    }
    Ok(false)
}

/// Takes octets of the stream, and puts what is printed of them. The answer is true where that settles the report: a check
/// has put its first refusal, and octets may be left.
pub fn tell(
    alloc: Global,
    report: Report,
    tally: &mut Tally,
    octets: &[u8],
    text: &mut String,
) -> Result<bool, Memory>
    requires { tally.old.stream.splitter.place + length octets.now < 2 ^ 63 }
    ensures place { IfOk result (λ _.
        tally.new.stream.splitter.place ≤ tally.old.stream.splitter.place + length octets.now) }
    ensures tells { IfOk result (λ settled. TellsOctets settled report tally.old tally.new
        octets.now (string_bytes text.old) (string_bytes text.new)) }
{
    match report {
        Report::View => {
            view(alloc, tally, octets, text)?;
            Ok(false)
        }
        Report::Check => check(alloc, tally, octets, text),
    }
}

fn push_end(text: &mut String, end: Option<Refusal>) -> Result<(), AllocError>
    ensures { OnOk result
        (string_bytes text.new ≡ string_bytes text.old ++ lines (end_entries end)) }
{
    match end {
        Some(refusal) => push_refusal_line(text, &refusal),
        None => Ok(()),
    }
}

// How many refusals the end adds.
fn end_refusals(end: Option<Refusal>) -> u64
    ensures value { result ≡ refusals (end_entries end) }
    ensures bound { result ≤ 1 }
{
    match end {
        Some(_) => 1,
        None => 0,
    }
}

fn status_of(refused: u64) -> Status
    ensures value { result ≡ (if refused == 0 then Status.Done else Status.Refused) }
    ensures either { (result ≡ Status.Done) ⊎ (result ≡ Status.Refused) }
{
    if refused == 0 {
        Status::Done
    } else {
        Status::Refused
    }
}

// Closes a view of a stream that was read to its end.
fn close_view(tally: &Tally, text: &mut String) -> Result<Status, Memory>
    requires { tally.now.stream.splitter.place < 2 ^ 63 }
    ensures closes { IfOk result (λ status. Closes Report.View Closing.Whole tally.now
        (string_bytes text.old) (string_bytes text.new) status) }
    ensures status { IfOk result (λ status. (status ≡ Status.Done) ⊎ (status ≡ Status.Refused)) }
{
    let end = tally.finish();
    push_end(text, end)?;
    let refused = tally.refused() + end_refusals(end);
    push_counts_line(text, tally.frames(), refused)?;
    Ok(status_of(refused))
}

// Closes a check of a stream that was read to its end, and has no refusal before that.
fn close_check(tally: &Tally, text: &mut String) -> Result<Status, Memory>
    ensures closes { IfOk result (λ status. Closes Report.Check Closing.Whole tally.now
        (string_bytes text.old) (string_bytes text.new) status) }
    ensures status { IfOk result (λ status. (status ≡ Status.Done) ⊎ (status ≡ Status.Refused)) }
{
    match tally.finish() {
        Some(refusal) => {
            push_refusal_line(text, &refusal)?;
            Ok(Status::Refused)
        }
        None => {
            push_ok_line(text, tally.frames())?;
            Ok(Status::Done)
        }
    }
}

/// Puts what closes a report that goes on up to there, and answers the status with which the run then ends.
pub fn close(
    report: Report,
    closing: Closing,
    tally: &Tally,
    text: &mut String,
) -> Result<Status, Memory>
    requires { tally.now.stream.splitter.place < 2 ^ 63 }
    ensures closes { IfOk result (λ status.
        Closes report closing tally.now (string_bytes text.old) (string_bytes text.new) status) }
    ensures status { IfOk result (λ status. (status ≡ Status.Done) ⊎ (status ≡ Status.Refused)) }
    ensures cut { closing ≢ Closing.Whole → IfOk result (λ status. status ≡ Status.Refused) }
{
    match (closing, report) {
        (Closing::Whole, Report::View) => close_view(tally, text),
        (Closing::Whole, Report::Check) => close_check(tally, text),
        (Closing::TooLong, _) => {
            push_too_long_line(text)?;
            Ok(Status::Refused)
        }
        (Closing::HexRefused(place), _) => {
            push_hex_refused_line(text, place)?;
            Ok(Status::Refused)
        }
    }
}
