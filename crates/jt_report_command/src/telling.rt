//! What `report` writes of what came of it.

ghost use Rattle.std.specs.Prelude.{◌≡◌, ◌≢◌, ◌⊎◌};
ghost use Rattle.jt_value.specs.Counts.{Rose};
ghost use Rattle.jt_input.specs.Answer.{AnswersReply, CutsShort};
ghost use Rattle.jt_report_command.specs.Came.{BadLine, Reported, report_text};
ghost use Rattle.jt_report_command.specs.Report.{outcome_reply};

use crate::printing::{push_outcome, status_of};
use crate::{FixLine, push_bad_line_of};
use jt_agent::Outcome;
use jt_input::{Status, write_reply};
use jt_outside::Sink;
use std::alloc::Global;

/// The line of this number is bad: what it says.
#[tactic(auto, unfolding(crate::specs::Came::report_text))]
pub(crate) fn tell_bad_line<K: Sink>(
    alloc: Global,
    sink: &mut K,
    number: u64,
    said: &FixLine,
) -> Status
    ensures answers { AnswersReply result (report_text (BadLine number said.now))
        (K.written sink.old) (K.written sink.new) }
    ensures status { (result ≡ Status.Refused) ⊎ CutsShort result }
    ensures write_fault { result ≡ Status.WriteFault →
        Rose (K.faults sink.old) (K.faults sink.new) }
    ensures write_still { result ≢ Status.WriteFault → K.faults sink.new ≡ K.faults sink.old }
{
    let mut text = String::new(alloc);
    match push_bad_line_of(&mut text, number, said) {
        Ok(()) => write_reply(sink, text.as_bytes(), Status::Refused),
        Err(_) => Status::Memory,
    }
}

/// What attempts came to, with these totals.
#[tactic(auto, unfolding(crate::specs::Came::report_text))]
pub(crate) fn tell_outcome<K: Sink>(
    alloc: Global,
    sink: &mut K,
    outcome: &Outcome,
    accepted: u64,
    recorded: u64,
) -> Status
    ensures answers { AnswersReply result (report_text (Reported outcome.now accepted recorded))
        (K.written sink.old) (K.written sink.new) }
    ensures status { (result ≡ (outcome_reply outcome.now accepted recorded).status)
        ⊎ CutsShort result }
    ensures write_fault { result ≡ Status.WriteFault →
        Rose (K.faults sink.old) (K.faults sink.new) }
    ensures write_still { result ≢ Status.WriteFault → K.faults sink.new ≡ K.faults sink.old }
{
    let status = status_of(outcome);
    if status == Status::Memory {
        return status;
    }
    let mut text = String::new(alloc);
    match push_outcome(alloc, &mut text, outcome, accepted, recorded) {
        Ok(()) => write_reply(sink, text.as_bytes(), status),
        Err(_) => Status::Memory,
    }
}
