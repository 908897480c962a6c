//! What `platform` writes of what came of it.

ghost use Rattle.std.specs.Prelude.{◌≡◌, ◌≢◌, ◌⊎◌, ◌++◌, string_bytes, OnOk, if◌then◌else◌};
ghost use Rattle.jt_value.specs.Counts.{Rose};
ghost use Rattle.jt_input.specs.Answer.{AnswersReply, IsFault};
ghost use Rattle.jt_input.specs.declared.status.Status.TheVariants.{Memory};
ghost use Rattle.jt_platform_command.specs.Platform.{BadLine, Served, is_memory, last_reply, platform_text, some_end};
ghost use Rattle.jt_platform_command.specs.Running.{EndsOf};

use crate::printing::{push_entries_line, push_last_line, push_session_lines, served_status};
use jt_input::{EarlyEnd, Status, answer_early_end, write_reply};
use jt_outside::Sink;
use jt_platform::Entry;
use jt_server::ServeEnd;
use jt_session::Report;
use std::alloc::{AllocError, Global};

/// The line of the source of this number is bad: what is written of it.
#[tactic(auto, unfolding(crate::specs::Platform::platform_text))]
pub(crate) fn answer_bad_line<K: Sink>(alloc: Global, sink: &mut K, number: u64) -> Status
    ensures answers { AnswersReply result (platform_text (BadLine number))
        (K.written sink.old) (K.written sink.new) }
    ensures status { (result ≡ Status.Refused) ⊎ IsFault result }
    ensures write_fault { result ≡ Status.WriteFault →
        Rose (K.faults sink.old) (K.faults sink.new) }
    ensures still { result ≢ Status.WriteFault → K.faults sink.new ≡ K.faults sink.old }
    ensures no_read_fault { result ≢ Status.ReadFault }
{
    answer_early_end(alloc, sink, EarlyEnd::BadLine(number))
}

#[tactic(auto, using(std::proofs::Common::append_assoc), unfolding(crate::specs::Platform::platform_text))]
fn push_served(
    text: &mut String,
    end: ServeEnd,
    reports: &[Report],
    history: &[Entry],
) -> Result<(), AllocError>
    ensures { OnOk result (string_bytes text.new
        ≡ string_bytes text.old ++ (platform_text (Served end reports.now history.now)).text) }
{
    push_session_lines(text, reports)?;
    push_entries_line(text, history)?;
    push_last_line(text, end, reports)
}

/// What came of the sessions.
#[tactic(auto, unfolding(crate::specs::Platform::platform_text))]
pub(crate) fn tell_served<K: Sink>(
    alloc: Global,
    sink: &mut K,
    end: ServeEnd,
    reports: &[Report],
    history: &[Entry],
) -> Status
    ensures answers { AnswersReply result (platform_text (Served end reports.now history.now))
        (K.written sink.old) (K.written sink.new) }
    ensures status { (result
        ≡ (if some_end is_memory reports.now then Memory else (last_reply end reports.now).status))
        ⊎ IsFault result }
    ensures write_fault { result ≡ Status.WriteFault →
        Rose (K.faults sink.old) (K.faults sink.new) }
    // Want of memory before the first session, or in one, is told also where the write then fails.
    ensures write_still { result ≢ Status.WriteFault → (K.faults sink.new ≡ K.faults sink.old)
        ⊎ ((result ≡ Memory)
        × ((platform_text (Served end reports.now history.now)).status ≡ Memory)) }
    ensures no_read_fault { result ≢ Status.ReadFault }
    ensures ends { EndsOf end result }
{
    let mut text = String::new(alloc);
    match push_served(&mut text, end, reports, history) {
        Ok(()) => write_reply(sink, text.as_bytes(), served_status(end, reports)),
        Err(_) => Status::Memory,
    }
}
