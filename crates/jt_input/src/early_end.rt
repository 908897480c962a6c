//! What ends a command before all of its input was answered, and how a text is written.

ghost use Rattle.std.specs.Prelude.{◌≡◌, ◌≢◌, ◌⊎◌, ◌++◌, string_bytes, OnOk};
ghost use Rattle.jt_value.specs.Counts.{Rose};
ghost use Rattle.jt_input.specs.Answer.{AnswersReply, CutsShort};
ghost use Rattle.jt_input.specs.EarlyEnds.{early_reply, full_line, list_line};

use crate::line_teller::push_bad_line;
use crate::status::Status;
use jt_outside::{Sink, write_all};
use std::alloc::{AllocError, Global};
use std::fmt::Write;

/// What ends a command early; one line tells it (this project's own texts).
#[derive(Clone, Copy, Debug, PartialEq, Eq)]
pub enum EarlyEnd {
    /// The line of this number, counted from 1, is bad or beyond the limits of a text input: `line N refused`.
    BadLine(u64),
    /// A vault holds this many fixes that are not accepted, as many as it may: `vault full at L`.
    VaultFull(u64),
    /// A list of the platform holds as many entries, registrations or rows as it may, this many: `list full at L`.
    ListFull(u64),
    /// A store failed: `store fault`.
    StoreFault,
    /// The listener failed: `listen fault`.
    ListenFault,
}

#[tactic(auto, unfolding(crate::specs::EarlyEnds::full_line))]
fn push_full_line(text: &mut String, limit: u64) -> Result<(), AllocError>
    ensures { OnOk result (string_bytes text.new ≡ string_bytes text.old ++ full_line limit) }
{
    write!(text, "vault full at {limit}\n")
}

#[tactic(auto, unfolding(crate::specs::EarlyEnds::list_line))]
fn push_list_line(text: &mut String, limit: u64) -> Result<(), AllocError>
    ensures { OnOk result (string_bytes text.new ≡ string_bytes text.old ++ list_line limit) }
{
    write!(text, "list full at {limit}\n")
}

impl EarlyEnd {
    /// Puts the line that tells it at the end of a text. After an error the text is a part of that.
    pub fn push(self, text: &mut String) -> Result<(), AllocError>
        ensures { OnOk result
            (string_bytes text.new ≡ string_bytes text.old ++ (early_reply self).text) }
    {
        match self {
            EarlyEnd::BadLine(number) => push_bad_line(text, number),
            EarlyEnd::VaultFull(limit) => push_full_line(text, limit),
            EarlyEnd::ListFull(limit) => push_list_line(text, limit),
            EarlyEnd::StoreFault => text.push_str("store fault\n"),
            EarlyEnd::ListenFault => text.push_str("listen fault\n"),
        }
    }

    /// The status that goes with the line.
    pub fn status(self) -> Status
        ensures status { result ≡ (early_reply self).status }
        ensures not_memory { result ≢ Status.Memory }
    {
        match self {
            EarlyEnd::BadLine(_) => Status::Refused,
            EarlyEnd::VaultFull(_) | EarlyEnd::ListFull(_) | EarlyEnd::StoreFault => {
                Status::StoreFault
            },
            EarlyEnd::ListenFault => Status::NetFault,
        }
    }
}

/// Writes a text, all at once, and hands its status on, or WriteFault where a write failed. Want of memory is told whatever
/// becomes of the write.
pub fn write_reply<K: Sink>(sink: &mut K, text: &[u8], status: Status) -> Status
    ensures answers { AnswersReply result (record { text = text.now; status = status })
        (K.written sink.old) (K.written sink.new) }
    ensures status { (result ≡ status) ⊎ (result ≡ Status.WriteFault) }
    ensures memory { status ≡ Status.Memory → result ≡ Status.Memory }
    ensures write_fault { result ≡ Status.WriteFault → status ≢ Status.WriteFault
        → Rose (K.faults sink.old) (K.faults sink.new) }
    ensures still { status ≢ Status.Memory → result ≢ Status.WriteFault
        → K.faults sink.new ≡ K.faults sink.old }
{
    if write_all(sink, text) || status == Status::Memory {
        status
    } else {
        Status::WriteFault
    }
}

/// Writes the line that tells what ended a command early. WriteFault says that a write failed, Memory that there was none for
/// the line; what was written then is the front of it.
pub fn answer_early_end<K: Sink>(alloc: Global, sink: &mut K, end: EarlyEnd) -> Status
    ensures answers { AnswersReply result (early_reply end)
        (K.written sink.old) (K.written sink.new) }
    ensures status { (result ≡ (early_reply end).status) ⊎ CutsShort result }
    ensures write_fault { result ≡ Status.WriteFault →
        Rose (K.faults sink.old) (K.faults sink.new) }
    // Every other status, so Memory too, comes only where the count of faults stood still.
    ensures still { result ≢ Status.WriteFault → K.faults sink.new ≡ K.faults sink.old }
    ensures no_read_fault { result ≢ Status.ReadFault }
{
    let mut text = String::new(alloc);
    match end.push(&mut text) {
        Ok(()) => write_reply(sink, text.as_bytes(), end.status()),
        Err(_) => Status::Memory,
    }
}
