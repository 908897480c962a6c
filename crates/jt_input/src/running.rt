//! A run over a source and a sink: what is told of the source is written while it is read.

ghost use Rattle.std.specs.Prelude.{◌≡◌, ◌≢◌, ◌⊎◌, ◌<◌, ◌≤◌, ◌+◌, ◌^◌, ℕ, List, [], Some, None, Option, length, string_bytes, IfOk, IfSome};
ghost use Rattle.std.specs.Io.KnownBytes.{IsAtEnd};
ghost use Rattle.jt_value.specs.Counts.{Rose};
ghost use Rattle.jt_input.specs.Answer.{AnswersWhole, EndsEarly, PrintsTaken, ReadsNoFurther, RunsTelling, StopsAtWrite};
ghost use Rattle.jt_input.specs.Running.{Advances, Finishes, Writes};
ghost use Rattle.jt_input.specs.Telling.{SomeStands};

use crate::status::Status;
use crate::teller::Teller;
use jt_outside::{Got, Sink, Source, write_all};
use jt_value::Memory;
use std::alloc::Global;

// How many octets are read at once.
const PIECE: usize = 1 << 14;

// Writes a text, and answers the status that was handed in, or WriteFault where the sink failed.
fn write<K: Sink>(sink: &mut K, text: &String, status: Option<Status>) -> Option<Status>
    ensures writes { Writes (K.written sink.old) (K.written sink.new)
        (string_bytes text.now) status result }
    ensures later { K.faults sink.old ≤ K.faults sink.new }
    ensures write_fault { result ≢ status → Rose (K.faults sink.old) (K.faults sink.new) }
    ensures still { result ≢ Some Status.WriteFault → K.faults sink.new ≡ K.faults sink.old }
{
    if write_all(sink, text.as_bytes()) {
        status
    } else {
        Some(Status::WriteFault)
    }
}

// Takes a piece that was read, and writes what is printed of it. A status ends the run.
fn advance<T: Teller, K: Sink>(
    alloc: Global,
    teller: &mut T,
    sink: &mut K,
    piece: &[u8],
    text: &mut String,
) -> Option<Status>
    requires can { T.can_take teller.old }
    requires few { length piece.now ≤ 2 ^ 14 }
    ensures advances { Advances result T.answer (T.stands teller.old) (T.stands teller.new)
        (T.has_told teller.new) piece.now (K.written sink.old) (K.written sink.new) }
    ensures can { result ≡ None → T.can_take teller.new }
    ensures room { result ≡ None → T.room teller.new + length piece.now ≤ T.room teller.old }
    ensures later { K.faults sink.old ≤ K.faults sink.new }
    ensures write_fault { result ≡ Some Status.WriteFault →
        Rose (K.faults sink.old) (K.faults sink.new) }
    ensures still { result ≢ Some Status.WriteFault → K.faults sink.new ≡ K.faults sink.old }
    ensures early { IfSome result (λ status.
        (status ≢ Status.Done) × (status ≢ Status.ReadFault) × (status ≢ Status.Usage)) }
{
    text.clear();
    match teller.take(alloc, piece, text) {
        Ok(settled) => write(sink, text, settled),
        Err(Memory) => Some(Status::Memory),
    }
}

// Ends the input, and writes the rest of what is printed of it.
fn finish<T: Teller, K: Sink>(
    alloc: Global,
    teller: &mut T,
    sink: &mut K,
    text: &mut String,
) -> Status
    requires can { T.can_take teller.old }
    ensures finishes { Finishes result T.answer (T.stands teller.old) (T.has_told teller.new)
        (K.written sink.old) (K.written sink.new) }
    ensures later { K.faults sink.old ≤ K.faults sink.new }
    ensures write_fault { result ≡ Status.WriteFault →
        Rose (K.faults sink.old) (K.faults sink.new) }
    ensures still { result ≢ Status.WriteFault → K.faults sink.new ≡ K.faults sink.old }
    ensures ended { (result ≢ Status.ReadFault) × (result ≢ Status.Usage) }
{
    text.clear();
    match teller.end(alloc, text) {
        Ok(status) => {
            if write_all(sink, text.as_bytes()) {
                status
            } else {
                Status::WriteFault
            }
        }
        Err(Memory) => Status::Memory,
    }
}

/// Reads the source to its end, or to where the answer is settled, and writes what the teller prints of it. What is printed
/// of a piece is written before the next piece is read. ReadFault, WriteFault and Memory cut the answer short.
pub fn run_teller<T: Teller, S: Source, K: Sink>(
    alloc: Global,
    teller: &mut T,
    source: &mut S,
    sink: &mut K,
) -> Status
    requires { T.can_take teller.old }
    // Whatever the teller was asked, it began with nothing taken. The octets that were taken, what was written of the answer
    // to them, and that it is the answer to the whole source, whatever else the source has.
    ensures runs { (asked : T.Asked) → T.stands teller.old asked [] [] →
        RunsTelling (T.answer asked) (T.has_told teller.new asked)
        (S.left source.old) (S.left source.new) (K.written sink.old) (K.written sink.new) result }
    // So, where the source tells its octets, and no fault came:
    ensures whole { (asked : T.Asked) → T.stands teller.old asked [] [] →
        IfSome (S.left source.old) (AnswersWhole (T.answer asked) (T.has_told teller.new asked)
        result (K.written sink.old) (K.written sink.new)) }
    // The source is read no further than the piece of at most 2^14 octets that settles the answer.
    ensures no_further { (asked : T.Asked) → T.stands teller.old asked [] [] →
        ReadsNoFurther (SomeStands T.stands asked) (2 ^ 14)
        (S.left source.old) (S.left source.new) }
    // What is printed of a piece is written before the next is read, so it is there also where that read fails.
    ensures prints_taken { (asked : T.Asked) → T.stands teller.old asked [] [] →
        result ≡ Status.ReadFault → PrintsTaken (SomeStands T.stands asked)
        (S.left source.old) (S.left source.new) (K.written sink.old) (K.written sink.new) }
    // A write that failed ends the run.
    ensures stops_at_write { (asked : T.Asked) → T.stands teller.old asked [] [] →
        result ≡ Status.WriteFault → StopsAtWrite (T.answer asked) (SomeStands T.stands asked)
        (2 ^ 14) (S.left source.old) (S.left source.new) (K.written sink.old) (K.written sink.new) }
    ensures to_the_end { result ≡ Status.Done → IsAtEnd (S.left source.new) }
    ensures read_fault { result ≡ Status.ReadFault →
        Rose (S.faults source.old) (S.faults source.new) }
    ensures write_fault { result ≡ Status.WriteFault →
        Rose (K.faults sink.old) (K.faults sink.new) }
    // Every other status, so Memory too, comes only where the counts of faults stood still.
    ensures read_still { result ≢ Status.ReadFault →
        S.faults source.new ≡ S.faults source.old }
    ensures write_still { result ≢ Status.WriteFault → K.faults sink.new ≡ K.faults sink.old }
    ensures not_usage { result ≢ Status.Usage }
{
    let mut buf = [0; PIECE];
    let mut text = String::new(alloc);
    loop {
        match source.read(&mut buf) {
            Got::Bytes(count) => {
                match advance(alloc, teller, sink, &buf[..count], &mut text) {
                    Some(status) => return status,
                    None => {}
                }
            }
            Got::End => return finish(alloc, teller, sink, &mut text),
            Got::Failed => return Status::ReadFault,
        }
    }
}
