//! A report of a source, written to a sink while it is read.

ghost use Rattle.std.specs.Prelude.{◌≡◌, ◌≢◌, ◌⊎◌, ◌≤◌, ◌^◌, IfSome};
ghost use Rattle.std.specs.Io.KnownBytes.{IsAtEnd, Appends};
ghost use Rattle.jt_value.specs.declared.limits.TheConstants.{INPUT_LIMIT};
ghost use Rattle.jt_value.specs.Counts.{Rose};
ghost use Rattle.jt_input.specs.Answer.{IsFault, PrintsTaken, ReadsNoFurther, Runs, StopsAtWrite};
ghost use Rattle.jt_view.specs.Answer.{IsOpen};
ghost use Rattle.jt_view.specs.Report.{answer_of};

use crate::command::Command;
use crate::reporter::Reporter;
use jt_input::{Status, run_teller};
use jt_outside::{Sink, Source};
use std::alloc::Global;

/// Reads the source to its end, or to where its report is settled, and writes the report. Of the source at most `most`
/// octets are reported. What is printed of a piece is written before the next piece is read.
pub fn report<S: Source, K: Sink>(
    alloc: Global,
    source: &mut S,
    sink: &mut K,
    command: Command,
    most: u64,
) -> Status
    requires { most ≤ INPUT_LIMIT }
    ensures runs { Runs (answer_of command most) (S.left source.old) (S.left source.new)
        (K.written sink.old) (K.written sink.new) result }
    // So, where the source tells its octets, and no fault came:
    ensures whole { IfSome (S.left source.old) (λ octets.
        IsFault result ⊎ ((result ≡ (answer_of command most octets).status)
        × Appends (K.written sink.old) (K.written sink.new) (answer_of command most octets).text)) }
    ensures no_further { ReadsNoFurther (IsOpen command most) (2 ^ 14)
        (S.left source.old) (S.left source.new) }
    ensures prints_taken { result ≡ Status.ReadFault → PrintsTaken (IsOpen command most)
        (S.left source.old) (S.left source.new) (K.written sink.old) (K.written sink.new) }
    // A write that failed ends the run.
    ensures stops_at_write { result ≡ Status.WriteFault →
        StopsAtWrite (answer_of command most) (IsOpen command most) (2 ^ 14)
        (S.left source.old) (S.left source.new) (K.written sink.old) (K.written sink.new) }
    ensures to_the_end { result ≡ Status.Done → IsAtEnd (S.left source.new) }
    ensures read_fault { result ≡ Status.ReadFault →
        Rose (S.faults source.old) (S.faults source.new) }
    ensures write_fault { result ≡ Status.WriteFault →
        Rose (K.faults sink.old) (K.faults sink.new) }
    // Every other status, so Memory too, comes only where the counts of faults stood still.
    ensures read_still { result ≢ Status.ReadFault →
        S.faults source.new ≡ S.faults source.old }
    ensures write_still { result ≢ Status.WriteFault → K.faults sink.new ≡ K.faults sink.old }
    ensures not_usage { result ≢ Status.Usage }
{
    let mut reporter = Reporter::new(alloc, command, most);
    run_teller(alloc, &mut reporter, source, sink)
}
