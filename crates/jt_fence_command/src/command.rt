//! The command over a source and a sink.

ghost use Rattle.std.specs.Prelude.{◌≡◌, ◌≢◌};
ghost use Rattle.jt_value.specs.Counts.{Rose};
ghost use Rattle.jt_fence_command.specs.Running.{Watches};

use crate::alarm_tally::AlarmTally;
use jt_input::{LineTeller, Status, run_teller};
use jt_outside::{Sink, Source};
use std::alloc::Global;

/// Reads the track of the source, and writes a line for each alarm that its fixes raise, and at its end how many fixes and
/// alarms there were. Refused says that a line is bad, which is printed: it is outside all forms or beyond the limits of a text
/// input, its octets are not of their kind, or its change of the regions is refused. ReadFault, WriteFault and Memory cut the
/// text short. The forms and texts are this project's own.
pub fn fence<S: Source, K: Sink>(alloc: Global, source: &mut S, sink: &mut K) -> Status
    ensures watches { Watches (S.left source.old) (S.left source.new)
        (K.written sink.old) (K.written sink.new) result }
    ensures read_fault { result ≡ Status.ReadFault →
        Rose (S.faults source.old) (S.faults source.new) }
    ensures write_fault { result ≡ Status.WriteFault →
        Rose (K.faults sink.old) (K.faults sink.new) }
    // Every other status, so Memory too, comes only where the counts of faults stood still.
    ensures read_still { result ≢ Status.ReadFault →
        S.faults source.new ≡ S.faults source.old }
    ensures write_still { result ≢ Status.WriteFault → K.faults sink.new ≡ K.faults sink.old }
    ensures not_usage { result ≢ Status.Usage }
{
    let mut teller = LineTeller::new(AlarmTally::new(alloc));
    run_teller(alloc, &mut teller, source, sink)
}
