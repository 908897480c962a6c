//! The rehearsal of a script, as a run of the program.

ghost use Rattle.std.specs.Prelude.{◌≡◌, ◌≢◌, ◌⊎◌, ◌^◌, IfSome};
ghost use Rattle.std.specs.Io.KnownBytes.{IsAtEnd, Appends};
ghost use Rattle.jt_value.specs.Counts.{Rose};
ghost use Rattle.jt_world.specs.Claim.{KeptWhole};
ghost use Rattle.jt_world.specs.Made.{made, made_reply};
ghost use Rattle.jt_world.specs.Rehearsal.{script_reply, world_of};
ghost use Rattle.jt_world.specs.Rehearsing.{IsHeard};
ghost use Rattle.jt_input.specs.Answer.{AnswersReply, IsFault, PrintsTaken, ReadsNoFurther, StopsAtWrite};
ghost use Rattle.jt_cli.specs.Script.{RunsScript, status_of as status_when};
ghost use Rattle.jt_cli.specs.Statuses.{IsWithoutLinks};

use jt_input::Status;
use jt_outside::{Sink, Source};
use jt_world::{Rehearsed, make, rehearse};
use std::alloc::Global;

// The status of a run whose rehearsal ended so.
fn status_of(rehearsed: Rehearsed) -> Status
    ensures { result ≡ status_when rehearsed }
{
    match rehearsed {
        Rehearsed::Done => Status::Done,
        Rehearsed::BadLine(_number) => Status::Refused,
        Rehearsed::ReadFault => Status::ReadFault,
        Rehearsed::WriteFault => Status::WriteFault,
        Rehearsed::Full(_limit) => Status::StoreFault,
        Rehearsed::Memory => Status::Memory,
    }
}

/// Rehearses the script of the source, and writes what is printed of it.
pub fn play<S: Source, K: Sink>(alloc: Global, source: &mut S, sink: &mut K) -> Status
    ensures runs { RunsScript (S.left source.old) (S.left source.new)
        (K.written sink.old) (K.written sink.new) result }
    ensures whole { IfSome (S.left source.old) (λ script.
        IsFault result ⊎ ((result ≡ (script_reply script).status)
        × Appends (K.written sink.old) (K.written sink.new) (script_reply script).text
        × KeptWhole (world_of script))) }
    ensures no_further { ReadsNoFurther IsHeard (2 ^ 14) (S.left source.old) (S.left source.new) }
    ensures prints_taken { result ≡ Status.ReadFault → PrintsTaken IsHeard
        (S.left source.old) (S.left source.new) (K.written sink.old) (K.written sink.new) }
    ensures stops_at_write { result ≡ Status.WriteFault → StopsAtWrite script_reply IsHeard (2 ^ 14)
        (S.left source.old) (S.left source.new) (K.written sink.old) (K.written sink.new) }
    ensures to_the_end { result ≡ Status.Done → IsAtEnd (S.left source.new) }
    ensures read_fault { result ≡ Status.ReadFault →
        Rose (S.faults source.old) (S.faults source.new) }
    ensures write_fault { result ≡ Status.WriteFault →
        Rose (K.faults sink.old) (K.faults sink.new) }
    // Every other status, so Memory too, comes only where the counts of faults stood still.
    ensures read_still { result ≢ Status.ReadFault →
        S.faults source.new ≡ S.faults source.old }
    ensures write_still { result ≢ Status.WriteFault → K.faults sink.new ≡ K.faults sink.old }
    ensures not_usage { result ≢ Status.Usage }
    ensures without_links { IsWithoutLinks result }
{
    status_of(rehearse(alloc, source, sink))
}

/// Makes the script of so many fixes, rehearses it, and writes the last line of what is printed of it.
pub fn play_made<K: Sink>(alloc: Global, sink: &mut K, count: u32) -> Status
    ensures answers { AnswersReply result (made_reply count)
        (K.written sink.old) (K.written sink.new) }
    ensures kept { IsFault result ⊎ KeptWhole (made count).play.world }
    ensures not_read_fault { result ≢ Status.ReadFault }
    ensures write_fault { result ≡ Status.WriteFault →
        Rose (K.faults sink.old) (K.faults sink.new) }
    ensures write_still { result ≢ Status.WriteFault → K.faults sink.new ≡ K.faults sink.old }
    ensures not_usage { result ≢ Status.Usage }
    ensures without_links { IsWithoutLinks result }
{
    status_of(make(alloc, sink, count))
}
