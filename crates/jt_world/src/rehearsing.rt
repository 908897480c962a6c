//! A rehearsal of a source, written to a sink while it is read.

ghost use Rattle.std.specs.Prelude.{◌≡◌, ◌≢◌, ◌^◌, ◌⊎◌, IfSome};
ghost use Rattle.std.specs.Io.KnownBytes.{IsAtEnd, Appends};
ghost use Rattle.jt_value.specs.Counts.{Rose};
ghost use Rattle.jt_world.specs.Claim.{KeptWhole};
ghost use Rattle.jt_input.specs.Answer.{PrintsTaken, ReadsNoFurther, StopsAtWrite};
ghost use Rattle.jt_world.specs.Rehearsal.{rehearsal, rehearsal_text, script_reply, world_of};
ghost use Rattle.jt_world.specs.Rehearsing.{IsFault, IsHeard, IsNew, Rehearses, ending};

use crate::laws::law_world;
use crate::world::World;
use jt_input::{LineTeller, Status, run_teller};
use jt_outside::{Sink, Source};
use jt_value::limits::FIX_LIMIT;
use std::alloc::Global;

/// How a rehearsal ended (this project's own answers).
#[derive(Clone, Copy, Debug, PartialEq, Eq)]
pub enum Rehearsed {
    /// The script was read to its end, and has no bad line.
    Done,
    /// The line of this number, from 1, is bad, and nothing behind it was done.
    BadLine(u64),
    /// A read of the source failed.
    ReadFault,
    /// A write to the sink failed.
    WriteFault,
    /// So many fixes are not accepted, the limit of the vault, and one was to be recorded. Nothing
    /// behind it was done.
    Full(u64),
    /// Memory was wanted and refused.
    Memory,
}

// Rehearses by a teller that heard nothing yet.
fn rehearse_by<S: Source, K: Sink>(
    alloc: Global,
    teller: &mut LineTeller<World>,
    source: &mut S,
    sink: &mut K,
) -> Rehearsed
    requires { IsNew teller.old.hearer teller.old.cutter teller.old.bad }
    ensures rehearses { Rehearses (S.left source.old) (S.left source.new)
        (K.written sink.old) (K.written sink.new) result }
    ensures whole { IfSome (S.left source.old) (λ script.
        IsFault result ⊎ ((result ≡ ending (rehearsal script).end)
        × Appends (K.written sink.old) (K.written sink.new) (rehearsal_text script)
        × KeptWhole (world_of script))) }
    ensures no_further { ReadsNoFurther IsHeard (2 ^ 14) (S.left source.old) (S.left source.new) }
    ensures prints_taken { result ≡ Rehearsed.ReadFault → PrintsTaken IsHeard
        (S.left source.old) (S.left source.new) (K.written sink.old) (K.written sink.new) }
    ensures stops_at_write { result ≡ Rehearsed.WriteFault → StopsAtWrite script_reply IsHeard
        (2 ^ 14) (S.left source.old) (S.left source.new) (K.written sink.old) (K.written sink.new) }
    ensures to_the_end { result ≡ Rehearsed.Done → IsAtEnd (S.left source.new) }
    ensures read_fault { result ≡ Rehearsed.ReadFault →
        Rose (S.faults source.old) (S.faults source.new) }
    ensures write_fault { result ≡ Rehearsed.WriteFault →
        Rose (K.faults sink.old) (K.faults sink.new) }
    // Every other status, so Memory too, comes only where the counts of faults stood still.
    ensures read_still { result ≢ Rehearsed.ReadFault →
        S.faults source.new ≡ S.faults source.old }
    ensures write_still { result ≢ Rehearsed.WriteFault → K.faults sink.new ≡ K.faults sink.old }
{
    law_world();
    match run_teller(alloc, teller, source, sink) {
        Status::Done => Rehearsed::Done,
        Status::Refused => match teller.bad() {
            Some(number) => Rehearsed::BadLine(number),
            None => unreachable!(),
        },
        Status::ReadFault => Rehearsed::ReadFault,
        Status::WriteFault => Rehearsed::WriteFault,
        Status::Memory => Rehearsed::Memory,
        Status::Usage => unreachable!(),
        Status::StoreFault => Rehearsed::Full(FIX_LIMIT),
        Status::NetFault => unreachable!(),
        Status::Unsent => unreachable!(),
    }
}

/// Rehearses the script of the source, and writes what is printed of it.
pub fn rehearse<S: Source, K: Sink>(alloc: Global, source: &mut S, sink: &mut K) -> Rehearsed
    // The octets that were taken, what was written of them, and that this is of the whole script,
    // whatever else it has, and that the claim of delivery holds of its world.
    ensures rehearses { Rehearses (S.left source.old) (S.left source.new)
        (K.written sink.old) (K.written sink.new) result }
    // So, where the source tells its octets, and no fault came:
    ensures whole { IfSome (S.left source.old) (λ script.
        IsFault result ⊎ ((result ≡ ending (rehearsal script).end)
        × Appends (K.written sink.old) (K.written sink.new) (rehearsal_text script)
        × KeptWhole (world_of script))) }
    // The source is read no further than the piece of at most 2^14 octets that has the line which
    // ends it.
    ensures no_further { ReadsNoFurther IsHeard (2 ^ 14) (S.left source.old) (S.left source.new) }
    // What is printed of a piece is written before the next is read, so it is there also where that
    // read fails.
    ensures prints_taken { result ≡ Rehearsed.ReadFault → PrintsTaken IsHeard
        (S.left source.old) (S.left source.new) (K.written sink.old) (K.written sink.new) }
    // A write that failed ends the rehearsal.
    ensures stops_at_write { result ≡ Rehearsed.WriteFault → StopsAtWrite script_reply IsHeard
        (2 ^ 14) (S.left source.old) (S.left source.new) (K.written sink.old) (K.written sink.new) }
    ensures to_the_end { result ≡ Rehearsed.Done → IsAtEnd (S.left source.new) }
    ensures read_fault { result ≡ Rehearsed.ReadFault →
        Rose (S.faults source.old) (S.faults source.new) }
    ensures write_fault { result ≡ Rehearsed.WriteFault →
        Rose (K.faults sink.old) (K.faults sink.new) }
    // Every other status, so Memory too, comes only where the counts of faults stood still.
    ensures read_still { result ≢ Rehearsed.ReadFault →
        S.faults source.new ≡ S.faults source.old }
    ensures write_still { result ≢ Rehearsed.WriteFault → K.faults sink.new ≡ K.faults sink.old }
{
    let Ok(world) = World::new(alloc) else {
        return Rehearsed::Memory;
    };
    let mut teller = LineTeller::new(world);
    let ended = rehearse_by(alloc, &mut teller, source, sink);
    drop(teller);
    ended
}
