//! The command over a source and a sink.

ghost use Rattle.std.specs.Prelude.{◌≡◌, ◌≢◌};
ghost use Rattle.jt_value.specs.Counts.{Rose};
ghost use Rattle.jt_order_command.specs.Running.{IsBegun, RunsOrders};

use crate::hearing::OrderPlayer;
use jt_input::{LineTeller, Status, run_teller};
use jt_order_octets::law_order_world;
use jt_outside::{Sink, Source};
use std::alloc::Global;

// Plays by a teller that heard nothing yet.
fn play_by<S: Source, K: Sink>(
    alloc: Global,
    teller: &mut LineTeller<OrderPlayer>,
    source: &mut S,
    sink: &mut K,
) -> Status
    requires { IsBegun teller.old.hearer teller.old.cutter teller.old.bad }
    ensures runs { RunsOrders (S.left source.old) (S.left source.new)
        (K.written sink.old) (K.written sink.new) result }
    ensures read_fault { result ≡ Status.ReadFault →
        Rose (S.faults source.old) (S.faults source.new) }
    ensures write_fault { result ≡ Status.WriteFault →
        Rose (K.faults sink.old) (K.faults sink.new) }
    // Every other status, so Memory too, comes only where the counts of faults stood still.
    ensures read_still { result ≢ Status.ReadFault →
        S.faults source.new ≡ S.faults source.old }
    ensures write_still { result ≢ Status.WriteFault → K.faults sink.new ≡ K.faults sink.old }
    ensures not_usage { result ≢ Status.Usage }
{
    law_order_world();
    run_teller(alloc, teller, source, sink)
}

/// Plays the script of the source over a world of orders, and writes what is printed of it: a line for each order that is performed and
/// for each that is answered, as it happens, and at its end how far the orders came. Refused says that a line is bad, which is printed:
/// it is outside all forms, its order is refused, or it names a line of communication that was not opened. StoreFault says that the
/// book was full, which is printed. ReadFault, WriteFault and Memory cut the text short; Memory comes also at a `run` of which an octet
/// would move yet behind 2^64 - 1 rounds. The forms and texts are this project's own.
pub fn orders<S: Source, K: Sink>(alloc: Global, source: &mut S, sink: &mut K) -> Status
    ensures runs { RunsOrders (S.left source.old) (S.left source.new)
        (K.written sink.old) (K.written sink.new) result }
    ensures read_fault { result ≡ Status.ReadFault →
        Rose (S.faults source.old) (S.faults source.new) }
    ensures write_fault { result ≡ Status.WriteFault →
        Rose (K.faults sink.old) (K.faults sink.new) }
    // Every other status, so Memory too, comes only where the counts of faults stood still.
    ensures read_still { result ≢ Status.ReadFault →
        S.faults source.new ≡ S.faults source.old }
    ensures write_still { result ≢ Status.WriteFault → K.faults sink.new ≡ K.faults sink.old }
    ensures not_usage { result ≢ Status.Usage }
{
    let Ok(player) = OrderPlayer::new(alloc) else {
        return Status::Memory;
    };
    let mut teller = LineTeller::new(player);
    let status = play_by(alloc, &mut teller, source, sink);
    drop(teller);
    status
}
