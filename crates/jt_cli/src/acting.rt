//! Tasks, and the answer for words that ask nothing.

ghost use Rattle.std.specs.Prelude.{◌≡◌, ◌≢◌, []};
ghost use Rattle.jt_value.specs.Counts.{Rose};
ghost use Rattle.jt_input.specs.Answer.{AnswersReply};
ghost use Rattle.jt_cli.specs.Acting.{Acts};
ghost use Rattle.jt_cli.specs.Running.{Refuses, Streams, eyes_of};
ghost use Rattle.jt_cli.specs.Usage.{usage};

use crate::outside::{Ended, Outside};
use crate::playing::{play, play_made};
use crate::task::Task;
use crate::usage::push_usage_line;
use jt_fence_command::fence;
use jt_gateway_command::gateway;
use jt_input::Status;
use jt_order_command::orders;
use jt_outside::{Clock, Dial, Sink, Source, write_all};
use jt_store::{Keeper, Vault};
use jt_value::Seq;
use jt_value::limits::INPUT_LIMIT;
use jt_view::report;
use std::alloc::Global;

// Writes the usage line.
#[tactic(auto, unfolding(crate::specs::Usage::usage))]
fn write_usage<K: Sink>(alloc: Global, sink: &mut K) -> Status
    ensures answer { AnswersReply result usage (K.written sink.old) (K.written sink.new) }
    ensures not_read_fault { result ≢ Status.ReadFault }
    ensures write_fault { result ≡ Status.WriteFault →
        Rose (K.faults sink.old) (K.faults sink.new) }
    ensures write_still { result ≢ Status.WriteFault → K.faults sink.new ≡ K.faults sink.old }
{
    let mut line = String::new(alloc);
    match push_usage_line(&mut line) {
        Ok(()) => {
            if write_all(sink, line.as_bytes()) {
                Status::Usage
            } else {
                Status::WriteFault
            }
        }
        Err(_) => Status::Memory,
    }
}

// Does a task.
fn act<S: Source, K: Sink>(alloc: Global, source: &mut S, sink: &mut K, task: Task) -> Status
    ensures acts { Acts task (S.left source.old) (S.left source.new)
        (K.written sink.old) (K.written sink.new) result }
    ensures read_fault { result ≡ Status.ReadFault →
        Rose (S.faults source.old) (S.faults source.new) }
    // Every other status, so Memory too, comes only where the count of faults stood still.
    ensures read_still { result ≢ Status.ReadFault →
        S.faults source.new ≡ S.faults source.old }
    ensures write_fault { result ≡ Status.WriteFault →
        Rose (K.faults sink.old) (K.faults sink.new) }
    ensures write_still { result ≢ Status.WriteFault → K.faults sink.new ≡ K.faults sink.old }
    ensures not_usage { result ≢ Status.Usage }
{
    match task {
        Task::Tell(command) => report(alloc, source, sink, command, INPUT_LIMIT),
        Task::Rehearse => play(alloc, source, sink),
        Task::Make(count) => play_made(alloc, sink, count),
        Task::Fence => fence(alloc, source, sink),
        Task::Gateway => gateway(alloc, source, sink),
        Task::Orders => orders(alloc, source, sink),
    }
}

/// Does a task, and leaves all but the source and the sink as it is.
pub fn run_task<S: Source, K: Sink, D: Dial, L, C: Clock, P: Keeper, V: Vault>(
    alloc: Global,
    task: Task,
    outside: Outside<S, K, D, L, C, P, V>,
) -> Ended<S, K, D, L, C, P, V>
    ensures does { let eyes = eyes_of S.left K.written D.pool D.faults C.time
        P.tables P.limit P.faults V.holds V.limit V.faults V.may_fail in
        Streams eyes task outside result }
    ensures read_fault { result.status ≡ Status.ReadFault →
        Rose (S.faults outside.source) (S.faults result.outside.source) }
    // Every other status, so Memory too, comes only where the count of faults stood still.
    ensures read_still { result.status ≢ Status.ReadFault →
        S.faults result.outside.source ≡ S.faults outside.source }
    ensures write_fault { result.status ≡ Status.WriteFault →
        Rose (K.faults outside.sink) (K.faults result.outside.sink) }
    ensures write_still { result.status ≢ Status.WriteFault →
        K.faults result.outside.sink ≡ K.faults outside.sink }
    ensures not_usage { result.status ≢ Status.Usage }
{
    let mut outside = outside;
    let status = act(alloc, &mut outside.source, &mut outside.sink, task);
    Ended {
        status,
        outside,
        reports: Seq::new(alloc),
        history: Seq::new(alloc),
    }
}

/// Answers words that ask nothing, and leaves all but the sink as it is.
pub fn refuse<S: Source, K: Sink, D: Dial, L, C: Clock, P: Keeper, V: Vault>(
    alloc: Global,
    outside: Outside<S, K, D, L, C, P, V>,
) -> Ended<S, K, D, L, C, P, V>
    ensures does { let eyes = eyes_of S.left K.written D.pool D.faults C.time
        P.tables P.limit P.faults V.holds V.limit V.faults V.may_fail in
        Refuses eyes outside result }
    // Every other status, so Memory too, comes only where the count of faults stood still.
    ensures read_still { S.faults result.outside.source ≡ S.faults outside.source }
    ensures write_fault { result.status ≡ Status.WriteFault →
        Rose (K.faults outside.sink) (K.faults result.outside.sink) }
    ensures write_still { result.status ≢ Status.WriteFault →
        K.faults result.outside.sink ≡ K.faults outside.sink }
{
    let mut outside = outside;
    let status = write_usage(alloc, &mut outside.sink);
    Ended {
        status,
        outside,
        reports: Seq::new(alloc),
        history: Seq::new(alloc),
    }
}

/// Does nothing, since there was no memory to read the words.
pub fn give_up<S, K, D, L, C, P, V>(
    alloc: Global,
    outside: Outside<S, K, D, L, C, P, V>,
) -> Ended<S, K, D, L, C, P, V>
    ensures { result ≡
        record { status = Status.Memory; outside = outside; reports = []; history = [] } }
{
    Ended {
        status: Status::Memory,
        outside,
        reports: Seq::new(alloc),
        history: Seq::new(alloc),
    }
}
