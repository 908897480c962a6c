//! All that the program does alone, without a listener.

ghost use Rattle.std.specs.Prelude.{◌≡◌, ◌≢◌, map, string_bytes};
ghost use Rattle.jt_value.specs.Counts.{Rose};
ghost use Rattle.jt_cli.specs.Running.{Ran, Refuses, eyes_of};
ghost use Rattle.jt_cli.specs.Words.{AreNoRelay, AreNoReport, AreNoTask};

use crate::acting::{give_up, refuse, run_task};
use crate::asked::Asked;
use crate::outside::{Ended, Outside};
use crate::relaying::run_relay;
use crate::reporting::run_report;
use jt_input::Status;
use jt_outside::{Clock, Dial, Sink, Source};
use jt_report_command::law_without_memory;
use jt_store::{Keeper, Vault};
use std::alloc::Global;

/// Does what the words say, which are those after the program's name and no words of `platform`. It needs no threads and no
/// runtime; it takes one so that it stands for `run`.
///
/// The commands are `view` and `check`, each with or without `--hex`, `rehearse`, `make` with a number, `fence`, `gateway`, `orders`,
/// `report` with its options, and `relay` with a phone. All other words are answered the usage line, and then nothing is read. Of the
/// source at most 2^40 octets are viewed or checked, and of a script, of a track or of fixes at most 10,000,000 lines of at most 4,096
/// octets are heard.
pub fn run_alone<R, S: Source, K: Sink, D: Dial, L, C: Clock, P: Keeper, V: Vault>(
    _rt: &R,
    alloc: Global,
    words: &Vec<String>,
    outside: Outside<S, K, D, L, C, P, V>,
) -> Ended<S, K, D, L, C, P, V>
    // What the words ask was done, by the table of commands. Those of `platform` are answered the
    // usage line here.
    ensures ran { let eyes = eyes_of S.left K.written D.pool D.faults C.time
        P.tables P.limit P.faults V.holds V.limit V.faults V.may_fail in
        Ran eyes (λ sessions. Refuses eyes) (map string_bytes words.now.items) outside result }
    // Why a run ends so.
    ensures usage { result.status ≡ Status.Usage → AreNoTask (map string_bytes words.now.items)
        × AreNoReport (map string_bytes words.now.items)
        × AreNoRelay (map string_bytes words.now.items) }
    ensures read_fault { result.status ≡ Status.ReadFault →
        Rose (S.faults outside.source) (S.faults result.outside.source) }
    // Every other status, so Memory too, comes only where the count of faults stood still.
    ensures read_still { result.status ≢ Status.ReadFault →
        S.faults result.outside.source ≡ S.faults outside.source }
    ensures write_fault { result.status ≡ Status.WriteFault →
        Rose (K.faults outside.sink) (K.faults result.outside.sink) }
    ensures write_still { result.status ≢ Status.WriteFault →
        K.faults result.outside.sink ≡ K.faults outside.sink }
{
    law_without_memory();
    match Asked::from_words(alloc, words.as_slice()) {
        Asked::Act(task) => run_task(alloc, task, outside),
        Asked::Report(told) => run_report(alloc, told, outside),
        Asked::Platform(_) => refuse(alloc, outside),
        Asked::Relay(told) => run_relay(alloc, told, outside),
        Asked::Nothing => refuse(alloc, outside),
        Asked::Unread => give_up(alloc, outside),
    }
}
