//! All that the program does.

ghost use Rattle.std.specs.Prelude.{◌≡◌, ◌≢◌, ◌≤◌, ◌⊎◌, Option, map, string_bytes};
ghost use Rattle.jt_value.specs.Counts.{Rose};
ghost use Rattle.jt_platform.specs.declared.desk.HubOpening.{HubOpening};
ghost use Rattle.jt_platform_command.specs.Platform.{EndsForMemory};
ghost use Rattle.jt_cli.specs.Ask.{AskLinks, AskNothing};
ghost use Rattle.jt_cli.specs.Running.{Ran, Serves, eyes_of};

use crate::acting::{give_up, refuse, run_task};
use crate::asked::Asked;
use crate::outside::{Ended, Outside};
use crate::relaying::run_relay;
use crate::reporting::run_report;
use jt_input::Status;
use jt_outside::{Clock, Dial, Listen, Sink, Source};
use jt_platform_command::{PlatformRun, platform};
use jt_report_command::law_without_memory;
use jt_store::{Keeper, Vault};
use jt_words::PlatformWords;
use std::alloc::Global;
use std::sync::Wait;
use std::thread::Threads;

// Serves links, and leaves all that `platform` does not need as it is.
fn run_platform<
    R: Threads + Wait + Sync,
    S: Source,
    K: Sink,
    D: Dial,
    L: Listen,
    C: Clock,
    P: Keeper + Send + Drop,
    V: Vault,
>(
    rt: &R,
    alloc: Global,
    words: PlatformWords,
    outside: Outside<S, K, D, L, C, P, V>,
) -> Ended<S, K, D, L, C, P, V>
where
    L::Link: Send,
    requires sessions { 1 ≤ words.sessions }
    ensures does { let eyes = eyes_of S.left K.written D.pool D.faults C.time
        P.tables P.limit P.faults V.holds V.limit V.faults V.may_fail in
        Serves eyes (Option (HubOpening P)) L.pool L.faults words.sessions outside result }
    ensures read_fault { result.status ≡ Status.ReadFault →
        Rose (S.faults outside.source) (S.faults result.outside.source) }
    // Every other status, so Memory too, comes only where the source's count of faults stood still.
    ensures read_still { result.status ≢ Status.ReadFault →
        S.faults result.outside.source ≡ S.faults outside.source }
    ensures write_fault { result.status ≡ Status.WriteFault →
        Rose (K.faults outside.sink) (K.faults result.outside.sink) }
    ensures write_still { result.status ≢ Status.WriteFault →
        (K.faults result.outside.sink ≡ K.faults outside.sink)
        ⊎ EndsForMemory result.status result.reports }
    ensures not_usage { result.status ≢ Status.Usage }
{
    let mut outside = outside;
    let keeper = outside.keeper;
    let PlatformRun {
        status,
        keeper,
        reports,
        history,
    } = platform(
        rt,
        alloc,
        &mut outside.source,
        &mut outside.sink,
        &mut outside.listen,
        keeper,
        words,
    );
    outside.keeper = keeper;
    Ended {
        status,
        outside,
        reports,
        history,
    }
}

/// Does what the words say, which are those after the program's name.
///
/// The commands are `view` and `check`, each with or without `--hex`, `rehearse`, `make` with its
/// number of fixes, `fence`, `gateway`, `orders`, `platform` with its port and its number of sessions, `report`
/// with its options, and `relay` with a phone. All other words are answered the usage line, and then nothing is
/// read. Of the source at most 2^40 octets are viewed or checked, and of a script, of a track, of a
/// fleet or of fixes at most 10,000,000 lines of at most 4,096 octets are heard.
///
/// `platform` may wait for peers; its promises hold where it returns. All other words are done as `run_alone` does them.
pub fn run<
    R: Threads + Wait + Sync,
    S: Source,
    K: Sink,
    D: Dial,
    L: Listen,
    C: Clock,
    P: Keeper + Send + Drop,
    V: Vault,
>(
    rt: &R,
    alloc: Global,
    words: &Vec<String>,
    outside: Outside<S, K, D, L, C, P, V>,
) -> Ended<S, K, D, L, C, P, V>
where
    L::Link: Send,
    // What the words ask was done, by the table of commands.
    ensures ran { let eyes = eyes_of S.left K.written D.pool D.faults C.time
        P.tables P.limit P.faults V.holds V.limit V.faults V.may_fail in
        Ran eyes (Serves eyes (Option (HubOpening P)) L.pool L.faults)
        (map string_bytes words.now.items) outside result }
    // Why a run ends so. Of a store and of a listener the table says it.
    ensures usage { result.status ≡ Status.Usage → AskNothing (map string_bytes words.now.items) }
    ensures read_fault { result.status ≡ Status.ReadFault →
        Rose (S.faults outside.source) (S.faults result.outside.source) }
    // Every other status, so Memory too, comes only where the source's count of faults stood still.
    ensures read_still { result.status ≢ Status.ReadFault →
        S.faults result.outside.source ≡ S.faults outside.source }
    ensures write_fault { result.status ≡ Status.WriteFault →
        Rose (K.faults outside.sink) (K.faults result.outside.sink) }
    // The same of the sink, but that `platform` tells want of memory before the first session, or in one, also where the write
    // then fails.
    ensures write_still { result.status ≢ Status.WriteFault →
        (K.faults result.outside.sink ≡ K.faults outside.sink)
        ⊎ (EndsForMemory result.status result.reports
        × AskLinks (map string_bytes words.now.items)) }
{
    law_without_memory();
    match Asked::from_words(alloc, words.as_slice()) {
        Asked::Act(task) => run_task(alloc, task, outside),
        Asked::Report(told) => run_report(alloc, told, outside),
        Asked::Platform(told) => run_platform(rt, alloc, told, outside),
        Asked::Relay(told) => run_relay(alloc, told, outside),
        Asked::Nothing => refuse(alloc, outside),
        Asked::Unread => give_up(alloc, outside),
    }
}
