//! The command `platform`.

ghost use Rattle.std.specs.Prelude.{◌≡◌, ◌≢◌, ◌≤◌, ◌⊎◌, [], Some, None, Option};
ghost use Rattle.std.specs.Io.KnownBytes.{IsAtEnd};
ghost use Rattle.jt_value.specs.Counts.{Rose};
ghost use Rattle.jt_platform.specs.History.{newest, tables_after};
ghost use Rattle.jt_platform.specs.declared.desk.HubOpening.{HubOpening};
ghost use Rattle.jt_platform_command.specs.Platform.{EndsForMemory, first_limit};
ghost use Rattle.jt_platform.specs.Hub.{opening_of};
ghost use Rattle.jt_platform_command.specs.Running.{RunsPlatform, scene_of};
ghost use Rattle.jt_platform_command.specs.Opening.{Opens};

use crate::telling::{answer_bad_line, tell_served};
use crate::{FleetRead, read_fleet};
use jt_input::{EarlyEnd, Status, answer_early_end};
use jt_outside::{Listen, Sink, Source};
use jt_platform::{Entry, Fleet, Hub};
use jt_server::{Served, serve};
use jt_session::Report;
use jt_store::Keeper;
use jt_value::{Memory, Octets, Seq};
use jt_words::PlatformWords;
use std::alloc::Global;
use std::sync::Wait;
use std::thread::Threads;

/// What a run of `platform` hands back: the keeper that it was given, a report for each session, and the hub's history. Both are
/// empty where no link was served.
#[derive(Drop)]
pub struct PlatformRun<P: Keeper> {
    pub status: Status,
    pub keeper: P,
    pub reports: Seq<Report>,
    pub history: Seq<Entry>,
}

fn without_links<P: Keeper>(alloc: Global, status: Status, keeper: P) -> PlatformRun<P>
    ensures { result ≡ record { status = status; keeper = keeper; reports = []; history = [] } }
{
    PlatformRun {
        status,
        keeper,
        reports: Seq::new(alloc),
        history: Seq::new(alloc),
    }
}

// Serves links over a fleet, and writes what came of it.
fn serve_fleet<R: Threads + Wait + Sync, K: Sink, L: Listen, P: Keeper + Send + Drop>(
    rt: &R,
    alloc: Global,
    sink: &mut K,
    listen: &mut L,
    hub: Hub<P>,
    sessions: u32,
) -> PlatformRun<P>
where
    L::Link: Send,
    requires history { hub.history ≡ [] }
    requires sessions { 1 ≤ sessions }
    ensures opens { Opens (Option (HubOpening P))
        (opening_of (P.tables hub.start) (P.limit hub.start) hub.fleet hub.secret) sessions
        (scene_of (L.pool listen.old) (L.faults listen.old) (P.tables hub.start) (P.limit hub.start)
        (P.faults hub.keeper))
        (scene_of (L.pool listen.new) (L.faults listen.new) (P.tables result.keeper)
        (P.limit result.keeper) (P.faults result.keeper))
        (K.written sink.old) (K.written sink.new) result.reports result.history result.status }
    ensures keeper { (P.tables result.keeper
        ≡ tables_after (P.tables hub.start) (newest result.history))
        × (P.limit result.keeper ≡ P.limit hub.start) }
    ensures write_fault { result.status ≡ Status.WriteFault →
        Rose (K.faults sink.old) (K.faults sink.new) }
    ensures write_still { result.status ≢ Status.WriteFault →
        (K.faults sink.new ≡ K.faults sink.old) ⊎ EndsForMemory result.status result.reports }
    ensures no_read_fault { result.status ≢ Status.ReadFault }
    ensures net_fault { result.status ≡ Status.NetFault →
        Rose (L.faults listen.old) (L.faults listen.new) }
    ensures store_fault { result.status ≡ Status.StoreFault →
        Rose (P.faults hub.keeper) (P.faults result.keeper) ⊎ (first_limit result.reports ≢ None) }
    ensures not_usage { result.status ≢ Status.Usage }
{
    let Served { reports, hub, end } = serve(rt, alloc, listen, hub, sessions);
    let (keeper, history) = hub.into_parts();
    let status = tell_served(alloc, sink, end, reports.as_slice(), history.as_slice());
    PlatformRun {
        status,
        keeper,
        reports,
        history,
    }
}

// Begins to listen, and serves links over a fleet.
#[tactic(auto, unfolding(crate::specs::Platform::platform_text))]
fn listen_over<R: Threads + Wait + Sync, K: Sink, L: Listen, P: Keeper + Send + Drop>(
    rt: &R,
    alloc: Global,
    sink: &mut K,
    listen: &mut L,
    hub: Hub<P>,
    words: PlatformWords,
) -> PlatformRun<P>
where
    L::Link: Send,
    requires history { hub.history ≡ [] }
    requires sessions { 1 ≤ words.sessions }
    ensures opens { Opens (Option (HubOpening P))
        (opening_of (P.tables hub.start) (P.limit hub.start) hub.fleet hub.secret) words.sessions
        (scene_of (L.pool listen.old) (L.faults listen.old) (P.tables hub.start) (P.limit hub.start)
        (P.faults hub.keeper))
        (scene_of (L.pool listen.new) (L.faults listen.new) (P.tables result.keeper)
        (P.limit result.keeper) (P.faults result.keeper))
        (K.written sink.old) (K.written sink.new) result.reports result.history result.status }
    ensures keeper { (P.tables result.keeper
        ≡ tables_after (P.tables hub.start) (newest result.history))
        × (P.limit result.keeper ≡ P.limit hub.start) }
    ensures write_fault { result.status ≡ Status.WriteFault →
        Rose (K.faults sink.old) (K.faults sink.new) }
    ensures write_still { result.status ≢ Status.WriteFault →
        (K.faults sink.new ≡ K.faults sink.old) ⊎ EndsForMemory result.status result.reports }
    ensures no_read_fault { result.status ≢ Status.ReadFault }
    ensures net_fault { result.status ≡ Status.NetFault →
        Rose (L.faults listen.old) (L.faults listen.new) }
    ensures store_fault { result.status ≡ Status.StoreFault →
        Rose (P.faults hub.keeper) (P.faults result.keeper) ⊎ (first_limit result.reports ≢ None) }
    ensures not_usage { result.status ≢ Status.Usage }
{
    if !listen.start(words.port) {
        let (keeper, history) = hub.into_parts();
        return PlatformRun {
            status: answer_early_end(alloc, sink, EarlyEnd::ListenFault),
            keeper,
            reports: Seq::new(alloc),
            history,
        };
    }
    serve_fleet(rt, alloc, sink, listen, hub, words.sessions)
}

/// Reads the fleet of the source, listens at the port, serves as many links as the words say, each in a thread of its own, and
/// writes a line for each session, the line of the totals, and the last one, if there is one.
///
/// A bad line of the source is told before anything is listened to. It may wait for peers, and its promises hold where it returns.
pub fn platform<R: Threads + Wait + Sync, S: Source, K: Sink, L: Listen, P: Keeper + Send + Drop>(
    rt: &R,
    alloc: Global,
    source: &mut S,
    sink: &mut K,
    listen: &mut L,
    keeper: P,
    words: PlatformWords,
) -> PlatformRun<P>
where
    L::Link: Send,
    requires sessions { 1 ≤ words.sessions }
    ensures runs { RunsPlatform (Option (HubOpening P)) words.sessions
        (S.left source.old) (S.left source.new)
        (scene_of (L.pool listen.old) (L.faults listen.old) (P.tables keeper) (P.limit keeper)
        (P.faults keeper))
        (scene_of (L.pool listen.new) (L.faults listen.new) (P.tables result.keeper)
        (P.limit result.keeper) (P.faults result.keeper))
        (K.written sink.old) (K.written sink.new) result.reports result.history result.status }
    ensures keeper { (P.tables result.keeper
        ≡ tables_after (P.tables keeper) (newest result.history))
        × (P.limit result.keeper ≡ P.limit keeper) }
    ensures read_fault { result.status ≡ Status.ReadFault →
        Rose (S.faults source.old) (S.faults source.new) }
    // Every other status, so Memory too, comes only where the source's count of faults stood still.
    ensures read_still { result.status ≢ Status.ReadFault →
        S.faults source.new ≡ S.faults source.old }
    ensures write_fault { result.status ≡ Status.WriteFault →
        Rose (K.faults sink.old) (K.faults sink.new) }
    // The same of the sink, but that want of memory before the first session, or in one, is told also where the write then fails.
    ensures write_still { result.status ≢ Status.WriteFault →
        (K.faults sink.new ≡ K.faults sink.old) ⊎ EndsForMemory result.status result.reports }
    ensures net_fault { result.status ≡ Status.NetFault →
        Rose (L.faults listen.old) (L.faults listen.new) }
    ensures store_fault { result.status ≡ Status.StoreFault →
        Rose (P.faults keeper) (P.faults result.keeper) ⊎ (first_limit result.reports ≢ None) }
    ensures to_the_end { result.status ≡ Status.Done → IsAtEnd (S.left source.new) }
    ensures not_usage { result.status ≢ Status.Usage }
{
    let (secret, fleet) = match read_fleet(alloc, source) {
        FleetRead::Fleet(secret, fleet) => (secret, fleet),
        FleetRead::Bad(number) => {
            let status = answer_bad_line(alloc, sink, number);
            return without_links(alloc, status, keeper);
        }
        FleetRead::Failed => return without_links(alloc, Status::ReadFault, keeper),
        FleetRead::Memory => return without_links(alloc, Status::Memory, keeper),
    };
    match Hub::start(alloc, keeper, fleet, secret) {
        Ok(hub) => listen_over(rt, alloc, sink, listen, hub, words),
        Err((keeper, Memory)) => without_links(alloc, Status::Memory, keeper),
    }
}
