ghost use Rattle.std.specs.Prelude.{◌≡◌, ◌≤◌, []};
ghost use Rattle.jt_outside.specs.ScriptLink.{IsUntouched};

use crate::waiting::make_pair;
use jt_outside::{Listen, ScriptLink, ScriptListen};
use jt_platform::{Fleet, Hub};
use jt_server::{ServeEnd, Served, serve};
use jt_session::{End, Report};
use jt_store::MemKeeper;
use jt_value::{Octets, Seq};
use std::alloc::Global;
use std::process::Abort;
use std::sync::Wait;
use std::thread::Threads;

/// The heartbeat of phone 013912345678.
const HEARTBEAT: &[u8; 15] = b"\x7e\x00\x02\x00\x00\x01\x39\x12\x34\x56\x78\x00\x00\x32\x7e";

/// What answers it where no terminal was let in.
const REFUSED: &[u8; 20] =
    b"\x7e\x80\x01\x00\x05\x01\x39\x12\x34\x56\x78\x00\x00\x00\x00\x00\x02\x01\xb7\x7e";

fn new_hub(rt: &impl Abort, alloc: Global) -> Hub<MemKeeper>
    ensures { result.history ≡ [] }
{
    let fleet = Fleet {
        plates: Seq::new(alloc),
        terminals: Seq::new(alloc),
    };
    let keeper = MemKeeper::new(alloc, 1000, Seq::new(alloc));
    Hub::start(alloc, keeper, fleet, Seq::new(alloc))
        .ok()
        .expect(rt, "there is memory")
}

fn link(rt: &impl Abort, alloc: Global, octets: &[u8]) -> ScriptLink
    ensures { IsUntouched result }
{
    let octets = Vec::from_slice(alloc, octets).expect(rt, "there is memory");
    let octets = Octets::from_vec(octets);
    ScriptLink::new(alloc, octets, 65_536, Seq::new(alloc)).expect(rt, "there is memory")
}

// A listener to which a heartbeat comes, then nothing, then a heartbeat, and which fails the call of this number.
fn listener(rt: &impl Abort, alloc: Global, failing: u64) -> ScriptListen {
    let first = link(rt, alloc, HEARTBEAT);
    let second = link(rt, alloc, &[]);
    let third = link(rt, alloc, HEARTBEAT);
    let mut links = Seq::new(alloc);
    links.push(first).expect(rt, "there is memory");
    links.push(second).expect(rt, "there is memory");
    links.push(third).expect(rt, "there is memory");
    let mut calls = Seq::new(alloc);
    calls.push(failing).expect(rt, "there is memory");
    ScriptListen::new(alloc, links, calls).expect(rt, "there is memory")
}

/// Session, octets read and written, and frames of the listener's links.
const WANTED: [(u32, u64, u64, u64); 3] = [(1, 15, 20, 1), (2, 0, 0, 0), (3, 15, 20, 1)];

fn is_report(report: &Report, wanted: (u32, u64, u64, u64)) -> bool {
    let (session, read, written, frames) = wanted;
    report.session == session
        && report.read == read
        && report.written == written
        && report.frames == frames
        && report.end == End::Ended
}

// Whether the reports are the first ones that are wanted.
fn are_reports(reports: &[Report]) -> bool {
    for (report, wanted) in reports.iter().zip(&WANTED) {
        if !is_report(report, *wanted) {
            return false;
        }
    }
    true
}

// Whether the links that came back were written what is wanted of the first ones.
fn are_back(links: &[ScriptLink]) -> bool {
    for (link, (_, read, _, _)) in links.iter().zip(&WANTED) {
        let written: &[u8] = if *read == 0 { &[] } else { REFUSED };
        if link.written() != written {
            return false;
        }
    }
    true
}

/// What came of serving links.
#[derive(Clone, Copy)]
struct Outcome {
    end: ServeEnd,
    are_wanted: bool,
    reports: usize,
    back: usize,
    entries: usize,
}

fn outcome_of(served: &Served<MemKeeper>, listen: &ScriptListen) -> Outcome {
    Outcome {
        end: served.end,
        are_wanted: are_reports(served.reports.as_slice()) && are_back(listen.links_back()),
        reports: served.reports.len(),
        back: listen.links_back().len(),
        entries: served.hub.history().len(),
    }
}

// Serves so many links of a listener over a new hub. (a call of its own, with no clause: its callers own what it gives)
fn serve_links<R: Threads + Wait + Sync + Abort, L: Listen>(
    rt: &R,
    alloc: Global,
    listen: &mut L,
    sessions: u32,
) -> Served<MemKeeper>
where
    L::Link: Send,
    requires { 1 ≤ sessions }
{
    let hub = new_hub(rt, alloc);
    serve(rt, alloc, listen, hub, sessions)
}

fn serve_so<R: Threads + Wait + Sync + Abort>(
    rt: &R,
    alloc: Global,
    failing: u64,
    sessions: u32,
) -> Outcome
    requires { 1 ≤ sessions }
{
    let mut listen = listener(rt, alloc, failing);
    let served = serve_links(rt, alloc, &mut listen, sessions);
    let outcome = outcome_of(&served, &listen);
    drop(served);
    drop(listen);
    outcome
}

// The number of the listener's call that fails, how many links are asked for, why no more were served, how many were, and how many
// entries there are.
#[test]
fn links_are_served_in_order(rt: HostRuntime) {
    let rows: &[(u64, u32, ServeEnd, usize, usize)] = &[
        (0, 3, ServeEnd::All, 3, 5),
        (0, 1, ServeEnd::All, 1, 2),
        (0, 4, ServeEnd::Over, 3, 5),
        (2, 2, ServeEnd::ListenFault, 1, 2),
        (1, 1, ServeEnd::ListenFault, 0, 0),
    ];
    for (failing, sessions, end, count, entries) in rows {
        let outcome = serve_so(&rt, rt.alloc(), *failing, (*sessions).max(1));
        assert!(rt; outcome.are_wanted);
        assert!(rt; outcome.end == *end);
        assert!(rt; outcome.reports == *count);
        assert!(rt; outcome.back == *count);
        assert!(rt; outcome.entries == *entries);
    }
}

// Whether two links were served and each ended, and how many entries there are.
fn ends_of(served: &Served<MemKeeper>) -> (bool, usize) {
    let mut ended = served.reports.len() == 2;
    for report in served.reports.as_slice() {
        ended = ended && report.end == End::Ended;
    }
    (ended, served.hub.history().len())
}

// How two links that wait for each other end: the first one reads only once the second was written.
fn ends_of_two<R: Threads + Wait + Sync + Abort>(rt: &R, alloc: Global) -> (bool, usize) {
    let mut listen = make_pair(rt, alloc);
    let served = serve_links(rt, alloc, &mut listen, 2);
    let ends = ends_of(&served);
    drop(served);
    drop(listen);
    ends
}

#[test]
fn two_links_that_wait_for_each_other(rt: HostRuntime) {
    let (ended, entries) = ends_of_two(&rt, rt.alloc());
    assert!(rt; ended);
    assert!(rt; entries == 4);
}
