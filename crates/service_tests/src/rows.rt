ghost use Rattle.std.specs.Prelude.{◌≡◌, []};

use crate::counting::{Counting, NOTHING};
use crate::links::{HEARTBEAT, HEARTBEATS, Step, Steps, TERMINAL};
use jt_platform::{Fleet, Hub};
use jt_service::{Limits, ServiceEnd, Watch, Witnessed, serve_on};
use jt_store::MemKeeper;
use jt_value::{Octets, Seq};
use std::alloc::Global;
use std::process::Abort;
use std::sync::atomic::AtomicBool;
use std::sync::{Arc, Wait};
use std::thread::Threads;
use std::time::Clock;

pub(crate) fn one(rt: &impl Abort, alloc: Global, octets: &[u8]) -> Seq<Octets> {
    let octets = Vec::from_slice(alloc, octets).expect(rt, "there is memory");
    let mut list = Seq::new(alloc);
    list.push(Octets::from_vec(octets))
        .expect(rt, "there is memory");
    list
}

pub(crate) fn secret(rt: &impl Abort, alloc: Global) -> Octets {
    let octets = Vec::from_slice(alloc, b"12").expect(rt, "there is memory");
    Octets::from_vec(octets)
}

// A hub over this keeper, whose fleet has the plate `A` and the terminal id `1`, and whose secret is 3132.
fn new_hub<'w, R: Abort + Wait>(
    rt: &'w R,
    alloc: Global,
    watch: &'w Watch<Counting>,
    keeper: MemKeeper,
) -> Hub<MemKeeper, Witnessed<'w, R, Counting>>
    ensures { result.history ≡ [] }
{
    let fleet = Fleet {
        plates: one(rt, alloc, b"A"),
        terminals: one(rt, alloc, b"1"),
    };
    let journal = Witnessed::of(rt, watch);
    Hub::begin_with(alloc, keeper, fleet, secret(rt, alloc), journal)
        .ok()
        .expect(rt, "there is memory")
}

// Serves what comes at the door over this keeper, which it gives back. Tells how it ended.
fn serve_door<R: Threads + Wait + Clock + Sync + Abort>(
    rt: &R,
    alloc: Global,
    limits: Limits,
    door: &mut Steps<R>,
    watch: &Watch<Counting>,
    keeper: MemKeeper,
) -> (ServiceEnd, MemKeeper) {
    let hub = new_hub(rt, alloc, watch, keeper);
    let (end, hub) = serve_on(rt, alloc, door, hub, limits, watch);
    let hub = hub.expect(rt, "all passes came back");
    (end, hub.into_keeper())
}

// Serves at a door of these steps, run after run, each of which ends so.
fn serve_steps<R: Threads + Wait + Clock + Sync + Abort>(
    rt: &R,
    alloc: Global,
    limits: Limits,
    steps: &'static [Step],
    watch: &Watch<Counting>,
    ended: Arc<AtomicBool>,
    failing: Seq<u64>,
    ends: &[ServiceEnd],
) {
    let mut keeper = MemKeeper::new(alloc, 1000, failing);
    let mut door = Steps {
        rt,
        watch,
        ends: ended,
        steps,
        done: 0,
    };
    for wanted in ends {
        let (end, back) = serve_door(rt, alloc, limits, &mut door, watch, keeper);
        assert!(rt; end == *wanted);
        keeper = back;
    }
}

// What is told of runs that end so, where these calls of the keeper fail, counted from 1.
fn told_of<R: Threads + Wait + Clock + Sync + Abort>(
    rt: &R,
    alloc: Global,
    limits: Limits,
    steps: &'static [Step],
    failing: Seq<u64>,
    ends: &[ServiceEnd],
) -> Counting {
    let stopped = Arc::new(alloc, AtomicBool::new(false)).expect(rt, "there is memory");
    let ended = Arc::new(alloc, AtomicBool::new(false)).expect(rt, "there is memory");
    let other = ended.clone().expect(rt, "there is memory");
    let watch = Watch::new(alloc, NOTHING, stopped, other);
    serve_steps(rt, alloc, limits, steps, &watch, ended, failing, ends);
    watch.into_told()
}

fn served_so<R: Threads + Wait + Clock + Sync + Abort>(
    rt: &R,
    alloc: Global,
    limits: Limits,
    steps: &'static [Step],
    end: ServiceEnd,
) -> Counting {
    told_of(rt, alloc, limits, steps, Seq::new(alloc), &[end])
}

// A link that stays is quiet as often as it is read, and these seconds are no seconds.
fn limits(links: u32) -> Limits {
    Limits {
        sessions: 100,
        quiet: 1 << 40,
        strangers: links,
        ..Limits::of(links)
    }
}

// The present moment in milliseconds; 0 where the clock can't be read.
fn moment<R: Clock>(rt: &R) -> u64 {
    match rt.monotonic() {
        Ok(since) => u64::try_from(since.as_millis()).unwrap_or(u64::MAX),
        Err(_) => 0,
    }
}

// Whether so many sessions began and ended, with this sum of their numbers.
fn is_served(told: &Counting, sessions: u64, sum: u64) -> bool {
    told.began == sessions
        && told.ended == sessions
        && told.numbers == sum
        && told.ended_numbers == sum
        && told.odd == 0
}

// Links that come one after another are all served, each under a number of its own.
#[test]
fn links_are_served_on(rt: HostRuntime) {
    let rows: &[(u32, &[Step])] = &[
        (1, &[Step::Links(20, HEARTBEAT, false, 1)]),
        (2, &[Step::Links(20, HEARTBEAT, false, 2)]),
        (4, &[Step::Links(20, HEARTBEAT, false, 4)]),
    ];
    for (links, steps) in rows {
        let told = served_so(&rt, rt.alloc(), limits(*links), steps, ServiceEnd::Over);
        assert!(rt; is_served(&told, 20, 210));
        assert!(rt; told.read == 300);
        assert!(rt; told.written == 400);
        assert!(rt; told.full == 0);
    }
}

// Of links that come at once those are closed for which no worker is free.
#[test]
fn more_links_than_workers(rt: HostRuntime) {
    let steps: &[Step] = &[
        Step::Links(3, HEARTBEAT, true, 100),
        Step::Links(17, HEARTBEAT, false, 100),
        Step::Stops,
    ];
    let told = served_so(&rt, rt.alloc(), limits(3), steps, ServiceEnd::Stopped);
    assert!(rt; is_served(&told, 3, 6));
    assert!(rt; told.full == 17);
    assert!(rt; told.stopped == 3);
}

// Where no number is left the service ends, and the links that are served with it.
#[test]
fn numbers_are_spent(rt: HostRuntime) {
    let limits = Limits {
        sessions: 7,
        ..limits(4)
    };
    let steps: &[Step] = &[
        Step::Links(1, TERMINAL, true, 1),
        Step::LetIn(1),
        Step::Links(20, HEARTBEAT, false, 4),
    ];
    let told = served_so(&rt, rt.alloc(), limits, steps, ServiceEnd::NumbersSpent);
    assert!(rt; is_served(&told, 7, 28));
    assert!(rt; told.let_in == 1);
    assert!(rt; told.renewed >= 1);
}

// An accept that fails ends nothing.
#[test]
fn failing_accepts(rt: HostRuntime) {
    let steps: &[Step] = &[
        Step::Links(2, HEARTBEAT, false, 2),
        Step::Fails(2),
        Step::Links(2, HEARTBEAT, false, 2),
    ];
    let told = served_so(&rt, rt.alloc(), limits(2), steps, ServiceEnd::Over);
    assert!(rt; is_served(&told, 4, 10));
    assert!(rt; told.failed == 2);
}

/// What is told where the terminal is let in, stores its unit, and the service stops.
const STAYED: Counting = Counting {
    began: 1,
    numbers: 1,
    ended: 1,
    ended_numbers: 1,
    phones: 1,
    stopped: 1,
    read: 127,
    written: 74,
    let_in: 1,
    stored: 1,
    ..NOTHING
};

/// What is told beside where a stranger sent a heartbeat in the second session.
const WITH_STRANGER: Counting = Counting {
    began: 2,
    numbers: 3,
    ended: 2,
    ended_numbers: 3,
    read: 142,
    written: 94,
    ..STAYED
};

// A terminal that is let in stays, and a stranger ends by time.
#[test]
fn strangers(rt: HostRuntime) {
    let steps: &[Step] = &[
        Step::Links(1, TERMINAL, true, 1),
        Step::LetIn(1),
        Step::Links(1, HEARTBEAT, true, 2),
        Step::Open(1),
        Step::Seconds(1),
        Step::Stops,
    ];
    let by_time = Limits {
        stranger_seconds: 1,
        ..limits(3)
    };
    let told = served_so(&rt, rt.alloc(), by_time, steps, ServiceEnd::Stopped);
    let wanted = Counting {
        stranger_time: 1,
        ..WITH_STRANGER
    };
    assert!(rt; told == wanted);
}

// A stranger ends by octets, which are judged after each read of 64: the terminal is let in by its second one.
#[test]
fn octets_of_strangers(rt: HostRuntime) {
    let steps: &[Step] = &[
        Step::Links(1, TERMINAL, true, 1),
        Step::LetIn(1),
        Step::Links(1, HEARTBEATS, true, 2),
        Step::Open(1),
        Step::Seconds(1),
        Step::Stops,
    ];
    let by_octets = Limits {
        stranger_octets: 65,
        ..limits(3)
    };
    let told = served_so(&rt, rt.alloc(), by_octets, steps, ServiceEnd::Stopped);
    let wanted = Counting {
        stranger_octets: 1,
        read: 202,
        written: 174,
        ..WITH_STRANGER
    };
    assert!(rt; told == wanted);
}

// A stranger who came a second ago makes place for one to come.
#[test]
fn newer_strangers(rt: HostRuntime) {
    let steps: &[Step] = &[
        Step::Links(2, HEARTBEAT, true, 100),
        Step::Seconds(1),
        Step::Links(1, HEARTBEAT, true, 100),
        Step::Open(0),
        Step::Links(1, HEARTBEAT, true, 100),
        Step::Stops,
    ];
    let one = Limits {
        strangers: 1,
        ..limits(4)
    };
    let told = served_so(&rt, rt.alloc(), one, steps, ServiceEnd::Stopped);
    assert!(rt; is_served(&told, 2, 3));
    assert!(rt; told.crowded == 2);
    assert!(rt; told.replaced == 1);
    assert!(rt; told.stopped == 1);
}

// Links of one address, and links where all places are taken.
#[test]
fn no_place(rt: HostRuntime) {
    let steps: &[Step] = &[
        Step::Links(2, HEARTBEAT, true, 100),
        Step::Seconds(1),
        Step::Links(1, HEARTBEAT, true, 100),
        Step::Open(1),
        Step::Stops,
    ];
    let of_address = Limits {
        strangers_of_address: Some(1),
        ..limits(4)
    };
    let told = served_so(&rt, rt.alloc(), of_address, steps, ServiceEnd::Stopped);
    assert!(rt; is_served(&told, 1, 1));
    assert!(rt; told.of_address == 2);
    let told = served_so(&rt, rt.alloc(), limits(2), steps, ServiceEnd::Stopped);
    assert!(rt; is_served(&told, 2, 3));
    assert!(rt; told.full == 1);
    assert!(rt; told.replaced == 1);
    assert!(rt; told.stopped == 1);
}

// A link of an address that has as many strangers as it may have ends no other's, where all places are taken.
#[test]
fn full_of_one_address(rt: HostRuntime) {
    let steps: &[Step] = &[
        Step::Links(2, HEARTBEAT, true, 100),
        Step::Seconds(1),
        Step::Links(1, HEARTBEAT, true, 100),
        Step::Stops,
    ];
    let of_address = Limits {
        strangers_of_address: Some(2),
        ..limits(2)
    };
    let told = served_so(&rt, rt.alloc(), of_address, steps, ServiceEnd::Stopped);
    assert!(rt; is_served(&told, 2, 3));
    assert!(rt; told.of_address == 1);
    assert!(rt; told.full == 0);
    assert!(rt; told.stopped == 2);
}

// A terminal is dismissed, and a link that stays quiet is idle.
#[test]
fn other_ends(rt: HostRuntime) {
    let steps: &[Step] = &[
        Step::Links(1, TERMINAL, true, 1),
        Step::LetIn(1),
        Step::Seconds(1),
        Step::Dismisses,
        Step::Open(0),
    ];
    let told = served_so(&rt, rt.alloc(), limits(2), steps, ServiceEnd::Over);
    let wanted = Counting {
        stopped: 0,
        dismissed: 1,
        ..STAYED
    };
    assert!(rt; told == wanted);
    let steps: &[Step] = &[Step::Links(1, TERMINAL, true, 1), Step::Open(0)];
    let quiet = Limits {
        quiet: 9,
        ..limits(2)
    };
    let told = served_so(&rt, rt.alloc(), quiet, steps, ServiceEnd::Over);
    let wanted = Counting {
        stopped: 0,
        idle: 1,
        ..STAYED
    };
    assert!(rt; told == wanted);
}

// A run that is to begin anew ends its links, and the next one serves over the same keeper: the terminal's unit is a repeat there.
#[test]
fn a_run_anew(rt: HostRuntime) {
    let steps: &[Step] = &[
        Step::Links(1, TERMINAL, true, 1),
        Step::LetIn(1),
        Step::Seconds(1),
        Step::Renews,
        Step::Links(1, TERMINAL, true, 1),
        Step::LetIn(1),
        Step::Seconds(1),
        Step::Stops,
    ];
    let ends = &[ServiceEnd::Renewed, ServiceEnd::Stopped];
    let none = Seq::new(rt.alloc());
    let told = told_of(&rt, rt.alloc(), limits(2), steps, none, ends);
    let wanted = Counting {
        began: 2,
        numbers: 2,
        ended: 2,
        ended_numbers: 2,
        phones: 2,
        renewed: 1,
        read: 254,
        written: 148,
        let_in: 2,
        ..STAYED
    };
    assert!(rt; told == wanted);
}

// A session that ends by a store fault ends its run, and all links with it. The next run goes on.
#[test]
fn a_store_that_fails(rt: HostRuntime) {
    let steps: &[Step] = &[
        Step::Links(1, HEARTBEAT, true, 2),
        Step::Links(1, TERMINAL, true, 2),
        Step::Open(0),
        Step::Links(1, TERMINAL, true, 1),
        Step::LetIn(1),
        Step::Seconds(1),
        Step::Stops,
    ];
    let mut failing = Seq::new(rt.alloc());
    failing.push(1).expect(&rt, "there is memory");
    let ends = &[ServiceEnd::StoreFailed, ServiceEnd::Stopped];
    let told = told_of(&rt, rt.alloc(), limits(2), steps, failing, ends);
    assert!(rt; is_served(&told, 3, 4));
    assert!(rt; told.faults == 1);
    assert!(rt; told.store_failed == 1);
    assert!(rt; told.let_in == 1);
    assert!(rt; told.stored == 1);
    assert!(rt; told.stopped == 1);
}

// A link whose other end does not read ends soon where all links are to end: its write fails, so it is no cut of the service's.
#[test]
fn who_does_not_read(rt: HostRuntime) {
    let stops: &[Step] = &[Step::Deaf(HEARTBEAT), Step::Seconds(1), Step::Stops];
    let renews: &[Step] = &[Step::Deaf(HEARTBEAT), Step::Seconds(1), Step::Renews];
    for (steps, end) in [(stops, ServiceEnd::Stopped), (renews, ServiceEnd::Renewed)] {
        let began = moment(&rt);
        let told = served_so(&rt, rt.alloc(), limits(2), steps, end);
        assert!(rt; is_served(&told, 1, 1));
        assert!(rt; told.read == 15);
        assert!(rt; told.written == 0);
        assert!(rt; moment(&rt).saturating_sub(began) < 5_000);
    }
}
