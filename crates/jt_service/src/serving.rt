//! Sessions one after another, so many at once.

ghost use Rattle.std.specs.Prelude.{◌≡◌, ◌≢◌, [], None, Some, IfSome};
ghost use Rattle.std.specs.Thread.{IsSync};
ghost use Rattle.jt_outside.specs.Link.{wire_of};
ghost use Rattle.jt_platform.specs.Hub.{opening_of};
ghost use Rattle.jt_service.specs.Roots.{IsNext, IsRoot, IsServed};
ghost use Rattle.jt_service.specs.Watched.{watched_wire};
ghost use Rattle.jt_session.specs.declared.end.End.TheVariants as ends;

use crate::door::{Arrived, Door};
use crate::hall::{Arrival, Hall};
use crate::root::{Root, Which};
use crate::service_end::ServiceEnd;
use crate::telling::{Ended, Tell};
use crate::watch::{Watch, moment};
use crate::watched_link::{Warden, WatchedLink};
use jt_outside::Link;
use jt_platform::{Hub, Journal};
use jt_seats::{Away, Cut, Limits};
use jt_session::{End, Report, serve_link};
use jt_store::Keeper;
use jt_turn::{Pass, Turn};
use jt_value::Memory;
use std::alloc::Global;
use std::marker::{Brand, PhantomData};
use std::net::SocketAddr;
use std::sync::Wait;
use std::thread;
use std::thread::{Scope, Threads};
use std::time::{Clock, Duration};

// In so many parts a link's quiet seconds are looked at, since a session ends at its third quiet read in a row.
const QUIET_PARTS: u64 = 3;

// How often in a row a listener may fail, and how many seconds pass between (this project's own).
const MOST_FAILED: u32 = 60;

const FAILED_WAIT: u64 = 1;

// Who watches over the link in a place.
#[derive(Drop)]
struct Guard<'w, R, T> {
    rt: &'w R,
    watch: &'w Watch<T>,
    place: usize,
    limits: Limits,
}

impl<'w, R: Wait + Clock, T: Tell> Warden for Guard<'w, R, T> {
    fn verdict(&mut self, octets: u64) -> Option<Cut> {
        self.watch
            .verdict(self.rt, self.place, octets, &self.limits)
    }
}

// Serves a link by a new pass, and hangs up. Gives the pass back, and says why the service ended it, if it did.
fn serve_one<N: Which, R: Wait, K: Link + Drop, W: Warden + Drop, P: Keeper, J: Journal>(
    rt: &R,
    alloc: Global,
    turn: &Turn<Hub<P, J>>,
    pass: Pass<Hub<P, J>>,
    link: K,
    warden: W,
    rounds: u64,
) -> (Report, Option<Cut>, Pass<Hub<P, J>>)
    requires turn { turn.now ≡ N.turn }
    requires next { IsNext (λ o. opening_of (P.tables o.start) (P.limit o.start) o.fleet o.secret)
        N.turn N.opening pass }
    ensures served { IsServed
        (λ o. opening_of (P.tables o.start) (P.limit o.start) o.fleet o.secret)
        N.opening pass.number (watched_wire (wire_of K.inbound K.written K.faults link)) result.0 }
    // The service ended it only where the report says that the link failed.
    ensures cut { result.0.end ≢ ends.LinkFault → result.1 ≡ None }
    ensures pass { result.2.turn ≡ N.turn }
{
    let mut link = WatchedLink::new(link, warden, rounds);
    let (report, pass) = serve_link(rt, alloc, &mut link, turn, pass);
    link.hang_up();
    (report, link.cut(), pass)
}

// Serves a link that came, tells its end, and makes its place free.
fn serve_arrival<N: Which, R: Wait + Clock, K: Link + Drop, P: Keeper + Drop, J: Journal, T: Tell>(
    rt: &R,
    alloc: Global,
    turn: &Turn<Hub<P, J>>,
    hall: &Hall<N, K, P, J>,
    watch: &Watch<T>,
    limits: Limits,
    arrival: Arrival<N, K, P, J>,
)
    requires turn { turn.now ≡ N.turn }
{
    let Arrival {
        link,
        peer,
        place,
        since,
        pass,
        of: _,
    } = arrival;
    let guard = Guard {
        rt,
        watch,
        place,
        limits,
    };
    let rounds = limits.quiet.div_ceil(QUIET_PARTS);
    watch.told().lock(rt).began(pass.number(), peer);
    let (report, cut, pass) = serve_one::<N, R, K, Guard<R, T>, P, J>(
        rt, alloc, turn, pass, link, guard, rounds,
    );
    if report.end == End::StoreFault {
        watch.fail();
    }
    hall.root.lock(rt).take_back(turn, pass);
    let phone = watch.phone(rt, place);
    let milliseconds = moment(rt).saturating_sub(since);
    watch.told().lock(rt).ended(&Ended {
        report,
        peer,
        phone,
        cut,
        milliseconds,
    });
    watch.leave(rt, place);
}

// Serves one link after another, until none comes any more.
fn work<N: Which, R: Wait + Clock, K: Link + Drop, P: Keeper + Drop, J: Journal, T: Tell>(
    rt: &R,
    alloc: Global,
    turn: &Turn<Hub<P, J>>,
    hall: &Hall<N, K, P, J>,
    watch: &Watch<T>,
    limits: Limits,
)
    requires turn { turn.now ≡ N.turn }
{
    let worker = hall.enter(rt);
    for _ in rt.forever() {
        match hall.take(rt, worker) {
            Some(arrival) => serve_arrival(rt, alloc, turn, hall, watch, limits, arrival),
            None => return,
        }
    }
}

// A link was closed at once.
fn turn_away<R: Wait, K: Link + Drop, T: Tell>(
    rt: &R,
    watch: &Watch<T>,
    mut link: K,
    peer: Option<SocketAddr>,
    why: Away,
) {
    link.hang_up();
    watch.told().lock(rt).turned_away(peer, why);
}

// Hands a link that came on to a worker, with a number, where one is free. Tells whether there was a number.
fn greet<N: Which, R: Wait + Clock, K: Link + Drop, P: Keeper + Drop, J: Journal, T: Tell>(
    rt: &R,
    turn: &Turn<Hub<P, J>>,
    hall: &Hall<N, K, P, J>,
    watch: &Watch<T>,
    limits: Limits,
    link: K,
    peer: Option<SocketAddr>,
) -> bool
    requires turn { turn.now ≡ N.turn }
{
    let since = moment(rt);
    let place = match watch.admit(rt, since, peer, &limits) {
        Ok(place) => place,
        Err(why) => {
            turn_away(rt, watch, link, peer, why);
            return true;
        }
    };
    let Some(pass) = hall.root.lock(rt).next(turn) else {
        watch.leave(rt, place);
        return false;
    };
    watch.name(rt, place, pass.number());
    let arrival = Arrival {
        link,
        peer,
        place,
        since,
        pass,
        of: PhantomData,
    };
    if let Err(arrival) = hall.put(rt, arrival) {
        send_back(rt, turn, hall, watch, arrival);
    }
    true
}

// A link that no worker was given is closed, its place free again and its pass taken back.
fn send_back<N: Which, R: Wait, K: Link + Drop, P: Keeper + Drop, J: Journal, T: Tell>(
    rt: &R,
    turn: &Turn<Hub<P, J>>,
    hall: &Hall<N, K, P, J>,
    watch: &Watch<T>,
    arrival: Arrival<N, K, P, J>,
)
    requires turn { turn.now ≡ N.turn }
{
    let Arrival {
        link,
        peer,
        place,
        since: _,
        pass,
        of: _,
    } = arrival;
    hall.root.lock(rt).take_back(turn, pass);
    watch.leave(rt, place);
    turn_away(rt, watch, link, peer, Away::Memory);
}

// Accepts links and hands them on, until the service is to end. Says why it ended.
fn receive<N: Which, R: Wait + Clock, D: Door, P: Keeper + Drop, J: Journal, T: Tell>(
    rt: &R,
    turn: &Turn<Hub<P, J>>,
    hall: &Hall<N, D::Link, P, J>,
    watch: &Watch<T>,
    limits: Limits,
    door: &mut D,
) -> ServiceEnd
    requires turn { turn.now ≡ N.turn }
{
    let mut failed: u32 = 0;
    let mut is_short = false;
    for _ in rt.forever() {
        if let Some(end) = watch.ending() {
            return end;
        }
        match door.next() {
            Arrived::Link(link, peer) => {
                failed = 0;
                is_short = false;
                if !greet(rt, turn, hall, watch, limits, link, peer) {
                    return ServiceEnd::NumbersSpent;
                }
            }
            Arrived::Nobody => {}
            Arrived::Short => {
                if !is_short {
                    watch.told().lock(rt).short();
                }
                is_short = true;
            }
            Arrived::Failed => {
                watch.told().lock(rt).accept_failed();
                failed = failed.saturating_add(1);
                if failed == MOST_FAILED {
                    return ServiceEnd::ListenerFailed;
                }
                thread::sleep(rt, Duration::from_secs(FAILED_WAIT));
            }
            Arrived::Over => return ServiceEnd::Over,
        }
    }
    unreachable!()
}

/// Serves the links that come in at a door, each under a number of its own, from 1 on, until the watch is asked to stop or to renew,
/// a session ended by a store fault, no link is left to come, no number is left, or the listener failed 60 times in a row. Failures
/// are in a row until a link comes, also with seconds between in which none does. So many are served at once as the limits and the
/// system's threads allow; the next one is closed at once. Gives the hub back, where every pass came back. Behind it the door may
/// be served again, under the same watch, which what was asked of this run alone does not end at once.
pub fn serve_on<
    R: Threads + Wait + Clock + Sync,
    D: Door,
    P: Keeper + Send + Drop,
    J: Journal + Send,
    T: Tell + Send,
>(
    rt: &R,
    alloc: Global,
    door: &mut D,
    mut hub: Hub<P, J>,
    limits: Limits,
    watch: &Watch<T>,
) -> (ServiceEnd, Option<Hub<P, J>>)
where
    D::Link: Send,
    requires history { hub.history ≡ [] }
    ensures opening { IfSome result.1 (λ back.
        opening_of (P.tables back.start) (P.limit back.start) back.fleet back.secret
        ≡ opening_of (P.tables hub.start) (P.limit hub.start) hub.fleet
        hub.secret) }
{
    let Ok(()) = hub.reserve(limits.sessions) else {
        return (ServiceEnd::Memory, Some(hub));
    };
    match Turn::begin(alloc, hub) {
        Ok((turn, pass)) => serve_turn::<Brand, R, D, P, J, T>(
            rt, alloc, door, turn, pass, limits, watch,
        ),
        Err((hub, Memory)) => (ServiceEnd::Memory, Some(hub)),
    }
}

// Serves by a turn, and closes it.
fn serve_turn<N: Which + Send, R, D, P, J, T>(
    rt: &R,
    alloc: Global,
    door: &mut D,
    turn: Turn<Hub<P, J>>,
    pass: Pass<Hub<P, J>>,
    limits: Limits,
    watch: &Watch<T>,
) -> (ServiceEnd, Option<Hub<P, J>>)
where
    R: Threads + Wait + Clock + Sync,
    D: Door,
    D::Link: Send,
    P: Keeper + Send + Drop,
    J: Journal + Send,
    T: Tell + Send,
    requires turn { turn ≡ N.turn }
    requires root { IsRoot (λ o. opening_of (P.tables o.start) (P.limit o.start) o.fleet o.secret)
        N.turn N.opening pass 0 limits.sessions 0 }
    ensures opening { IfSome result.1 (λ back. Some (opening_of
        (P.tables back.start) (P.limit back.start) back.fleet back.secret) ≡ N.opening) }
{
    let root = Root::<N, P, J>::new(pass, limits.sessions);
    let (end, root) = match Hall::new(alloc, root, limits.links) {
        Ok(hall) => serve_hall(rt, alloc, door, &turn, hall, limits, watch),
        Err(root) => (ServiceEnd::Memory, root),
    };
    match root.finish() {
        Some(pass) => (end, Some(turn.close(pass))),
        None => (end, None),
    }
}

// Serves in a hall, whose root it gives back.
fn serve_hall<N: Which + Send, R, D, P, J, T>(
    rt: &R,
    alloc: Global,
    door: &mut D,
    turn: &Turn<Hub<P, J>>,
    hall: Hall<N, D::Link, P, J>,
    limits: Limits,
    watch: &Watch<T>,
) -> (ServiceEnd, Root<N, P, J>)
where
    R: Threads + Wait + Clock + Sync,
    D: Door,
    D::Link: Send,
    P: Keeper + Send + Drop,
    J: Journal + Send,
    T: Tell + Send,
    requires turn { turn.now ≡ N.turn }
{
    let end = serve_scope(rt, alloc, door, turn, &hall, limits, watch);
    (end, hall.into_root())
}

// Has workers serve links, and accepts them.
fn serve_scope<N: Which + Send, R, D, P, J, T>(
    rt: &R,
    alloc: Global,
    door: &mut D,
    turn: &Turn<Hub<P, J>>,
    hall: &Hall<N, D::Link, P, J>,
    limits: Limits,
    watch: &Watch<T>,
) -> ServiceEnd
where
    R: Threads + Wait + Clock + Sync,
    D: Door,
    D::Link: Send,
    P: Keeper + Send + Drop,
    J: Journal + Send,
    T: Tell + Send,
    requires turn { turn.now ≡ N.turn }
{
    let end = thread::scope(
        thread::scope_env(),
        rt,
        move |scope| -> ServiceEnd
            requires sync { IsSync R.row }
            requires turn { turn.now ≡ N.turn }
        {
            let count = start_all(scope, rt, alloc, turn, hall, limits, watch);
            let end = receive_for(rt, turn, hall, watch, limits, door, count);
            hall.shut(rt);
            end
        },
    );
    watch.go_on();
    end
}

// Accepts links for so many workers. The links that are served end too, but where no more are left to come.
fn receive_for<N: Which, R: Wait + Clock, D: Door, P: Keeper + Drop, J: Journal, T: Tell>(
    rt: &R,
    turn: &Turn<Hub<P, J>>,
    hall: &Hall<N, D::Link, P, J>,
    watch: &Watch<T>,
    limits: Limits,
    door: &mut D,
    count: u32,
) -> ServiceEnd
    requires turn { turn.now ≡ N.turn }
{
    if count == 0 {
        return ServiceEnd::NoThread;
    }
    let Ok(()) = watch.open(rt, count) else {
        return ServiceEnd::Memory;
    };
    let limits = limits_for(rt, watch, limits, count);
    let end = receive(rt, turn, hall, watch, limits, door);
    if end != ServiceEnd::Over {
        watch.end_with(end);
    }
    end
}

// What is allowed where there are so many workers. It is told where these are fewer than links may be served.
fn limits_for<R: Wait, T: Tell>(rt: &R, watch: &Watch<T>, limits: Limits, count: u32) -> Limits {
    if count >= limits.links {
        return limits;
    }
    watch.told().lock(rt).few_threads(count);
    Limits {
        links: count,
        strangers: limits.strangers.min((count / 2).max(1)),
        ..limits
    }
}

// Starts as many workers as links may be served, or as there can be threads. Answers how many.
fn start_all<'t, E, N: Which + Send + 't, R, K, P, J, T>(
    scope: &'t Scope<'t, E>,
    rt: &'t R,
    alloc: Global,
    turn: &'t Turn<Hub<P, J>>,
    hall: &'t Hall<N, K, P, J>,
    limits: Limits,
    watch: &'t Watch<T>,
) -> u32
where
    R: Threads + Wait + Clock + Sync + 't,
    K: Link + Send + Drop + 't,
    P: Keeper + Send + Drop + 't,
    J: Journal + Send + 't,
    T: Tell + Send + 't,
    requires turn { turn.now ≡ N.turn }
{
    for count in 0..limits.links {
        if !start(scope, rt, alloc, turn, hall, limits, watch) {
            return count;
        }
    }
    limits.links
}

// Starts a worker. Tells whether a thread could be made.
fn start<'t, E, N: Which + Send + 't, R, K, P, J, T>(
    scope: &'t Scope<'t, E>,
    rt: &'t R,
    alloc: Global,
    turn: &'t Turn<Hub<P, J>>,
    hall: &'t Hall<N, K, P, J>,
    limits: Limits,
    watch: &'t Watch<T>,
) -> bool
where
    R: Threads + Wait + Clock + Sync + 't,
    K: Link + Send + Drop + 't,
    P: Keeper + Send + Drop + 't,
    J: Journal + Send + 't,
    T: Tell + Send + 't,
    requires turn { turn.now ≡ N.turn }
{
    scope
        .spawn(
            move || -> ()
                requires turn { turn.now ≡ N.turn }
            { work(rt, alloc, turn, hall, watch, limits) },
        )
        .is_ok()
}
