//! The links of a listener, each in a thread of its own, over one hub.

ghost use Rattle.std.specs.Prelude.{◌≡◌, ◌≢◌, ◌≤◌, ◌<◌, ◌+◌, ◌-◌, ◌^◌, ◌++◌, ◌⊎◌, ℕ, List, [], map, max, reverse, length, Option, Some, IfOk, IfSome, IsSomeAnd, MatchResult, option_map, IfErr};
ghost use Rattle.std.specs.Thread.{IsSync};
ghost use Rattle.jt_value.specs.Counts.{Counts, RoseBy};
ghost use Rattle.jt_outside.specs.Link.{wire_of};
ghost use Rattle.jt_outside.specs.Pool.{Script, used_of};
ghost use Rattle.jt_turn.specs.Passes.{TurnId};
ghost use Rattle.jt_turn.specs.Histories.{entries_of};
ghost use Rattle.jt_platform.specs.Allowed.{Legal};
ghost use Rattle.jt_platform.specs.Desks.{as_ask};
ghost use Rattle.jt_platform.specs.History.{newest};
ghost use Rattle.jt_platform.specs.Hub.{opening_of};
ghost use Rattle.jt_platform.specs.declared.desk.HubOpening.{HubOpening};
ghost use Rattle.jt_session.specs.Hearing.{IsSamePass};
ghost use Rattle.jt_session.specs.Serving.{Serves};
ghost use Rattle.jt_server.specs.Served.{AreServed, EndsAs, store_faults};
ghost use Rattle.jt_server.specs.Jobs.{AreNew, AreUnused, AreUpTo, HasFailed, IsGiven, IsJoined, IsRoot, IsWorked, ServesLinks, AreRooms, lent_to};
ghost use lib.ListN.{get_elem?};
ghost use mathlib.Core.Option.{some};
ghost use Rattle.jt_value.specs.declared.limits.TheConstants.{INPUT_LIMIT};

use crate::held::{Door, Held};
use crate::passes::{join_unused, split_all};
use crate::served::{ServeEnd, Served};
use crate::work::{Given, Job, Pledge, Work, serve_one};
use jt_outside::{Accepted, Link, Listen};
use jt_platform::Hub;
use jt_session::Report;
use jt_store::Keeper;
use jt_turn::{Pass, Turn};
use jt_value::{Buffer, Memory, Seq};
use std::alloc::Global;
use std::snapshot::Snapshot;
use std::sync::Wait;
use std::thread;
use std::thread::{Parker, Promise, PromisedHandle, Scope, SpawnError, Threads};
use std::time::Duration;

// How often a thread is tried to be made, and how long the wait between two tries is, in milliseconds: about five seconds in all
// (this project's own).
const MOST_TRIES: u32 = 51;

const TRY_WAIT: u64 = 100;

// What serving in threads gives back: the listener, the first pass, the links that were served, the last one first, and why no
// more were accepted.
#[derive(Drop)]
struct Done<D: Door, P: Keeper> {
    door: D,
    pass: Pass<Hub<P>>,
    links: Buffer<Back<D::Link>>,
    end: ServeEnd,
}

// A link that was served.
#[derive(Drop)]
struct Back<K> {
    link: K,
    report: Report,
}

/// Accepts links, up to as many as `sessions` says, at least 1, and serves each in a thread of its own, under the number of its
/// place, from 1 on. Where a thread cannot be started the caller waits and tries again, for about five seconds, and then serves
/// that link itself. All threads are joined, and the links are given back to the listener in order. The hub's history is empty.
///
/// Memory for the Closes, the passes and the reports is taken before the first link is accepted, and Memory comes only there: no
/// link was accepted.
pub fn serve<R: Threads + Wait + Sync, L: Listen, P: Keeper + Send + Drop>(
    rt: &R,
    alloc: Global,
    listen: &mut L,
    mut hub: Hub<P>,
    sessions: u32,
) -> Served<P>
where
    L::Link: Send,
    requires history { hub.history ≡ [] }
    requires sessions { 1 ≤ sessions }
    // Each reply is one that the entries before it allow, over the opening of the hub, which stays but for its reserved number.
    ensures legal { Legal (opening_of (P.tables hub.start) (P.limit hub.start) hub.fleet hub.secret)
        (newest result.hub.history) }
    ensures opening { (result.hub.start ≡ hub.start) × (result.hub.fleet ≡ hub.fleet)
        × (result.hub.secret ≡ hub.secret) }
    // What was served, and what came back to the listener.
    ensures served { AreServed (Option (HubOpening P))
        (opening_of (P.tables hub.start) (P.limit hub.start) hub.fleet hub.secret)
        result.hub.history (L.pool listen.old) (L.pool listen.new) result.reports }
    ensures no_other { (n : ℕ) → (n ≡ 0) ⊎ (length result.reports < n) →
        entries_of n (map as_ask result.hub.history) ≡ [] }
    ensures end { EndsAs result.end (length result.reports) sessions (L.pool listen.new)
        (L.faults listen.old) (L.faults listen.new) }
    ensures count { Counts (L.faults listen.old) (L.faults listen.new) }
    // The keeper's count rose by at least as many as the reports that end as StoreFault.
    ensures faults { RoseBy (store_faults result.reports) (P.faults hub.keeper)
        (P.faults result.hub.keeper) }
{
    match hub.reserve(sessions) {
        Ok(()) => serve_reserved(rt, alloc, listen, hub, sessions),
        Err(Memory) => refused(alloc, listen, hub, sessions),
    }
}

// No link was accepted.
fn refused<L: Listen, P: Keeper>(alloc: Global, listen: &L, hub: Hub<P>, sessions: u32) -> Served<P>
    requires history { hub.history ≡ [] }
    requires sessions { 1 ≤ sessions }
    ensures { ServesLinks (Option (HubOpening P))
        (opening_of (P.tables hub.start) (P.limit hub.start) hub.fleet hub.secret) hub.start
        hub.fleet hub.secret result.hub sessions (L.pool listen.now) (L.pool listen.now)
        (L.faults listen.now) (L.faults listen.now) (P.faults hub.keeper)
        (P.faults result.hub.keeper) result.reports result.end }
{
    let _sessions = sessions;
    let _listen = listen;
    Served {
        reports: Seq::new(alloc),
        hub,
        end: ServeEnd::Memory,
    }
}

// What is taken before the first link is accepted.
#[derive(Drop)]
struct Rooms<K: Link, P: Keeper> {
    jobs: Buffer<Job<K, P>>,
    links: Buffer<Back<K>>,
    reports: Buffer<Report>,
}

fn take_rooms<K: Link + Drop, P: Keeper>(
    alloc: Global,
    sessions: u32,
) -> Result<Rooms<K, P>, Memory>
    ensures { IfOk result (λ rooms. AreRooms sessions rooms.jobs.items rooms.jobs.spare
        rooms.links.items rooms.links.spare rooms.reports.items rooms.reports.spare) }
{
    let jobs = room(alloc, sessions)?;
    let links = room(alloc, sessions)?;
    let reports = room(alloc, sessions)?;
    Ok(Rooms {
        jobs,
        links,
        reports,
    })
}

// Serves links over a hub that has the memory for a Close of each session.
fn serve_reserved<R: Threads + Wait + Sync, L: Listen, P: Keeper + Send + Drop>(
    rt: &R,
    alloc: Global,
    listen: &mut L,
    hub: Hub<P>,
    sessions: u32,
) -> Served<P>
where
    L::Link: Send,
    requires history { hub.history ≡ [] }
    requires sessions { 1 ≤ sessions }
    requires reserved { sessions ≤ hub.reserved }
    ensures { ServesLinks (Option (HubOpening P))
        (opening_of (P.tables hub.start) (P.limit hub.start) hub.fleet hub.secret) hub.start
        hub.fleet hub.secret result.hub sessions (L.pool listen.old) (L.pool listen.new)
        (L.faults listen.old) (L.faults listen.new) (P.faults hub.keeper)
        (P.faults result.hub.keeper) result.reports result.end }
{
    let Ok(rooms) = take_rooms(alloc, sessions) else {
        return refused(alloc, listen, hub, sessions);
    };
    let before = Snapshot::of(&hub);
    match Turn::begin(alloc, hub) {
        Ok((turn, pass)) => { serve_turn(rt, alloc, listen, before, turn, pass, rooms, sessions) }
        Err((hub, Memory)) => refused(alloc, listen, hub, sessions),
    }
}

// Serves links over a turn that has just begun, closes it, and gives the links back.
fn serve_turn<R: Threads + Wait + Sync, L: Listen, P: Keeper + Send + Drop>(
    rt: &R,
    alloc: Global,
    listen: &mut L,
    before: Snapshot<Hub<P>>,
    turn: Turn<Hub<P>>,
    pass: Pass<Hub<P>>,
    rooms: Rooms<L::Link, P>,
    sessions: u32,
) -> Served<P>
where
    L::Link: Send,
    requires begun { pass ≡ record {
      turn = turn;
      number = 0;
      opening = Some (record {
        start = before.value.start;
        fleet = before.value.fleet;
        secret = before.value.secret;
        reserved = before.value.reserved;
      });
      base = P.faults before.value.keeper;
      seen = [];
      mine = [];
      faults = P.faults before.value.keeper;
      found = [];
      found_faults = 0;
      failed = 0;
      ended = [];
      lent = 0;
      given = 0;
    } }
    requires reserved { sessions ≤ before.value.reserved }
    requires rooms { AreRooms sessions rooms.jobs.items rooms.jobs.spare rooms.links.items
        rooms.links.spare rooms.reports.items rooms.reports.spare }
    ensures { ServesLinks (Option (HubOpening P))
        (opening_of (P.tables before.value.start) (P.limit before.value.start) before.value.fleet
        before.value.secret) before.value.start before.value.fleet before.value.secret result.hub
        sessions (L.pool listen.old) (L.pool listen.new) (L.faults listen.old) (L.faults listen.new)
        (P.faults before.value.keeper) (P.faults result.hub.keeper) result.reports result.end }
{
    let Rooms {
        jobs,
        links,
        mut reports,
    } = rooms;
    let lent = serve_lent(rt, alloc, listen, &turn, pass, jobs, links, sessions);
    let Lent { pass, links, end } = lent;
    let hub = turn.close(pass);
    give_back(listen, links.into_seq().into_vec(), &mut reports);
    let _entries = hub.history();
    Served {
        reports: reports.into_seq(),
        hub,
        end,
    }
}

// What serving a listener's links gives back beside the listener.
#[derive(Drop)]
struct Lent<K: Link, P: Keeper> {
    pass: Pass<Hub<P>>,
    links: Buffer<Back<K>>,
    end: ServeEnd,
}

// Serves the links of a listener that was lent.
fn serve_lent<R: Threads + Wait + Sync, L: Listen, P: Keeper + Send + Drop>(
    rt: &R,
    alloc: Global,
    listen: &mut L,
    turn: &Turn<Hub<P>>,
    pass: Pass<Hub<P>>,
    jobs: Buffer<Job<L::Link, P>>,
    links: Buffer<Back<L::Link>>,
    sessions: u32,
) -> Lent<L::Link, P>
where
    L::Link: Send,
    requires root { IsRoot pass.opening turn.now pass.base pass }
    requires fresh { (pass.given ≡ 0) × (pass.lent ≡ 0) × (pass.ended ≡ []) × (pass.failed ≡ 0) }
    requires reserved { IsSomeAnd pass.opening (λ o. sessions ≤ o.reserved) }
    requires room { (jobs.items ≡ []) × (sessions ≤ jobs.spare) × (links.items ≡ [])
        × (sessions ≤ links.spare) }
    ensures root { IsRoot pass.opening turn.now pass.base result.pass }
    ensures lent { result.pass.lent ≡ 0 }
    ensures up_to { AreUpTo (length result.links.items) result.pass }
    ensures failed { HasFailed (store_faults (map (λ b. b.report) result.links.items)) result.pass }
    ensures links { (i : ℕ) (b : _) → get_elem? result.links.items i ≡ some b →
        IsJoined (option_map (λ o. opening_of (P.tables o.start) (P.limit o.start) o.fleet o.secret)
        pass.opening)
        pass.opening turn.now (L.pool listen.old).coming (length result.links.items - 1 - i)
        result.pass (wire_of L.Link.inbound L.Link.written L.Link.faults b.link) b.report }
    ensures pool { L.pool listen.new ≡ lent_to (length result.links.items) (L.pool listen.old) }
    ensures count { Counts (L.faults listen.old) (L.faults listen.new) }
    ensures few { length result.links.items ≤ sessions }
    ensures end { EndsAs result.end (length result.links.items) sessions (L.pool listen.new)
        (L.faults listen.old) (L.faults listen.new) }
{
    let held = Held { listen };
    let done = serve_all(rt, alloc, held, turn, pass, jobs, links, sessions);
    let Done {
        door,
        pass,
        links,
        end,
    } = done;
    let Held { listen: _listen } = door;
    Lent { pass, links, end }
}

/// An empty list with room for so many.
pub(crate) fn room<T: Drop>(alloc: Global, count: u32) -> Result<Buffer<T>, Memory>
    ensures { IfOk result (λ list. (list.items ≡ []) × (count ≤ list.spare)) }
{
    let mut list = Buffer::new(alloc);
    list.reserve(u64::from(count))?;
    Ok(list)
}

// Gives the links back to the listener, the last of the list first, and puts their reports in this order.
fn give_back<L: Listen>(listen: &mut L, mut links: Vec<Back<L::Link>>, reports: &mut Buffer<Report>)
    requires lent { IfSome (L.pool listen.old).lent (λ lent. length links.items ≤ lent) }
    requires room { length links.items ≤ reports.old.spare }
    ensures reports { reports.new.items
        ≡ reports.old.items ++ reverse (map (λ b. b.report) links.items) }
    ensures coming { (L.pool listen.new).coming ≡ (L.pool listen.old).coming }
    ensures back { (L.pool listen.new).back ≡ option_map (λ back. back ++ map used_of (reverse
        (map (λ b. wire_of L.Link.inbound L.Link.written L.Link.faults b.link) links.items)))
        (L.pool listen.old).back }
    ensures lent { (L.pool listen.new).lent
        ≡ option_map (λ lent. lent - length links.items) (L.pool listen.old).lent }
    ensures count { L.faults listen.new ≡ L.faults listen.old }
{
    while let Some(back) = links.pop() {
        let Back { link, report } = back;
        listen.back(link);
        let Ok(()) = reports.push(report) else {
            unreachable!();
        };
    }
}

// Serves the links of the listener, each in a thread of its own, and joins all threads.
fn serve_all<R: Threads + Wait + Sync, D: Door + Drop, P: Keeper + Send + Drop>(
    rt: &R,
    alloc: Global,
    door: D,
    turn: &Turn<Hub<P>>,
    pass: Pass<Hub<P>>,
    jobs: Buffer<Job<D::Link, P>>,
    links: Buffer<Back<D::Link>>,
    sessions: u32,
) -> Done<D, P>
where
    D::Link: Send,
    requires root { IsRoot pass.opening turn.now pass.base pass }
    requires fresh { (pass.given ≡ 0) × (pass.lent ≡ 0) × (pass.ended ≡ []) × (pass.failed ≡ 0) }
    requires reserved { IsSomeAnd pass.opening (λ o. sessions ≤ o.reserved) }
    requires room { (jobs.items ≡ []) × (sessions ≤ jobs.spare) × (links.items ≡ [])
        × (sessions ≤ links.spare) }
    ensures root { IsRoot pass.opening turn.now pass.base result.pass }
    ensures lent { result.pass.lent ≡ 0 }
    ensures up_to { AreUpTo (length result.links.items) result.pass }
    ensures failed { HasFailed (store_faults (map (λ b. b.report) result.links.items)) result.pass }
    ensures links { (i : ℕ) (b : _) → get_elem? result.links.items i ≡ some b →
        IsJoined (option_map (λ o. opening_of (P.tables o.start) (P.limit o.start) o.fleet o.secret)
        pass.opening) pass.opening turn.now (D.pool door).coming (length result.links.items - 1 - i)
        result.pass (wire_of D.Link.inbound D.Link.written D.Link.faults b.link) b.report }
    ensures pool { D.pool result.door ≡ lent_to (length result.links.items) (D.pool door) }
    ensures name { D.name result.door ≡ D.name door }
    ensures count { Counts (D.faults door) (D.faults result.door) }
    ensures few { length result.links.items ≤ sessions }
    ensures end { EndsAs result.end (length result.links.items) sessions (D.pool result.door)
        (D.faults door) (D.faults result.door) }
{
    thread::scope(
        thread::scope_env(),
        rt,
        move |scope| -> Done<D, P>
            requires sync { IsSync R.row }
            requires root { IsRoot pass.opening turn.now pass.base pass }
            requires fresh { (pass.given ≡ 0) × (pass.lent ≡ 0) × (pass.ended ≡ [])
                × (pass.failed ≡ 0) }
            requires reserved { IsSomeAnd pass.opening (λ o. sessions ≤ o.reserved) }
            requires room { (jobs.items ≡ []) × (sessions ≤ jobs.spare) × (links.items ≡ [])
                × (sessions ≤ links.spare) }
            ensures root { IsRoot pass.opening turn.entry.now pass.base result.pass }
            ensures lent { result.pass.lent ≡ 0 }
            ensures up_to { AreUpTo (length result.links.items) result.pass }
            ensures failed { HasFailed (store_faults (map (λ b. b.report) result.links.items))
                result.pass }
            ensures links { (i : ℕ) (b : _) → get_elem? result.links.items i ≡ some b →
                IsJoined (option_map (λ o.
                opening_of (P.tables o.start) (P.limit o.start) o.fleet o.secret) pass.opening)
                pass.opening turn.entry.now (D.pool door).coming (length result.links.items - 1 - i)
                result.pass (wire_of D.Link.inbound D.Link.written D.Link.faults b.link) b.report }
            ensures pool { D.pool result.door ≡ lent_to (length result.links.items) (D.pool door) }
            ensures name { D.name result.door ≡ D.name door }
            ensures count { Counts (D.faults door) (D.faults result.door) }
            ensures few { length result.links.items ≤ sessions }
            ensures end { EndsAs result.end (length result.links.items) sessions
                (D.pool result.door) (D.faults door) (D.faults result.door) }
        {
            let mut door = door;
            let mut pass = pass;
            let mut jobs = jobs;
            let mut links = links;
            let before = Snapshot::of(&door);
            let end = accept_all(
                scope, rt, alloc, &mut door, turn, &mut pass, &mut jobs, sessions,
            );
            join_all(
                rt,
                turn,
                &mut pass,
                before,
                jobs.into_seq().into_vec(),
                &mut links,
            );
            Done {
                door,
                pass,
                links,
                end,
            }
        },
    )
}

// Accepts links and starts a thread for each. All passes are given before a link is accepted.
fn accept_all<'s, E, R: Threads + Wait + Sync + 's, D: Door, P: Keeper + Send + Drop + 's>(
    scope: &'s Scope<'s, E>,
    rt: &'s R,
    alloc: Global,
    door: &mut D,
    turn: &'s Turn<Hub<P>>,
    pass: &mut Pass<Hub<P>>,
    jobs: &mut Buffer<Job<D::Link, P>>,
    sessions: u32,
) -> ServeEnd
where
    D::Link: Send + 's,
    requires root { IsRoot pass.old.opening turn.now pass.old.base pass.old }
    requires fresh { (pass.old.given ≡ 0) × (pass.old.lent ≡ 0) × (pass.old.ended ≡ [])
        × (pass.old.failed ≡ 0) }
    requires reserved { IsSomeAnd pass.old.opening (λ o. sessions ≤ o.reserved) }
    requires room { (jobs.old.items ≡ []) × (sessions ≤ jobs.old.spare) }
    ensures root { IsRoot pass.old.opening turn.now pass.old.base pass.new }
    ensures lent { pass.new.lent ≡ length jobs.new.items }
    ensures failed { pass.new.failed ≡ 0 }
    ensures up_to { AreUpTo 0 pass.new }
    ensures jobs { (m : ℕ) (job : _) → get_elem? jobs.new.items m ≡ some job → MatchResult job
        (λ h. IsGiven pass.old.opening turn.now (D.pool door.old).coming m
        h.promise.given.value.pass.value
        (wire_of D.Link.inbound D.Link.written D.Link.faults h.promise.given.value.link.value))
        (λ w.
        IsWorked (option_map (λ o. opening_of (P.tables o.start) (P.limit o.start) o.fleet o.secret)
        pass.old.opening) pass.old.opening turn.now (D.pool door.old).coming m w.pass
        (wire_of D.Link.inbound D.Link.written D.Link.faults w.link) w.report) }
    ensures pool { D.pool door.new ≡ lent_to (length jobs.new.items) (D.pool door.old) }
    ensures name { D.name door.new ≡ D.name door.old }
    ensures count { Counts (D.faults door.old) (D.faults door.new) }
    ensures few { length jobs.new.items ≤ sessions }
    ensures end { EndsAs result (length jobs.new.items) sessions (D.pool door.new)
        (D.faults door.old) (D.faults door.new) }
{
    let Ok(mut passes) = split_all(alloc, turn, pass, sessions) else {
        return ServeEnd::Memory;
    };
    let end = accept_each(
        scope,
        rt,
        alloc,
        door,
        turn,
        pass,
        &mut passes,
        jobs,
        sessions,
    );
    join_unused(turn, pass, passes);
    end
}

// Accepts links and starts a thread for each, with a pass from the end of the list.
fn accept_each<'s, E, R: Threads + Wait + Sync + 's, D: Door, P: Keeper + Send + Drop + 's>(
    scope: &'s Scope<'s, E>,
    rt: &'s R,
    alloc: Global,
    door: &mut D,
    turn: &'s Turn<Hub<P>>,
    root: &Pass<Hub<P>>,
    passes: &mut Vec<Pass<Hub<P>>>,
    jobs: &mut Buffer<Job<D::Link, P>>,
    sessions: u32,
) -> ServeEnd
where
    D::Link: Send + 's,
    requires new { AreNew root.now.opening turn.now sessions passes.old.items }
    requires reserved { IsSomeAnd root.now.opening (λ o. sessions ≤ o.reserved) }
    requires room { (jobs.old.items ≡ []) × (sessions ≤ jobs.old.spare) }
    ensures unused { AreUnused root.now.opening turn.now passes.new.items }
    ensures all { length passes.new.items + length jobs.new.items ≡ sessions }
    ensures jobs { (m : ℕ) (job : _) → get_elem? jobs.new.items m ≡ some job → MatchResult job
        (λ h. IsGiven root.now.opening turn.now (D.pool door.old).coming m
        h.promise.given.value.pass.value
        (wire_of D.Link.inbound D.Link.written D.Link.faults h.promise.given.value.link.value))
        (λ w.
        IsWorked (option_map (λ o. opening_of (P.tables o.start) (P.limit o.start) o.fleet o.secret)
        root.now.opening) root.now.opening turn.now (D.pool door.old).coming m w.pass
        (wire_of D.Link.inbound D.Link.written D.Link.faults w.link) w.report) }
    ensures pool { D.pool door.new ≡ lent_to (length jobs.new.items) (D.pool door.old) }
    ensures name { D.name door.new ≡ D.name door.old }
    ensures count { Counts (D.faults door.old) (D.faults door.new) }
    ensures end { EndsAs result (length jobs.new.items) sessions (D.pool door.new)
        (D.faults door.old) (D.faults door.new) }
{
    let _root = root;
    let mut accepted = 0;
    while accepted < sessions {
        match door.accept() {
            Accepted::Link(link) => {
                let Some(one) = passes.pop() else {
                    unreachable!();
                };
                let job = start(scope, rt, alloc, turn, one, link);
                let Ok(()) = jobs.push(job) else {
                    unreachable!();
                };
                accepted += 1;
            }
            Accepted::Over => return ServeEnd::Over,
            Accepted::Failed => return ServeEnd::ListenFault,
        }
    }
    ServeEnd::All
}

// Starts a thread that serves the link. Where none can be made the caller serves it.
fn start<
    's,
    E,
    R: Threads + Wait + Sync + 's,
    K: Link + Send + Drop + 's,
    P: Keeper + Send + Drop + 's,
>(
    scope: &'s Scope<'s, E>,
    rt: &'s R,
    alloc: Global,
    turn: &'s Turn<Hub<P>>,
    pass: Pass<Hub<P>>,
    link: K,
) -> Job<K, P>
    requires turn { pass.turn ≡ turn.now }
    requires number { (1 ≤ pass.number) × IsSomeAnd pass.opening (λ o. pass.number ≤ o.reserved) }
    requires new { pass.mine ≡ [] }
    ensures { MatchResult result
        (λ h. (h.promise.given.value.pass.value ≡ pass)
        × (h.promise.given.value.link.value ≡ link)) (λ w.
        Serves (option_map (λ o. opening_of (P.tables o.start) (P.limit o.start) o.fleet o.secret)
        pass.opening) INPUT_LIMIT pass w.pass (wire_of K.inbound K.written K.faults link)
        (wire_of K.inbound K.written K.faults w.link) w.report × IsSamePass pass w.pass) }
{
    let given = Given {
        link: Snapshot::of(&link),
        pass: Snapshot::of(&pass),
    };
    match spawn_patiently(
        scope,
        rt,
        &given,
        move || serve_one(rt, alloc, turn, pass, link),
    ) {
        Ok(handle) => Ok(handle),
        Err(refused) => Err((refused.value)()),
    }
}

// Starts a thread whose result keeps what was promised. Where none can be made it waits and tries again, up to as often as
// MOST_TRIES says.
fn spawn_patiently<
    's,
    E,
    R: Wait,
    G: Promise<T> + Drop,
    F: FnOnce() -> T + Send + 's,
    T: Send + Drop + 's,
>(
    scope: &'s Scope<'s, E>,
    rt: &R,
    given: &G,
    work: F,
) -> Result<PromisedHandle<T, Pledge<G>>, SpawnError<F>>
    requires runs { F.pre work }
    requires keeps { (r : T) → F.post work r → G.kept_by given.now r }
    ensures ok { IfOk result (λ h. h.promise.given.value ≡ given.now) }
    ensures err { IfErr result (λ e. e.value ≡ work) }
{
    let parker = Parker::new();
    let mut work = work;
    for _ in 1..MOST_TRIES {
        match scope.spawn_with(pledge(given), work) {
            Ok(handle) => return Ok(handle),
            Err(refused) => work = refused.value,
        }
        parker.park_timeout(rt, Duration::from_millis(TRY_WAIT));
    }
    scope.spawn_with(pledge(given), work)
}

fn pledge<G>(given: &G) -> Pledge<G>
    ensures { result.given.value ≡ given.now }
{
    Pledge {
        given: Snapshot::of(given),
    }
}

// What a thread brought back, once it has ended.
fn finish<R: Threads, K: Link + Drop, P: Keeper>(rt: &R, job: Job<K, P>) -> Work<K, P>
    ensures { (opening : Option (HubOpening P)) (of_turn : TurnId) (coming : Option (List Script))
        (m : ℕ) →
        MatchResult job (λ h. IsGiven opening of_turn coming m h.promise.given.value.pass.value
        (wire_of K.inbound K.written K.faults h.promise.given.value.link.value)) (λ w. IsWorked
        (option_map (λ o. opening_of (P.tables o.start) (P.limit o.start) o.fleet o.secret) opening)
        opening of_turn coming m w.pass (wire_of K.inbound K.written K.faults w.link) w.report) →
        IsWorked (option_map (λ o. opening_of (P.tables o.start) (P.limit o.start) o.fleet o.secret)
        opening) opening of_turn coming m result.pass
        (wire_of K.inbound K.written K.faults result.link) result.report }
{
    match job {
        Ok(handle) => handle.join(rt),
        Err(work) => work,
    }
}

// Joins the threads, the last one first, and their passes.
fn join_all<R: Threads, D: Door, P: Keeper>(
    rt: &R,
    turn: &Turn<Hub<P>>,
    pass: &mut Pass<Hub<P>>,
    before: Snapshot<D>,
    mut jobs: Vec<Job<D::Link, P>>,
    links: &mut Buffer<Back<D::Link>>,
)
    requires root { IsRoot pass.old.opening turn.now pass.old.base pass.old }
    requires lent { pass.old.lent ≡ length jobs.items }
    requires failed { pass.old.failed ≡ 0 }
    requires up_to { AreUpTo 0 pass.old }
    requires jobs { (m : ℕ) (job : _) → get_elem? jobs.items m ≡ some job → MatchResult job
        (λ h. IsGiven pass.old.opening turn.now (D.pool before.value).coming m
        h.promise.given.value.pass.value
        (wire_of D.Link.inbound D.Link.written D.Link.faults h.promise.given.value.link.value))
        (λ w.
        IsWorked (option_map (λ o. opening_of (P.tables o.start) (P.limit o.start) o.fleet o.secret)
        pass.old.opening) pass.old.opening turn.now (D.pool before.value).coming m w.pass
        (wire_of D.Link.inbound D.Link.written D.Link.faults w.link) w.report) }
    requires room { (links.old.items ≡ []) × (length jobs.items ≤ links.old.spare) }
    ensures root { IsRoot pass.old.opening turn.now pass.old.base pass.new }
    ensures lent { pass.new.lent ≡ 0 }
    ensures as_many { length links.new.items ≡ length jobs.items }
    ensures up_to { AreUpTo (length links.new.items) pass.new }
    ensures failed { HasFailed (store_faults (map (λ b. b.report) links.new.items)) pass.new }
    ensures links { (i : ℕ) (b : _) → get_elem? links.new.items i ≡ some b →
        IsJoined (option_map (λ o. opening_of (P.tables o.start) (P.limit o.start) o.fleet o.secret)
        pass.old.opening)
        pass.old.opening turn.now (D.pool before.value).coming (length links.new.items - 1 - i)
        pass.new (wire_of D.Link.inbound D.Link.written D.Link.faults b.link) b.report }
{
    while let Some(job) = jobs.pop() {
        let Work {
            link,
            pass: one,
            report,
        } = finish(rt, job);
        turn.join(pass, one);
        let Ok(()) = links.push(Back { link, report }) else {
            unreachable!();
        };
    }
}
