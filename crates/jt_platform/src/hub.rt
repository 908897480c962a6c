//! The hub: one event of the platform's core.

ghost use Rattle.std.specs.Prelude.{◌≡◌, ◌≢◌, ◌≤◌, ◌<◌, ◌+◌, ◌-◌, ◌^◌, [], false, true, Some, max, IfOk, IfErr, IsTrue, ◌↔◌, OnOk, OnErr, IsOk, if◌then◌else◌};
ghost use Rattle.jt_value.specs.Sameness.{key_of};
ghost use Rattle.jt_platform.specs.History.{newest, closed, live, holder};
ghost use Rattle.jt_platform.specs.Allowed.{AnyReply, Allowed, Legal, is_trouble};
ghost use Rattle.jt_platform.specs.Allowed.{makes_entry as makes_an_entry};
ghost use Rattle.jt_platform.specs.Calls.{tables_by, code_said, IsGuard, IsCoded, IsUnit, UnitIn};
ghost use Rattle.jt_platform.specs.Index.{IsReady, KeepsPlaces};
ghost use Rattle.jt_platform.specs.Hub.{HubValue, history_by, opening_of, IsAt, IsOwed, HasReason};
ghost use Rattle.jt_platform.specs.declared.request.Request.TheVariants.{Close};
ghost use Rattle.jt_platform.specs.declared.request.Reply.TheVariants.{Accepted};

use crate::code::code_octets;
use crate::copying::{copy_reply, copy_request};
use crate::journal::Journal;
use crate::log::Log;
use crate::registering::{auth, deregister, register};
use crate::request::{Entry, Fleet, Reply, Request};
use crate::roll::Roll;
use crate::unit::unit;
use jt_store::Keeper;
use jt_value::{Buffer, Memory, Octets, Phone, Seq};
use std::alloc::Global;
use std::marker::Model;
use std::mem::replace;
use std::snapshot::Snapshot;

// NotLive or Fenced, where the session is not live for the phone or not its holder.
fn guard<J: Journal>(log: &Log<J>, phone: &Phone, session: u32) -> Option<Reply>
    requires { closed (newest log.now.entries) session ≡ false }
    ensures { IsGuard (key_of phone.now) (newest log.now.entries) session result }
{
    if !log.is_live(phone, session) {
        return Some(Reply::NotLive);
    }
    match log.holder(phone) {
        Some(other) => {
            if other == session {
                None
            } else {
                Some(Reply::Fenced(other))
            }
        }
        None => unreachable!(),
    }
}

// The answer to a unit of the holder's live session.
fn unit_in<P: Keeper>(alloc: Global, keeper: &mut P, request: &mut Request) -> Reply
    requires { IsUnit request.old }
    ensures done { UnitIn (P.tables keeper.old) (P.tables keeper.new) (P.limit keeper.old)
        request.old result }
    ensures same { request.new ≡ request.old }
    ensures limit { P.limit keeper.new ≡ P.limit keeper.old }
    ensures reason { HasReason (P.faults keeper.old) (P.faults keeper.new)
        (P.may_fail keeper.old) (P.may_fail keeper.new) result }
{
    match request {
        Request::Unit {
            phone,
            serial,
            id,
            body,
        } => unit(alloc, keeper, phone, *serial, *id, body),
        _ => unreachable!(),
    }
}

// The answer to a request of a session that is not closed.
fn answer_open<P: Keeper, J: Journal>(
    alloc: Global,
    keeper: &mut P,
    fleet: &Roll,
    secret: &Octets,
    log: &Log<J>,
    session: u32,
    request: &Request,
    copy: &mut Request,
) -> Reply
    requires open { closed (newest log.now.entries) session ≡ false }
    requires copy { copy.old ≡ request.now }
    ensures copy { copy.new ≡ copy.old }
    ensures reply { is_trouble result ≡ false →
        AnyReply (opening_of (P.tables keeper.old) (P.limit keeper.old) fleet.now secret.now)
        (P.tables keeper.old) (newest log.now.entries) session request.now result }
    ensures tables { P.tables keeper.new ≡ tables_by request.now result (P.tables keeper.old) }
    ensures limit { P.limit keeper.new ≡ P.limit keeper.old }
    ensures coded { IsCoded (code_said secret.now request.now) result }
    ensures reason { HasReason (P.faults keeper.old) (P.faults keeper.new)
        (P.may_fail keeper.old) (P.may_fail keeper.new) result }
    ensures close { request.now ≡ Close → result ≡ Accepted }
{
    match request {
        Request::Register {
            phone,
            register: wanted,
        } => register(alloc, keeper, fleet, secret, phone, wanted),
        Request::Auth { phone, code } => auth(alloc, keeper, secret, phone, code),
        Request::Unit {
            phone,
            serial: _,
            id: _,
            body: _,
        } => match guard(log, phone, session) {
            Some(reply) => reply,
            None => unit_in(alloc, keeper, copy),
        },
        Request::Deregister { phone } => match guard(log, phone, session) {
            Some(reply) => reply,
            None => deregister(alloc, keeper, phone),
        },
        Request::Other { phone, id: _ } => match guard(log, phone, session) {
            Some(reply) => reply,
            None => Reply::Accepted,
        },
        Request::Close => Reply::Accepted,
    }
}

// The answer to a request, whose copy lends its body. A Close asks nothing of the keeper.
fn answer<P: Keeper, J: Journal>(
    alloc: Global,
    keeper: &mut P,
    fleet: &Roll,
    secret: &Octets,
    log: &Log<J>,
    session: u32,
    request: &Request,
    copy: &mut Request,
) -> Reply
    requires copy { copy.old ≡ request.now }
    ensures copy { copy.new ≡ copy.old }
    ensures reply { is_trouble result ≡ false →
        AnyReply (opening_of (P.tables keeper.old) (P.limit keeper.old) fleet.now secret.now)
        (P.tables keeper.old) (newest log.now.entries) session request.now result }
    ensures tables { P.tables keeper.new ≡ tables_by request.now result (P.tables keeper.old) }
    ensures limit { P.limit keeper.new ≡ P.limit keeper.old }
    ensures coded { IsCoded (code_said secret.now request.now) result }
    ensures reason { HasReason (P.faults keeper.old) (P.faults keeper.new)
        (P.may_fail keeper.old) (P.may_fail keeper.new) result }
    ensures close { request.now ≡ Close → result ≡ Accepted }
{
    if let Request::Close = request {
        return Reply::Accepted;
    }
    if log.is_closed(session) {
        return Reply::NotLive;
    }
    answer_open(alloc, keeper, fleet, secret, log, session, request, copy)
}

fn makes_entry(reply: &Reply) -> bool
    ensures { result ≡ makes_an_entry reply.now }
{
    !matches!(
        reply,
        Reply::ListFull(_) | Reply::StoreFault | Reply::Memory
    )
}

// The code that the reply's entry may hold.
fn entry_code(alloc: Global, secret: &Octets, request: &Request) -> Result<Octets, Memory>
    ensures code { IfOk result (λ code. code ≡ code_said secret.now request.now) }
    ensures close { request.now ≡ Close → IsOk result }
{
    match request {
        Request::Register { phone, register: _ } => code_octets(alloc, secret, phone),
        _ => Ok(Seq::new(alloc)),
    }
}

// Whether the request is a Close whose memory is there.
fn is_owed_close<J: Journal>(log: &Log<J>, reserved: u32, session: u32, request: &Request) -> bool
    ensures { IsTrue result ↔ ((request.now ≡ Close) × IsOwed log.now.entries reserved session) }
{
    matches!(request, Request::Close)
        && 1 <= session
        && session <= reserved
        && !log.is_closed(session)
}

// Makes room and places for an entry of the request, beside those that are owed.
fn make_room<J: Journal>(
    log: &mut Log<J>,
    owed: u64,
    is_owed: bool,
    session: u32,
    request: &Request,
) -> Result<(), Memory>
    requires few { owed < 2 ^ 32 }
    requires room { owed ≤ log.old.spare }
    requires one { is_owed ≡ true → 0 < owed }
    requires place { is_owed ≡ true → IsReady log.old.index session request.now }
    ensures entries { log.new.entries ≡ log.old.entries }
    ensures room { OnOk result (0 < log.new.spare) }
    ensures owed { OnOk result ((if is_owed then owed else owed + 1) ≤ log.new.spare) }
    ensures ready { OnOk result (IsReady log.new.index session request.now) }
    ensures same { OnErr result (log.new.spare ≡ log.old.spare) }
    ensures kept { KeepsPlaces log.old.index log.new.index }
    ensures close { is_owed ≡ true → IsOk result }
{
    if is_owed {
        return Ok(());
    }
    log.place(session, request)?;
    log.reserve(owed + 1)
}

/// The hub over a keeper, with its history, whose entries go to a journal: `Hub<P>` keeps them. It keeps the allocator that it
/// began with, and, for contracts alone and in no octets, the keeper as it was at the start.
#[derive(Drop)]
pub struct Hub<P: Keeper, J: Journal = Buffer<Entry>> {
    alloc: Global,
    keeper: P,
    start: Snapshot<P>,
    fleet: Roll,
    secret: Octets,
    log: Log<J>,
    reserved: u32,
    // For how many Closes the history has room at least.
    owed: u64,
}

impl<P: Keeper, J: Journal> Model for Hub<P, J> {
    ghost use Rattle.jt_platform.specs.Index.{IsReady, KeepsPlaces};
    ghost use Rattle.jt_platform.specs.Hub.{HubValue, IsAt, opening_of};
    ghost use Rattle.jt_platform.specs.Calls.{HasRoom};
    ghost use Rattle.jt_platform.specs.Allowed.{Legal};
    ghost use Rattle.jt_platform.specs.History.{newest};
    ghost use Rattle.jt_platform.specs.Index.{HasPlaces};

    ghost Value = { HubValue P };

    ghost view = { λ h. record { keeper = h.keeper; start = h.start.value; fleet = h.fleet; secret = h.secret; history = h.log.entries; reserved = h.reserved } };

    ghost invariant = { λ h. IsAt (P.tables h.start.value) (P.tables h.keeper) (P.limit h.start.value) (P.limit h.keeper) h.log.entries × HasRoom h.log.entries h.reserved h.owed h.log.spare × Legal (opening_of (P.tables h.start.value) (P.limit h.start.value) h.fleet h.secret) (newest h.log.entries) × HasPlaces h.log.index 0 h.reserved };
}

impl<P: Keeper, J: Journal> Hub<P, J> {
    /// A hub over a keeper, with an empty history over the keeper's registrations and rows. It takes memory for the fleet's
    /// names; Memory gives the keeper back.
    pub fn begin(
        alloc: Global,
        keeper: P,
        fleet: Fleet,
        secret: Octets,
    ) -> Result<Hub<P, J>, (P, Memory)>
        ensures ok { IfOk result (λ hub. hub ≡ record {
          keeper = keeper;
          start = keeper;
          fleet = fleet;
          secret = secret;
          history = [];
          reserved = 0;
        }) }
        ensures err { IfErr result (λ refused. refused.0 ≡ keeper) }
    {
        Hub::begin_with(alloc, keeper, fleet, secret, J::new(alloc))
    }

    /// A hub as `begin` makes it, over a journal without entries that the caller made. Memory gives the keeper back, and lets the
    /// journal go.
    pub fn begin_with(
        alloc: Global,
        keeper: P,
        fleet: Fleet,
        secret: Octets,
        journal: J,
    ) -> Result<Hub<P, J>, (P, Memory)>
        requires journal { J.entries journal ≡ [] }
        ensures ok { IfOk result (λ hub. hub ≡ record {
          keeper = keeper;
          start = keeper;
          fleet = fleet;
          secret = secret;
          history = [];
          reserved = 0;
        }) }
        ensures err { IfErr result (λ refused. refused.0 ≡ keeper) }
    {
        let Ok(roll) = Roll::of(alloc, &fleet) else {
            return Err((keeper, Memory));
        };
        let start = Snapshot::of(&keeper);
        Ok(Hub {
            alloc,
            keeper,
            start,
            fleet: roll,
            secret,
            log: Log::over(alloc, journal),
            reserved: 0,
            owed: 0,
        })
    }

    /// The keeper, to be looked at; `history` says where it is.
    pub fn keeper(&self) -> &P
        ensures { result.now ≡ self.now.keeper }
    {
        &self.keeper
    }

    /// Whether the session is live for the phone and holds it, by the entries so far.
    pub fn holds(&self, session: u32, phone: &Phone) -> bool
        ensures { IsTrue result
            ↔ ((live (key_of phone.now) (newest self.now.history) session ≡ true)
            × (holder (key_of phone.now) (newest self.now.history) ≡ Some session)) }
    {
        if self.log.is_closed(session) {
            return false;
        }
        self.log.is_live(phone, session) && self.log.holder(phone) == Some(session)
    }

    /// Takes the memory for a Close of each session from 1 to `upto`, so that the first Close of such a session takes none.
    /// After Memory all is as before.
    pub fn reserve(&mut self, upto: u32) -> Result<(), Memory>
        ensures ok { OnOk result
            (self.new ≡ record self.old { reserved = max self.old.reserved upto }) }
        ensures err { OnErr result (self.new ≡ self.old) }
    {
        if upto <= self.reserved {
            return Ok(());
        }
        let owed = self.owed + u64::from(upto - self.reserved);
        self.log.place_closes(self.reserved, upto)?;
        self.log.reserve(owed)?;
        self.owed = owed;
        self.reserved = upto;
        Ok(())
    }

    /// Answers a request of a session by the history, and adds the request and the reply to it; for ListFull, StoreFault and
    /// Memory it adds nothing. All memory of its own is taken before the keeper's first call.
    ///
    /// StoreFault comes only where the keeper's count of faults rose in the call. The first Close of a session within the
    /// reserved number takes no memory and is Accepted.
    pub fn act(&mut self, session: u32, request: &Request) -> Reply
        ensures allowed { is_trouble result ≡ false →
            Allowed (opening_of (P.tables self.old.start) (P.limit self.old.start) self.old.fleet
            self.old.secret) (newest self.old.history) session request.now result }
        ensures history { self.new.history
            ≡ history_by session request.now result self.old.history }
        ensures opening { (self.new.start ≡ self.old.start) × (self.new.fleet ≡ self.old.fleet)
            × (self.new.secret ≡ self.old.secret) × (self.new.reserved ≡ self.old.reserved) }
        ensures keeper { IsAt (P.tables self.new.start) (P.tables self.new.keeper)
            (P.limit self.new.start) (P.limit self.new.keeper) self.new.history }
        ensures close { request.now ≡ Close → IsOwed self.old.history self.old.reserved session →
            result ≡ Accepted }
        ensures reason { HasReason (P.faults self.old.keeper) (P.faults self.new.keeper)
            (P.may_fail self.old.keeper) (P.may_fail self.new.keeper) result }
    {
        let _ = &self.log;
        let is_owed = is_owed_close(&self.log, self.reserved, session, request);
        let Ok(mut copy) = copy_request(self.alloc, request) else {
            return Reply::Memory;
        };
        let Ok(code) = entry_code(self.alloc, &self.secret, request) else {
            return Reply::Memory;
        };
        let Ok(()) = make_room(&mut self.log, self.owed, is_owed, session, request) else {
            return Reply::Memory;
        };
        let reply = answer(
            self.alloc,
            &mut self.keeper,
            &self.fleet,
            &self.secret,
            &self.log,
            session,
            request,
            &mut copy,
        );
        if !makes_entry(&reply) {
            self.log.let_go(session, request);
            return reply;
        }
        let entry = Entry {
            session,
            request: copy,
            reply: copy_reply(&reply, code),
        };
        self.log.push(entry);
        if is_owed {
            self.owed -= 1;
        }
        reply
    }

    /// The keeper, which is where the history leaves it, with no memory taken. The history is let go.
    pub fn into_keeper(self) -> P
        ensures parts { result ≡ self.keeper }
        ensures keeper { IsAt (P.tables self.start) (P.tables result) (P.limit self.start)
            (P.limit result) self.history }
        ensures legal { Legal (opening_of (P.tables self.start) (P.limit self.start) self.fleet
            self.secret) (newest self.history) }
    {
        let Hub {
            alloc: _,
            keeper,
            start: _,
            fleet: _,
            secret: _,
            log: _,
            reserved: _,
            owed: _,
        } = self;
        keeper
    }
}

impl<P: Keeper> Hub<P> {
    /// A hub over a keeper, which keeps all entries, with an empty history over the keeper's registrations and rows. It takes
    /// memory for the fleet's names; Memory gives the keeper back.
    pub fn start(
        alloc: Global,
        keeper: P,
        fleet: Fleet,
        secret: Octets,
    ) -> Result<Hub<P>, (P, Memory)>
        ensures ok { IfOk result (λ hub. hub ≡ record {
          keeper = keeper;
          start = keeper;
          fleet = fleet;
          secret = secret;
          history = [];
          reserved = 0;
        }) }
        ensures err { IfErr result (λ refused. refused.0 ≡ keeper) }
    {
        Hub::begin(alloc, keeper, fleet, secret)
    }

    /// The entries, oldest first. Each reply is one that the entries before it allow, and the keeper is where they leave it.
    pub fn history(&self) -> &[Entry]
        ensures entries { result.now ≡ self.now.history }
        ensures keeper { IsAt (P.tables self.now.start) (P.tables self.now.keeper)
            (P.limit self.now.start) (P.limit self.now.keeper) self.now.history }
        ensures legal { Legal (opening_of (P.tables self.now.start) (P.limit self.now.start)
            self.now.fleet self.now.secret) (newest self.now.history) }
    {
        self.log.entries()
    }

    /// Begins anew in place, with no memory taken: an empty history over the registrations and rows that the keeper has now, with
    /// the same fleet and secret. The history that was is handed back.
    pub fn restart(&mut self) -> Seq<Entry>
        ensures history { result ≡ self.old.history }
        ensures hub { self.new ≡ record {
          keeper = self.old.keeper;
          start = self.old.keeper;
          fleet = self.old.fleet;
          secret = self.old.secret;
          history = [];
          reserved = 0;
        } }
        ensures keeper { IsAt (P.tables self.old.start) (P.tables self.old.keeper)
            (P.limit self.old.start) (P.limit self.old.keeper) self.old.history }
    {
        let log = replace(&mut self.log, Log::new(self.alloc));
        self.start = Snapshot::of(&self.keeper);
        self.reserved = 0;
        self.owed = 0;
        log.into_seq()
    }

    /// The keeper, which is where the history leaves it, and the history, with no memory taken.
    pub fn into_parts(self) -> (P, Seq<Entry>)
        ensures parts { (result.0 ≡ self.keeper) × (result.1 ≡ self.history) }
        ensures keeper { IsAt (P.tables self.start) (P.tables result.0) (P.limit self.start)
            (P.limit result.0) result.1 }
        ensures legal { Legal (opening_of (P.tables self.start) (P.limit self.start) self.fleet
            self.secret) (newest self.history) }
    {
        let Hub {
            alloc: _,
            keeper,
            start: _,
            fleet: _,
            secret: _,
            log,
            reserved: _,
            owed: _,
        } = self;
        (keeper, log.into_seq())
    }
}
