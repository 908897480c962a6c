//! A session that sends orders.

ghost use Rattle.std.specs.Prelude.{◌≡◌, ◌≢◌, ◌<◌, ◌≤◌, ◌+◌, ◌^◌, ◌++◌, ◌∷◌, [], ◌↔◌, ℕ, None, Some, Err, false, true, ◌&&◌, length, slice_get, take, IfSome, IsNone, IsTrue, IsOk, OnErr, OnOk, if◌then◌else◌};
ghost use Rattle.std.specs.Option.{ForSome};
ghost use Rattle.jt_header.specs.Content.{IsHeader};
ghost use Rattle.jt_header.specs.Fields.{header_at, body_at};
ghost use Rattle.jt_store.specs.declared.error.StoreError.TheVariants.{Full};
ghost use Rattle.jt_store.specs.Tables.{HasCause, IsSteady};
ghost use Rattle.jt_platform.specs.History.{newest, closed};
ghost use Rattle.jt_platform.specs.Hub.{HasReason, IsOwed, opening_of};
ghost use Rattle.jt_platform.specs.declared.request.Request.TheVariants as request;
ghost use Rattle.jt_platform.specs.declared.request.Reply.TheVariants as reply;
ghost use Rattle.jt_session.specs.Sessions.{HasFedReason};
ghost use Rattle.jt_session.specs.TurnLaw.{IsNew};
ghost use Rattle.jt_order.specs.Books.{Book, IsStateOf};
ghost use Rattle.jt_obeying.specs.Orders.{order_at};
ghost use Rattle.jt_order_session.specs.Sessions.{FeedsOrders, Offers, StandsForOrders, Walks};
ghost use Rattle.jt_order_session.specs.Sessions as sessions;
ghost use Rattle.jt_order_session.specs.Responses.{response_in as response_at};

use crate::offering::write_order;
use crate::response::response_in;
use crate::telling::tell;
use jt_header::Header;
use jt_order::{BookState, Order, OrderBook};
use jt_platform::{Entry, Hub, Reply};
use jt_session::{Fed, Session, law_of_feeds};
use jt_store::{Keeper, StoreError};
use jt_stream::{Stream, StreamItem, law_items, law_one_list};
use jt_value::Buffer;
use std::alloc::Global;
use std::marker::Model;

/// A session of the platform that sends the orders of a book to its phone, one after another, and takes their answers. It reads
/// the octets beside its session, by a stream of its own.
///
/// All calls are handed one book. The count of its answers never falls, so an order that is not answered was sent on this
/// session exactly where it was sent last.
#[derive(Drop)]
pub struct OrderSession {
    alloc: Global,
    session: Session,
    stream: Stream,
    // The header of the first frame.
    first: Option<Header>,
    // The number of the order that was sent last.
    sent: Option<u64>,
}

impl Model for OrderSession {
    ghost use Rattle.std.specs.Coded.{codes};
    ghost use Rattle.jt_subpacket.specs.Stored.{partial_code};
    ghost use Rattle.jt_order_session.specs.Sessions.{IsSession, OrderSeen, order_seen};

    ghost Value = { OrderSeen };

    ghost coded = { Prim.hlevel (codes, partial_code) };

    ghost view = { λ s. order_seen s.session s.stream.splitter s.first s.sent };

    ghost invariant = { λ s. IsSession (order_seen s.session s.stream.splitter s.first s.sent) };
}

// Whether an entry stands behind so many, and says Accepted.
fn is_accepted(history: &[Entry], before: usize) -> bool
    ensures { result ≡ sessions.is_accepted (slice_get history.now before) }
{
    match history.get(before) {
        Some(entry) => matches!(&entry.reply, Reply::Accepted),
        None => false,
    }
}

// Whether a book is told of what an entry answered that stands behind so many: if it is told at all, and the entry says
// Accepted.
fn is_to_tell(is_told: bool, history: &[Entry], before: usize) -> bool
    ensures { result ≡ (is_told && sessions.is_accepted (slice_get history.now before)) }
{
    is_told && is_accepted(history, before)
}

// The header of the first frame of a session that is live for its phone, and holds it.
fn held_by<P: Keeper>(hub: &Hub<P>, session: u32, first: &Option<Header>) -> Option<Header>
    requires { ForSome first.now IsHeader }
    ensures some { IfSome result (λ header. (first.now ≡ Some header) × IsHeader header
        × (sessions.holds_phone session first.now (newest hub.now.history) ≡ true)) }
    ensures none { IsNone result →
        sessions.holds_phone session first.now (newest hub.now.history) ≡ false }
{
    match first {
        Some(header) => {
            if hub.holds(session, &header.phone) {
                Some(*header)
            } else {
                None
            }
        }
        None => None,
    }
}

// The oldest order that is not answered, unless it was sent last.
fn due_order(state: BookState, sent: Option<u64>) -> Option<Order>
    ensures some { IfSome result (λ order. (book : Book) → IsStateOf book state →
        (sessions.is_due sent book ≡ true)
        × (order_at book.issued (length book.results) ≡ order)) }
    ensures unsent { IfSome result (λ _. sessions.is_number sent state.answered ≡ false) }
    ensures none { IsNone result → (book : Book) → IsStateOf book state →
        sessions.is_due sent book ≡ false }
{
    if sent == Some(state.answered) {
        return None;
    }
    state.oldest
}

// The answer of a book that was told with these two answers, one after the other.
fn both_told(told: Result<(), StoreError>, heard: Result<(), StoreError>) -> Result<(), StoreError>
    ensures { result ≡ sessions.both_told told heard }
{
    match told {
        Ok(()) => heard,
        Err(error) => Err(error),
    }
}

// Keeps a header, unless one is kept.
fn keep_first(first: &mut Option<Header>, header: Header)
    requires header { IsHeader header }
    requires good { ForSome first.old IsHeader }
    ensures first { first.new ≡ sessions.first_of first.old header }
    ensures good { ForSome first.new IsHeader }
{
    if first.is_none() {
        *first = Some(header);
    }
}

// The stream's last frame: its header is kept if it is the first one, and if the book is to be told of it, it is told of the
// response that the frame is.
fn hear<B: OrderBook>(
    alloc: Global,
    stream: &Stream,
    first: &mut Option<Header>,
    sent: Option<u64>,
    book: &mut B,
    is_told: bool,
) -> Result<(), StoreError>
    requires found { IsTrue stream.now.found }
    requires good { ForSome first.old IsHeader }
    ensures first { first.new
        ≡ sessions.first_of first.old (header_at stream.now.splitter.content) }
    ensures good { ForSome first.new IsHeader }
    ensures ok { OnOk result (B.holds book.new ≡ (if is_told
        then sessions.told_of sent (response_at (header_at stream.now.splitter.content)
        (body_at stream.now.splitter.content)) (B.holds book.old) else B.holds book.old)) }
    ensures err { OnErr result (B.holds book.new ≡ B.holds book.old) }
    ensures quiet { is_told ≡ false → IsOk result }
    ensures cause { HasCause (B.faults book.old) (B.faults book.new) result }
    ensures steady { IsSteady (B.may_fail book.old) (B.may_fail book.new) result }
    ensures never_full { (limit : ℕ) → result ≢ Err (Full limit) }
{
    let Some((_, header, body)) = stream.frame() else {
        unreachable!();
    };
    keep_first(first, header);
    if !is_told {
        return Ok(());
    }
    match response_in(&header, body) {
        Some(response) => tell(alloc, book, sent, response),
        None => Ok(()),
    }
}

impl OrderSession {
    /// A session that sends orders, over a session that was given no octets. It keeps the allocator that it is given.
    pub fn new(alloc: Global, session: Session) -> OrderSession
        requires { IsNew session }
        ensures session { result.session ≡ session }
        ensures stands { StandsForOrders result [] }
        ensures first { result.first ≡ None }
        ensures sent { result.sent ≡ None }
    {
        OrderSession {
            alloc,
            session,
            stream: Stream::new(),
            first: None,
            sent: None,
        }
    }

    /// The number of its session.
    pub fn number(&self) -> u32
        ensures { result ≡ self.now.session.number }
    {
        self.session.number()
    }

    // Takes octets up to the first that completes an item, or all. The book is told of it if it is told at all.
    fn feed_item<P: Keeper, B: OrderBook>(
        &mut self,
        hub: &mut Hub<P>,
        book: &mut B,
        octets: &[u8],
        out: &mut Buffer<u8>,
        is_told: bool,
    ) -> (usize, Fed, Result<(), StoreError>)
        requires waits { self.old.session.waiting ≡ None }
        requires on { self.old.session.over ≡ false }
        requires some { 0 < length octets.now }
        requires short { self.old.session.stream.place + length octets.now < 2 ^ 63 }
        requires unclosed { closed (newest hub.old.history) self.old.session.number ≡ false }
        ensures taken { result.0 ≤ length octets.now }
        ensures some { 0 < result.0 }
        ensures walks { Walks is_told self.old self.new (take result.0 octets.now)
            (opening_of (P.tables hub.old.start) (P.limit hub.old.start) hub.old.fleet
            hub.old.secret) (newest hub.old.history) (newest hub.new.history) (B.holds book.old)
            (B.holds book.new) out.old.items out.new.items result.1 result.2 }
        ensures on { (result.1 ≡ Fed.On) ↔ (self.new.session.over ≡ false) }
        ensures waiting { self.new.session.waiting ≡ None }
        ensures place { self.new.session.stream.place ≤ self.old.session.stream.place + result.0 }
        ensures opening { (hub.new.start ≡ hub.old.start) × (hub.new.fleet ≡ hub.old.fleet)
            × (hub.new.secret ≡ hub.old.secret) × (hub.new.reserved ≡ hub.old.reserved) }
        ensures closed { (session : ℕ) →
            closed (newest hub.new.history) session ≡ closed (newest hub.old.history) session }
        ensures reason { HasFedReason (P.faults hub.old.keeper) (P.faults hub.new.keeper)
            (P.may_fail hub.old.keeper) (P.may_fail hub.new.keeper) result.1 }
        ensures quiet { is_told ≡ false → IsOk result.2 }
        ensures cause { HasCause (B.faults book.old) (B.faults book.new) result.2 }
        ensures steady { IsSteady (B.may_fail book.old) (B.may_fail book.new) result.2 }
        ensures never_full { (limit : ℕ) → result.2 ≢ Err (Full limit) }
    {
        law_one_list();
        law_items();
        let (count, item) = self.stream.take(octets);
        let before = hub.history().len();
        let fed = self.session.feed(hub, &octets[..count], out);
        match item {
            StreamItem::Frame => {
                let to_tell = is_to_tell(is_told, hub.history(), before);
                let heard = hear(
                    self.alloc,
                    &self.stream,
                    &mut self.first,
                    self.sent,
                    book,
                    to_tell,
                );
                (count, fed, heard)
            }
            StreamItem::Refused(_) | StreamItem::More => (count, fed, Ok(())),
        }
    }

    // Takes all octets, or those up to the item that ends the session.
    fn walk<P: Keeper, B: OrderBook>(
        &mut self,
        hub: &mut Hub<P>,
        book: &mut B,
        octets: &[u8],
        out: &mut Buffer<u8>,
    ) -> (Fed, Result<(), StoreError>)
        requires waits { self.old.session.waiting ≡ None }
        requires on { self.old.session.over ≡ false }
        requires short { self.old.session.stream.place + length octets.now < 2 ^ 63 }
        requires unclosed { closed (newest hub.old.history) self.old.session.number ≡ false }
        ensures walks { Walks true self.old self.new octets.now
            (opening_of (P.tables hub.old.start) (P.limit hub.old.start) hub.old.fleet
            hub.old.secret) (newest hub.old.history) (newest hub.new.history) (B.holds book.old)
            (B.holds book.new) out.old.items out.new.items result.0 result.1 }
        ensures on { (result.0 ≡ Fed.On) ↔ (self.new.session.over ≡ false) }
        ensures waiting { self.new.session.waiting ≡ None }
        ensures place { self.new.session.stream.place
            ≤ self.old.session.stream.place + length octets.now }
        ensures opening { (hub.new.start ≡ hub.old.start) × (hub.new.fleet ≡ hub.old.fleet)
            × (hub.new.secret ≡ hub.old.secret) × (hub.new.reserved ≡ hub.old.reserved) }
        ensures closed { (session : ℕ) →
            closed (newest hub.new.history) session ≡ closed (newest hub.old.history) session }
        ensures reason { HasFedReason (P.faults hub.old.keeper) (P.faults hub.new.keeper)
            (P.may_fail hub.old.keeper) (P.may_fail hub.new.keeper) result.0 }
        ensures cause { HasCause (B.faults book.old) (B.faults book.new) result.1 }
        ensures steady { IsSteady (B.may_fail book.old) (B.may_fail book.new) result.1 }
        ensures never_full { (limit : ℕ) → result.1 ≢ Err (Full limit) }
    {
        law_of_feeds();
        let mut taken = 0;
        let mut told = Ok(());
        while taken < octets.len() {
            let is_told = told.is_ok();
            let (count, fed, heard) = self.feed_item(hub, book, &octets[taken..], out, is_told);
            taken += count;
            told = both_told(told, heard);
            match fed {
                Fed::On => {}
                Fed::Stop(end) => return (Fed::Stop(end), told),
            }
        }
        (Fed::On, told)
    }

    /// Feeds the octets to the session as `Session::feed` does, whose answer is the first part; tells the book of each accepted
    /// response that names the oldest order which is not answered, where that was sent last; and then offers, as `offer`
    /// does.
    ///
    /// Failed comes only where the book's count of faults rose in the call, Full never. After an error the session is as after
    /// `Session::feed`, nothing was offered, and the book was told of some first responses.
    pub fn feed<P: Keeper, B: OrderBook>(
        &mut self,
        hub: &mut Hub<P>,
        book: &mut B,
        octets: &[u8],
        out: &mut Buffer<u8>,
    ) -> (Fed, Result<(), StoreError>)
        requires waits { self.old.session.waiting ≡ None }
        requires on { self.old.session.over ≡ false }
        requires short { self.old.session.stream.place + length octets.now < 2 ^ 63 }
        requires unclosed { closed (newest hub.old.history) self.old.session.number ≡ false }
        // What the session was asked, replied and wrote, of what the book was told, and what was offered.
        ensures feeds { FeedsOrders self.old self.new octets.now
            (opening_of (P.tables hub.old.start) (P.limit hub.old.start) hub.old.fleet
            hub.old.secret) (newest hub.old.history) (newest hub.new.history) (B.holds book.old)
            (B.holds book.new) out.old.items out.new.items result.0 result.1 }
        ensures on { (result.0 ≡ Fed.On) ↔ (self.new.session.over ≡ false) }
        ensures waiting { self.new.session.waiting ≡ None }
        ensures place { self.new.session.stream.place
            ≤ self.old.session.stream.place + length octets.now }
        ensures opening { (hub.new.start ≡ hub.old.start) × (hub.new.fleet ≡ hub.old.fleet)
            × (hub.new.secret ≡ hub.old.secret) × (hub.new.reserved ≡ hub.old.reserved) }
        ensures closed { (session : ℕ) →
            closed (newest hub.new.history) session ≡ closed (newest hub.old.history) session }
        ensures reason { HasFedReason (P.faults hub.old.keeper) (P.faults hub.new.keeper)
            (P.may_fail hub.old.keeper) (P.may_fail hub.new.keeper) result.0 }
        ensures cause { HasCause (B.faults book.old) (B.faults book.new) result.1 }
        ensures steady { IsSteady (B.may_fail book.old) (B.may_fail book.new) result.1 }
        ensures never_full { (limit : ℕ) → result.1 ≢ Err (Full limit) }
    {
        let (fed, told) = self.walk(hub, book, octets, out);
        match told {
            Ok(()) => (fed, self.offer(hub, book, out)),
            Err(error) => (fed, Err(error)),
        }
    }

    /// Puts the oldest order that is not answered behind `out`, if the session is live for the phone of its first frame, holds
    /// the phone, and did not send this order last; otherwise nothing. Failed comes only where the book's count of faults rose
    /// in the call, Full never; after an error nothing was offered.
    pub fn offer<P: Keeper, B: OrderBook>(
        &mut self,
        hub: &Hub<P>,
        book: &mut B,
        out: &mut Buffer<u8>,
    ) -> Result<(), StoreError>
        ensures offers { Offers self.old self.new (newest hub.now.history) (B.holds book.old)
            out.old.items out.new.items result }
        ensures book { B.holds book.new ≡ B.holds book.old }
        ensures cause { HasCause (B.faults book.old) (B.faults book.new) result }
        ensures steady { IsSteady (B.may_fail book.old) (B.may_fail book.new) result }
        ensures never_full { (limit : ℕ) → result ≢ Err (Full limit) }
    {
        let Some(first) = held_by(hub, self.session.number(), &self.first) else {
            return Ok(());
        };
        let state = book.load(self.alloc)?;
        let answered = state.answered;
        let Some(order) = due_order(state, self.sent) else {
            return Ok(());
        };
        write_order(out, &first, answered, &order)?;
        self.sent = Some(answered);
        Ok(())
    }

    /// Makes the Close entry of the session, as `Session::close` does, with its conditions.
    pub fn close<P: Keeper>(&mut self, hub: &mut Hub<P>)
        requires { IsOwed hub.old.history hub.old.reserved self.old.session.number }
        ensures same { self.new ≡ self.old }
        ensures entry { hub.new.history ≡ hub.old.history ++ record {
          session = self.old.session.number;
          request = request.Close;
          reply = reply.Accepted;
        } ∷ [] }
        ensures opening { (hub.new.start ≡ hub.old.start) × (hub.new.fleet ≡ hub.old.fleet)
            × (hub.new.secret ≡ hub.old.secret) × (hub.new.reserved ≡ hub.old.reserved) }
        ensures reason { HasReason (P.faults hub.old.keeper) (P.faults hub.new.keeper)
            (P.may_fail hub.old.keeper) (P.may_fail hub.new.keeper) reply.Accepted }
    {
        self.session.close(hub)
    }
}
