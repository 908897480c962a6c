//! A line of communication: the octets both ways, and the order session at its platform's end.

ghost use Rattle.std.specs.Prelude.{◌≡◌, ◌≤◌, ◌<◌, ◌+◌, ◌^◌, [], ◌∷◌, ◌++◌, length, get_or, true, false, ◌&&◌, ◌||◌, ◌↔◌, is_none, not, IfOk, IsOk, IsSome, OnOk, OnErr, None, ℕ};
ghost use Rattle.jt_platform.specs.History.{newest, closed};
ghost use Rattle.jt_platform.specs.Hub.{IsOwed};
ghost use Rattle.jt_platform.specs.declared.request.Request.TheVariants as request;
ghost use Rattle.jt_platform.specs.declared.request.Reply.TheVariants as reply;
ghost use Rattle.jt_session.specs.declared.end.Fed.TheVariants.{On};
ghost use Rattle.jt_octets.specs.World.{with_one_taken, written};
ghost use Rattle.jt_octets.specs.Steps.{shut};
ghost use Rattle.jt_play.specs.Holding.{is_short};
ghost use Rattle.jt_play.specs.Playing.{has_left};
ghost use Rattle.jt_order_octets.specs.World.{OrderWorld};
ghost use Rattle.jt_order_play.specs.Holding.{OffersInWorld, StandsIn, TakesOne, first_order_line};
ghost use Rattle.jt_order_play.specs.Playing.{goes_on};

use jt_order::MemBook;
use jt_order_session::{OrderSession, law_of_responses};
use jt_platform::Hub;
use jt_session::{End, Fed, Session, law_of_turns};
use jt_store::{MemKeeper, StoreError};
use jt_stream::law_one_octet;
use jt_value::{Buffer, Memory};
use std::alloc::Global;
use std::marker::Model;

// No memory holds so many octets.
const LIMIT: usize = 0x2000_0000_0000_0000;

/// A line between an order terminal and an order session. The octets of both directions are kept whole.
#[derive(Drop)]
pub(crate) struct Line {
    up: Vec<u8>,
    taken: usize,
    down: Buffer<u8>,
    read: usize,
    session: OrderSession,
    // Whether the session ended by itself.
    over: bool,
    is_open: bool,
}

impl Model for Line {
    ghost use Rattle.std.specs.Coded.{codes};
    ghost use Rattle.jt_subpacket.specs.Stored.{partial_code};
    ghost use Rattle.jt_play.specs.Holding.{line_of};
    ghost use Rattle.jt_order_play.specs.Holding.{IsOrderHeld, LineOfOrders};

    ghost Value = { LineOfOrders };

    ghost coded = { Prim.hlevel (codes, partial_code) };

    ghost view = { λ l. record { plain = record { number = l.session.session.number; line = line_of l.up.items l.taken l.down.items l.read l.over l.session.session l.is_open }; sent = l.session.sent } };

    ghost invariant = { λ l. IsOrderHeld l.up.items l.taken l.down.items l.read l.over l.session };
}

// Whether the session ended.
fn is_over(fed: Fed) -> bool
    ensures { (result ≡ false) ↔ (fed ≡ On) }
{
    match fed {
        Fed::On => false,
        Fed::Stop(_) => true,
    }
}

// Whether the session ended for want of memory, or for a fault of the keeper.
fn is_short(fed: Fed) -> bool
    ensures { result ≡ is_short fed }
{
    matches!(fed, Fed::Stop(End::StoreFault | End::Memory))
}

// Whether all was done: the book was told, what was offered was, and the session met no want of memory.
fn was_done(fed: Fed, told: Result<(), StoreError>) -> bool
    ensures { result ≡ true → IsOk told × (is_short fed ≡ false) }
{
    told.is_ok() && !is_short(fed)
}

impl Line {
    /// A line that was just opened.
    pub(crate) fn new(alloc: Global, number: u32) -> Result<Line, Memory>
        ensures { IfOk result (λ line. line ≡ first_order_line number) }
    {
        let session = Session::new(alloc, number)?;
        Ok(Line {
            up: Vec::new(alloc),
            taken: 0,
            down: Buffer::new(alloc),
            read: 0,
            session: OrderSession::new(alloc, session),
            over: false,
            is_open: true,
        })
    }

    /// Whether the platform's end is open.
    pub(crate) fn is_open(&self) -> bool
        ensures { result ≡ self.now.plain.line.is_open }
    {
        self.is_open
    }

    /// Whether the session takes an octet more: its end is open, it goes on, and an octet is left.
    pub(crate) fn may_take(&self) -> bool
        ensures { result ≡ goes_on self.now.plain.line }
    {
        self.is_open && !self.over && self.taken < self.up.len()
    }

    /// Whether the session ended by itself.
    pub(crate) fn is_over(&self) -> bool
        ensures { result ≡ is_none self.now.plain.line.session }
    {
        self.over
    }

    /// Whether an octet is left for the terminal.
    pub(crate) fn has_down(&self) -> bool
        ensures { result ≡ has_left self.now.plain.line.down }
    {
        self.read < self.down.as_slice().len()
    }

    /// Whether an octet may move on the line.
    pub(crate) fn moves(&self) -> bool
        ensures { result ≡ (self.now.plain.line.is_open && has_left self.now.plain.line.up)
            || has_left self.now.plain.line.down }
    {
        self.is_open && self.taken < self.up.len() || self.has_down()
    }

    /// Whether an octet is left that the terminal may read.
    pub(crate) fn may_read(&self) -> bool
        ensures { result ≡ true →
            (self.now.plain.line.down.taken < length self.now.plain.line.down.octets)
            × (self.now.plain.line.down.taken + 1 < 2 ^ 63) }
    {
        self.read < LIMIT && self.read < self.down.as_slice().len()
    }

    /// The octet that the terminal reads next.
    pub(crate) fn next(&self) -> u8
        requires { self.now.plain.line.down.taken < length self.now.plain.line.down.octets }
        ensures { result
            ≡ get_or self.now.plain.line.down.octets self.now.plain.line.down.taken 0 }
    {
        self.down.as_slice()[self.read]
    }

    /// The terminal read it.
    pub(crate) fn pass(&mut self)
        requires left { self.old.plain.line.down.taken < length self.old.plain.line.down.octets }
        requires short { self.old.plain.line.down.taken + 1 < 2 ^ 63 }
        ensures { self.new ≡ record self.old {
          plain = record self.old.plain {
            line = record self.old.plain.line { down = with_one_taken self.old.plain.line.down };
          };
        } }
    {
        self.read += 1;
    }

    /// The platform's end is gone.
    pub(crate) fn shut(&mut self)
        ensures { self.new ≡ record self.old {
          plain = record self.old.plain {
            line = shut self.old.plain.line;
          };
        } }
    {
        self.is_open = false;
    }

    /// The platform's end is closed, and the hub is told.
    pub(crate) fn cut(&mut self, hub: &mut Hub<MemKeeper>)
        requires { IsOwed hub.old.history hub.old.reserved self.old.plain.number }
        ensures line { self.new ≡ record self.old {
          plain = record self.old.plain {
            line = shut self.old.plain.line;
          };
        } }
        ensures entry { hub.new.history ≡ hub.old.history ++ record {
          session = self.old.plain.number;
          request = request.Close;
          reply = reply.Accepted;
        } ∷ [] }
        ensures opening { (hub.new.start ≡ hub.old.start) × (hub.new.fleet ≡ hub.old.fleet)
            × (hub.new.secret ≡ hub.old.secret) × (hub.new.reserved ≡ hub.old.reserved) }
    {
        self.session.close(hub);
        self.is_open = false;
    }

    /// The terminal writes octets.
    pub(crate) fn write(&mut self, octets: &[u8]) -> Result<(), Memory>
        ensures ok { OnOk result (self.new ≡ record self.old {
          plain = record self.old.plain {
            line = record self.old.plain.line {
              up = written self.old.plain.line.up octets.now;
            };
          };
        }) }
        ensures err { OnErr result (self.new ≡ self.old) }
    {
        if LIMIT <= self.up.len() || LIMIT <= octets.len() {
            return Err(Memory);
        }
        self.up.extend_from_slice(octets)?;
        Ok(())
    }

    /// The session takes one octet, asks the hub what that wants, tells the book of an answer, and offers: whether all was done.
    pub(crate) fn take(&mut self, hub: &mut Hub<MemKeeper>, book: &mut MemBook) -> bool
        requires opened { self.old.plain.line.is_open ≡ true }
        requires going { IsSome self.old.plain.line.session }
        requires left { self.old.plain.line.up.taken < length self.old.plain.line.up.octets }
        requires unclosed { closed (newest hub.old.history) self.old.plain.number ≡ false }
        ensures takes { (w : OrderWorld) (place : ℕ) →
            StandsIn w place self.old hub.old book.old.book →
            TakesOne w place self.new (newest hub.new.history) book.new.book result }
        ensures number { self.new.plain.number ≡ self.old.plain.number }
        ensures opened { self.new.plain.line.is_open ≡ true }
        ensures closed { (session : ℕ) →
            closed (newest hub.new.history) session ≡ closed (newest hub.old.history) session }
        ensures opening { (hub.new.start ≡ hub.old.start) × (hub.new.fleet ≡ hub.old.fleet)
            × (hub.new.secret ≡ hub.old.secret) × (hub.new.reserved ≡ hub.old.reserved) }
    {
        law_one_octet();
        law_of_turns();
        law_of_responses();
        let octet = self.up[self.taken];
        let (fed, told) = self.session.feed(hub, book, &[octet], &mut self.down);
        self.taken += 1;
        self.over = is_over(fed);
        was_done(fed, told)
    }

    /// The session sends the oldest order that is not answered, if it is to: whether that was done.
    pub(crate) fn offer(&mut self, hub: &Hub<MemKeeper>, book: &mut MemBook) -> bool
        requires { self.old.plain.line.is_open ≡ true }
        ensures offers { (w : OrderWorld) (place : ℕ) →
            StandsIn w place self.old hub.now book.old.book →
            OffersInWorld w place self.new result }
        ensures number { self.new.plain.number ≡ self.old.plain.number }
        ensures opened { self.new.plain.line.is_open ≡ true }
        ensures book { book.new.book ≡ book.old.book }
    {
        self.session.offer(hub, book, &mut self.down).is_ok()
    }
}
