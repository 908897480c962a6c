//! A hub, and a session over it that takes octets.

ghost use Rattle.std.specs.Prelude.{◌≡◌, ◌≤◌, ◌+◌, false, None, length};
ghost use Rattle.jt_order_session.specs.Sessions.{OrderSeen};

use crate::frames::{LET_IN, START, TEXT};
use jt_order::{MemBook, Order, OrderBook};
use jt_order_session::OrderSession;
use jt_platform::{Fleet, Hub, is_closed};
use jt_session::{Fed, Session};
use jt_store::{MemKeeper, StoreError};
use jt_value::{Buffer, Edition, Memory, Octets, Seq};
use std::alloc::Global;
use std::process::Abort;

fn octets(alloc: Global, octets: &[u8]) -> Result<Octets, Memory> {
    Ok(Octets::from_vec(Vec::from_slice(alloc, octets)?))
}

fn list(alloc: Global, octet: u8) -> Result<Seq<Octets>, Memory> {
    let octets = octets(alloc, &[octet])?;
    let mut list = Seq::new(alloc);
    list.push(octets)?;
    Ok(list)
}

fn fleet(alloc: Global) -> Result<Fleet, Memory> {
    let plates = list(alloc, b'A')?;
    let terminals = list(alloc, b'1')?;
    Ok(Fleet { plates, terminals })
}

/// A hub over an empty keeper, with memory for the Close of session 1. Its fleet has the plate `A` and the terminal id `1`, and
/// its secret is 3132.
pub fn hub(rt: &impl Abort, alloc: Global) -> Hub<MemKeeper>
    ensures { result.reserved ≡ 1 }
{
    let fleet = fleet(alloc).expect(rt, "there is memory");
    let keeper = MemKeeper::new(alloc, 1000, Seq::new(alloc));
    let secret = octets(alloc, b"12").expect(rt, "there is memory");
    let mut hub = Hub::start(alloc, keeper, fleet, secret)
        .ok()
        .expect(rt, "there is memory");
    hub.reserve(1).expect(rt, "there is memory");
    hub
}

/// Session 1, which has read nothing.
pub fn session(rt: &impl Abort, alloc: Global) -> OrderSession
    ensures waits { result.session.waiting ≡ None }
    ensures on { result.session.over ≡ false }
    ensures place { result.session.stream.place ≡ 0 }
{
    let session = Session::new(alloc, 1).expect(rt, "there is memory");
    OrderSession::new(alloc, session)
}

/// The order of this id and body.
pub fn order(rt: &impl Abort, alloc: Global, id: u16, body: &[u8]) -> Order {
    Order::read(alloc, Edition::E2013, id, body)
        .ok()
        .expect(rt, "it is an order")
}

/// Issues the order of this id and body.
pub fn issue(rt: &impl Abort, alloc: Global, book: &mut MemBook, id: u16, body: &[u8]) {
    let order = order(rt, alloc, id, body);
    assert!(rt; book.issue(alloc, &order).is_ok());
}

/// What a session that is not closed writes to a few octets, with which it goes on, and what it answers of its book.
pub fn feed_over(
    rt: &impl Abort,
    alloc: Global,
    session: &mut OrderSession,
    hub: &mut Hub<MemKeeper>,
    book: &mut MemBook,
    octets: &[u8],
) -> (Buffer<u8>, Result<(), StoreError>)
    requires waits { session.old.session.waiting ≡ None }
    requires on { session.old.session.over ≡ false }
    requires short { session.old.session.stream.place ≤ 1000 }
    ensures waits { session.new.session.waiting ≡ None }
    ensures on { session.new.session.over ≡ false }
    ensures place { session.new.session.stream.place
        ≤ session.old.session.stream.place + 100 }
    ensures reserved { hub.new.reserved ≡ hub.old.reserved }
{
    assert!(rt; octets.len() <= 100);
    assert!(rt; !is_closed(hub.history(), session.number()));
    let mut out = Buffer::new(alloc);
    let (fed, told) = session.feed(hub, book, octets, &mut out);
    assert!(rt; fed == Fed::On);
    (out, told)
}

/// The same where nothing fails.
pub fn feed(
    rt: &impl Abort,
    alloc: Global,
    session: &mut OrderSession,
    hub: &mut Hub<MemKeeper>,
    book: &mut MemBook,
    octets: &[u8],
) -> Buffer<u8>
    requires waits { session.old.session.waiting ≡ None }
    requires on { session.old.session.over ≡ false }
    requires short { session.old.session.stream.place ≤ 1000 }
    ensures waits { session.new.session.waiting ≡ None }
    ensures on { session.new.session.over ≡ false }
    ensures place { session.new.session.stream.place
        ≤ session.old.session.stream.place + 100 }
    ensures reserved { hub.new.reserved ≡ hub.old.reserved }
{
    let (out, told) = feed_over(rt, alloc, session, hub, book, octets);
    assert!(rt; told.is_ok());
    out
}

/// What a session offers.
pub fn offer(
    rt: &impl Abort,
    alloc: Global,
    session: &mut OrderSession,
    hub: &Hub<MemKeeper>,
    book: &mut MemBook,
) -> Buffer<u8>
    ensures { session.new.session ≡ session.old.session }
{
    let mut out = Buffer::new(alloc);
    assert!(rt; session.offer(hub, book, &mut out).is_ok());
    out
}

/// A session that has read nothing is let in.
pub fn let_in(
    rt: &impl Abort,
    alloc: Global,
    session: &mut OrderSession,
    hub: &mut Hub<MemKeeper>,
    book: &mut MemBook,
)
    requires waits { session.old.session.waiting ≡ None }
    requires on { session.old.session.over ≡ false }
    requires place { session.old.session.stream.place ≡ 0 }
    ensures waits { session.new.session.waiting ≡ None }
    ensures on { session.new.session.over ≡ false }
    ensures place { session.new.session.stream.place ≤ 100 }
    ensures reserved { hub.new.reserved ≡ hub.old.reserved }
{
    let written = feed(rt, alloc, session, hub, book, START);
    assert!(rt; written.as_slice() == LET_IN);
}

/// A session that has read nothing is let in; then a text is issued, and offered.
pub fn send_text(
    rt: &impl Abort,
    alloc: Global,
    session: &mut OrderSession,
    hub: &mut Hub<MemKeeper>,
    book: &mut MemBook,
)
    requires waits { session.old.session.waiting ≡ None }
    requires on { session.old.session.over ≡ false }
    requires place { session.old.session.stream.place ≡ 0 }
    ensures waits { session.new.session.waiting ≡ None }
    ensures on { session.new.session.over ≡ false }
    ensures place { session.new.session.stream.place ≤ 100 }
    ensures reserved { hub.new.reserved ≡ hub.old.reserved }
{
    let_in(rt, alloc, session, hub, book);
    issue(rt, alloc, book, 0x8300, b"\x01A");
    let offered = offer(rt, alloc, session, hub, book);
    assert!(rt; offered.as_slice() == TEXT);
}
