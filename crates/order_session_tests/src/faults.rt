//! Each call of the book fails in turn. The calls are: an order is looked for behind the first frames; a text is issued; it is
//! looked for, and offered; at its response it is looked for, and answered; and the next one is looked for.

ghost use Rattle.std.specs.Prelude.{◌≡◌, ◌≤◌, false, None};

use crate::frames::{LET_IN, START, TEXT, TO_TEXT};
use crate::setting::{feed, feed_over, hub, issue, let_in, offer, order, send_text, session};
use jt_order::{MemBook, OrderBook};
use jt_order_session::OrderSession;
use jt_platform::Hub;
use jt_store::{MemKeeper, StoreError};
use jt_value::{Buffer, Seq};
use std::alloc::Global;
use std::process::Abort;

// A book of which this call fails.
fn failing(rt: &impl Abort, alloc: Global, call: u64) -> MemBook {
    let mut calls = Seq::new(alloc);
    calls.push(call).expect(rt, "there is memory");
    MemBook::new(alloc, calls)
}

// The book fails at a few octets, to which a session that goes on writes this.
fn feed_failing(
    rt: &impl Abort,
    alloc: Global,
    session: &mut OrderSession,
    hub: &mut Hub<MemKeeper>,
    book: &mut MemBook,
    octets: &[u8],
    written: &[u8],
)
    requires waits { session.old.session.waiting ≡ None }
    requires on { session.old.session.over ≡ false }
    requires place { session.old.session.stream.place ≤ 100 }
    ensures waits { session.new.session.waiting ≡ None }
    ensures on { session.new.session.over ≡ false }
    ensures place { session.new.session.stream.place ≤ 200 }
{
    let (out, told) = feed_over(rt, alloc, session, hub, book, octets);
    assert!(rt; told == Err(StoreError::Failed));
    assert!(rt; out.as_slice() == written);
}

// The response to a text comes where this call of the book fails, and then once more.
fn respond_twice(rt: &impl Abort, alloc: Global, call: u64) {
    let mut hub = hub(rt, alloc);
    let mut book = failing(rt, alloc, call);
    let mut session = session(rt, alloc);
    send_text(rt, alloc, &mut session, &mut hub, &mut book);
    feed_failing(rt, alloc, &mut session, &mut hub, &mut book, TO_TEXT, b"");
    assert!(rt; book.results().is_empty());
    let written = feed(rt, alloc, &mut session, &mut hub, &mut book, TO_TEXT);
    assert!(rt; written.as_slice().is_empty());
    assert!(rt; book.results() == b"\x01".as_slice());
    drop(session);
    drop(hub);
    drop(book);
}

#[test]
fn a_session_is_let_in_where_the_book_fails(rt: HostRuntime) {
    let alloc = rt.alloc();
    let mut hub = hub(&rt, alloc);
    let mut book = failing(&rt, alloc, 1);
    let mut session = session(&rt, alloc);
    feed_failing(&rt, alloc, &mut session, &mut hub, &mut book, START, LET_IN);
    issue(&rt, alloc, &mut book, 0x8300, b"\x01A");
    let offered = offer(&rt, alloc, &mut session, &hub, &mut book);
    assert!(rt; offered.as_slice() == TEXT);
    drop(session);
    drop(hub);
    drop(book);
}

#[test]
fn an_order_that_the_book_does_not_take_is_not_offered(rt: HostRuntime) {
    let alloc = rt.alloc();
    let mut hub = hub(&rt, alloc);
    let mut book = failing(&rt, alloc, 2);
    let mut session = session(&rt, alloc);
    let_in(&rt, alloc, &mut session, &mut hub, &mut book);
    let text = order(&rt, alloc, 0x8300, b"\x01A");
    assert!(rt; book.issue(alloc, &text) == Err(StoreError::Failed));
    let offered = offer(&rt, alloc, &mut session, &hub, &mut book);
    assert!(rt; offered.as_slice().is_empty());
    assert!(rt; book.results().is_empty());
    drop(session);
    drop(hub);
    drop(book);
}

#[test]
fn an_order_is_offered_behind_an_offer_that_fails(rt: HostRuntime) {
    let alloc = rt.alloc();
    let mut hub = hub(&rt, alloc);
    let mut book = failing(&rt, alloc, 3);
    let mut session = session(&rt, alloc);
    let_in(&rt, alloc, &mut session, &mut hub, &mut book);
    issue(&rt, alloc, &mut book, 0x8300, b"\x01A");
    let mut out = Buffer::new(alloc);
    assert!(rt; session.offer(&hub, &mut book, &mut out) == Err(StoreError::Failed));
    assert!(rt; out.as_slice().is_empty());
    let offered = offer(&rt, alloc, &mut session, &hub, &mut book);
    assert!(rt; offered.as_slice() == TEXT);
    drop(session);
    drop(hub);
    drop(book);
}

#[test]
fn a_response_that_is_not_told_answers_when_it_comes_again(rt: HostRuntime) {
    respond_twice(&rt, rt.alloc(), 4);
}

#[test]
fn so_does_a_response_that_is_not_kept(rt: HostRuntime) {
    respond_twice(&rt, rt.alloc(), 5);
}

#[test]
fn a_response_answers_where_the_offer_behind_it_fails(rt: HostRuntime) {
    let alloc = rt.alloc();
    let mut hub = hub(&rt, alloc);
    let mut book = failing(&rt, alloc, 6);
    let mut session = session(&rt, alloc);
    send_text(&rt, alloc, &mut session, &mut hub, &mut book);
    feed_failing(&rt, alloc, &mut session, &mut hub, &mut book, TO_TEXT, b"");
    assert!(rt; book.results() == b"\x01".as_slice());
    drop(session);
    drop(hub);
    drop(book);
}
