//! Orders that a session sends, and responses to them.

ghost use Rattle.std.specs.Prelude.{◌≡◌};

use crate::frames::{CONTROL, TEXT, TO_OTHER, TO_TEXT};
use crate::setting::{feed, hub, issue, let_in, offer, send_text, session};
use jt_order::MemBook;
use jt_order_session::OrderSession;
use jt_platform::{Hub, is_closed};
use jt_store::MemKeeper;
use jt_value::Seq;
use std::process::Abort;

// Closes a session of which the hub has three entries.
fn close(rt: &impl Abort, session: &mut OrderSession, hub: &mut Hub<MemKeeper>)
    requires { hub.old.reserved ≡ 1 }
{
    let number = session.number();
    assert!(rt; number == 1);
    assert!(rt; !is_closed(hub.history(), number));
    assert!(rt; hub.history().len() == 3);
    session.close(hub);
    assert!(rt; is_closed(hub.history(), number));
    assert!(rt; hub.history().len() == 4);
}

#[test]
fn an_order_is_sent_once_and_answered_by_its_response(rt: HostRuntime) {
    let alloc = rt.alloc();
    let mut hub = hub(&rt, alloc);
    let mut book = MemBook::new(alloc, Seq::new(alloc));
    let mut session = session(&rt, alloc);
    send_text(&rt, alloc, &mut session, &mut hub, &mut book);
    issue(&rt, alloc, &mut book, 0x8105, b"\x04");
    let offered = offer(&rt, alloc, &mut session, &hub, &mut book);
    assert!(rt; offered.as_slice().is_empty());
    assert!(rt; book.results().is_empty());
    let written = feed(&rt, alloc, &mut session, &mut hub, &mut book, TO_TEXT);
    assert!(rt; written.as_slice() == CONTROL);
    assert!(rt; book.results() == b"\x01".as_slice());
    close(&rt, &mut session, &mut hub);
    drop(session);
    drop(hub);
    drop(book);
}

#[test]
fn a_response_to_another_serial_answers_no_order(rt: HostRuntime) {
    let alloc = rt.alloc();
    let mut hub = hub(&rt, alloc);
    let mut book = MemBook::new(alloc, Seq::new(alloc));
    let mut session = session(&rt, alloc);
    send_text(&rt, alloc, &mut session, &mut hub, &mut book);
    let written = feed(&rt, alloc, &mut session, &mut hub, &mut book, TO_OTHER);
    assert!(rt; written.as_slice().is_empty());
    assert!(rt; book.results().is_empty());
    close(&rt, &mut session, &mut hub);
    drop(session);
    drop(hub);
    drop(book);
}

#[test]
fn a_response_to_an_order_that_was_not_sent_answers_nothing(rt: HostRuntime) {
    let alloc = rt.alloc();
    let mut hub = hub(&rt, alloc);
    let mut book = MemBook::new(alloc, Seq::new(alloc));
    let mut session = session(&rt, alloc);
    let_in(&rt, alloc, &mut session, &mut hub, &mut book);
    issue(&rt, alloc, &mut book, 0x8300, b"\x01A");
    let written = feed(&rt, alloc, &mut session, &mut hub, &mut book, TO_TEXT);
    assert!(rt; written.as_slice() == TEXT);
    assert!(rt; book.results().is_empty());
    close(&rt, &mut session, &mut hub);
    drop(session);
    drop(hub);
    drop(book);
}
