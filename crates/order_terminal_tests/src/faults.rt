//! Each call of the log fails in turn. The calls are: it is loaded; and a text is put in it.

ghost use Rattle.std.specs.Prelude.{◌≤◌};

use crate::frames::{RESPONSE, TEXT};
use crate::setting::{
    Performer, expect_frame, expect_one, feed, open, start, terminal, vault, wrap,
};
use jt_order::MemLog;
use jt_order_terminal::{OrderFault, OrderTerminal};
use jt_store::{MemVault, StoreError};
use jt_terminal::Terminal;
use jt_value::{Edition, Seq};
use std::alloc::Global;
use std::process::Abort;

// A log of which this call fails.
fn failing(rt: &impl Abort, alloc: Global, call: u64) -> MemLog {
    let mut calls = Seq::new(alloc);
    calls.push(call).expect(rt, "there is memory");
    MemLog::new(alloc, calls)
}

// Terminal and log as they are given back where the log does not load.
fn refuse(
    rt: &impl Abort,
    alloc: Global,
    wrapped: Terminal<MemVault>,
    log: MemLog,
) -> (Terminal<MemVault>, MemLog) {
    let (wrapped, log, error) = OrderTerminal::start(alloc, wrapped, log)
        .err()
        .expect(rt, "the log fails");
    assert!(rt; error == StoreError::Failed);
    assert!(rt; log.performed().is_empty());
    (wrapped, log)
}

// The log fails at the text: it is not performed, and the line is not in use.
fn fail(rt: &impl Abort, terminal: &mut Performer)
    requires { terminal.old.stream.place ≤ 1000 }
{
    match feed(rt, terminal, TEXT) {
        Ok(_) => assert!(rt; false),
        Err(fault) => assert!(rt; fault == OrderFault::Log),
    }
    assert!(rt; !terminal.is_up());
    assert!(rt; terminal.log().performed().is_empty());
}

// The text comes over a new line, and is performed.
fn perform(rt: &impl Abort, terminal: &mut Performer) {
    open(rt, terminal);
    expect_frame(rt, terminal, TEXT, RESPONSE);
    expect_one(rt, terminal.log().performed());
}

#[test]
fn terminal_and_log_are_given_back_where_the_log_does_not_load(rt: HostRuntime) {
    let alloc = rt.alloc();
    let wrapped = terminal(&rt, alloc, Edition::E2013, vault(alloc));
    let (wrapped, log) = refuse(&rt, alloc, wrapped, failing(&rt, alloc, 1));
    let mut terminal = wrap(&rt, alloc, wrapped, log);
    perform(&rt, &mut terminal);
    drop(terminal);
}

#[test]
fn an_order_that_the_log_does_not_take_is_performed_when_it_comes_again(rt: HostRuntime) {
    let alloc = rt.alloc();
    let mut terminal = start(&rt, alloc, vault(alloc), failing(&rt, alloc, 2));
    open(&rt, &mut terminal);
    fail(&rt, &mut terminal);
    perform(&rt, &mut terminal);
    drop(terminal);
}
