//! An order that is performed once, and responded to each time.

ghost use Rattle.std.specs.Prelude.{◌≡◌, ◌≤◌};

use crate::frames::{LATER_TEXT, REFUSAL, RESPONSE, TEXT};
use crate::setting::{Performer, expect_frame, expect_one, open, start, start_anew, vault};
use jt_order::MemLog;
use jt_value::Seq;
use std::process::Abort;

// An order comes, comes again, and then under a serial that is not its turn.
fn perform(rt: &impl Abort, terminal: &mut Performer)
    requires { terminal.old.stream.place ≡ 0 }
    ensures { terminal.new.stream.place ≤ 300 }
{
    expect_frame(rt, terminal, TEXT, RESPONSE);
    expect_one(rt, terminal.log().performed());
    expect_frame(rt, terminal, TEXT, RESPONSE);
    expect_frame(rt, terminal, LATER_TEXT, REFUSAL);
    expect_one(rt, terminal.log().performed());
}

#[test]
fn an_order_is_performed_once_also_over_a_restart(rt: HostRuntime) {
    let alloc = rt.alloc();
    let log = MemLog::new(alloc, Seq::new(alloc));
    let mut terminal = start(&rt, alloc, vault(alloc), log);
    open(&rt, &mut terminal);
    perform(&rt, &mut terminal);
    let (vault, log) = terminal.into_parts();
    let mut terminal = start(&rt, alloc, vault, log);
    open(&rt, &mut terminal);
    expect_frame(&rt, &mut terminal, TEXT, RESPONSE);
    expect_one(&rt, terminal.log().performed());
    drop(terminal);
}

#[test]
fn so_it_is_where_the_terminal_starts_anew_in_place(rt: HostRuntime) {
    let alloc = rt.alloc();
    let log = MemLog::new(alloc, Seq::new(alloc));
    let mut terminal = start(&rt, alloc, vault(alloc), log);
    open(&rt, &mut terminal);
    perform(&rt, &mut terminal);
    start_anew(&rt, alloc, &mut terminal);
    open(&rt, &mut terminal);
    expect_frame(&rt, &mut terminal, TEXT, RESPONSE);
    expect_one(&rt, terminal.log().performed());
    drop(terminal);
}
