//! What the wrapped terminal does in an order terminal.

ghost use Rattle.std.specs.Prelude.{◌≡◌, ◌≤◌};

use crate::frames::{
    ACCEPTED, AUTHENTICATION, LET_IN, REGISTERED, REGISTRATION, RESPONSE, TEXT, UNIT,
};
use crate::setting::{
    Performer, expect_frame, expect_nothing, expect_one, feed, is_frame, is_silent, open, start,
    terminal, vault, wrap,
};
use jt_order::MemLog;
use jt_position::Fix;
use jt_terminal::Event;
use jt_value::{Edition, Seq};
use std::alloc::Global;
use std::process::Abort;

// At this moment the terminal writes nothing.
fn wait(rt: &impl Abort, terminal: &mut Performer, now: u64)
    requires { terminal.old.terminal.state.time ≤ now }
    ensures { terminal.new.terminal.state.time ≡ now }
{
    let answer = terminal.event(Event::Tick(now));
    assert!(rt; is_silent(&answer));
}

// At this moment it writes this frame alone.
fn expect_at(rt: &impl Abort, terminal: &mut Performer, now: u64, frame: &[u8])
    requires { terminal.old.terminal.state.time ≤ now }
    ensures { terminal.new.terminal.state.time ≡ now }
{
    let answer = terminal.event(Event::Tick(now));
    assert!(rt; is_frame(&answer, frame));
}

// Its line is lost.
fn lose(rt: &impl Abort, terminal: &mut Performer)
    ensures { terminal.new.stream ≡ terminal.old.stream }
{
    let answer = terminal.event(Event::Lost);
    assert!(rt; is_silent(&answer));
    assert!(rt; !terminal.is_up());
}

// An order terminal that has a fix to send.
fn start_with_fix(rt: &impl Abort, alloc: Global) -> Performer {
    let mut wrapped = terminal(rt, alloc, Edition::E2013, vault(alloc));
    let fix = Fix::at(alloc, 1).expect(rt, "there is memory");
    assert!(rt; wrapped.note_fix(alloc, &fix).is_ok());
    wrap(rt, alloc, wrapped, MemLog::new(alloc, Seq::new(alloc)))
}

// The acceptance of the oldest unit is told.
fn accept(rt: &impl Abort, terminal: &mut Performer)
    requires { terminal.old.stream.place ≤ 1000 }
{
    match feed(rt, terminal, ACCEPTED) {
        Ok(actions) => assert!(rt; actions.told.as_slice() == [0].as_slice()),
        Err(_) => assert!(rt; false),
    }
}

#[test]
fn the_registration_is_sent_again_after_ten_seconds(rt: HostRuntime) {
    let alloc = rt.alloc();
    let log = MemLog::new(alloc, Seq::new(alloc));
    let mut terminal = start(&rt, alloc, vault(alloc), log);
    open(&rt, &mut terminal);
    wait(&rt, &mut terminal, 9_999);
    expect_at(&rt, &mut terminal, 10_000, REGISTRATION);
    drop(terminal);
}

#[test]
fn a_line_that_is_lost_is_not_in_use(rt: HostRuntime) {
    let alloc = rt.alloc();
    let log = MemLog::new(alloc, Seq::new(alloc));
    let mut terminal = start(&rt, alloc, vault(alloc), log);
    open(&rt, &mut terminal);
    expect_frame(&rt, &mut terminal, TEXT, RESPONSE);
    lose(&rt, &mut terminal);
    expect_nothing(&rt, &mut terminal, TEXT);
    expect_one(&rt, terminal.log().performed());
    drop(terminal);
}

#[test]
fn the_vault_has_what_the_platform_accepts(rt: HostRuntime) {
    let alloc = rt.alloc();
    let mut terminal = start_with_fix(&rt, alloc);
    open(&rt, &mut terminal);
    expect_frame(&rt, &mut terminal, REGISTERED, AUTHENTICATION);
    expect_frame(&rt, &mut terminal, LET_IN, UNIT);
    assert!(rt; terminal.vault().accepted() == 0);
    accept(&rt, &mut terminal);
    assert!(rt; terminal.vault().accepted() == 1);
    drop(terminal);
}
