//! A terminal of phone 013912345678, and an order terminal over it.

ghost use Rattle.std.specs.Prelude.{◌≡◌, ◌≤◌, ◌+◌};
ghost use Rattle.jt_terminal_rule.specs.Messages.{AreSettings};

use jt_order::{MemLog, Performed};
use jt_order_terminal::{OrderFault, OrderTerminal};
use jt_store::MemVault;
use jt_terminal::{Actions, Event, Settings, Terminal};
use jt_value::{Edition, Seq};
use std::alloc::Global;
use std::process::Abort;

/// An order terminal over stores in memory.
pub type Performer = OrderTerminal<MemVault, MemLog>;

// Heartbeats of 60 seconds, waits of 10 and three repeats.
fn settings(rt: &impl Abort, alloc: Global, edition: Edition) -> Settings
    ensures { AreSettings result }
{
    terminal_tests::settings(alloc, edition).expect(rt, "there is memory")
}

/// A vault of which no call fails.
pub fn vault(alloc: Global) -> MemVault {
    MemVault::new(alloc, 1000, Seq::new(alloc))
}

/// A terminal of an edition without a line over this vault.
pub fn terminal(
    rt: &impl Abort,
    alloc: Global,
    edition: Edition,
    vault: MemVault,
) -> Terminal<MemVault>
    ensures { result.state.time ≡ 0 }
{
    Terminal::start(alloc, vault, settings(rt, alloc, edition))
        .ok()
        .expect(rt, "there is memory")
}

/// An order terminal over this terminal and this log.
pub fn wrap(rt: &impl Abort, alloc: Global, terminal: Terminal<MemVault>, log: MemLog) -> Performer
    ensures { result.terminal.state.time ≡ terminal.state.time }
{
    OrderTerminal::start(alloc, terminal, log)
        .ok()
        .expect(rt, "there is memory")
}

/// An order terminal of 2013 without a line over this vault and this log.
pub fn start(rt: &impl Abort, alloc: Global, vault: MemVault, log: MemLog) -> Performer
    ensures { result.terminal.state.time ≡ 0 }
{
    let terminal = terminal(rt, alloc, Edition::E2013, vault);
    wrap(rt, alloc, terminal, log)
}

/// The order terminal starts anew in place: no line is in use.
pub fn start_anew(rt: &impl Abort, alloc: Global, terminal: &mut Performer) {
    assert!(rt; terminal.is_up());
    let settings = settings(rt, alloc, Edition::E2013);
    assert!(rt; terminal.restart(settings).is_ok());
    assert!(rt; !terminal.is_up());
}

/// A line is opened: the terminal writes one frame.
pub fn open(rt: &impl Abort, terminal: &mut Performer)
    ensures place { terminal.new.stream.place ≡ 0 }
    ensures time { terminal.new.terminal.state.time ≡ terminal.old.terminal.state.time }
{
    match terminal.event(Event::Opened) {
        Ok(actions) => assert!(rt; actions.frames.as_slice().len() == 1),
        Err(_) => assert!(rt; false),
    }
}

/// Whether the answer is this frame alone, and the line is not given up.
pub fn is_frame(answer: &Result<Actions, OrderFault>, frame: &[u8]) -> bool {
    match answer {
        Ok(actions) => match actions.frames.as_slice() {
            [only] => actions.end.is_none() && only.as_slice() == frame,
            _ => false,
        },
        Err(_) => false,
    }
}

/// Whether the answer is no frame, and the line is not given up.
pub fn is_silent(answer: &Result<Actions, OrderFault>) -> bool {
    match answer {
        Ok(actions) => actions.end.is_none() && actions.frames.as_slice().is_empty(),
        Err(_) => false,
    }
}

/// What the terminal answers to a few octets.
pub fn feed(rt: &impl Abort, terminal: &mut Performer, octets: &[u8]) -> Result<Actions, OrderFault>
    requires { terminal.old.stream.place ≤ 1000 }
    ensures place { terminal.new.stream.place ≤ terminal.old.stream.place + 100 }
    ensures time { terminal.new.terminal.state.time ≡ terminal.old.terminal.state.time }
{
    assert!(rt; octets.len() <= 100);
    terminal.feed(octets)
}

/// The terminal reads a few octets, and writes this frame alone.
pub fn expect_frame(rt: &impl Abort, terminal: &mut Performer, octets: &[u8], frame: &[u8])
    requires { terminal.old.stream.place ≤ 1000 }
    ensures place { terminal.new.stream.place ≤ terminal.old.stream.place + 100 }
    ensures time { terminal.new.terminal.state.time ≡ terminal.old.terminal.state.time }
{
    let answer = feed(rt, terminal, octets);
    assert!(rt; is_frame(&answer, frame));
}

/// The terminal reads a few octets, and writes nothing.
pub fn expect_nothing(rt: &impl Abort, terminal: &mut Performer, octets: &[u8])
    requires { terminal.old.stream.place ≤ 1000 }
    ensures place { terminal.new.stream.place ≤ terminal.old.stream.place + 100 }
    ensures time { terminal.new.terminal.state.time ≡ terminal.old.terminal.state.time }
{
    let answer = feed(rt, terminal, octets);
    assert!(rt; is_silent(&answer));
}

/// One text alone was performed, with result 0.
pub fn expect_one(rt: &impl Abort, performed: &[Performed]) {
    assert!(rt; performed.len() == 1);
    assert!(rt; performed[0].result == 0);
    assert!(rt; performed[0].order.id() == 0x8300);
    assert!(rt; performed[0].order.body() == b"\x01A".as_slice());
}
