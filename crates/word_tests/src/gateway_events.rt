//! A gateway by its events.

use jt_gateway::{Gateway, GatewayEvent};
use jt_platform::Entry;
use jt_script::WorldEvent;
use jt_value::Seq;
use jt_world::WorldError;
use std::alloc::Global;
use std::process::Abort;

// How many entries an event made, if it was done.
fn count(done: Result<Seq<Entry>, WorldError>) -> Option<usize> {
    match done {
        Ok(entries) => Some(entries.len()),
        Err(_) => None,
    }
}

// The line that an event names was not opened.
fn is_no_line(done: Result<Seq<Entry>, WorldError>, line: u32) -> bool {
    match done {
        Err(WorldError::NoLine(named)) => named == line,
        Ok(_) | Err(WorldError::Full(_) | WorldError::Memory) => false,
    }
}

// How many fixes the terminal recorded, the middle stored, was told to pass on, and the authority stored.
fn expect_counts(rt: &impl Abort, gateway: &Gateway, counts: [u64; 4]) {
    let a = gateway.a().totals();
    let b = gateway.b().totals();
    assert!(rt; [a.recorded, a.stored, b.recorded, b.stored] == counts);
}

fn reach_the_middle(rt: &impl Abort, alloc: Global, gateway: &mut Gateway) {
    assert!(rt; count(gateway.step(alloc, GatewayEvent::A(WorldEvent::Open))) == Some(0));
    assert!(rt; count(gateway.step(alloc, GatewayEvent::A(WorldEvent::Fix(5)))) == Some(0));
    assert!(rt; count(gateway.step(alloc, GatewayEvent::A(WorldEvent::Run))) == Some(3));
    expect_counts(rt, gateway, [1, 1, 0, 0]);
}

fn pass_on(rt: &impl Abort, alloc: Global, gateway: &mut Gateway) {
    assert!(rt; count(gateway.step(alloc, GatewayEvent::Pump)) == Some(0));
    assert!(rt; count(gateway.step(alloc, GatewayEvent::Pump)) == Some(0));
    expect_counts(rt, gateway, [1, 1, 1, 0]);
    assert!(rt; count(gateway.step(alloc, GatewayEvent::RestartMiddle)) == Some(0));
    expect_counts(rt, gateway, [1, 1, 1, 0]);
}

fn reach_upstream(rt: &impl Abort, alloc: Global, gateway: &mut Gateway) {
    assert!(rt; is_no_line(gateway.step(alloc, GatewayEvent::B(WorldEvent::Cut(1))), 1));
    assert!(rt; count(gateway.step(alloc, GatewayEvent::B(WorldEvent::Open))) == Some(0));
    assert!(rt; count(gateway.step(alloc, GatewayEvent::B(WorldEvent::Run))) == Some(3));
    expect_counts(rt, gateway, [1, 1, 1, 1]);
}

fn play(rt: &impl Abort, alloc: Global, gateway: &mut Gateway) {
    expect_counts(rt, gateway, [0, 0, 0, 0]);
    reach_the_middle(rt, alloc, gateway);
    pass_on(rt, alloc, gateway);
    reach_upstream(rt, alloc, gateway);
}

#[test]
fn by_events(rt: HostRuntime) {
    let mut gateway = Gateway::new(rt.alloc()).expect(&rt, "a gateway");
    play(&rt, rt.alloc(), &mut gateway);
    drop(gateway);
}
