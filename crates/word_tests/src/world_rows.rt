//! The rows that a world lends, and the fixes in them.

use jt_store::Row;
use jt_world::{World, WorldEvent};
use std::alloc::Global;
use std::process::Abort;

// The octets of the fix at latitude 0 and at latitude 1: no alarm, status 3, the latitude, longitude 113,000,000 (06BC3E40 in
// hexadecimal), at rest, at 2024-01-01 00:00:00.
const FIRST: &[u8] =
    b"\x00\x00\x00\x00\x00\x00\x00\x03\x00\x00\x00\x00\x06\xbc\x3e\x40\x00\x00\x00\x00\x00\x00\x24\x01\x01\x00\x00\x00";

const SECOND: &[u8] =
    b"\x00\x00\x00\x00\x00\x00\x00\x03\x00\x00\x00\x01\x06\xbc\x3e\x40\x00\x00\x00\x00\x00\x00\x24\x01\x01\x00\x00\x00";

fn play(rt: &impl Abort, alloc: Global, world: &mut World, event: WorldEvent) {
    assert!(rt; world.step(alloc, event).is_ok());
}

// A terminal that registers, and then stores two fixes in two units, with a restart of the platform between them.
fn play_two_fixes(rt: &impl Abort, alloc: Global, world: &mut World) {
    play(rt, alloc, world, WorldEvent::Open);
    play(rt, alloc, world, WorldEvent::Run);
    play(rt, alloc, world, WorldEvent::Fix(0));
    play(rt, alloc, world, WorldEvent::Run);
    play(rt, alloc, world, WorldEvent::RestartPlatform);
    play(rt, alloc, world, WorldEvent::Open);
    play(rt, alloc, world, WorldEvent::Fix(1));
    play(rt, alloc, world, WorldEvent::Run);
}

fn expect_row(rt: &impl Abort, row: &Row, number: u64, body: &[u8]) {
    assert!(rt; row.number == number);
    assert!(rt; row.id == 0x0200);
    assert!(rt; row.body.as_slice() == body);
}

// The registration took the number 0, and the authentications 1 and 3.
fn expect_rows(rt: &impl Abort, world: &World) {
    let [first, second] = world.rows() else {
        panic!(rt; "two rows");
    };
    expect_row(rt, first, 2, FIRST);
    expect_row(rt, second, 4, SECOND);
}

// So many of the fixes are behind a mark.
fn expect_fixes(rt: &impl Abort, alloc: Global, world: &World, mark: u64, bodies: &[&[u8]]) {
    let fixes = world.fixes_behind(alloc, mark).expect(rt, "the fixes");
    assert!(rt; fixes.len() == bodies.len());
    for (fix, body) in fixes.as_slice().iter().zip(bodies) {
        assert!(rt; fix.as_slice() == *body);
    }
}

fn expect_empty(rt: &impl Abort, alloc: Global, world: &World) {
    assert!(rt; world.rows().is_empty());
    expect_fixes(rt, alloc, world, 0, &[]);
}

// The rows of both hubs, the older first, and their fixes behind none, one, two and more than there are.
#[test]
fn a_world_lends_its_rows(rt: HostRuntime) {
    let alloc = rt.alloc();
    let mut world = World::new(alloc).expect(&rt, "a world");
    expect_empty(&rt, alloc, &world);
    play_two_fixes(&rt, alloc, &mut world);
    expect_rows(&rt, &world);
    expect_fixes(&rt, alloc, &world, 0, &[FIRST, SECOND]);
    expect_fixes(&rt, alloc, &world, 1, &[SECOND]);
    expect_fixes(&rt, alloc, &world, 2, &[]);
    expect_fixes(&rt, alloc, &world, u64::MAX, &[]);
    drop(world);
}
