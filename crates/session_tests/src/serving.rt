//! Links that a session serves over a turn.

ghost use Rattle.std.specs.Prelude.{◌≡◌, ◌≤◌, ◌^◌, []};

use jt_outside::ScriptLink;
use jt_platform::{Fleet, Hub};
use jt_session::{End, Report, serve_link, serve_link_within};
use jt_store::MemKeeper;
use jt_turn::Turn;
use jt_value::{Memory, Octets, Seq};
use std::alloc::Global;
use std::process::Abort;
use std::sync::Wait;
use std::test::*;

/// The heartbeat of phone 013912345678.
const HEARTBEAT: &[u8; 15] = b"\x7e\x00\x02\x00\x00\x01\x39\x12\x34\x56\x78\x00\x00\x32\x7e";

/// What answers it where no terminal was let in.
const REFUSED: &[u8; 20] =
    b"\x7e\x80\x01\x00\x05\x01\x39\x12\x34\x56\x78\x00\x00\x00\x00\x00\x02\x01\xb7\x7e";

/// The first packets of five messages of three packets each.
const FIRST_PACKETS: &[u8; 105] =
    b"\x7e\x01\x04\x20\x02\x01\x39\x12\x34\x56\x78\x00\x00\x00\x03\x00\x01\x00\x07\x12\x7e\x7e\x01\x04\x20\x02\x01\x39\x12\x34\x56\x78\x00\x0a\x00\x03\x00\x01\x00\x07\x18\x7e\x7e\x01\x04\x20\x02\x01\x39\x12\x34\x56\x78\x00\x14\x00\x03\x00\x01\x00\x07\x06\x7e\x7e\x01\x04\x20\x02\x01\x39\x12\x34\x56\x78\x00\x1e\x00\x03\x00\x01\x00\x07\x0c\x7e\x7e\x01\x04\x20\x02\x01\x39\x12\x34\x56\x78\x00\x28\x00\x03\x00\x01\x00\x07\x3a\x7e";

fn new_hub(rt: &impl Abort, alloc: Global) -> Hub<MemKeeper>
    ensures { (result.history ≡ []) × (result.reserved ≡ 1) }
{
    let fleet = Fleet {
        plates: Seq::new(alloc),
        terminals: Seq::new(alloc),
    };
    let keeper = MemKeeper::new(alloc, 1000, Seq::new(alloc));
    let mut hub = Hub::start(alloc, keeper, fleet, Seq::new(alloc))
        .ok()
        .expect(rt, "there is memory");
    hub.reserve(1).expect(rt, "there is memory");
    hub
}

// The report of the link's session, and how many entries the history has then.
fn served<R: Wait + Abort>(
    rt: &R,
    alloc: Global,
    link: &mut ScriptLink,
    octets: u64,
) -> (Report, usize)
    requires { (1 ≤ octets) × (octets ≤ 2 ^ 40) }
{
    let hub = new_hub(rt, alloc);
    let (turn, mut pass) = Turn::begin(alloc, hub).ok().expect(rt, "there is memory");
    let one = turn.split(&mut pass, 1).expect(rt, "there is memory");
    let (report, one) = serve_link_within(rt, alloc, link, &turn, one, octets);
    turn.join(&mut pass, one);
    let hub = turn.close(pass);
    (report, hub.history().len())
}

// The report of the link's session, which takes up to 2^40 octets.
fn served_whole<R: Wait + Abort>(rt: &R, alloc: Global, link: &mut ScriptLink) -> Report {
    let hub = new_hub(rt, alloc);
    let (turn, mut pass) = Turn::begin(alloc, hub).ok().expect(rt, "there is memory");
    let one = turn.split(&mut pass, 1).expect(rt, "there is memory");
    let (report, _one) = serve_link(rt, alloc, link, &turn, one);
    report
}

fn link(alloc: Global, octets: &[u8], failing: u64) -> Result<ScriptLink, Memory> {
    let octets = Octets::from_vec(Vec::from_slice(alloc, octets)?);
    let mut calls = Seq::new(alloc);
    calls.push(failing)?;
    ScriptLink::new(alloc, octets, 65_536, calls)
}

const MOST: u64 = 1 << 40;

#[test]
fn a_heartbeat_and_the_end(rt: HostRuntime) -> Result<(), Fail> {
    let mut link = link(rt.alloc(), HEARTBEAT, 0)?;
    let (report, entries) = served(&rt, rt.alloc(), &mut link, MOST);
    let wanted = Report {
        session: 1,
        read: 15,
        written: 20,
        frames: 1,
        refused: 0,
        dropped: 0,
        end: End::Ended,
    };
    assert!(rt; report == wanted);
    assert!(rt; entries == 2);
    assert!(rt; link.written() == REFUSED.as_slice());
    Ok(())
}

// The number of the call that fails, how many octets are written, and how many entries there are.
#[test]
fn a_link_that_fails(rt: HostRuntime) -> Result<(), Fail> {
    for (failing, read, written, frames, entries) in [
        (1, 0, 0, 0, 1),
        (2, 15, 0, 1, 2),
        (3, 15, 20, 1, 2),
    ] {
        let mut link = link(rt.alloc(), HEARTBEAT, failing)?;
        let (report, found) = served(&rt, rt.alloc(), &mut link, MOST);
        assert!(rt; report.end == End::LinkFault);
        assert!(rt; report.read == read);
        assert!(rt; report.written == written);
        assert!(rt; report.frames == frames);
        assert!(rt; found == entries);
    }
    Ok(())
}

#[test]
fn first_packets_of_five_messages(rt: HostRuntime) -> Result<(), Fail> {
    let mut link = link(rt.alloc(), FIRST_PACKETS, 0)?;
    let (report, entries) = served(&rt, rt.alloc(), &mut link, MOST);
    let wanted = Report {
        session: 1,
        read: 105,
        written: 0,
        frames: 5,
        refused: 0,
        dropped: 1,
        end: End::Ended,
    };
    assert!(rt; report == wanted);
    assert!(rt; entries == 1);
    Ok(())
}

#[test]
fn a_link_that_never_ends(rt: HostRuntime) -> Result<(), Fail> {
    let mut link = ScriptLink::endless(rt.alloc(), 0, 65_536)?;
    let (report, entries) = served(&rt, rt.alloc(), &mut link, 4096);
    let wanted = Report {
        session: 1,
        read: 4096,
        written: 0,
        frames: 0,
        refused: 1,
        dropped: 0,
        end: End::Spent,
    };
    assert!(rt; report == wanted);
    assert!(rt; entries == 1);
    Ok(())
}

// Up to 2^40 octets.
#[test]
fn a_quiet_link(rt: HostRuntime) -> Result<(), Fail> {
    let mut link = ScriptLink::quiet(rt.alloc(), 65_536)?;
    let report = served_whole(&rt, rt.alloc(), &mut link);
    let wanted = Report {
        session: 1,
        read: 0,
        written: 0,
        frames: 0,
        refused: 0,
        dropped: 0,
        end: End::Idle,
    };
    assert!(rt; report == wanted);
    Ok(())
}

// The second call, a read, fails: so the first read has taken 4,096 octets.
#[test]
fn a_read_takes_at_most_a_piece(rt: HostRuntime) -> Result<(), Fail> {
    let zeros = vec![in rt.alloc(); 0u8; 5000]?;
    let mut link = link(rt.alloc(), zeros.as_slice(), 2)?;
    let (report, entries) = served(&rt, rt.alloc(), &mut link, MOST);
    assert!(rt; report.end == End::LinkFault);
    assert!(rt; report.read == 4096);
    assert!(rt; report.written == 0);
    assert!(rt; entries == 1);
    Ok(())
}
