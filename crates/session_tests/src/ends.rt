//! How sessions end, and what they count.

ghost use Rattle.std.specs.Prelude.{◌≤◌};

use crate::running::{run, run_closed};
use jt_platform::{Reply, Request};
use jt_session::{End, Fed, Session, Step};
use jt_value::Buffer;
use std::alloc::Global;
use std::process::Abort;

// The registration of phone 333435363738, and its authentication.
const START: &[u8] =
    b"\x7e\x01\0\0\x26345678\0\0\0\0\0\0\0\0\0\0\0\0\0\0\0\0\0\0\0\0\0\0\0\0\0\0\0\0\0\0\01\0\0\0\0\0\0\x01A\x5d\x7e\x7e\x01\x02\0\x10345678\0\x01ef797c8118f02dfbD\x7e";

// Two heartbeats of the phone.
const HEARTBEATS: &[u8] = b"\x7e\0\x02\0\0345678\0\x02\x0b\x7e\x7e\0\x02\0\0345678\0\x03\x0a\x7e";

// Two units of the phone.
const UNITS: &[u8] =
    b"\x7e\x02\0\0\x1c345678\0\x02\0\0\0\0\0\0\0\0\0\0\0\0\0\0\0\0\0\0\0\0\0\0\0\0\0\0\0\0\x17\x7e\x7e\x02\0\0\x1c345678\0\x03\0\0\0\0\0\0\0\0\0\0\0\0\0\0\0\0\0\0\0\0\0\0\0\0\0\0\0\0\x16\x7e";

// Whether a session, behind the octets before and over a hub of which the other session was fed others, takes the stream so,
// writes this, and leaves these replies. The hub's list has this limit, and these calls of its keeper fail.
fn says(
    rt: &impl Abort,
    alloc: Global,
    limit: u64,
    failing: &[u64],
    before: &[u8],
    others: &[u8],
    stream: &[u8],
    fed: Fed,
    written: &[u8],
    replies: &[u8],
) -> bool
    requires { limit ≤ 1000000000 }
{
    let ran = run(rt, alloc, limit, failing, before, others, stream, 0, false);
    ran.fed == fed && ran.written.as_slice() == written && ran.replies.as_slice() == replies
}

#[test]
fn a_fenced_session_answers_and_ends(rt: HostRuntime) {
    let fed = Fed::Stop(End::Fenced(2));
    let written = b"\x7e\x80\x01\0\x05345678\0\x02\0\x02\0\x02\x01\x8c\x7e";
    assert!(rt;
        says(
            &rt,
            rt.alloc(),
            10,
            &[],
            START,
            START,
            HEARTBEATS,
            fed,
            written,
            b"RARAF"
        )
    );
}

#[test]
fn a_full_list_ends_the_session(rt: HostRuntime) {
    let fed = Fed::Stop(End::ListFull(1));
    let written = b"\x7e\x80\x01\0\x05345678\0\x02\0\x02\x02\0\0\x8d\x7e";
    assert!(rt;
        says(
            &rt,
            rt.alloc(),
            1,
            &[],
            START,
            &[],
            UNITS,
            fed,
            written,
            b"RAS"
        )
    );
}

#[test]
fn a_fault_of_the_keeper_ends_the_session(rt: HostRuntime) {
    let fed = Fed::Stop(End::StoreFault);
    assert!(rt; says(&rt, rt.alloc(), 10, &[1], &[], &[], START, fed, b"", b""));
}

// How many frames, refused items and dropped messages a session counts.
fn counted(rt: &impl Abort, alloc: Global, stream: &[u8]) -> (u64, u64, u64) {
    let ran = run_closed(rt, alloc, &[], stream, 0);
    (ran.counts.frames, ran.counts.refused, ran.counts.dropped)
}

#[test]
fn what_a_session_counts(rt: HostRuntime) {
    let rows: &[(&[u8], u64, u64, u64)] = &[
        // Five messages in packets begun, each of three.
        (
            b"\x7e\x01\x04\x20\x02\x019\x124Vx\0\0\0\x03\0\x01\0\x07\x12\x7e\x7e\x01\x04\x20\x02\x019\x124Vx\0\x0a\0\x03\0\x01\0\x07\x18\x7e\x7e\x01\x04\x20\x02\x019\x124Vx\0\x14\0\x03\0\x01\0\x07\x06\x7e\x7e\x01\x04\x20\x02\x019\x124Vx\0\x1e\0\x03\0\x01\0\x07\x0c\x7e\x7e\x01\x04\x20\x02\x019\x124Vx\0\x28\0\x03\0\x01\0\x07\x3a\x7e",
            5,
            0,
            1,
        ),
        // Four of them.
        (
            b"\x7e\x01\x04\x20\x02\x019\x124Vx\0\0\0\x03\0\x01\0\x07\x12\x7e\x7e\x01\x04\x20\x02\x019\x124Vx\0\x0a\0\x03\0\x01\0\x07\x18\x7e\x7e\x01\x04\x20\x02\x019\x124Vx\0\x14\0\x03\0\x01\0\x07\x06\x7e\x7e\x01\x04\x20\x02\x019\x124Vx\0\x1e\0\x03\0\x01\0\x07\x0c\x7e",
            4,
            0,
            0,
        ),
        // A frame whose check octet is wrong, a refused body and a frame of another phone.
        (
            b"\x7e\0\x02\0\0\x019\x124Vx\0\03\x7e\x7e\0\x02\0\x01\x019\x124Vx\0\x03\00\x7e\x7e\0\x02\0\0345678\0\x03\x0a\x7e",
            2,
            2,
            0,
        ),
        // The opening flag alone.
        (b"\x7e", 0, 0, 0),
    ];
    for &(stream, frames, refused, dropped) in rows {
        assert!(rt; counted(&rt, rt.alloc(), stream) == (frames, refused, dropped));
    }
}

// A unit in three packets, the last one first.
const PACKETS: &[u8] =
    b"\x7e\x02\0\x20\x08345678\0\x04\0\x03\0\x03\x14\x15\0\0\0\0\0\0\x24\x7e\x7e\x02\0\x20\x0a345678\0\x02\0\x03\0\x01\0\x01\x02\x03\x04\x05\x06\x07\x08\x09\x22\x7e\x7e\x02\0\x20\x0a345678\0\x03\0\x03\0\x02\x0a\x0b\x0c\x0d\x0e\x0f\x10\x11\x12\x13\x20\x7e";

// The unit's body is the last that is stored.
fn last_is(rt: &impl Abort, alloc: Global, body: &[u8]) -> bool {
    let ran = run(rt, alloc, 10, &[], START, &[], PACKETS, 0, false);
    ran.fed == Fed::On && ran.body.as_slice() == body
}

#[test]
fn a_unit_in_packets_is_stored_whole(rt: HostRuntime) {
    let body =
        b"\0\x01\x02\x03\x04\x05\x06\x07\x08\x09\x0a\x0b\x0c\x0d\x0e\x0f\x10\x11\x12\x13\x14\x15\0\0\0\0\0\0";
    assert!(rt; last_is(&rt, rt.alloc(), body));
}

#[test]
fn octets_up_to_a_request(rt: HostRuntime) {
    let mut session = Session::new(rt.alloc(), 1).expect(&rt, "there is memory");
    let mut written = Buffer::new(rt.alloc());
    let (taken, step) = session.take(HEARTBEATS, &mut written);
    assert!(rt; taken == 15);
    let Step::Ask(Request::Other { phone: _, id }) = step else {
        assert!(rt; false);
        return;
    };
    assert!(rt; id == 2);
    assert!(rt; session.reply(&Reply::Accepted, &mut written) == Fed::On);
    assert!(rt;
        written.as_slice() == b"\x7e\x80\x01\0\x05345678\0\0\0\x02\0\x02\0\x8f\x7e".as_slice()
    );
}
