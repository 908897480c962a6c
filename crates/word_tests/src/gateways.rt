//! Scripts that `gateway` plays. Each text was typed from its row, or worked out by hand.

use crate::scene::{expect, expect_text, repeated, run};
use jt_cli::Status;

#[test]
fn fixes_that_are_passed_on(rt: HostRuntime) {
    let rows: &[&str] = &[
        " => recorded=0 middle=0 upstream=0\n",
        "a fix 7\npump\n => pump 0\nrecorded=1 middle=0 upstream=0\n",
        // one fix is passed on
        "a open\na run\na fix 0\na tick 0\na run\npump\nb open\nb run\n => a 1 register registered\na 1 auth accepted\na 1 unit 2 stored 2\npump 1\nb 1 register registered\nb 1 auth accepted\nb 1 unit 2 stored 2\nrecorded=1 middle=1 upstream=1\n",
        // the middle starts anew
        "a open\na run\na fix 0\na tick 0\na run\npump\nrestart middle\npump\n => a 1 register registered\na 1 auth accepted\na 1 unit 2 stored 2\npump 1\npump 0\nrecorded=1 middle=1 upstream=0\n",
        // The middle stored two fixes before it started anew; the one that was recorded upstream is sent by the terminal that
        // starts anew, the other by the next pump, and none twice.
        "# a gateway of two fixes\na open\na run\na fix 0\na tick 0\na run\npump\na fix 1\na tick 0\na run\nrestart middle\n\npump\nb open\nb run\npump\n => a 1 register registered\na 1 auth accepted\na 1 unit 2 stored 2\npump 1\na 1 unit 3 stored 3\npump 1\nb 1 register registered\nb 1 auth accepted\nb 1 unit 2 stored 2\npump 0\nrecorded=2 middle=2 upstream=2\n",
        // both ends of both worlds start anew
        "a restart terminal\nb restart terminal\na restart platform\nb restart platform\n => recorded=0 middle=0 upstream=0\n",
        // The same octets are a fix in the other world.
        "a raw 000000000000000301312d0006bc3e40000000000000240101000000\n => recorded=1 middle=0 upstream=0\n",
    ];
    expect(&rt, rt.alloc(), &["gateway"], Status::Done, rows);
}

// Each is the first line of its script, and bad.
const BAD: &[&[u8]] = &[
    b"open",
    b"a",
    b"a ",
    b"a  open",
    b"A open",
    b"a # a comment",
    b"b",
    b"b ",
    b"b # a comment",
    b"b fix 0",
    b"b raw 000000000000000301312d0006bc3e40000000000000240101000000",
    b"b restart terminal 2019",
    b"b restart terminal 2013",
    b"a restart terminal 2019",
    b"a restart terminal 2013",
    b"a up 1 all",
    b"a cut 1",
    b"b up 1 all",
    b"b cut 1",
    b"a pump",
    b"a restart middle",
    b"b pump",
    b"pump ",
    b"pump 1",
    b" pump",
    b"restart middle ",
    b"restart  middle",
    b"restart platform",
    b"a fix 90000000",
    b"a open\r",
];

// The lines are counted, those that are passed over too, and what was printed stays. A line of communication is one of its own world.
#[test]
fn bad_lines_of_gateways(rt: HostRuntime) {
    let alloc = rt.alloc();
    let first = "line 1 refused\n";
    for &line in BAD {
        expect_text(&rt, alloc, &["gateway"], line, Status::Refused, first);
    }
    let rows: &[&str] = &[
        "# one\n\na fix 1\npump\nb fix 1\npump\n => pump 0\nline 5 refused\n",
        "a open\nb cut 1\n => line 2 refused\n",
        "b open\na cut 1\n => line 2 refused\n",
    ];
    expect(&rt, alloc, &["gateway"], Status::Refused, rows);
}

// The most fixes of a vault that are not accepted.
const LIMIT: u32 = 100_000;

// One fix more than a vault may hold is stored in the middle. A unit holds 34 fixes, so the first 100,000 stand in 2,942 units, whose
// serials begin at 2, and the last one in the next.
#[test]
fn a_pump_without_room_for_all(rt: HostRuntime) {
    let alloc = rt.alloc();
    let end = b"a tick 0\na run\na fix 0\na tick 0\na run\npump\npump\n";
    let script = repeated(&rt, alloc, b"a open\na run\n", b"a fix 0\n", LIMIT, end);
    let (status, written) = run(&rt, alloc, &["gateway"], script.as_slice(), (0, 0));
    assert!(rt; status == Status::StoreFault);
    assert!(rt; written.ends_with(b"\na 1 unit 2944 stored 2944\nvault full at 100000\n"));
}

// One fix more than the vault of world a may hold.
#[test]
fn a_fix_without_room(rt: HostRuntime) {
    let alloc = rt.alloc();
    let script = repeated(&rt, alloc, b"a fix 0\n", b"a fix 0\n", LIMIT, b"");
    let script = script.as_slice();
    let text = "vault full at 100000\n";
    expect_text(&rt, alloc, &["gateway"], script, Status::StoreFault, text);
}
