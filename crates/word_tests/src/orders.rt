//! Scripts that `orders` plays. Each text was typed from its row, or worked out by hand. All is of 2013: no line of a script makes the
//! terminal one of 2019.

use crate::scene::{expect, expect_behind, expect_text, repeated};
use jt_cli::Status;

const OBEYED: &str = "order 0 performed 0\norder 0 answered 0\nissued=1 performed=1 answered=1\n";

#[test]
fn orders_are_obeyed(rt: HostRuntime) {
    let rows: &[&str] = &[
        " => issued=0 performed=0 answered=0\n",
        "# a comment\n\nopen\nrun\n => issued=0 performed=0 answered=0\n",
        // nobody is there
        "issue 8300 0141\nissue 8300 0142\nrun\ntick 1000\ndown all\nlost\n => issued=2 performed=0 answered=0\n",
        // two orders
        "issue 8300 0141\nissue 8103 0100000001040000001e\nopen\nrun\n => order 0 performed 0\norder 0 answered 0\norder 1 performed 0\norder 1 answered 0\nissued=2 performed=2 answered=2\n",
        // The same order three times is three orders.
        "issue 8300 0141\nissue 8300 0141\nissue 8300 0141\nopen\nrun\n => order 0 performed 0\norder 0 answered 0\norder 1 performed 0\norder 1 answered 0\norder 2 performed 0\norder 2 answered 0\nissued=3 performed=3 answered=3\n",
        // The order is performed on the first line and its answer is lost with that line; on the second the terminal answers from its
        // log.
        "issue 8300 0141\nopen\nup 1 all\ndown all\nup 1 all\ndown all\nrestart terminal\ncut 1\nopen\nrun\n => order 0 performed 0\norder 0 answered 0\nissued=1 performed=1 answered=1\n",
        // The session sends an order once it is issued; the terminal performs it once it reads it, and it is answered once that is taken.
        "open\nrun\nissue 8300 0141\nissue 8300 0142\nup 1 all\ndown all\ndown all\nup 1 all\n => order 0 performed 0\norder 0 answered 0\nissued=2 performed=1 answered=1\n",
        // Several lines, with what is printed of each between them.
        "open\nrun\nissue 8300 0141\ndown all\nissue 8300 0142\nup 1 all\nrun\nissue 8300 0143\nrun\n => order 0 performed 0\norder 0 answered 0\norder 1 performed 0\norder 1 answered 0\norder 2 performed 0\norder 2 answered 0\nissued=3 performed=3 answered=3\n",
        // The terminal answers order 0, and beats behind that. The session takes both octet by octet, so order 1 comes down first, of 17
        // octets, and the response to the heartbeat, of 20, behind it.
        "open\nrun\nissue 8300 0141\nissue 8300 0142\ndown all\ntick 60000\nup 1 all\ndown 17\n => order 0 performed 0\norder 0 answered 0\norder 1 performed 0\nissued=2 performed=2 answered=1\n",
    ];
    expect(&rt, rt.alloc(), &["orders"], Status::Done, rows);
}

#[test]
fn results_by_the_tables(rt: HostRuntime) {
    let rows: &[&str] = &[
        // A text is shown; the terminal has no control; a circle is set; one that is not there cannot be modified; the circles are
        // deleted; and then none is there to be modified. Circle 5 has attribute 0, a place and a radius.
        "issue 8300 0141\n\
        issue 8105 01\n\
        issue 8600 0101000000050000000000000000000000000001\n\
        issue 8600 0201000000060000000000000000000000000001\n\
        issue 8600 0201000000050000000000000000000000000002\n\
        issue 8601 00\n\
        issue 8600 0201000000050000000000000000000000000002\n\
        open\n\
        run\n => \
        order 0 performed 0\norder 0 answered 0\norder 1 performed 3\norder 1 answered 3\norder 2 performed 0\norder 2 answered 0\norder 3 performed 1\norder 3 answered 1\norder 4 performed 0\norder 4 answered 0\norder 5 performed 0\norder 5 answered 0\norder 6 performed 1\norder 6 answered 1\nissued=7 performed=7 answered=7\n",
        // The terminal that starts anew makes its tables from its log: the circle is there, and the one that was not set is not.
        "issue 8600 0101000000050000000000000000000000000001\nopen\nrun\nrestart terminal\ncut 1\nissue 8600 0201000000050000000000000000000000000002\nissue 8600 0201000000060000000000000000000000000002\nopen\nrun\n => order 0 performed 0\norder 0 answered 0\norder 1 performed 0\norder 1 answered 0\norder 2 performed 1\norder 2 answered 1\nissued=3 performed=3 answered=3\n",
    ];
    expect(&rt, rt.alloc(), &["orders"], Status::Done, rows);
}

// The terminal is authenticated, and the order is on its way down.
const SENT: &[u8] = b"issue 8300 0141\nopen\nup 1 all\ndown all\nup 1 all\n";

const UNREAD: &str = "issued=1 performed=0 answered=0\n";

#[test]
fn an_order_is_lost_with_its_line(rt: HostRuntime) {
    let rows: &[(&[u8], &str)] = &[
        // It never read the order, which is sent on the next line.
        (b"", UNREAD),
        (b"lost\nup 1 all\n", UNREAD),
        (b"lost\nup 1 all\nopen\nrun\n", OBEYED),
        (b"cut 1\nopen\nrun\n", OBEYED),
        (b"open\nrun\n", OBEYED),
        // A part of an order is no order: of what comes down the 20 octets of a response are first, and then the 17 of the order.
        (b"down 30\nlost\n", UNREAD),
        (b"down 30\nlost\nopen\nrun\n", OBEYED),
        (b"down 36\nlost\nopen\nrun\n", OBEYED),
        // The book stays where the platform starts anew.
        (b"restart platform\n", UNREAD),
        (b"restart platform\nopen\nrun\n", OBEYED),
    ];
    expect_behind(&rt, rt.alloc(), &["orders"], SENT, rows);
}

// The terminal performed the order on line 1, and its answer is on its way up there.
const PERFORMED: &[u8] = b"issue 8300 0141\nopen\nup 1 all\ndown all\nup 1 all\ndown all\n";

const UNANSWERED: &str = "order 0 performed 0\nissued=1 performed=1 answered=0\n";

#[test]
fn an_answer_is_late_or_lost(rt: HostRuntime) {
    let rows: &[(&[u8], &str)] = &[
        // An answer that was written before its line was lost is taken, while its session holds the phone.
        (b"", UNANSWERED),
        (b"up 1 all\n", OBEYED),
        (b"lost\nup 1 all\n", OBEYED),
        (b"lost\nopen\nup 1 all\n", OBEYED),
        // Session 2 took the phone over, so session 1 is fenced: the answer that comes on it counts for nothing. The order is sent again
        // on line 2, and answered there.
        (b"open\nup 2 all\nup 1 all\n", UNANSWERED),
        (b"open\nup 2 all\nup 1 all\nrun\n", OBEYED),
        // Where the line is cut, or the platform starts anew, the answer is lost, and given again on the next line.
        (b"cut 1\nup 1 all\n", UNANSWERED),
        (b"cut 1\nopen\nrun\n", OBEYED),
        (b"restart platform\nopen\nrun\n", OBEYED),
        (b"restart terminal\ncut 1\nopen\nrun\n", OBEYED),
        (b"restart terminal\nrestart platform\nopen\nrun\n", OBEYED),
    ];
    expect_behind(&rt, rt.alloc(), &["orders"], PERFORMED, rows);
}

// Each is the first line of its script, and bad.
const BAD: &[&[u8]] = &[
    b"fix 0",
    b"raw 000000000000000301312d0006bc3e40000000000000240101000000",
    b"beat 1",
    b"restart terminal 2013",
    b"restart terminal 2019",
    b"up 1 all",
    b"cut 1",
    b"pump",
    b"issue",
    b"issue ",
    b"issue 8300",
    b"issue 8300 ",
    b"issue 8300 014",
    b"issue 8300 014g",
    b"issue 8300 0141 ",
    b"issue 8300 0141 41",
    b"issue  8300 0141",
    b"issue 8300  0141",
    b"issue 830 0141",
    b"issue 008300 0141",
    b"issue 0x8300 0141",
    b"issue - 0141",
    b"issue 8300 -",
    b"issue 8103 01",
    b"issue 8600 03",
    b"issue 0200 -",
    b"issue 8104 -",
    b"issue 8201 -",
    b"issue 85ff 00",
    b"issue 8608 00",
    b"Issue 8300 0141",
    b"issue 8300 0141\r",
    b"issue 0200 -\n",
];

// The lines are counted, those that are passed over too, and what was printed stays.
#[test]
fn bad_lines_of_orders(rt: HostRuntime) {
    let alloc = rt.alloc();
    let first = "line 1 refused\n";
    for &line in BAD {
        expect_text(&rt, alloc, &["orders"], line, Status::Refused, first);
    }
    let rows: &[&str] = &[
        "# one\n\nopen\nissue 8300 0141\nrun\nup 2 all\nissue 8300 0141\n => order 0 performed 0\norder 0 answered 0\nline 6 refused\n",
    ];
    expect(&rt, alloc, &["orders"], Status::Refused, rows);
}

// Digits of either case, and the shortest bodies.
#[test]
fn orders_of_all_kinds(rt: HostRuntime) {
    let rows: &[&str] = &[
        "issue 8300 00\nissue 8105 fF\nissue 8103 00\nissue 8600 0000\nissue 8601 00\nissue 8602 0000\nissue 8603 00\nissue 8604 0000000000000000\nissue 8605 00\nissue 8606 0000000000000000\nissue 8607 00\n => issued=11 performed=0 answered=0\n",
    ];
    expect(&rt, rt.alloc(), &["orders"], Status::Done, rows);
}

// A text of a flag and so many octets.
#[test]
fn long_bodies(rt: HostRuntime) {
    let alloc = rt.alloc();
    let longest = repeated(&rt, alloc, b"issue 8300 00", b"41", 1022, b"");
    let longest = longest.as_slice();
    expect_text(&rt, alloc, &["orders"], longest, Status::Done, UNREAD);
    let longer = repeated(&rt, alloc, b"issue 8300 00", b"41", 1023, b"");
    let bad = "line 1 refused\n";
    let longer = longer.as_slice();
    expect_text(&rt, alloc, &["orders"], longer, Status::Refused, bad);
}
