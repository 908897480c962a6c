//! Words, what they ask, and what is answered to those that ask nothing.

use crate::scene::{HEARTBEAT, expect_one, expect_text, words_of};
use jt_cli::{Command, Encoding, Report, Status, Task};
use jt_relay_command::RelayWords;
use jt_value::{Edition, Phone};
use std::alloc::Global;
use std::process::Abort;

const USAGE: &str =
    "usage: jt808 view|check|rehearse|make|platform|report|orders|fence|relay|gateway\n";

// Nothing is read: the first read would fail. A word that is no text makes the program take all for no words at all, which is the
// first row.
#[test]
fn words_that_are_no_command(rt: HostRuntime) {
    let alloc = rt.alloc();
    let rows: &[&[&str]] = &[
        &[],
        &["views"],
        &["view", "--hex", "--hex"],
        &["view", "--help"],
        &["rehearse", "--hex"],
        &["fence", "--hex"],
        &["make"],
        &["make", "0"],
    ];
    for &words in rows {
        expect_one(&rt, alloc, words, HEARTBEAT, (1, 0), Status::Usage, USAGE);
        expect_text(&rt, alloc, words, b"", Status::Usage, USAGE);
    }
}

const REPORT: &[&str] = &[
    "report",
    "--host",
    "localhost",
    "--port",
    "9000",
    "--phone",
    "013912345678",
    "--plate",
    "4a54383038",
    "--terminal=31323334353637",
    "--tries",
    "2",
];

// Nobody is there to be dialled.
#[test]
fn reports(rt: HostRuntime) {
    let alloc = rt.alloc();
    let fix = b"00000000000000030000000106bc3e40000000000000240101000000\n";
    let text = "try 1 dial\ntry 2 dial\naccepted=0 of 1\n";
    expect_text(&rt, alloc, REPORT, fix, Status::Unsent, text);
    expect_text(&rt, alloc, REPORT, b"", Status::Done, "accepted=0 of 0\n");
    let short = b"000000000000000300000000000000000000000000002401010000";
    let text = "line 1+22 refused Truncated\n";
    expect_text(&rt, alloc, REPORT, short, Status::Refused, text);
    expect_text(&rt, alloc, &REPORT[..10], b"", Status::Usage, USAGE);
}

const VIEW: Option<Task> = Some(Task::Tell(Command {
    report: Report::View,
    encoding: Encoding::Octets,
}));

const VIEW_HEX: Option<Task> = Some(Task::Tell(Command {
    report: Report::View,
    encoding: Encoding::Hex,
}));

const CHECK: Option<Task> = Some(Task::Tell(Command {
    report: Report::Check,
    encoding: Encoding::Octets,
}));

const CHECK_HEX: Option<Task> = Some(Task::Tell(Command {
    report: Report::Check,
    encoding: Encoding::Hex,
}));

// Whether the words tell the program to do this.
fn are_words_of(rt: &impl Abort, alloc: Global, words: &[&str], wanted: Option<Task>) -> bool {
    let words = words_of(rt, alloc, words);
    let is_so = Task::from_words(&words) == wanted;
    drop(words);
    is_so
}

#[test]
fn words_of_tasks(rt: HostRuntime) {
    let rows: &[(&[&str], Option<Task>)] = &[
        (&["view"], VIEW),
        (&["view", "--hex"], VIEW_HEX),
        (&["check"], CHECK),
        (&["check", "--hex"], CHECK_HEX),
        (&["rehearse"], Some(Task::Rehearse)),
        (&["make", "1"], Some(Task::Make(1))),
        (&["make", "20000"], Some(Task::Make(20_000))),
        (&["fence"], Some(Task::Fence)),
        (&["orders"], Some(Task::Orders)),
        (&["orders", "--hex"], None),
        (&[], None),
        (&[""], None),
        (&["views"], None),
        (&["VIEW"], None),
        (&["view", "x"], None),
        (&["check", "x"], None),
        (&["view", "--hex", "--hex"], None),
        (&["--hex", "view"], None),
        (&["view", "--hex="], None),
        (&["view", "--he"], None),
        (&["view", "--"], None),
        (&["view", "--help"], None),
        (&["view\n"], None),
        (&["rehearse", ""], None),
        (&["fences"], None),
        (&["rehearsal"], None),
        (&["platform"], None),
        (&["make"], None),
        (&["make", "0"], None),
        (&["make", "20001"], None),
        (&["make", "4294967297"], None),
        (&["make", "01"], None),
        (&["make", "+1"], None),
        (&["make", "-1"], None),
        (&["make", "1.0"], None),
        (&["make", ""], None),
        (&["make", " 1"], None),
        (&["make", "1 "], None),
        (&["make", "1", "1"], None),
        (&["make", "1", "--hex"], None),
        (&["make", "--hex"], None),
        (&["make", "--"], None),
        (&["make1"], None),
        (&["makes", "1"], None),
        (&["MAKE", "1"], None),
        (&["1", "make"], None),
        (&["rehearse", "1"], None),
    ];
    for &(words, wanted) in rows {
        assert!(rt; are_words_of(&rt, rt.alloc(), words, wanted));
    }
}

const IN_2013: Phone = Phone {
    edition: Edition::E2013,
    digits: [0, 0, 0, 0, 0x01, 0x39, 0x12, 0x34, 0x56, 0x78],
};

const IN_2019: Phone = Phone {
    edition: Edition::E2019,
    digits: [0x12, 0x34, 0x56, 0x78, 0x90, 0x12, 0x34, 0x56, 0x78, 0x90],
};

const OF_RELAY: &[(&[&str], Option<Phone>)] = &[
    (&["relay", "--phone", "013912345678"], Some(IN_2013)),
    (&["relay", "--phone=013912345678"], Some(IN_2013)),
    (&["relay", "--phone", "12345678901234567890"], Some(IN_2019)),
    (&["relay", "--phone=12345678901234567890"], Some(IN_2019)),
    (&[], None),
    (&["relay"], None),
    (&["relay", "--phone"], None),
    (&["relay", "--phone", ""], None),
    (&["relay", "--phone", "01391234567"], None),
    (&["relay", "--phone", "0139123456789"], None),
    (&["relay", "--phone", "01391234567a"], None),
    (&["relay", "--phone", "013912345678", "x"], None),
    (&["relay", "--plate", "013912345678"], None),
    (&["gateway", "--phone", "013912345678"], None),
];

#[test]
fn words_of_relay(rt: HostRuntime) {
    for &(words, phone) in OF_RELAY {
        let words = words_of(&rt, rt.alloc(), words);
        let told = RelayWords::from_words(words.as_slice());
        drop(words);
        assert!(rt; told == phone.map(|phone| RelayWords { phone }));
    }
}
