use jt_script::{EventLine, WorldEvent, event_line};
use jt_value::Edition;
use std::alloc::Global;
use std::process::Abort;

// What a line says, without the octets of a fix.
#[derive(Clone, Copy, Debug, PartialEq, Eq)]
pub enum Said {
    Passed,
    Bad,
    Fix(u32),
    Raw,
    Open,
    Up(u32, Option<u32>),
    Down(Option<u32>),
    Tick(u32),
    Beat(u32),
    Run,
    Cut(u32),
    Lost,
    RestartTerminal,
    RestartPlatform,
    RestartAs(Edition),
}

fn said_by(event: &WorldEvent) -> Said {
    match event {
        WorldEvent::Fix(latitude) => Said::Fix(*latitude),
        WorldEvent::Raw(_) => Said::Raw,
        WorldEvent::Open => Said::Open,
        WorldEvent::Up { line, count } => Said::Up(*line, *count),
        WorldEvent::Down(count) => Said::Down(*count),
        WorldEvent::Tick(milliseconds) => Said::Tick(*milliseconds),
        WorldEvent::Beat(times) => Said::Beat(*times),
        WorldEvent::Run => Said::Run,
        WorldEvent::Cut(line) => Said::Cut(*line),
        WorldEvent::Lost => Said::Lost,
        WorldEvent::RestartTerminal => Said::RestartTerminal,
        WorldEvent::RestartPlatform => Said::RestartPlatform,
        WorldEvent::RestartAs(edition) => Said::RestartAs(*edition),
    }
}

pub fn says(rt: &impl Abort, alloc: Global, line: &[u8]) -> Said {
    match event_line(alloc, line).expect(rt, "memory") {
        EventLine::Passed => Said::Passed,
        EventLine::Event(event) => said_by(&event),
        EventLine::Bad => Said::Bad,
    }
}

const EVENTS: &[(&str, Said)] = &[
    ("fix 0", Said::Fix(0)),
    ("fix 7", Said::Fix(7)),
    ("fix 89999999", Said::Fix(89_999_999)),
    ("open", Said::Open),
    ("up 1 30", Said::Up(1, Some(30))),
    ("up 2 all", Said::Up(2, None)),
    ("up 1 0", Said::Up(1, Some(0))),
    ("up 0 0", Said::Up(0, Some(0))),
    ("up 0 all", Said::Up(0, None)),
    (
        "up 4294967295 1000000000",
        Said::Up(4_294_967_295, Some(1_000_000_000)),
    ),
    ("down 0", Said::Down(Some(0))),
    ("down 1000000000", Said::Down(Some(1_000_000_000))),
    ("down all", Said::Down(None)),
    ("tick 0", Said::Tick(0)),
    ("tick 1", Said::Tick(1)),
    ("tick 1000", Said::Tick(1000)),
    ("tick 4294967295", Said::Tick(4_294_967_295)),
    ("beat 0", Said::Beat(0)),
    ("beat 100000", Said::Beat(100_000)),
    ("run", Said::Run),
    ("cut 1", Said::Cut(1)),
    ("cut 0", Said::Cut(0)),
    ("cut 4294967295", Said::Cut(4_294_967_295)),
    ("lost", Said::Lost),
    ("restart terminal", Said::RestartTerminal),
    ("restart platform", Said::RestartPlatform),
    ("restart terminal 2013", Said::RestartAs(Edition::E2013)),
    ("restart terminal 2019", Said::RestartAs(Edition::E2019)),
    ("", Said::Passed),
    ("#", Said::Passed),
    ("# fix 0", Said::Passed),
    ("#\r", Said::Passed),
];

const BAD_VALUES: &[&str] = &[
    "fix 90000000",
    "fix 4294967296",
    "fix 99999999999999999999999999",
    "fix",
    "fix ",
    "fix all",
    "fix 00",
    "fix 01",
    "fix +1",
    "fix -1",
    "fix 1.0",
    "fix 0x0",
    "up 4294967296 all",
    "up 1 1000000001",
    "up all 1",
    "up 01 all",
    "up 1 00",
    "up 1 ALL",
    "up 1 alls",
    "up",
    "up 1",
    "up 1 ",
    "up  all",
    "down",
    "down ",
    "down 1000000001",
    "down 00",
    "down ALL",
    "down alls",
    "tick",
    "tick ",
    "tick 4294967296",
    "tick 00",
    "tick all",
    "tick 0x0",
    "beat",
    "beat ",
    "beat 100001",
    "beat 00",
    "beat 010",
    "beat all",
    "cut",
    "cut ",
    "cut 4294967296",
    "cut 01",
    "cut all",
    "restart",
    "restart ",
    "restart terminal ",
    "restart terminal 2011",
    "restart terminal 02013",
    "restart terminal 2013 ",
    "restart platform ",
    "restart platform 2013",
    "restart 2013",
    "restart Terminal",
];

const BAD_FORMS: &[&str] = &[
    " ",
    "  ",
    " # comment",
    " open",
    "open ",
    "open\r",
    "open 1",
    "Open",
    "opens",
    "run ",
    "run\r",
    "run 1",
    "lost ",
    "lost\r",
    "lost 1",
    "fix  1",
    "fix\t1",
    "fix 1 ",
    " fix 1",
    "fix 1\r",
    "fix 1 1",
    "Fix 1",
    "fix1",
    "up  1 all",
    "up 1  all",
    "up 1 all ",
    "up 1 all\r",
    "up 1 all all",
    "up 1 all 1 1",
    "down 1 ",
    "down all\r",
    "down 1 1",
    "tick 1 ",
    "tick 1\r",
    "tick 1 1",
    "beat 1 ",
    "beat 1\r",
    "cut 1 ",
    "cut 1\r",
    "cut 1 1",
    "restart  terminal",
    "restart terminal\r",
    "restart platform\r",
    "restart terminal  2013",
    "restart terminal 2013\r",
    "make 1",
    "ä",
];

#[test]
fn events(rt: HostRuntime) {
    for &(line, said) in EVENTS {
        assert!(rt; says(&rt, rt.alloc(), line.as_bytes()) == said, "{line}");
    }
}

#[test]
fn bad_values(rt: HostRuntime) {
    for line in BAD_VALUES {
        assert!(rt;
            says(&rt, rt.alloc(), line.as_bytes()) == Said::Bad,
            "{line}"
        );
    }
}

#[test]
fn bad_forms(rt: HostRuntime) {
    for line in BAD_FORMS {
        assert!(rt;
            says(&rt, rt.alloc(), line.as_bytes()) == Said::Bad,
            "{line}"
        );
    }
}

#[test]
fn lines_that_are_no_text(rt: HostRuntime) {
    assert!(rt; says(&rt, rt.alloc(), b"#\xff") == Said::Passed);
    assert!(rt; says(&rt, rt.alloc(), b"fix \xff") == Said::Bad);
    assert!(rt; says(&rt, rt.alloc(), b"open\x00") == Said::Bad);
}
