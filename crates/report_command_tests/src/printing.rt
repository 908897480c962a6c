use jt_agent::{AttemptEnd, Outcome};
use jt_input::Status;
use jt_report_command::{push_outcome, status_of};
use jt_value::{Octets, Seq};
use std::alloc::Global;
use std::process::Abort;

fn denial(rt: &impl Abort, alloc: Global, body: &[u8]) -> AttemptEnd {
    let body = Vec::from_slice(alloc, body).expect(rt, "there is memory");
    AttemptEnd::Denied(Octets::from_vec(body))
}

// The end that a letter stands for; `x` is a denial with this body.
fn end(rt: &impl Abort, alloc: Global, letter: u8, body: &[u8]) -> AttemptEnd {
    match letter {
        b'd' => AttemptEnd::Dial,
        b'l' => AttemptEnd::Link,
        b'e' => AttemptEnd::End,
        b'i' => AttemptEnd::Idle,
        b's' => AttemptEnd::Spent,
        b't' => AttemptEnd::TimedOut {
            since: 1_000,
            now: 21_000,
        },
        _other => denial(rt, alloc, body),
    }
}

fn ends(rt: &impl Abort, alloc: Global, letters: &[u8], body: &[u8]) -> Seq<AttemptEnd> {
    let mut ends = Seq::new(alloc);
    for letter in letters {
        let end = end(rt, alloc, *letter, body);
        ends.push(end).expect(rt, "there is memory");
    }
    ends
}

// Whether this is printed of an outcome with these totals, behind what stands there.
fn is_printed(
    rt: &impl Abort,
    alloc: Global,
    outcome: &Outcome,
    accepted: u64,
    recorded: u64,
    wanted: &str,
) -> bool {
    let mut text = String::new(alloc);
    text.push_str("> ").expect(rt, "there is memory");
    push_outcome(alloc, &mut text, outcome, accepted, recorded).expect(rt, "there is memory");
    text.as_str() == wanted
}

#[test]
fn attempts_that_ended(rt: HostRuntime) {
    let alloc = rt.alloc();
    let dials = Outcome::Unsent(ends(&rt, alloc, b"dd", b""));
    assert!(rt;
        is_printed(
            &rt,
            alloc,
            &dials,
            0,
            1,
            "> try 1 dial\ntry 2 dial\naccepted=0 of 1\n"
        )
    );
    assert!(rt; status_of(&dials) == Status::Unsent);
    drop(dials);
    let others = Outcome::Unsent(ends(&rt, alloc, b"letisx", b"\x00\x05\x03"));
    assert!(rt;
        is_printed(
            &rt,
            alloc,
            &others,
            2,
            7,
            "> try 1 link\ntry 2 end\ntry 3 timeout 1000 21000\ntry 4 idle\ntry 5 spent\ntry 6 denied 000503\naccepted=2 of 7\n"
        )
    );
    drop(others);
}

#[test]
fn attempts_that_finished_the_work(rt: HostRuntime) {
    let alloc = rt.alloc();
    let at_once = Outcome::Done(ends(&rt, alloc, b"", b""));
    assert!(rt; is_printed(&rt, alloc, &at_once, 0, 0, "> accepted=0 of 0\n"));
    assert!(rt; status_of(&at_once) == Status::Done);
    drop(at_once);
    let late = Outcome::Done(ends(&rt, alloc, b"x", b""));
    assert!(rt;
        is_printed(
            &rt,
            alloc,
            &late,
            1,
            1,
            "> try 1 denied -\naccepted=1 of 1\n"
        )
    );
    drop(late);
}

#[test]
fn attempts_that_broke_off(rt: HostRuntime) {
    let alloc = rt.alloc();
    let fault = Outcome::StoreFault(ends(&rt, alloc, b"e", b""));
    assert!(rt; is_printed(&rt, alloc, &fault, 3, 4, "> try 1 end\nstore fault\n"));
    assert!(rt; status_of(&fault) == Status::StoreFault);
    drop(fault);
    let memory = Outcome::Memory;
    assert!(rt; is_printed(&rt, alloc, &memory, 3, 4, "> "));
    assert!(rt; status_of(&memory) == Status::Memory);
    drop(memory);
}
