ghost use Rattle.std.specs.Prelude.{◌≡◌, ◌≤◌};
ghost use Rattle.jt_terminal_rule.specs.declared.state.Phase.TheVariants.{Down};

use crate::setting::{frames, link, ready, told_all};
use jt_agent::{Outcome, report_all};
use jt_outside::{ScriptClock, ScriptDial};
use jt_store::MemVault;
use jt_terminal::Terminal;
use jt_value::{Memory, Seq};
use std::alloc::Global;
use std::process::Abort;
use std::test::Fail;

// A dial of two links that give these frames. The call of a number of it fails, and the call of a number of its first link.
fn dial(
    alloc: Global,
    failing: u64,
    first_failing: u64,
    first: &[u8],
    second: &[u8],
) -> Result<ScriptDial, Memory> {
    let first = link(alloc, first, first_failing)?;
    let second = link(alloc, second, 0)?;
    let mut links = Seq::new(alloc);
    links.push(first)?;
    links.push(second)?;
    let mut calls = Seq::new(alloc);
    calls.push(failing)?;
    ScriptDial::new(alloc, links, calls)
}

// A link that was written the frames of these letters; `-` is none.
fn write_link(alloc: Global, letters: &[u8], said: &mut Vec<u8>) -> Result<(), Memory> {
    if letters != b"-".as_slice() {
        said.push(b'|')?;
        let octets = frames(alloc, letters)?;
        said.extend_from_slice(octets.as_slice())?;
    }
    Ok(())
}

// Whether the links that came back were written the frames of these letters; `-` is none.
fn are_written(
    alloc: Global,
    dial: &ScriptDial,
    first: &[u8],
    second: &[u8],
) -> Result<bool, Memory> {
    let mut written = Vec::new(alloc);
    for link in dial.links_back() {
        written.push(b'|')?;
        written.extend_from_slice(link.written())?;
    }
    let mut wanted = Vec::new(alloc);
    write_link(alloc, first, &mut wanted)?;
    write_link(alloc, second, &mut wanted)?;
    Ok(written.as_slice() == wanted.as_slice())
}

// (a call of its own, with no clause: its caller owns the terminal)
fn report_over(
    alloc: Global,
    dial: &mut ScriptDial,
    clock: &mut ScriptClock,
    terminal: &mut Terminal<MemVault>,
    tries: u32,
) -> Outcome
    requires down { terminal.old.state.phase ≡ Down }
    requires time { terminal.old.state.time ≤ clock.old.last }
{
    report_all(alloc, dial, clock, terminal, "localhost", 9000, tries)
}

// What the attempts come to.
fn reported(
    rt: &impl Abort,
    alloc: Global,
    has_fix: bool,
    vault_failing: u64,
    dial: &mut ScriptDial,
    tries: u32,
) -> Outcome {
    let mut terminal = ready(alloc, has_fix, vault_failing).expect(rt, "a terminal");
    let mut clock = ScriptClock::new(Seq::new(alloc));
    let reported = report_over(alloc, dial, &mut clock, &mut terminal, tries);
    drop(terminal);
    drop(clock);
    reported
}

// Whether attempts came to this.
fn is_told(alloc: Global, reported: &Outcome, outcome: &[u8]) -> bool {
    match told_all(alloc, reported) {
        Ok(said) => said.as_slice() == outcome,
        Err(_) => false,
    }
}

// Whether the attempts come to this.
fn come_to(
    rt: &impl Abort,
    alloc: Global,
    has_fix: bool,
    vault_failing: u64,
    dial: &mut ScriptDial,
    tries: u32,
    outcome: &[u8],
) -> bool {
    let reported = reported(rt, alloc, has_fix, vault_failing, dial, tries);
    let is_told = is_told(alloc, &reported, outcome);
    drop(reported);
    is_told
}

// How many attempts there may be; the number of the dial that fails; the number of the first link's call that fails; what both
// links give; the ends and what they came to; and what was written to the links that came back.
#[test]
fn attempts_one_after_another(rt: HostRuntime) -> Result<(), Fail> {
    let rows: &[(u32, u64, u64, &[u8], &[u8], &[u8], &[u8], &[u8])] = &[
        (1, 0, 0, b"rau", b"", b"done", b"RAU", b"-"),
        (0, 0, 0, b"rau", b"", b"unsent", b"-", b"-"),
        (1, 0, 0, b"ra", b"bv", b"end unsent", b"RAU", b"-"),
        (2, 0, 0, b"", b"sbv", b"end done", b"R", b"SBV"),
        (3, 1, 0, b"rau", b"", b"dial done", b"RAU", b"-"),
        (3, 2, 0, b"", b"sbv", b"end dial done", b"R", b"SBV"),
        (
            3,
            0,
            0,
            b"x",
            b"",
            b"denied \x00\x00\x01end dial unsent",
            b"R",
            b"S",
        ),
        (3, 0, 3, b"rau", b"sbv", b"link done", b"R", b"-"),
        (3, 0, 1, b"rau", b"sbv", b"link done", b"", b"SBV"),
    ];
    for (tries, failing, first_failing, first, second, outcome, written, then) in rows {
        let mut dial = dial(rt.alloc(), *failing, *first_failing, first, second)?;
        assert!(rt; come_to(&rt, rt.alloc(), true, 0, &mut dial, *tries, outcome));
        assert!(rt; are_written(rt.alloc(), &dial, written, then)?);
    }
    Ok(())
}

// A dial without a link fails at each attempt, and is not asked where nothing is left to report.
#[test]
fn a_dial_that_always_fails(rt: HostRuntime) -> Result<(), Fail> {
    let rows: &[(bool, u32, &[u8])] = &[
        (true, 2, b"dial dial unsent"),
        (false, 2, b"done"),
        (false, 0, b"done"),
    ];
    for (has_fix, tries, outcome) in rows {
        let mut dial = ScriptDial::new(rt.alloc(), Seq::new(rt.alloc()), Seq::new(rt.alloc()))?;
        assert!(rt; come_to(&rt, rt.alloc(), *has_fix, 0, &mut dial, *tries, outcome));
    }
    Ok(())
}

// The number of the dial that fails, and of the vault's call that fails.
#[test]
fn the_vault_fails(rt: HostRuntime) -> Result<(), Fail> {
    let rows: &[(u64, u64, &[u8])] = &[(0, 3, b"store fault"), (1, 4, b"dial store fault")];
    for (failing, vault_failing, outcome) in rows {
        let mut dial = dial(rt.alloc(), *failing, 0, b"rau", b"")?;
        assert!(rt; come_to(&rt, rt.alloc(), true, *vault_failing, &mut dial, 3, outcome));
    }
    Ok(())
}
