ghost use Rattle.std.specs.Prelude.{◌≡◌, ◌≤◌, ◌^◌};
ghost use Rattle.jt_outside.specs.ScriptClock.{RiseFrom};
ghost use Rattle.jt_terminal_rule.specs.declared.state.Phase.TheVariants.{Down};

use crate::setting::{frames, link, ready, told};
use jt_agent::{Attempted, attempt, attempt_within};
use jt_outside::{ScriptClock, ScriptLink};
use jt_store::MemVault;
use jt_terminal::Terminal;
use jt_value::{Octets, Seq};
use std::alloc::Global;
use std::process::Abort;
use std::test::Fail;

// Whether an attempt came to this answer.
fn is_told(alloc: Global, attempted: &Attempted, answer: &[u8]) -> bool {
    match told(alloc, attempted) {
        Ok(said) => said.as_slice() == answer,
        Err(_) => false,
    }
}

// Whether the frames of these letters were written.
fn is_written(alloc: Global, written: &[u8], letters: &[u8]) -> bool {
    match frames(alloc, letters) {
        Ok(wanted) => written == wanted.as_slice(),
        Err(_) => false,
    }
}

// (a call of its own, with no clause: its callers own the terminal)
fn attempt_over(
    alloc: Global,
    link: &mut ScriptLink,
    clock: &mut ScriptClock,
    terminal: &mut Terminal<MemVault>,
) -> Attempted
    requires down { terminal.old.state.phase ≡ Down }
    requires time { terminal.old.state.time ≤ clock.old.last }
{
    attempt(alloc, link, clock, terminal)
}

fn attempt_over_within(
    alloc: Global,
    link: &mut ScriptLink,
    clock: &mut ScriptClock,
    terminal: &mut Terminal<MemVault>,
    octets: u64,
    quiets: u32,
) -> Attempted
    requires down { terminal.old.state.phase ≡ Down }
    requires time { terminal.old.state.time ≤ clock.old.last }
    requires octets { (1 ≤ octets) × (octets ≤ 2 ^ 40) }
    requires quiets { (1 ≤ quiets) × (quiets ≤ 1000000) }
{
    attempt_within(alloc, link, clock, terminal, octets, quiets)
}

// What a terminal's attempt over the link comes to, with a clock that stands.
fn attempted(
    rt: &impl Abort,
    alloc: Global,
    has_fix: bool,
    vault_failing: u64,
    link: &mut ScriptLink,
) -> Attempted {
    let mut terminal = ready(alloc, has_fix, vault_failing).expect(rt, "a terminal");
    let mut clock = ScriptClock::new(Seq::new(alloc));
    let attempted = attempt_over(alloc, link, &mut clock, &mut terminal);
    drop(terminal);
    drop(clock);
    attempted
}

// Whether an attempt over the link is answered so, with a clock that stands, and the frames of these letters are written then.
fn answers(
    rt: &impl Abort,
    alloc: Global,
    has_fix: bool,
    vault_failing: u64,
    link: &mut ScriptLink,
    answer: &[u8],
    letters: &[u8],
) -> bool {
    let attempted = attempted(rt, alloc, has_fix, vault_failing, link);
    let is_told = is_told(alloc, &attempted, answer);
    drop(attempted);
    is_told && is_written(alloc, link.written(), letters)
}

// The same with fewer octets and quiet reads, and a clock of these moments.
fn attempted_within(
    rt: &impl Abort,
    alloc: Global,
    link: &mut ScriptLink,
    octets: u64,
    quiets: u32,
    moments: &[u64],
) -> Attempted
    requires octets { (1 ≤ octets) × (octets ≤ 2 ^ 40) }
    requires quiets { (1 ≤ quiets) × (quiets ≤ 1000000) }
    requires moments { RiseFrom 0 moments.now }
{
    let moments = Vec::from_slice(alloc, moments).expect(rt, "there is memory");
    let mut clock = ScriptClock::new(Seq::from_vec(moments));
    let mut terminal = ready(alloc, true, 0).expect(rt, "a terminal");
    let attempted = attempt_over_within(alloc, link, &mut clock, &mut terminal, octets, quiets);
    drop(terminal);
    drop(clock);
    attempted
}

// Whether such an attempt is answered so, and the frames of these letters are written then.
fn answers_within(
    rt: &impl Abort,
    alloc: Global,
    link: &mut ScriptLink,
    octets: u64,
    quiets: u32,
    moments: &[u64],
    answer: &[u8],
    letters: &[u8],
) -> bool
    requires octets { (1 ≤ octets) × (octets ≤ 2 ^ 40) }
    requires quiets { (1 ≤ quiets) × (quiets ≤ 1000000) }
    requires moments { RiseFrom 0 moments.now }
{
    let attempted = attempted_within(rt, alloc, link, octets, quiets, moments);
    let is_told = is_told(alloc, &attempted, answer);
    drop(attempted);
    is_told && is_written(alloc, link.written(), letters)
}

// What the link gives, the number of its call that fails, the answer, and what is written.
#[test]
fn an_attempt_ends(rt: HostRuntime) -> Result<(), Fail> {
    let rows: &[(&[u8], u64, &[u8], &[u8])] = &[
        (b"rau", 0, b"done", b"RAU"),
        (b"ra", 0, b"end ", b"RAU"),
        (b"r", 0, b"end ", b"RA"),
        (b"", 0, b"end ", b"R"),
        (b"rau", 1, b"link ", b""),
        (b"rau", 2, b"link ", b"R"),
        (b"rau", 3, b"link ", b"R"),
        (b"rau", 4, b"link ", b"RA"),
        (b"x", 0, b"denied \x00\x00\x01", b"R"),
        (b"ry", 0, b"denied \x00\x01\x01\x02\x01", b"RA"),
        (b"raz", 0, b"denied \x00\x02\x02\x00\x01", b"RAU"),
    ];
    for (given, failing, answer, written) in rows {
        let mut link = link(rt.alloc(), given, *failing)?;
        assert!(rt; answers(&rt, rt.alloc(), true, 0, &mut link, answer, written));
    }
    Ok(())
}

// The number of the vault's call that fails: the code is stored, a unit formed, and accepted.
#[test]
fn the_vault_fails(rt: HostRuntime) -> Result<(), Fail> {
    let rows: &[(u64, &[u8])] = &[(3, b"R"), (4, b"R"), (5, b"R")];
    for (failing, written) in rows {
        let mut link = link(rt.alloc(), b"rau", 0)?;
        assert!(rt;
            answers(
                &rt,
                rt.alloc(),
                true,
                *failing,
                &mut link,
                b"store fault",
                written
            )
        );
    }
    Ok(())
}

// Where nothing is left to report no line is opened.
#[test]
fn nothing_to_report(rt: HostRuntime) -> Result<(), Fail> {
    let mut link = link(rt.alloc(), b"rau", 1)?;
    assert!(rt; answers(&rt, rt.alloc(), false, 0, &mut link, b"done", b""));
    Ok(())
}

// The clock stands; or its moments are those at which what was sent is sent again and given up.
#[test]
fn a_quiet_link(rt: HostRuntime) -> Result<(), Fail> {
    let mut standing = ScriptLink::quiet(rt.alloc(), 65_536)?;
    assert!(rt; answers_within(&rt, rt.alloc(), &mut standing, 1, 5, &[], b"idle ", b"R"));
    let mut late = ScriptLink::quiet(rt.alloc(), 65_536)?;
    assert!(rt;
        answers_within(
            &rt,
            rt.alloc(),
            &mut late,
            1,
            5,
            &[0, 10_000, 30_000, 90_000, 330_000],
            b"timed out \x00\x00\x00\x00\x00\x00\x00\x00\x00\x00\x00\x00\x00\x05\x09\x10",
            b"RRRR"
        )
    );
    Ok(())
}

#[test]
fn a_link_that_never_ends(rt: HostRuntime) -> Result<(), Fail> {
    let mut link = ScriptLink::endless(rt.alloc(), 0, 65_536)?;
    assert!(rt; answers_within(&rt, rt.alloc(), &mut link, 5000, 5, &[], b"spent ", b"R"));
    Ok(())
}

// How many octets the link gives, and how the attempt ends where the third read, the fourth call, fails: a read takes 4,096 of
// them, so the second read finds the end behind 4,096 octets, and the third one comes behind 4,097.
#[test]
fn a_read_takes_up_to_a_piece(rt: HostRuntime) -> Result<(), Fail> {
    let alloc = rt.alloc();
    let rows: &[(usize, &[u8])] = &[(4096, b"end "), (4097, b"link ")];
    for (octets, answer) in rows {
        let zeros = Octets::from_vec(vec![in alloc; 0u8; *octets]?);
        let mut calls = Seq::new(alloc);
        calls.push(4)?;
        let mut link = ScriptLink::new(alloc, zeros, 65_536, calls)?;
        assert!(rt; answers_within(&rt, alloc, &mut link, 5000, 5, &[], answer, b"R"));
    }
    Ok(())
}
