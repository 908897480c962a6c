//! Scripts that `rehearse` plays, and those that `make` makes. Each text was typed from its row, or worked out by hand.

use crate::scene::{expect, expect_text, repeated, run};
use jt_cli::Status;
use std::alloc::{AllocError, Global};
use std::fmt::Write;
use std::process::Abort;

#[test]
fn scripts_without_entries(rt: HostRuntime) {
    let rows: &[&str] = &[
        " => recorded=0 accepted=0 rows=0 stored=0\n",
        "\n# a comment\n\n# => recorded=0 accepted=0 rows=0 stored=0\n",
        "fix 0 => recorded=1 accepted=0 rows=0 stored=0\n",
        "\n# a comment\nfix 89999999\n\n => recorded=1 accepted=0 rows=0 stored=0\n",
        // without a line in use nothing happens
        "down all\nlost\nrun\nbeat 100000\ntick 4294967295\n => recorded=0 accepted=0 rows=0 stored=0\n",
        "open\nfix 0\n => recorded=1 accepted=0 rows=0 stored=0\n",
        "open\nup 1 0\n => recorded=0 accepted=0 rows=0 stored=0\n",
        "raw 00000000000000030000000706bc3e40000000000000240101000000\n => recorded=1 accepted=0 rows=0 stored=0\n",
    ];
    expect(&rt, rt.alloc(), &["rehearse"], Status::Done, rows);
}

// A bad line ends the script, and what was printed before it stays.
#[test]
fn bad_lines_of_scripts(rt: HostRuntime) {
    let rows: &[&str] = &[
        // lines of communication that were not opened
        "fix 0\nup 1 all => line 2 refused\n",
        "up 0 all => line 1 refused\n",
        "cut 1 => line 1 refused\n",
        "open\ncut 2 => line 2 refused\n",
        "open\nup 2 0 => line 2 refused\n",
        "open\nrun\nlost\nup 1 0\nup 2 0\n => 1 register registered\n1 auth accepted\nline 5 refused\n",
        // lines outside the forms
        "fix 0\nfix => line 2 refused\n",
        "\n# a comment\nfix 01\n => line 3 refused\n",
        "fix 0\r\n => line 1 refused\n",
        "fix  0\n => line 1 refused\n",
        "fix\t0\n => line 1 refused\n",
        "fix 90000000\n => line 1 refused\n",
        "raw 00\n => line 1 refused\n",
        "open\nup 1 1000000001\n => line 2 refused\n",
        "beat 100001\n => line 1 refused\n",
        "open\nrun\nrestart terminal 2011\nrun\n => 1 register registered\n1 auth accepted\nline 3 refused\n",
    ];
    expect(&rt, rt.alloc(), &["rehearse"], Status::Refused, rows);
}

#[test]
fn long_lines_of_scripts(rt: HostRuntime) {
    let alloc = rt.alloc();
    let longest = repeated(&rt, alloc, b"", b"#", 4096, b"");
    let none = "recorded=0 accepted=0 rows=0 stored=0\n";
    let longest = longest.as_slice();
    expect_text(&rt, alloc, &["rehearse"], longest, Status::Done, none);
    let longer = repeated(&rt, alloc, b"", b"#", 4097, b"");
    let bad = "line 1 refused\n";
    let longer = longer.as_slice();
    expect_text(&rt, alloc, &["rehearse"], longer, Status::Refused, bad);
}

// The acceptance of a unit reaches the terminal octet by octet: its frame has 20.
#[test]
fn octets_one_by_one(rt: HostRuntime) {
    let rows: &[&str] = &[
        "open\nrun\nfix 0\ntick 0\nup 1 42\nup 1 1\ndown 19\n => 1 register registered\n1 auth accepted\n1 unit 2 stored 2\nrecorded=1 accepted=0 rows=1 stored=1\n",
        "open\nrun\nfix 0\ntick 0\nup 1 42\nup 1 1\ndown 19\ndown 1\n => 1 register registered\n1 auth accepted\n1 unit 2 stored 2\nrecorded=1 accepted=1 rows=1 stored=1\n",
    ];
    expect(&rt, rt.alloc(), &["rehearse"], Status::Done, rows);
}

#[test]
fn lines_that_end_and_ends_that_start_anew(rt: HostRuntime) {
    let rows: &[&str] = &[
        // Three units are stored, the terminal starts anew before it hears of it, and the platform tells the repeats.
        "open\nrun\nfix 0\ntick 0\nfix 1\ntick 0\nfix 2\ntick 0\nup 1 all\nrestart terminal\ncut 1\nopen\nrun\n => 1 register registered\n1 auth accepted\n1 unit 2 stored 2\n1 unit 3 stored 3\n1 unit 4 stored 4\n1 close accepted\n2 auth accepted\n2 unit 2 repeat 2\n2 unit 3 repeat 3\n2 unit 4 repeat 4\nrecorded=3 accepted=3 rows=3 stored=3\n",
        // A unit that comes late, on a line whose session does not hold the phone any more, is fenced.
        "open\nrun\nfix 0\ntick 0\nlost\nopen\nup 2 all\nup 1 all\nrun\n => 1 register registered\n1 auth accepted\n2 auth accepted\n1 unit 2 fenced 2\n1 close accepted\n2 unit 2 stored 2\nrecorded=1 accepted=1 rows=1 stored=1\n",
        // A unit is cut.
        "open\nrun\nfix 0\ntick 0\nup 1 20\ncut 1\nopen\nrun\n => 1 register registered\n1 auth accepted\n1 close accepted\n2 auth accepted\n2 unit 2 stored 2\nrecorded=1 accepted=1 rows=1 stored=1\n",
        // The platform starts anew.
        "open\nrun\nfix 0\ntick 0\nup 1 all\nrestart platform\nopen\nrun\n => 1 register registered\n1 auth accepted\n1 unit 2 stored 2\n2 auth accepted\n2 unit 2 repeat 2\nrecorded=1 accepted=1 rows=1 stored=1\n",
        // A line whose platform's end is gone takes nothing.
        "open\nrun\nrestart platform\nlost\nup 1 all\n => 1 register registered\n1 auth accepted\nrecorded=0 accepted=0 rows=0 stored=0\n",
        // The code of the other edition is denied, the terminal registers anew, and the unit is a repeat.
        "open\nrun\nfix 0\ntick 0\nup 1 all\nrestart terminal 2019\ncut 1\nopen\nrun\nopen\nrun\n => 1 register registered\n1 auth accepted\n1 unit 2 stored 2\n1 close accepted\n2 auth denied 1\n3 register registered\n3 auth accepted\n3 unit 2 repeat 2\nrecorded=1 accepted=1 rows=1 stored=1\n",
    ];
    expect(&rt, rt.alloc(), &["rehearse"], Status::Done, rows);
}

// The terminal's serials go on with each beat, and a unit is formed where the mark leaves room for its number.
#[test]
fn the_window_of_serials(rt: HostRuntime) {
    let rows: &[&str] = &[
        "open\nrun\nfix 0\ntick 0\nbeat 40000\nfix 1\ntick 0\nfix 2\ntick 0\nrun\n => 1 register registered\n1 auth accepted\n1 unit 2 stored 2\n1 unit 32765 stored 32765\n1 unit 32766 stored 32766\nrecorded=3 accepted=3 rows=3 stored=3\n",
        "open\nrun\nfix 0\ntick 0\nbeat 100000\nbeat 100000\nbeat 100000\nfix 1\ntick 0\nrun\n => 1 register registered\n1 auth accepted\n1 unit 2 stored 2\n1 unit 32765 stored 32765\nrecorded=2 accepted=2 rows=2 stored=2\n",
    ];
    expect(&rt, rt.alloc(), &["rehearse"], Status::Done, rows);
}

// A session's number does not wrap at 65,536. Registrations take the terminal's serials 0 to 32,764 one after another; the next one is
// kept for a unit, and all later lines begin with it.
#[test]
fn more_lines_than_serials(rt: HostRuntime) {
    let alloc = rt.alloc();
    let script = repeated(&rt, alloc, b"", b"open\n", 65_536, b"run\nfix 0\nrun\n");
    let text = "65536 register registered\n65536 auth accepted\n65536 unit 32765 stored 32765\n\
        recorded=1 accepted=1 rows=1 stored=1\n";
    let script = script.as_slice();
    expect_text(&rt, alloc, &["rehearse"], script, Status::Done, text);
    let end = b"up 1 all\nup 65537 all\nup 65538 0\n";
    let script = repeated(&rt, alloc, b"", b"open\n", 65_537, end);
    let text = "1 register registered\n65537 register registered\nline 65540 refused\n";
    let script = script.as_slice();
    expect_text(&rt, alloc, &["rehearse"], script, Status::Refused, text);
}

// The lines of the fix of this half minute of 5 March 2024: 40 octets, with an odometer, a signal and satellites.
fn push_half_minute(script: &mut String, number: u16) -> Result<(), AllocError> {
    let lat = 20_000_000 + u32::from(number);
    let hour = number / 120;
    let minute = number / 2 % 60;
    let second = number % 2 * 30;
    write!(script, "raw 0000000000000003{lat:08x}06bc3e40000a0258005a")?;
    write!(script, "240305{hour:02}{minute:02}{second:02}")?;
    write!(script, "0104{number:08x}300119310109\n")?;
    script.push_str("tick 30000\nrun\n")
}

// After every tenth fix the terminal beats.
fn push_part(script: &mut String, from: u16, to: u16) -> Result<(), AllocError> {
    for number in from..to {
        push_half_minute(script, number)?;
        if number % 10 == 9 {
            script.push_str("beat 1\nrun\n")?;
        }
    }
    Ok(())
}

// In the break between its halves there is no line, and no beat.
fn push_break(script: &mut String) -> Result<(), AllocError> {
    script.push_str("lost\ncut 1\n")?;
    for number in 1000..1020 {
        push_half_minute(script, number)?;
    }
    script.push_str("open\nrun\n")
}

fn day(alloc: Global) -> Result<String, AllocError> {
    let mut script = String::from_str(alloc, "open\nrun\n")?;
    push_part(&mut script, 0, 1000)?;
    push_break(&mut script)?;
    push_part(&mut script, 1020, 2880)?;
    Ok(script)
}

#[test]
fn a_day_of_one_lorry(rt: HostRuntime) {
    let script = day(rt.alloc()).expect(&rt, "a script");
    let (status, written) = run(&rt, rt.alloc(), &["rehearse"], script.as_bytes(), (0, 0));
    assert!(rt; status == Status::Done);
    assert!(rt; written.ends_with(b"\nrecorded=2880 accepted=2880 rows=2861 stored=2880\n"));
}

#[test]
fn a_vault_that_is_full(rt: HostRuntime) {
    let alloc = rt.alloc();
    let script = repeated(&rt, alloc, b"", b"fix 0\n", 100_000, b"");
    let text = "recorded=100000 accepted=0 rows=0 stored=0\n";
    let script = script.as_slice();
    expect_text(&rt, alloc, &["rehearse"], script, Status::Done, text);
    let script = repeated(&rt, alloc, b"", b"fix 0\n", 100_001, b"");
    let text = "vault full at 100000\n";
    let script = script.as_slice();
    expect_text(&rt, alloc, &["rehearse"], script, Status::StoreFault, text);
}

// The source is not read.
#[test]
fn one_fix_is_made(rt: HostRuntime) {
    let rows = &[
        " => recorded=1 accepted=1 rows=1 stored=1\n",
        "fix\n => recorded=1 accepted=1 rows=1 stored=1\n",
    ];
    expect(&rt, rt.alloc(), &["make", "1"], Status::Done, rows);
}

// One line alone is written: so many fixes are recorded, accepted and stored, in some rows.
fn expect_all(rt: &impl Abort, alloc: Global, count: &str, front: &str, end: &str) {
    let (status, written) = run(rt, alloc, &["make", count], b"", (0, 0));
    let (again, other) = run(rt, alloc, &["make", count], b"", (0, 0));
    assert!(rt; status == Status::Done && again == Status::Done);
    assert!(rt; written == other);
    assert!(rt; written.starts_with(front.as_bytes()));
    assert!(rt; written.ends_with(end.as_bytes()));
    assert!(rt; written.len() < 60);
}

#[test]
fn many_fixes_the_same_twice(rt: HostRuntime) {
    let front = "recorded=5000 accepted=5000 rows=";
    expect_all(&rt, rt.alloc(), "5000", front, " stored=5000\n");
}

#[test]
fn the_most_fixes(rt: HostRuntime) {
    let front = b"recorded=20000 accepted=20000 rows=";
    let (status, written) = run(&rt, rt.alloc(), &["make", "20000"], b"", (0, 0));
    assert!(rt; status == Status::Done);
    assert!(rt; written.starts_with(front));
    assert!(rt; written.ends_with(b" stored=20000\n"));
}
