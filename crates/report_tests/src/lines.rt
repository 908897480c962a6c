use jt_report_command::{FixLine, fix_line, push_bad_line_of};
use std::alloc::Global;
use std::process::Abort;

/// The 28 octets of a position, and then an item of id 1 with its four octets.
const FIX: &str = "000000000000000302625a0006bc3e4000000000000024010100000001040000000a";

// How many octets the line's fix has, and 0 where it says no fix.
fn octets_of(rt: &impl Abort, alloc: Global, line: &[u8]) -> usize {
    let said = fix_line(alloc, line).expect(rt, "there is memory");
    let count = match &said {
        FixLine::Fix(fix) => fix.as_slice().len(),
        _other => 0,
    };
    drop(said);
    count
}

#[test]
fn lines_of_a_fix(rt: HostRuntime) {
    let rows: &[(&str, usize)] = &[
        (FIX, 34),
        (
            "00000000000000030000000006BC3E40000000000000240101000000",
            28,
        ),
        ("00000000000000030000000006bc3e4000000000000024010100000", 0),
        ("# 00", 0),
        ("", 0),
    ];
    for (line, count) in rows {
        assert!(rt;
            octets_of(&rt, rt.alloc(), line.as_bytes()) == *count,
            "{line}"
        );
    }
}

// Whether a line of this number has this text.
fn is_told(rt: &impl Abort, alloc: Global, number: u64, line: &[u8], expected: &str) -> bool {
    let said = fix_line(alloc, line).expect(rt, "there is memory");
    let mut text = String::new(alloc);
    push_bad_line_of(&mut text, number, &said).expect(rt, "there is memory");
    drop(said);
    text.as_str() == expected
}

#[test]
fn texts_of_lines(rt: HostRuntime) {
    let rows: &[(&str, u64, &str)] = &[
        ("", 1, ""),
        ("# no fix", 1, ""),
        ("#", 1, ""),
        (FIX, 1, ""),
        ("0", 1, "line 1 refused hex\n"),
        ("0g", 2, "line 2 refused hex\n"),
        ("-", 3, "line 3 refused hex\n"),
        ("00 00", 4, "line 4 refused hex\n"),
        (" 00", 4, "line 4 refused hex\n"),
        ("00\r", 10000000, "line 10000000 refused hex\n"),
        ("00", 1, "line 1+0 refused Truncated\n"),
        (
            "000000000000000302625a0006bc3e40000000000000240101000",
            1,
            "line 1 refused hex\n",
        ),
        (
            "000000000000000302625a0006bc3e400000000000002401010000",
            1,
            "line 1+22 refused Truncated\n",
        ),
        (
            "000000000000000302625a0006bc3e4000000000000024010100000001",
            12,
            "line 12+29 refused Truncated\n",
        ),
        (
            "000000000000000302625a0006bc3e4000000000000024010100000001040000",
            12,
            "line 12+30 refused Truncated\n",
        ),
    ];
    for (line, number, text) in rows {
        assert!(rt;
            is_told(&rt, rt.alloc(), *number, line.as_bytes(), text),
            "{line}"
        );
    }
}

// The digits of so many octets, each 0: the fixed fields of a position, and then items of id 0 without octets.
fn zeros(rt: &impl Abort, alloc: Global, count: usize) -> Vec<u8> {
    let mut digits = Vec::new(alloc);
    for _ in 0..count {
        digits.push(b'0').expect(rt, "there is memory");
        digits.push(b'0').expect(rt, "there is memory");
    }
    digits
}

// Whether a line of so many octets, each 0, has this text.
fn zeros_are_told(rt: &impl Abort, alloc: Global, count: usize, expected: &str) -> bool {
    let line = zeros(rt, alloc, count);
    is_told(rt, alloc, 5, line.as_slice(), expected)
}

#[test]
fn the_longest_line(rt: HostRuntime) {
    let fix = zeros(&rt, rt.alloc(), 1022);
    assert!(rt; octets_of(&rt, rt.alloc(), fix.as_slice()) == 1022);
    drop(fix);
    assert!(rt; zeros_are_told(&rt, rt.alloc(), 1023, "line 5+1023 refused Truncated\n"));
    assert!(rt; zeros_are_told(&rt, rt.alloc(), 1024, "line 5 refused long\n"));
}
