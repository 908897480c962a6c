use jt_input::{Cut, LineCutter};

// A line in two pieces, an empty line, a comment, and a line that has no end.
const TEXT: [u8; 18] = *b"fix 0\n\n# a\r\ntick 0";

fn takes(cutter: &mut LineCutter, piece: &[u8], taken: usize, cut: Cut) -> bool {
    cutter.take(piece) == (taken, cut)
}

fn is_last(cutter: &LineCutter, line: &[u8]) -> bool {
    cutter.last() == Some(line)
}

fn tells_the_first(cutter: &mut LineCutter) -> bool {
    let begins = takes(cutter, &TEXT[..3], 3, Cut::More) && is_last(cutter, b"fix");
    let ends = takes(cutter, &TEXT[3..], 3, Cut::Line) && cutter.line() == b"fix 0".as_slice();
    begins && ends && cutter.number() == 1 && cutter.last().is_none()
}

fn tells_the_others(cutter: &mut LineCutter) -> bool {
    let empty = takes(cutter, &TEXT[6..], 1, Cut::Line) && cutter.line() == b"".as_slice();
    let comment = takes(cutter, &TEXT[7..], 5, Cut::Line) && cutter.line() == b"# a\r".as_slice();
    empty && comment
}

fn keeps_the_unfinished(cutter: &mut LineCutter) -> bool {
    let unfinished = takes(cutter, &TEXT[12..], 6, Cut::More) && is_last(cutter, b"tick 0");
    unfinished && cutter.number() == 3
}

#[test]
fn lines(rt: HostRuntime) {
    let mut cutter = LineCutter::new();
    assert!(rt; tells_the_first(&mut cutter));
    assert!(rt; tells_the_others(&mut cutter));
    assert!(rt; keeps_the_unfinished(&mut cutter));
    assert!(rt; takes(&mut cutter, b"", 0, Cut::More));
    assert!(rt; is_last(&cutter, b"tick 0"));
}

#[test]
fn long_lines(rt: HostRuntime) {
    let longest: &[u8] = &[b'#'; 4096];
    let mut cutter = LineCutter::new();
    assert!(rt; takes(&mut cutter, longest, 4096, Cut::More));
    assert!(rt; takes(&mut cutter, b"\n", 1, Cut::Line));
    assert!(rt; cutter.line() == longest);
    assert!(rt; takes(&mut cutter, &[b'#'; 4097], 0, Cut::Bad));
    assert!(rt; takes(&mut cutter, longest, 4096, Cut::More));
    assert!(rt; takes(&mut cutter, b"#", 0, Cut::Bad));
    assert!(rt; cutter.number() == 1);
}

#[test]
fn many_lines(rt: HostRuntime) {
    let mut cutter = LineCutter::new();
    let mut all = true;
    for _ in 0..10_000_000u32 {
        all = all && takes(&mut cutter, b"\n", 1, Cut::Line);
    }
    assert!(rt; all);
    assert!(rt; cutter.number() == 10_000_000);
    assert!(rt; takes(&mut cutter, b"", 0, Cut::More));
    assert!(rt; takes(&mut cutter, b"\n", 0, Cut::Bad));
    assert!(rt; takes(&mut cutter, b"#", 0, Cut::Bad));
    assert!(rt; cutter.last().is_none());
}
