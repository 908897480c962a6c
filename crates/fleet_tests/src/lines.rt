use jt_input::{LineReader, NextLine};
use jt_outside::MemSource;
use jt_value::{Octets, Seq};
use std::test::Fail;

#[test]
fn lines_of_a_source(rt: HostRuntime) -> Result<(), Fail> {
    let text = b"one\n\nthree\nlast".as_slice();
    let octets = Octets::from_vec(Vec::from_slice(rt.alloc(), text)?);
    let mut source = MemSource::new(octets, Seq::new(rt.alloc()));
    let mut lines = LineReader::new();
    let rows = [
        (NextLine::Line, b"one".as_slice()),
        (NextLine::Line, b"".as_slice()),
        (NextLine::Line, b"three".as_slice()),
        (NextLine::Last, b"last".as_slice()),
    ];
    for (next, line) in rows {
        assert!(rt; lines.next(&mut source) == next);
        assert!(rt; lines.line() == line);
    }
    Ok(())
}

#[test]
fn a_line_that_is_too_long(rt: HostRuntime) -> Result<(), Fail> {
    let mut text = Vec::new(rt.alloc());
    text.resize(4097, b'7')?;
    let mut source = MemSource::new(Octets::from_vec(text), Seq::new(rt.alloc()));
    assert!(rt; LineReader::new().next(&mut source) == NextLine::Bad(1));
    Ok(())
}
