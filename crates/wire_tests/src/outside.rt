use jt_outside::{Got, MemSink, MemSource, Put, Sink, Source, StdSink, StdSource, write_all};
use jt_value::{Memory, Octets, Seq};
use std::alloc::Global;
use std::io;
use std::io::{ErrorKind, Read};
use std::test::Fail;

// A reader whose every read gives an error.
#[derive(Drop)]
struct Broken;

impl Read for Broken {
    fn read(&mut self, _buf: &mut [u8]) -> io::Result<usize> {
        Err(io::Error::from(ErrorKind::BrokenPipe))
    }
}

// Three reads into two octets each.
fn reads<S: Source>(source: &mut S) -> [(Got, [u8; 2]); 3] {
    let mut reads = [(Got::End, [0; 2]); 3];
    for (got, buf) in &mut reads {
        *got = source.read(buf);
    }
    reads
}

#[test]
fn a_source_in_memory(rt: HostRuntime) -> Result<(), Fail> {
    let alloc = rt.alloc();
    let octets = Octets::from_vec(vec![in alloc; 7, 8, 9]?);
    let failing = Seq::from_vec(vec![in alloc; 2, 5]?);
    let mut source = MemSource::new(octets, failing);
    let first = reads(&mut source);
    assert!(rt; first[0] == (Got::Bytes(2), [7, 8]));
    assert!(rt; first[1].0 == Got::Failed);
    assert!(rt; first[2].0 == Got::Bytes(1));
    assert!(rt; first[2].1[0] == 9);
    let second = reads(&mut source);
    assert!(rt; second[0].0 == Got::End);
    assert!(rt; second[1].0 == Got::Failed);
    assert!(rt; second[2].0 == Got::End);
    Ok(())
}

fn sink(alloc: Global, room: u64, failing: u64) -> Result<MemSink, Memory> {
    let failing = Seq::from_vec(Vec::from_slice(alloc, &[failing])?);
    MemSink::new(alloc, room, failing)
}

// Whether all octets are written to a sink with this room whose call of this number fails, and whether it has these then.
fn writes(
    alloc: Global,
    room: u64,
    failing: u64,
    octets: &[u8],
    written: &[u8],
) -> Result<(bool, bool), Memory> {
    let mut sink = sink(alloc, room, failing)?;
    let all = write_all(&mut sink, octets);
    Ok((all, sink.octets() == written))
}

fn is_refused(alloc: Global, room: u64) -> bool {
    matches!(MemSink::new(alloc, room, Seq::new(alloc)), Err(Memory))
}

#[test]
fn a_sink_in_memory(rt: HostRuntime) -> Result<(), Fail> {
    let octets = [7, 8, 9, 10, 11];
    let rows: &[(u64, u64, bool, usize)] = &[
        (5, 0, true, 5),
        (9, 2, true, 5),
        (3, 0, false, 3),
        (9, 1, false, 0),
        (0, 0, false, 0),
    ];
    for &(room, failing, all, written) in rows {
        assert!(rt; written <= 5);
        assert!(rt;
            writes(rt.alloc(), room, failing, &octets, &octets[..written]) == Ok((all, true))
        );
    }
    let full = MemSink::new(rt.alloc(), 3, Seq::new(rt.alloc()))?.write(&octets);
    assert!(rt; full == Put::Count(3));
    assert!(rt; is_refused(rt.alloc(), u64::MAX));
    Ok(())
}

#[test]
fn over_std(rt: HostRuntime) -> Result<(), Fail> {
    let octets = [7, 8, 9];
    let gave = reads(&mut StdSource::new(octets.as_slice()));
    assert!(rt; gave[0] == (Got::Bytes(2), [7, 8]));
    assert!(rt; gave[1].0 == Got::Bytes(1));
    assert!(rt; gave[1].1[0] == 9);
    assert!(rt; gave[2].0 == Got::End);
    let failed = reads(&mut StdSource::new(Broken));
    assert!(rt; failed[0].0 == Got::Failed);
    let mut taken = Vec::new(rt.alloc());
    assert!(rt; write_all(&mut StdSink::new(&mut taken), &octets));
    assert!(rt; taken.as_slice() == octets.as_slice());
    let mut room = [0; 2];
    assert!(rt; !write_all(&mut StdSink::new(room.as_mut_slice()), &octets));
    assert!(rt; room == [7, 8]);
    Ok(())
}
