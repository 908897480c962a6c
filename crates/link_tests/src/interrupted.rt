//! Reads and writes that a signal interrupts.

use jt_outside::{Got, Put, Sink, Source, StdSink, StdSource};
use std::io;
use std::io::{ErrorKind, Read, Write};
use std::test::Fail;

// A reader and writer whose first calls are interrupted, so many; then it gives one octet, and takes all.
#[derive(Drop)]
struct Interrupted {
    left: u32,
}

impl Interrupted {
    fn is_interrupted(&mut self) -> bool {
        let left = self.left;
        self.left = left.saturating_sub(1);
        left > 0
    }
}

impl Read for Interrupted {
    fn read(&mut self, buf: &mut [u8]) -> io::Result<usize> {
        if self.is_interrupted() {
            return Err(io::Error::from(ErrorKind::Interrupted));
        }
        match buf.first_mut() {
            Some(octet) => {
                *octet = 7;
                Ok(1)
            }
            None => Ok(0),
        }
    }
}

impl Write for Interrupted {
    fn write(&mut self, buf: &[u8]) -> io::Result<usize> {
        if self.is_interrupted() {
            return Err(io::Error::from(ErrorKind::Interrupted));
        }
        Ok(buf.len())
    }

    fn flush(&mut self) -> io::Result<()> {
        Ok(())
    }
}

fn read(left: u32) -> (Got, [u8; 2]) {
    let mut buf = [0; 2];
    let got = StdSource::new(Interrupted { left }).read(&mut buf);
    (got, buf)
}

fn write(left: u32) -> Put {
    StdSink::new(Interrupted { left }).write(&[7, 8])
}

// It is made again up to 1,000 times.
#[test]
fn what_was_interrupted_is_made_again(rt: HostRuntime) -> Result<(), Fail> {
    for left in [1, 2, 1_000] {
        assert_eq!(rt; read(left), (Got::Bytes(1), [7, 0]));
        assert_eq!(rt; write(left), Put::Count(2));
    }
    assert_eq!(rt; read(1_001), (Got::Failed, [0, 0]));
    assert_eq!(rt; write(1_001), Put::Failed);
    Ok(())
}
