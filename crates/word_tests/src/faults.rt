//! Faults of the outside, and in which order a run reads and writes.

ghost use Rattle.std.specs.Prelude.{None};

use crate::scene::{HEARTBEAT, Over, expect_one, over, ran, repeated, words_of};
use jt_cli::{Outside, Status};
use jt_outside::{Got, MemSource, Put, ScriptClock, ScriptDial, Sink, Source};
use jt_store::{MemKeeper, MemVault};
use jt_value::Seq;
use std::alloc::Global;
use std::cell::Cell;
use std::process::Abort;

const LINE: &str = "0 2013 0x0002 heartbeat phone=013912345678 serial=0 body=0\n";

const SCRIPT: &[u8] = b"open\nup 1 all\n";

const REGISTERED: &str = "1 register registered\n";

const TRACK: &[u8] = b"rectangles 000100000007000001312d0a06bc3e4001312d0006bc3e4a\nfix 20000010\n";

const ENTERED: &str = "fix 1 enter rectangle 7\n";

const WHOLE: &str = "fix 1 enter rectangle 7\nfixes=1 events=1\n";

// The read and the write of these numbers fail. A check whose first piece has a refusal does not read again. Of a track the first
// fix is printed before the second read fails; and the second write fails.
#[test]
fn faults_of_the_outside(rt: HostRuntime) {
    let rows: &[(&str, &[u8], (u64, u64), Status, &str)] = &[
        ("view", HEARTBEAT, (1, 0), Status::ReadFault, ""),
        ("view", HEARTBEAT, (2, 0), Status::ReadFault, LINE),
        ("check", HEARTBEAT, (2, 0), Status::ReadFault, ""),
        ("view", HEARTBEAT, (0, 1), Status::WriteFault, ""),
        ("view", HEARTBEAT, (0, 2), Status::WriteFault, LINE),
        ("check", HEARTBEAT, (0, 1), Status::WriteFault, ""),
        ("views", HEARTBEAT, (0, 1), Status::WriteFault, ""),
        (
            "check",
            b"\x00",
            (2, 0),
            Status::Refused,
            "0+0 refused Stray\n",
        ),
        ("rehearse", SCRIPT, (1, 0), Status::ReadFault, ""),
        ("rehearse", SCRIPT, (2, 0), Status::ReadFault, REGISTERED),
        ("rehearse", SCRIPT, (0, 1), Status::WriteFault, ""),
        ("rehearse", SCRIPT, (0, 2), Status::WriteFault, REGISTERED),
        ("fence", TRACK, (0, 0), Status::Done, WHOLE),
        ("fence", TRACK, (1, 0), Status::ReadFault, ""),
        ("fence", TRACK, (2, 0), Status::ReadFault, ENTERED),
        ("fence", TRACK, (0, 1), Status::WriteFault, ""),
        ("fence", TRACK, (0, 2), Status::WriteFault, ENTERED),
    ];
    for &(word, octets, failing, status, text) in rows {
        expect_one(&rt, rt.alloc(), &[word], octets, failing, status, text);
    }
}

// How many octets a read of up to 16,384 takes.
fn takes(source: &mut MemSource) -> Got {
    let mut octets = [0; 16_384];
    source.read(&mut octets)
}

// How a rehearsal ends whose first write fails, and what one more read takes then.
fn failed_write(rt: &impl Abort, alloc: Global, script: &[u8]) -> (Status, Got) {
    let words = words_of(rt, alloc, &["rehearse"]);
    let outside = over(rt, alloc, script, (0, 1));
    let (status, mut outside) = ran(alloc, &words, outside);
    drop(words);
    let got = takes(&mut outside.source);
    drop(outside);
    (status, got)
}

// A script whose first piece prints a line, and which has 24,022 octets: one piece of 16,384 octets was read, and no more.
#[test]
fn a_failed_write_ends_the_run(rt: HostRuntime) {
    let front = b"open\nup 1 all\n# lines\n";
    let script = repeated(&rt, rt.alloc(), front, b"#234567\n", 3000, b"");
    let (status, got) = failed_write(&rt, rt.alloc(), script.as_slice());
    assert!(rt; status == Status::WriteFault);
    assert!(rt; got == Got::Bytes(7638));
}

// A sink that sets a flag with each write.
#[derive(Drop)]
struct FlagSink<'a> {
    flag: &'a Cell<bool>,
}

impl<'a> Sink for FlagSink<'a> {
    ghost written = { λ _. None };

    ghost faults = { λ _. 0 };

    fn write(&mut self, buf: &[u8]) -> Put {
        self.flag.set(true);
        Put::Count(buf.len())
    }
}

// A source whose first read gives a script, and whose second looks at the flag and then is at its end.
#[derive(Drop)]
struct FlagSource<'a> {
    flag: &'a Cell<bool>,
    script: &'a [u8],
    is_read: bool,
    was_set: bool,
}

impl<'a> Source for FlagSource<'a> {
    ghost left = { λ _. None };

    ghost faults = { λ _. 0 };

    fn read(&mut self, buf: &mut [u8]) -> Got {
        if self.is_read || self.script.is_empty() {
            self.was_set = self.flag.get();
            return Got::End;
        }
        self.is_read = true;
        let count = self.script.len().min(buf.len());
        buf[..count].copy_from_slice(&self.script[..count]);
        Got::Bytes(count)
    }
}

fn over_flags<'a>(
    rt: &impl Abort,
    alloc: Global,
    flag: &'a Cell<bool>,
    script: &'a [u8],
) -> Over<FlagSource<'a>, FlagSink<'a>> {
    let dial = ScriptDial::new(alloc, Seq::new(alloc), Seq::new(alloc)).expect(rt, "a dial");
    Outside {
        source: FlagSource {
            flag,
            script,
            is_read: false,
            was_set: false,
        },
        sink: FlagSink { flag },
        dial,
        listen: (),
        clock: ScriptClock::new(Seq::new(alloc)),
        keeper: MemKeeper::new(alloc, 10, Seq::new(alloc)),
        vault: MemVault::new(alloc, 0, Seq::new(alloc)),
    }
}

// Whether what the word prints of the octets of the first read is written before the second.
fn is_written_first(rt: &impl Abort, alloc: Global, word: &str, octets: &[u8]) -> bool {
    let words = words_of(rt, alloc, &[word]);
    let flag = Cell::new(false);
    let outside = over_flags(rt, alloc, &flag, octets);
    let (_, outside) = ran(alloc, &words, outside);
    drop(words);
    let was_set = outside.source.was_set;
    drop(outside);
    was_set
}

// Nothing is printed of a comment, and so nothing is written.
#[test]
fn lines_go_out_before_the_next_read(rt: HostRuntime) {
    let alloc = rt.alloc();
    assert!(rt; is_written_first(&rt, alloc, "rehearse", b"open\nup 1 all\n"));
    assert!(rt; is_written_first(&rt, alloc, "view", HEARTBEAT));
    assert!(rt; !is_written_first(&rt, alloc, "rehearse", b"# fix 0\n"));
}
