//! Runs of words, all in memory. One function alone makes the call, which brings no contract with it.

use jt_cli::{Ended, Outside, Status, run_alone_bare};
use jt_outside::{MemSink, MemSource, ScriptClock, ScriptDial, Sink, Source};
use jt_store::{MemKeeper, MemVault};
use jt_value::{Octets, Seq};
use std::alloc::Global;
use std::process::Abort;

/// What a run is over: nobody is dialled, and the stores are in memory.
pub(crate) type Over<S, K> = Outside<S, K, ScriptDial, (), ScriptClock, MemKeeper, MemVault>;

/// The same with a source and a sink in memory.
pub(crate) type InMemory = Over<MemSource, MemSink>;

/// The frame of a heartbeat of 2013.
pub(crate) const HEARTBEAT: &[u8] = b"\x7e\x00\x02\x00\x00\x01\x39\x12\x34\x56\x78\x00\x00\x32\x7e";

// More than any text here has.
const ROOM: u64 = 200_000;

/// Runs the words. Every run of this crate is this call.
pub(crate) fn ran<S: Source, K: Sink>(
    alloc: Global,
    words: &Vec<String>,
    outside: Over<S, K>,
) -> (Status, Over<S, K>) {
    let Ended {
        status,
        outside,
        reports,
        history,
    } = run_alone_bare(&(), alloc, words, outside);
    drop(reports);
    drop(history);
    (status, outside)
}

/// The words as a run takes them.
pub(crate) fn words_of(rt: &impl Abort, alloc: Global, words: &[&str]) -> Vec<String> {
    let mut all = Vec::new(alloc);
    for word in words {
        let owned = String::from_str(alloc, word).expect(rt, "a word");
        all.push(owned).expect(rt, "words");
    }
    all
}

/// This number alone. Calls count from 1, so 0 is that of none.
pub(crate) fn one(rt: &impl Abort, alloc: Global, number: u64) -> Seq<u64> {
    let mut numbers = Seq::new(alloc);
    numbers.push(number).expect(rt, "a number");
    numbers
}

fn source(rt: &impl Abort, alloc: Global, octets: &[u8], failing: u64) -> MemSource {
    let octets = Octets::from_vec(octets.to_vec(alloc).expect(rt, "octets"));
    let failing = one(rt, alloc, failing);
    MemSource::new(octets, failing)
}

fn sink(rt: &impl Abort, alloc: Global, failing: u64) -> MemSink {
    let failing = one(rt, alloc, failing);
    MemSink::new(alloc, ROOM, failing).expect(rt, "a sink")
}

/// A source of these octets, an empty sink, and these stores. The read and the write of these numbers fail.
pub(crate) fn in_memory(
    rt: &impl Abort,
    alloc: Global,
    octets: &[u8],
    (read, write): (u64, u64),
    keeper: MemKeeper,
    vault: MemVault,
) -> InMemory {
    let source = source(rt, alloc, octets, read);
    let sink = sink(rt, alloc, write);
    let dial = ScriptDial::new(alloc, Seq::new(alloc), Seq::new(alloc)).expect(rt, "a dial");
    let clock = ScriptClock::new(Seq::new(alloc));
    Outside {
        source,
        sink,
        dial,
        listen: (),
        clock,
        keeper,
        vault,
    }
}

/// The same over empty stores.
pub(crate) fn over(rt: &impl Abort, alloc: Global, octets: &[u8], failing: (u64, u64)) -> InMemory {
    let keeper = MemKeeper::new(alloc, 10, Seq::new(alloc));
    let vault = MemVault::new(alloc, 100, Seq::new(alloc));
    in_memory(rt, alloc, octets, failing, keeper, vault)
}

// What was written, and then nothing of it is left.
fn taken(rt: &impl Abort, alloc: Global, outside: InMemory) -> Vec<u8> {
    let written = outside
        .sink
        .octets()
        .to_vec(alloc)
        .expect(rt, "what was written");
    drop(outside);
    written
}

/// How a run of the words over these octets ends, and what it writes.
pub(crate) fn run(
    rt: &impl Abort,
    alloc: Global,
    words: &[&str],
    octets: &[u8],
    failing: (u64, u64),
) -> (Status, Vec<u8>) {
    let words = words_of(rt, alloc, words);
    let outside = over(rt, alloc, octets, failing);
    let (status, outside) = ran(alloc, &words, outside);
    drop(words);
    (status, taken(rt, alloc, outside))
}

/// Runs the words over these octets, and compares the status and all that was written.
pub(crate) fn expect_one(
    rt: &impl Abort,
    alloc: Global,
    words: &[&str],
    octets: &[u8],
    failing: (u64, u64),
    status: Status,
    text: &str,
) {
    let (ended, written) = run(rt, alloc, words, octets, failing);
    assert!(rt; ended == status, "{octets:?}");
    assert!(rt; written.as_slice() == text.as_bytes(), "{octets:?}");
    drop(written);
}

/// The same where no call fails.
pub(crate) fn expect_text(
    rt: &impl Abort,
    alloc: Global,
    words: &[&str],
    octets: &[u8],
    status: Status,
    text: &str,
) {
    expect_one(rt, alloc, words, octets, (0, 0), status, text);
}

/// Runs the words over the input of each row. A row is an input, ` => ` and all that is written of it.
pub(crate) fn expect(
    rt: &impl Abort,
    alloc: Global,
    words: &[&str],
    status: Status,
    rows: &[&str],
) {
    for row in rows {
        let (input, text) = row.split_once(" => ").expect(rt, "a row");
        expect_text(rt, alloc, words, input.as_bytes(), status, text);
    }
}

/// The same of rows whose inputs are the digits of octets.
pub(crate) fn expect_octets(
    rt: &impl Abort,
    alloc: Global,
    words: &[&str],
    status: Status,
    rows: &[&str],
) {
    for row in rows {
        let (digits, text) = row.split_once(" => ").expect(rt, "a row");
        let octets = hex::decode(alloc, digits.as_bytes()).expect(rt, "octets");
        expect_text(rt, alloc, words, octets.as_slice(), status, text);
    }
}

/// Runs the words over these octets and those behind them in each row, and compares the text of the row.
pub(crate) fn expect_behind(
    rt: &impl Abort,
    alloc: Global,
    words: &[&str],
    front: &[u8],
    rows: &[(&[u8], &str)],
) {
    for &(more, text) in rows {
        let octets = repeated(rt, alloc, front, b"", 0, more);
        expect_text(rt, alloc, words, octets.as_slice(), Status::Done, text);
    }
}

/// The front, so many times the part, and the end.
pub(crate) fn repeated(
    rt: &impl Abort,
    alloc: Global,
    front: &[u8],
    part: &[u8],
    count: u32,
    end: &[u8],
) -> Vec<u8> {
    let mut octets = front.to_vec(alloc).expect(rt, "octets");
    for _ in 0..count {
        octets.extend_from_slice(part).expect(rt, "octets");
    }
    octets.extend_from_slice(end).expect(rt, "octets");
    octets
}
