//! A run of `report` over a source, a sink, a dial, a clock and a vault that are scripted.

ghost use Rattle.std.specs.Prelude.{IfOk, IfSome};
ghost use Rattle.jt_outside.specs.ScriptLink.{IsUntouched};
ghost use Rattle.jt_report_command.specs.Telling.{values_in_words};
ghost use Rattle.jt_report_command.specs.ReportWords.{AreSpoken};

use jt_input::Status;
use jt_outside::{
    Clock, Dial, MemSink, MemSource, ScriptClock, ScriptDial, ScriptLink, Sink, Source,
};
use jt_report_command::{ReportRun, ReportWords, report};
use jt_store::{MemVault, Vault};
use jt_value::{Memory, Octets, Seq};
use std::alloc::Global;
use std::process::Abort;

/// The words of one vehicle, with one attempt.
pub const WORDS: &str =
    "report --host localhost --port 9000 --phone 013912345678 --plate 4a54383038 --terminal 31323334353637 --tries 1";

/// The same with two attempts.
pub const TWO_TRIES: &str =
    "report --host localhost --port 9000 --phone 013912345678 --plate 4a54383038 --terminal 31323334353637 --tries 2";

/// A vehicle of 2019, whose terminal id is as short.
pub const WORDS_2019: &str =
    "report --edition 2019 --host localhost --port 9000 --phone 98765432101391234567 --plate 4a54383038 --terminal 31323334353637 --tries 1";

/// A fix of 28 octets.
pub const FIX: &str = "00000000000000030000000106bc3e40000000000000240101000000\n";

/// The platform's answers to that vehicle's registration, authentication and unit, of serials 0, 1 and 2.
pub const ANSWERS: &[u8] =
    b"\x7e\x81\x00\x00\x05\x01\x39\x12\x34\x56\x78\x00\x00\x00\x00\x00\x41\x42\xb7\x7e\x7e\x80\x01\x00\x05\x01\x39\x12\x34\x56\x78\x00\x01\x00\x01\x01\x02\x00\xb7\x7e\x7e\x80\x01\x00\x05\x01\x39\x12\x34\x56\x78\x00\x02\x00\x02\x02\x00\x00\xb6\x7e";

/// Its refusal of the registration.
pub const REFUSAL: &[u8] =
    b"\x7e\x81\x00\x00\x03\x01\x39\x12\x34\x56\x78\x00\x00\x00\x00\x01\xb3\x7e";

/// That registration, authentication and unit.
pub const SENT: &[u8] =
    b"\x7e\x01\x00\x00\x2a\x01\x39\x12\x34\x56\x78\x00\x00\x00\x00\x00\x00\x00\x00\x00\x00\x00\x00\x00\x00\x00\x00\x00\x00\x00\x00\x00\x00\x00\x00\x00\x00\x00\x00\x00\x00\x00\x31\x32\x33\x34\x35\x36\x37\x01\x4a\x54\x38\x30\x38\x04\x7e\x7e\x01\x02\x00\x02\x01\x39\x12\x34\x56\x78\x00\x01\x41\x42\x33\x7e\x7e\x02\x00\x00\x1c\x01\x39\x12\x34\x56\x78\x00\x02\x00\x00\x00\x00\x00\x00\x00\x03\x00\x00\x00\x01\x06\xbc\x3e\x40\x00\x00\x00\x00\x00\x00\x24\x01\x01\x00\x00\x00\xce\x7e";

/// The same of the vehicle of 2019.
pub const ANSWERS_2019: &[u8] =
    b"\x7e\x81\x00\x40\x05\x01\x98\x76\x54\x32\x10\x13\x91\x23\x45\x67\x00\x00\x00\x00\x00\x41\x42\xdd\x7e\x7e\x80\x01\x40\x05\x01\x98\x76\x54\x32\x10\x13\x91\x23\x45\x67\x00\x01\x00\x01\x01\x02\x00\xdd\x7e\x7e\x80\x01\x40\x05\x01\x98\x76\x54\x32\x10\x13\x91\x23\x45\x67\x00\x02\x00\x02\x02\x00\x00\xdc\x7e";

pub const SENT_2019: &[u8] =
    b"\x7e\x01\x00\x40\x51\x01\x98\x76\x54\x32\x10\x13\x91\x23\x45\x67\x00\x00\x00\x00\x00\x00\x00\x00\x00\x00\x00\x00\x00\x00\x00\x00\x00\x00\x00\x00\x00\x00\x00\x00\x00\x00\x00\x00\x00\x00\x00\x00\x00\x00\x00\x00\x00\x00\x00\x00\x00\x00\x00\x00\x00\x00\x00\x31\x32\x33\x34\x35\x36\x37\x00\x00\x00\x00\x00\x00\x00\x00\x00\x00\x00\x00\x00\x00\x00\x00\x00\x00\x00\x00\x00\x00\x00\x01\x4a\x54\x38\x30\x38\x15\x7e\x7e\x01\x02\x40\x26\x01\x98\x76\x54\x32\x10\x13\x91\x23\x45\x67\x00\x01\x02\x41\x42\x00\x00\x00\x00\x00\x00\x00\x00\x00\x00\x00\x00\x00\x00\x00\x00\x00\x00\x00\x00\x00\x00\x00\x00\x00\x00\x00\x00\x00\x00\x00\x00\x00\x00\x00\x7f\x7e\x7e\x02\x00\x40\x1c\x01\x98\x76\x54\x32\x10\x13\x91\x23\x45\x67\x00\x02\x00\x00\x00\x00\x00\x00\x00\x03\x00\x00\x00\x01\x06\xbc\x3e\x40\x00\x00\x00\x00\x00\x00\x24\x01\x01\x00\x00\x00\xa4\x7e";

/// What a run is made over: the words, the octets of the one link that the dial has, if it has one, the numbers of the calls that
/// fail, where 0 is none, and the limit of the vault.
#[derive(Clone, Copy)]
pub struct Scene {
    pub words: &'static str,
    pub octets: Option<&'static [u8]>,
    pub source_fails: u64,
    pub sink_fails: u64,
    pub dial_fails: u64,
    pub vault_fails: u64,
    pub limit: u64,
}

// What is compared of a run, and the vault that it left.
#[derive(Drop)]
struct Found<V> {
    status: Status,
    // Whether it printed what is wanted.
    prints: bool,
    // Whether a link came back that was written what is wanted, or none did where none is wanted.
    sends: bool,
    vault: V,
}

/// No fault, and a link that gives these octets, or none.
pub fn calm(words: &'static str, octets: Option<&'static [u8]>) -> Scene {
    Scene {
        words,
        octets,
        source_fails: 0,
        sink_fails: 0,
        dial_fails: 0,
        vault_fails: 0,
        limit: 100,
    }
}

fn failing(rt: &impl Abort, alloc: Global, call: u64) -> Seq<u64> {
    let mut calls = Seq::new(alloc);
    calls.push(call).expect(rt, "there is memory");
    calls
}

fn octets(rt: &impl Abort, alloc: Global, octets: &[u8]) -> Octets {
    let octets = Vec::from_slice(alloc, octets).expect(rt, "there is memory");
    Octets::from_vec(octets)
}

fn words(alloc: Global, text: &str) -> Result<Option<ReportWords>, Memory>
    ensures { IfOk result (λ words. IfSome words (λ words. AreSpoken (values_in_words words))) }
{
    let mut words = Vec::new(alloc);
    for word in text.split(' ') {
        words.push(String::from_str(alloc, word)?)?;
    }
    ReportWords::from_words(alloc, words.as_slice())
}

fn spoken(alloc: Global, text: &str) -> Option<ReportWords>
    ensures { IfSome result (λ words. AreSpoken (values_in_words words)) }
{
    match words(alloc, text) {
        Ok(words) => words,
        Err(Memory) => None,
    }
}

fn source(rt: &impl Abort, alloc: Global, scene: &Scene, text: &[u8]) -> MemSource {
    let calls = failing(rt, alloc, scene.source_fails);
    let octets = octets(rt, alloc, text);
    MemSource::new(octets, calls)
}

fn sink(rt: &impl Abort, alloc: Global, scene: &Scene) -> MemSink {
    let calls = failing(rt, alloc, scene.sink_fails);
    MemSink::new(alloc, 65_536, calls).expect(rt, "there is memory")
}

fn link(rt: &impl Abort, alloc: Global, given: &[u8]) -> ScriptLink
    ensures { IsUntouched result }
{
    let octets = octets(rt, alloc, given);
    ScriptLink::new(alloc, octets, 65_536, Seq::new(alloc)).expect(rt, "there is memory")
}

fn dial_of(rt: &impl Abort, alloc: Global, given: &[u8], calls: Seq<u64>) -> ScriptDial {
    let link = link(rt, alloc, given);
    let mut links = Seq::new(alloc);
    links.push(link).expect(rt, "there is memory");
    ScriptDial::new(alloc, links, calls).expect(rt, "there is memory")
}

fn dial_without_links(rt: &impl Abort, alloc: Global, calls: Seq<u64>) -> ScriptDial {
    ScriptDial::new(alloc, Seq::new(alloc), calls).expect(rt, "there is memory")
}

fn dial(rt: &impl Abort, alloc: Global, scene: &Scene) -> ScriptDial {
    let calls = failing(rt, alloc, scene.dial_fails);
    match scene.octets {
        Some(given) => dial_of(rt, alloc, given, calls),
        None => dial_without_links(rt, alloc, calls),
    }
}

fn vault(rt: &impl Abort, alloc: Global, scene: &Scene) -> MemVault {
    let calls = failing(rt, alloc, scene.vault_fails);
    MemVault::new(alloc, scene.limit.min(100_000), calls)
}

fn sends(dial: &ScriptDial, written: Option<&[u8]>) -> bool {
    match (dial.links_back().first(), written) {
        (Some(link), Some(wanted)) => link.written() == wanted,
        (None, None) => true,
        _ => false,
    }
}

// (a call of its own, with no clause: its caller owns all that it is over)
fn report_over<S: Source, K: Sink, D: Dial, C: Clock, V: Vault>(
    alloc: Global,
    source: &mut S,
    sink: &mut K,
    dial: &mut D,
    clock: &mut C,
    vault: V,
    words: ReportWords,
) -> ReportRun<V>
    requires words { AreSpoken (values_in_words words) }
{
    report(alloc, source, sink, dial, clock, vault, words)
}

// Runs `report` over a scene, these lines and a vault, and looks whether it prints and sends what is wanted.
fn run_over<R: Abort, V: Vault>(
    rt: &R,
    alloc: Global,
    scene: &Scene,
    text: &[u8],
    vault: V,
    printed: &[u8],
    written: Option<&[u8]>,
) -> Found<V> {
    let mut source = source(rt, alloc, scene, text);
    let mut sink = sink(rt, alloc, scene);
    let mut dial = dial(rt, alloc, scene);
    let mut clock = ScriptClock::new(Seq::new(alloc));
    let words = spoken(alloc, scene.words).expect(rt, "there are words");
    let ReportRun { status, vault } = report_over(
        alloc,
        &mut source,
        &mut sink,
        &mut dial,
        &mut clock,
        vault,
        words,
    );
    let prints = sink.octets() == printed;
    let sends = sends(&dial, written);
    drop(source);
    drop(sink);
    drop(dial);
    drop(clock);
    Found {
        status,
        prints,
        sends,
        vault,
    }
}

/// The status, whether this was printed, and whether a link came back that this was written to, or none did.
pub fn tells<R: Abort>(
    rt: &R,
    alloc: Global,
    scene: &Scene,
    text: &[u8],
    printed: &[u8],
    written: Option<&[u8]>,
) -> (Status, bool, bool) {
    let vault = vault(rt, alloc, scene);
    let Found {
        status,
        prints,
        sends,
        vault,
    } = run_over(rt, alloc, scene, text, vault, printed, written);
    drop(vault);
    (status, prints, sends)
}

// The vault that a run leaves.
fn vault_behind<R: Abort>(rt: &R, alloc: Global, scene: &Scene, text: &[u8]) -> MemVault {
    let vault = vault(rt, alloc, scene);
    run_over(rt, alloc, scene, text, vault, b"", None).vault
}

/// Whether this is printed of a run without lines and without a link, over the vault that a run left.
pub fn tells_again<R: Abort>(
    rt: &R,
    alloc: Global,
    scene: &Scene,
    text: &[u8],
    printed: &[u8],
) -> bool {
    let vault = vault_behind(rt, alloc, scene, text);
    let found = run_over(rt, alloc, &calm(WORDS, None), b"", vault, printed, None);
    let prints = found.prints;
    drop(found);
    prints
}
