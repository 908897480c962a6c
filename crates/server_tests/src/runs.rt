//! Whole runs of `platform` and `report` by their words.

ghost use Rattle.std.specs.Prelude.{None};
ghost use Rattle.jt_outside.specs.ScriptLink.{IsUntouched};

use crate::waiting::make_pair;
use jt_cli::{Ended, Outside, Status, run_bare};
use jt_outside::{
    Accepted, Clock, Dial, Listen, MemSink, MemSource, ScriptClock, ScriptDial, ScriptLink,
    ScriptListen, Source,
};
use jt_store::{Keeper, MemKeeper, MemVault, Vault};
use jt_value::{Octets, Seq};
use std::alloc::Global;
use std::process::Abort;
use std::sync::Wait;
use std::thread::Threads;

/// The heartbeat of phone 013912345678.
const HEARTBEAT: &[u8] = b"\x7e\x00\x02\x00\x00\x01\x39\x12\x34\x56\x78\x00\x00\x32\x7e";

/// What answers it where no terminal was let in.
const REFUSED: &[u8] =
    b"\x7e\x80\x01\x00\x05\x01\x39\x12\x34\x56\x78\x00\x00\x00\x00\x00\x02\x01\xb7\x7e";

const USAGE: &[u8] =
    b"usage: jt808 view|check|rehearse|make|platform|report|orders|fence|relay|gateway\n";

/// The fleet of every run of `platform`.
const FLEET: &str = "secret 3132";

/// What is compared of a run.
#[derive(Drop)]
struct Found<D, L> {
    /// Whether it had the status that is wanted and printed what is wanted.
    is_told: bool,
    reports: usize,
    entries: usize,
    dial: D,
    listen: L,
}

// The words of a text, which one space divides.
fn words_of(rt: &impl Abort, alloc: Global, text: &str) -> Vec<String> {
    let mut words = Vec::new(alloc);
    for word in text.split(' ') {
        let word = String::from_str(alloc, word).expect(rt, "there is memory");
        words.push(word).expect(rt, "there is memory");
    }
    words
}

fn source(rt: &impl Abort, alloc: Global, text: &str) -> MemSource {
    let octets = Vec::from_slice(alloc, text.as_bytes()).expect(rt, "there is memory");
    MemSource::new(Octets::from_vec(octets), Seq::new(alloc))
}

// Looks at how a run ended, and lets go of all but the dial and the listener.
fn look<S: Drop, D, L, C: Drop, P: Drop, V: Drop>(
    ended: Ended<S, MemSink, D, L, C, P, V>,
    wanted: Status,
    printed: &[u8],
) -> Found<D, L> {
    let Ended {
        status,
        outside,
        reports,
        history,
    } = ended;
    let Outside {
        source,
        sink,
        dial,
        listen,
        clock,
        keeper,
        vault,
    } = outside;
    let found = Found {
        is_told: status == wanted && sink.octets() == printed,
        reports: reports.len(),
        entries: history.len(),
        dial,
        listen,
    };
    drop(source);
    drop(sink);
    drop(clock);
    drop(keeper);
    drop(vault);
    drop(reports);
    drop(history);
    found
}

// Runs words, and looks whether it ends with this status and prints this. (of any types, since all that a run is over is large)
fn run_and_look<
    R: Threads + Wait + Sync,
    S: Source + Drop,
    D: Dial,
    L: Listen,
    C: Clock + Drop,
    P: Keeper + Send + Drop,
    V: Vault + Drop,
>(
    rt: &R,
    alloc: Global,
    words: &Vec<String>,
    outside: Outside<S, MemSink, D, L, C, P, V>,
    status: Status,
    printed: &[u8],
) -> Found<D, L>
where
    L::Link: Send,
{
    look(run_bare(rt, alloc, words, outside), status, printed)
}

// The same of words and a text, over a dial and a listener.
fn run_over<R: Threads + Wait + Sync + Abort, D: Dial, L: Listen>(
    rt: &R,
    alloc: Global,
    words: &str,
    text: &str,
    dial: D,
    listen: L,
    status: Status,
    printed: &[u8],
) -> Found<D, L>
where
    L::Link: Send,
{
    let words = words_of(rt, alloc, words);
    let source = source(rt, alloc, text);
    let sink = MemSink::new(alloc, 8192, Seq::new(alloc)).expect(rt, "there is memory");
    let outside = Outside {
        source,
        sink,
        dial,
        listen,
        clock: ScriptClock::new(Seq::new(alloc)),
        keeper: MemKeeper::new(alloc, 1000, Seq::new(alloc)),
        vault: MemVault::new(alloc, 100, Seq::new(alloc)),
    };
    let found = run_and_look(rt, alloc, &words, outside, status, printed);
    drop(words);
    found
}

// The same over the fleet and a listener, with a dial that has no links.
fn run_fleet<R: Threads + Wait + Sync + Abort, L: Listen>(
    rt: &R,
    alloc: Global,
    words: &str,
    listen: L,
    status: Status,
    printed: &[u8],
) -> Found<ScriptDial, L>
where
    L::Link: Send,
{
    let dial = ScriptDial::new(alloc, Seq::new(alloc), Seq::new(alloc)).expect(
        rt,
        "there is memory",
    );
    run_over(rt, alloc, words, FLEET, dial, listen, status, printed)
}

fn failing(rt: &impl Abort, alloc: Global, call: u64) -> Seq<u64> {
    let mut calls = Seq::new(alloc);
    calls.push(call).expect(rt, "there is memory");
    calls
}

// A link of one heartbeat, which fails the call of this number, where 0 is none.
fn link(rt: &impl Abort, alloc: Global, fails: u64) -> ScriptLink
    ensures { IsUntouched result }
{
    let octets = Vec::from_slice(alloc, HEARTBEAT).expect(rt, "there is memory");
    let octets = Octets::from_vec(octets);
    let calls = failing(rt, alloc, fails);
    ScriptLink::new(alloc, octets, 65_536, calls).expect(rt, "there is memory")
}

// A listener to which such a link comes, and which fails the call of this number.
fn heartbeat(rt: &impl Abort, alloc: Global, link_fails: u64, listen_fails: u64) -> ScriptListen {
    let link = link(rt, alloc, link_fails);
    let calls = failing(rt, alloc, listen_fails);
    let mut links = Seq::new(alloc);
    links.push(link).expect(rt, "there is memory");
    ScriptListen::new(alloc, links, calls).expect(rt, "there is memory")
}

// Whether one link came back, to which this was written.
fn is_back(links: &[ScriptLink], written: &[u8]) -> bool {
    match links.first() {
        Some(link) => links.len() == 1 && link.written() == written,
        None => false,
    }
}

#[test]
fn a_heartbeat_by_words(rt: HostRuntime) {
    let found = run_fleet(
        &rt,
        rt.alloc(),
        "platform --port 9000 --sessions 1",
        heartbeat(&rt, rt.alloc(), 0, 0),
        Status::Done,
        b"session 1 ended read=15 written=20 frames=1 refused=0 dropped=0\nentries=2 stored=0 repeat=0 renumbered=0\n",
    );
    assert!(rt; found.is_told);
    assert!(rt; is_back(found.listen.links_back(), REFUSED));
    assert!(rt; found.reports == 1);
    assert!(rt; found.entries == 2);
    drop(found);
}

// Whether a run over a heartbeat ends with this status and prints this.
fn heartbeat_is_told<R: Threads + Wait + Sync + Abort>(
    rt: &R,
    alloc: Global,
    words: &str,
    link_fails: u64,
    listen_fails: u64,
    printed: &str,
    status: Status,
) -> bool {
    let listen = heartbeat(rt, alloc, link_fails, listen_fails);
    let found = run_fleet(rt, alloc, words, listen, status, printed.as_bytes());
    let is_told = found.is_told;
    drop(found);
    is_told
}

// The words, the call of the link and that of the listener that fails, where 0 is none, what is printed, and the status.
#[test]
fn faults_of_links_by_words(rt: HostRuntime) {
    let rows: &[(&str, u64, u64, &str, Status)] = &[
        (
            "platform --port 9000 --sessions 1",
            3,
            0,
            "session 1 link-fault read=15 written=20 frames=1 refused=0 dropped=0\nentries=2 stored=0 repeat=0 renumbered=0\n",
            Status::Done,
        ),
        (
            "platform --port 9000 --sessions 1",
            2,
            0,
            "session 1 link-fault read=15 written=0 frames=1 refused=0 dropped=0\nentries=2 stored=0 repeat=0 renumbered=0\n",
            Status::Done,
        ),
        (
            "platform --port 9000 --sessions 2",
            0,
            3,
            "session 1 ended read=15 written=20 frames=1 refused=0 dropped=0\nentries=2 stored=0 repeat=0 renumbered=0\nlisten fault\n",
            Status::NetFault,
        ),
        (
            "platform --port 9000 --sessions 1",
            0,
            1,
            "listen fault\n",
            Status::NetFault,
        ),
    ];
    for (words, link_fails, listen_fails, printed, status) in rows {
        assert!(rt;
            heartbeat_is_told(
                &rt,
                rt.alloc(),
                words,
                *link_fails,
                *listen_fails,
                printed,
                *status
            ),
            "{printed}"
        );
    }
}

// Each read of the first link waits until the second was written.
#[test]
fn two_links_that_wait_for_each_other_by_words(rt: HostRuntime) {
    let found = run_fleet(
        &rt,
        rt.alloc(),
        "platform --sessions=2 --port=9000",
        make_pair(&rt, rt.alloc()),
        Status::Done,
        b"session 1 ended read=15 written=20 frames=1 refused=0 dropped=0\nsession 2 ended read=15 written=20 frames=1 refused=0 dropped=0\nentries=4 stored=0 repeat=0 renumbered=0\n",
    );
    assert!(rt; found.is_told);
    drop(found);
}

// A listener to which nobody comes, and which keeps the port that it is told.
#[derive(Drop)]
struct Port {
    told: u16,
}

impl Listen for Port {
    type Link = ScriptLink;

    ghost pool = { λ _. record { coming = None; back = None; lent = None } };

    ghost faults = { λ _. 0 };

    fn start(&mut self, port: u16) -> bool {
        self.told = port;
        true
    }

    fn accept(&mut self) -> Accepted<ScriptLink> {
        Accepted::Over
    }

    fn back(&mut self, link: ScriptLink) {
        drop(link);
    }
}

// Whether a run ends with this status and prints this, and the port that the listener was told, where 0 is none.
fn port_of<R: Threads + Wait + Sync + Abort>(
    rt: &R,
    alloc: Global,
    words: &str,
    status: Status,
    printed: &[u8],
) -> (bool, u16) {
    let found = run_fleet(rt, alloc, words, Port { told: 0 }, status, printed);
    let port = (found.is_told, found.listen.told);
    drop(found);
    port
}

#[test]
fn the_listener_is_told_the_port_of_the_words(rt: HostRuntime) {
    let printed = b"entries=0 stored=0 repeat=0 renumbered=0\n";
    let rows: &[(&str, u16)] = &[
        ("platform --port 9000 --sessions 1", 9000),
        ("platform --sessions=3 --port=65535", 65535),
    ];
    for (words, port) in rows {
        let (is_told, told) = port_of(&rt, rt.alloc(), words, Status::Done, printed);
        assert!(rt; told == *port);
        assert!(rt; is_told);
    }
}

#[test]
fn words_that_are_none_of_platform(rt: HostRuntime) {
    let rows: &[&str] = &[
        "platform",
        "platform --port 0 --sessions 1",
        "platform --port 9000 --sessions 1025",
        "platform --port 9000 --port 9000",
    ];
    for words in rows {
        let (is_told, told) = port_of(&rt, rt.alloc(), words, Status::Usage, USAGE);
        assert!(rt; is_told, "{words}");
        assert!(rt; told == 0, "{words}");
    }
}

// A dial that has no links, and keeps whether it was always told this host and this port.
#[derive(Drop)]
struct Address {
    host: &'static str,
    port: u16,
    is_told: bool,
    calls: u64,
}

impl Dial for Address {
    type Link = ScriptLink;

    ghost pool = { λ _. record { coming = None; back = None; lent = None } };

    ghost faults = { λ address. address.calls };

    fn dial(&mut self, host: &str, port: u16) -> Option<ScriptLink> {
        self.is_told = self.is_told && host == self.host && port == self.port;
        self.calls = self.calls.saturating_add(1);
        None
    }

    fn back(&mut self, link: ScriptLink) {
        drop(link);
    }
}

#[test]
fn the_dial_is_told_the_host_and_the_port_of_the_words(rt: HostRuntime) {
    let words =
        "report --port 9001 --host example.org --phone 013912345678 --plate 4a54383038 --terminal 31323334353637 --tries 2";
    let dial = Address {
        host: "example.org",
        port: 9_001,
        is_told: true,
        calls: 0,
    };
    let fix = "00000000000000030000000106bc3e40000000000000240101000000";
    let found = run_over(
        &rt,
        rt.alloc(),
        words,
        fix,
        dial,
        Port { told: 0 },
        Status::Unsent,
        b"try 1 dial\ntry 2 dial\naccepted=0 of 1\n",
    );
    assert!(rt; found.is_told);
    assert!(rt; found.dial.is_told);
    assert!(rt; found.dial.calls == 2);
    drop(found);
}
