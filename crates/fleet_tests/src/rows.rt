ghost use Rattle.std.specs.Prelude.{IfOk};
ghost use Rattle.jt_outside.specs.ScriptLink.{IsUntouched};

use jt_input::Status;
use jt_outside::{MemSink, MemSource, ScriptLink, ScriptListen};
use jt_platform_command::platform;
use jt_store::MemKeeper;
use jt_value::{Memory, Octets, Seq};
use jt_words::PlatformWords;
use std::alloc::Global;
use std::process::Abort;
use std::sync::Wait;
use std::thread::Threads;

/// The heartbeat of phone 013912345678.
const HEARTBEAT: &[u8] = b"\x7e\x00\x02\x00\x00\x01\x39\x12\x34\x56\x78\x00\x00\x32\x7e";

/// What answers it where no terminal was let in.
const REFUSED: &[u8] =
    b"\x7e\x80\x01\x00\x05\x01\x39\x12\x34\x56\x78\x00\x00\x00\x00\x00\x02\x01\xb7\x7e";

/// Five first packets of three, each of a message of its own.
const PACKETS: &[u8] =
    b"\x7e\x01\x04\x20\x02\x01\x39\x12\x34\x56\x78\x00\x00\x00\x03\x00\x01\x00\x07\x12\x7e\x7e\x01\x04\x20\x02\x01\x39\x12\x34\x56\x78\x00\x0a\x00\x03\x00\x01\x00\x07\x18\x7e\x7e\x01\x04\x20\x02\x01\x39\x12\x34\x56\x78\x00\x14\x00\x03\x00\x01\x00\x07\x06\x7e\x7e\x01\x04\x20\x02\x01\x39\x12\x34\x56\x78\x00\x1e\x00\x03\x00\x01\x00\x07\x0c\x7e\x7e\x01\x04\x20\x02\x01\x39\x12\x34\x56\x78\x00\x28\x00\x03\x00\x01\x00\x07\x3a\x7e";

/// A registration, an authentication and two positions of the same phone.
const TERMINAL: &[u8] =
    b"\x7e\x01\x00\x00\x2a\x01\x39\x12\x34\x56\x78\x00\x00\x00\x00\x00\x00\x00\x00\x00\x00\x00\x00\x00\x00\x00\x00\x00\x00\x00\x00\x00\x00\x00\x00\x00\x00\x00\x00\x00\x00\x00\x31\x32\x33\x34\x35\x36\x37\x01\x4a\x54\x38\x30\x38\x04\x7e\x7e\x01\x02\x00\x10\x01\x39\x12\x34\x56\x78\x00\x01\x33\x31\x61\x39\x39\x62\x38\x34\x65\x34\x63\x30\x38\x65\x65\x30\x25\x7e\x7e\x02\x00\x00\x1c\x01\x39\x12\x34\x56\x78\x00\x02\x00\x00\x00\x00\x00\x00\x00\x03\x00\x00\x00\x00\x06\xbc\x3e\x40\x00\x00\x00\x00\x00\x00\x24\x01\x01\x00\x00\x00\xcf\x7e\x7e\x02\x00\x00\x1c\x01\x39\x12\x34\x56\x78\x00\x03\x00\x00\x00\x00\x00\x00\x00\x03\x00\x00\x00\x01\x06\xbc\x3e\x40\x00\x00\x00\x00\x00\x00\x24\x01\x01\x00\x00\x00\xcf\x7e";

/// The fleet of that terminal.
const FLEET: &str = "# one vehicle\nsecret 3132\nplate 4a54383038\n\nterminal 31323334353637\n";

/// What a run is made over: the text of the source, the octets of the one link that comes, the numbers of the calls that fail, where
/// 0 is none, and the limit of the keeper.
#[derive(Clone, Copy)]
struct Scene {
    source: &'static str,
    octets: &'static [u8],
    source_fails: u64,
    sink_fails: u64,
    link_fails: u64,
    listen_fails: u64,
    keeper_fails: u64,
    limit: u64,
    sessions: u32,
}

fn calm(source: &'static str, octets: &'static [u8]) -> Scene {
    Scene {
        source,
        octets,
        source_fails: 0,
        sink_fails: 0,
        link_fails: 0,
        listen_fails: 0,
        keeper_fails: 0,
        limit: 1000,
        sessions: 1,
    }
}

fn failing(alloc: Global, call: u64) -> Result<Seq<u64>, Memory> {
    let mut calls = Seq::new(alloc);
    calls.push(call)?;
    Ok(calls)
}

fn octets(alloc: Global, octets: &[u8]) -> Result<Octets, Memory> {
    Ok(Octets::from_vec(Vec::from_slice(alloc, octets)?))
}

fn source(alloc: Global, scene: &Scene) -> Result<MemSource, Memory> {
    let calls = failing(alloc, scene.source_fails)?;
    let octets = octets(alloc, scene.source.as_bytes())?;
    Ok(MemSource::new(octets, calls))
}

fn sink(alloc: Global, scene: &Scene) -> Result<MemSink, Memory> {
    let calls = failing(alloc, scene.sink_fails)?;
    MemSink::new(alloc, 65_536, calls)
}

fn keeper(alloc: Global, scene: &Scene) -> Result<MemKeeper, Memory> {
    let calls = failing(alloc, scene.keeper_fails)?;
    Ok(MemKeeper::new(alloc, scene.limit.min(1000), calls))
}

fn link(alloc: Global, scene: &Scene) -> Result<ScriptLink, Memory>
    ensures { IfOk result (λ link. IsUntouched link) }
{
    let calls = failing(alloc, scene.link_fails)?;
    let octets = octets(alloc, scene.octets)?;
    ScriptLink::new(alloc, octets, 65_536, calls)
}

fn listener(alloc: Global, scene: &Scene) -> Result<ScriptListen, Memory> {
    let calls = failing(alloc, scene.listen_fails)?;
    let link = link(alloc, scene)?;
    let mut links = Seq::new(alloc);
    links.push(link)?;
    ScriptListen::new(alloc, links, calls)
}

fn written_back(alloc: Global, listen: &ScriptListen) -> Result<Octets, Memory> {
    match listen.links_back().first() {
        Some(link) => octets(alloc, link.written()),
        None => Ok(Octets::new(alloc)),
    }
}

// The status, what was printed, and what was written to the link that came back.
fn ran<R: Threads + Wait + Sync + Abort>(
    rt: &R,
    alloc: Global,
    scene: &Scene,
) -> (Status, Octets, Octets) {
    let mut source = source(alloc, scene).expect(rt, "there is memory");
    let mut sink = sink(alloc, scene).expect(rt, "there is memory");
    let mut listen = listener(alloc, scene).expect(rt, "there is memory");
    let keeper = keeper(alloc, scene).expect(rt, "there is memory");
    let words = PlatformWords {
        port: 9000,
        sessions: scene.sessions.max(1),
    };
    let ended = platform(
        rt,
        alloc,
        &mut source,
        &mut sink,
        &mut listen,
        keeper,
        words,
    );
    let printed = octets(alloc, sink.octets()).expect(rt, "there is memory");
    let written = written_back(alloc, &listen).expect(rt, "there is memory");
    (ended.status, printed, written)
}

// The status, and whether this was printed.
fn tells<R: Threads + Wait + Sync + Abort>(
    rt: &R,
    alloc: Global,
    scene: &Scene,
    text: &str,
) -> (Status, bool) {
    let (status, printed, _) = ran(rt, alloc, scene);
    (status, printed.as_slice() == text.as_bytes())
}

#[test]
fn a_heartbeat(rt: HostRuntime) {
    let (status, printed, written) = ran(&rt, rt.alloc(), &calm("secret 3132", HEARTBEAT));
    assert!(rt; written.as_slice() == REFUSED);
    assert!(rt;
        printed.as_slice()
            == b"session 1 ended read=15 written=20 frames=1 refused=0 dropped=0\nentries=2 stored=0 repeat=0 renumbered=0\n".as_slice()
    );
    assert!(rt; status == Status::Done);
}

#[test]
fn what_is_printed(rt: HostRuntime) {
    let two = Scene {
        sessions: 2,
        ..calm("secret -", b"")
    };
    let read_fails = Scene {
        link_fails: 3,
        ..calm("secret 3132", HEARTBEAT)
    };
    let write_fails = Scene {
        link_fails: 2,
        ..calm("secret 3132", HEARTBEAT)
    };
    let accept_fails = Scene {
        listen_fails: 3,
        sessions: 2,
        ..calm("secret 3132", HEARTBEAT)
    };
    let start_fails = Scene {
        listen_fails: 1,
        ..calm("secret 3132", HEARTBEAT)
    };
    let source_fails = Scene {
        source_fails: 1,
        ..calm("secret 3132", HEARTBEAT)
    };
    let sink_fails = Scene {
        sink_fails: 1,
        ..calm("secret 3132", HEARTBEAT)
    };
    let full = Scene {
        limit: 1,
        ..calm(FLEET, TERMINAL)
    };
    let store_fails = Scene {
        keeper_fails: 1,
        ..calm(FLEET, TERMINAL)
    };
    let rows = [
        (
            two,
            "session 1 ended read=0 written=0 frames=0 refused=0 dropped=0\nentries=1 stored=0 repeat=0 renumbered=0\n",
            Status::Done,
        ),
        (
            read_fails,
            "session 1 link-fault read=15 written=20 frames=1 refused=0 dropped=0\nentries=2 stored=0 repeat=0 renumbered=0\n",
            Status::Done,
        ),
        (
            write_fails,
            "session 1 link-fault read=15 written=0 frames=1 refused=0 dropped=0\nentries=2 stored=0 repeat=0 renumbered=0\n",
            Status::Done,
        ),
        (
            accept_fails,
            "session 1 ended read=15 written=20 frames=1 refused=0 dropped=0\nentries=2 stored=0 repeat=0 renumbered=0\nlisten fault\n",
            Status::NetFault,
        ),
        (start_fails, "listen fault\n", Status::NetFault),
        (source_fails, "", Status::ReadFault),
        (sink_fails, "", Status::WriteFault),
        (
            calm("secret 3132", PACKETS),
            "session 1 ended read=105 written=0 frames=5 refused=0 dropped=1\nentries=1 stored=0 repeat=0 renumbered=0\n",
            Status::Done,
        ),
        (
            full,
            "session 1 list-full read=174 written=74 frames=4 refused=0 dropped=0\nentries=4 stored=1 repeat=0 renumbered=0\nlist full at 1\n",
            Status::StoreFault,
        ),
        (
            store_fails,
            "session 1 store-fault read=174 written=0 frames=1 refused=0 dropped=0\nentries=1 stored=0 repeat=0 renumbered=0\nstore fault\n",
            Status::StoreFault,
        ),
        (
            calm(FLEET, TERMINAL),
            "session 1 ended read=174 written=94 frames=4 refused=0 dropped=0\nentries=5 stored=2 repeat=0 renumbered=0\n",
            Status::Done,
        ),
    ];
    for (scene, text, status) in rows {
        let (ended, printed) = tells(&rt, rt.alloc(), &scene, text);
        assert!(rt; printed, "{text}");
        assert!(rt; ended == status, "{text}");
    }
}

#[test]
fn bad_lines_of_a_fleet(rt: HostRuntime) {
    let rows: &[(&str, &str)] = &[
        ("plate 41", "line 1 refused\n"),
        ("", "line 1 refused\n"),
        ("# none\n", "line 2 refused\n"),
        ("# none", "line 2 refused\n"),
        ("\n\n", "line 3 refused\n"),
        ("secret 3", "line 1 refused\n"),
        ("secret 3g", "line 1 refused\n"),
        ("secret ", "line 1 refused\n"),
        ("secret", "line 1 refused\n"),
        ("secret  31", "line 1 refused\n"),
        ("secret 31\nsecret 31\n", "line 2 refused\n"),
        ("secret 31\nplate -\n", "line 2 refused\n"),
        ("secret 31\nplate 4a\nterminal\n", "line 3 refused\n"),
        ("secret 31\r\n", "line 1 refused\n"),
    ];
    for &(source, text) in rows {
        let (ended, printed) = tells(&rt, rt.alloc(), &calm(source, HEARTBEAT), text);
        assert!(rt; printed, "{source}");
        assert!(rt; ended == Status::Refused, "{source}");
    }
}
