use jt_event_lines::{WorldTotals, push_entry_lines, push_world_totals};
use jt_platform::{Entry, Reply, Request};
use jt_register::Register;
use jt_value::{Edition, Phone, Seq};
use std::alloc::Global;
use std::process::Abort;

const PHONE: Phone = Phone {
    edition: Edition::E2013,
    digits: [0, 0, 0, 0, 0x01, 0x39, 0x12, 0x34, 0x56, 0x78],
};

#[derive(Clone, Copy)]
enum Ask {
    Register,
    Auth,
    Unit(u16),
    Deregister,
    Other,
    Close,
}

#[derive(Clone, Copy)]
enum Say {
    Registered,
    Denied(u8),
    Accepted,
    Stored(u64),
    Repeat(u64),
    Renumbered(u64),
    NotLive,
    Fenced(u32),
}

// An entry of each kind and answer, and its line.
const ROWS: &[(u32, Ask, Say, &str)] = &[
    (1, Ask::Register, Say::Registered, "1 register registered\n"),
    (2, Ask::Register, Say::Denied(3), "2 register denied 3\n"),
    (1, Ask::Register, Say::NotLive, "1 register not-live\n"),
    (1, Ask::Auth, Say::Accepted, "1 auth accepted\n"),
    (2, Ask::Auth, Say::Denied(1), "2 auth denied 1\n"),
    (1, Ask::Auth, Say::NotLive, "1 auth not-live\n"),
    (1, Ask::Unit(2), Say::Stored(2), "1 unit 2 stored 2\n"),
    (2, Ask::Unit(2), Say::Repeat(2), "2 unit 2 repeat 2\n"),
    (
        3,
        Ask::Unit(65_535),
        Say::Renumbered(18_446_744_073_709_551_615),
        "3 unit 65535 renumbered 18446744073709551615\n",
    ),
    (4, Ask::Unit(0), Say::NotLive, "4 unit 0 not-live\n"),
    (
        1,
        Ask::Unit(5),
        Say::Fenced(4_294_967_295),
        "1 unit 5 fenced 4294967295\n",
    ),
    (1, Ask::Deregister, Say::Accepted, "1 deregister accepted\n"),
    (1, Ask::Deregister, Say::NotLive, "1 deregister not-live\n"),
    (
        1,
        Ask::Deregister,
        Say::Fenced(2),
        "1 deregister fenced 2\n",
    ),
    (
        4_294_967_295,
        Ask::Close,
        Say::Accepted,
        "4294967295 close accepted\n",
    ),
    (1, Ask::Other, Say::Accepted, ""),
    (1, Ask::Other, Say::NotLive, ""),
    (1, Ask::Other, Say::Fenced(2), ""),
];

fn register(alloc: Global) -> Register {
    Register {
        province: 0,
        city: 0,
        maker: Seq::new(alloc),
        model: Seq::new(alloc),
        terminal: Seq::new(alloc),
        colour: 1,
        plate: Seq::new(alloc),
    }
}

fn request(alloc: Global, ask: Ask) -> Request {
    match ask {
        Ask::Register => Request::Register {
            phone: PHONE,
            register: register(alloc),
        },
        Ask::Auth => Request::Auth {
            phone: PHONE,
            code: Seq::new(alloc),
        },
        Ask::Unit(serial) => Request::Unit {
            phone: PHONE,
            serial,
            id: 0x0200,
            body: Seq::new(alloc),
        },
        Ask::Deregister => Request::Deregister { phone: PHONE },
        Ask::Other => Request::Other {
            phone: PHONE,
            id: 0x0002,
        },
        Ask::Close => Request::Close,
    }
}

fn reply(alloc: Global, say: Say) -> Reply {
    match say {
        Say::Registered => Reply::Registered(Seq::new(alloc)),
        Say::Denied(result) => Reply::Denied(result),
        Say::Accepted => Reply::Accepted,
        Say::Stored(number) => Reply::Stored(number),
        Say::Repeat(number) => Reply::Repeat(number),
        Say::Renumbered(number) => Reply::Renumbered(number),
        Say::NotLive => Reply::NotLive,
        Say::Fenced(session) => Reply::Fenced(session),
    }
}

fn entry(alloc: Global, session: u32, ask: Ask, say: Say) -> Entry {
    Entry {
        session,
        request: request(alloc, ask),
        reply: reply(alloc, say),
    }
}

// Whether an entry adds that line to a text.
fn prints(rt: &impl Abort, alloc: Global, entry: &[Entry], line: &str) -> bool {
    let mut text = String::new(alloc);
    push_entry_lines(&mut text, entry).expect(rt, "a text");
    text.as_str() == line
}

#[test]
fn lines_of_entries(rt: HostRuntime) {
    let alloc = rt.alloc();
    for &(session, ask, say, line) in ROWS {
        let entries = [entry(alloc, session, ask, say)];
        assert!(rt; prints(&rt, alloc, &entries, line), "{line}");
    }
}

#[test]
fn lines_in_order(rt: HostRuntime) {
    let alloc = rt.alloc();
    let entries = [
        entry(alloc, 1, Ask::Unit(2), Say::Stored(2)),
        entry(alloc, 1, Ask::Other, Say::Accepted),
        entry(alloc, 1, Ask::Close, Say::Accepted),
    ];
    assert!(rt;
        prints(
            &rt,
            alloc,
            &entries,
            "1 unit 2 stored 2\n1 close accepted\n"
        )
    );
}

#[test]
fn the_last_line(rt: HostRuntime) {
    let totals = WorldTotals {
        recorded: 2880,
        accepted: 2880,
        rows: 2861,
        stored: 2880,
    };
    let mut text = String::new(rt.alloc());
    push_world_totals(&mut text, totals).expect(&rt, "a text");
    assert!(rt; text.as_str() == "recorded=2880 accepted=2880 rows=2861 stored=2880\n");
}
