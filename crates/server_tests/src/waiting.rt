//! Two links of which the first waits for the second.

ghost use Rattle.std.specs.Prelude.{◌≡◌, ◌≤◌, ◌<◌, ◌^◌, ◌-◌, None, length};

use jt_outside::{Accepted, Link, LinkGot, Listen, Put, Sink};
use std::alloc::Global;
use std::process::Abort;
use std::sync::Arc;
use std::sync::atomic::{AtomicU64, Ordering};

/// How often a read looks at the flag before it fails.
const MOST_LOOKS: u64 = 100_000_000;

/// The heartbeat of phone 013912345678.
const HEARTBEAT: [u8; 15] = [
    0x7e, 0x00, 0x02, 0x00, 0x00, 0x01, 0x39, 0x12, 0x34, 0x56, 0x78, 0x00, 0x00, 0x32, 0x7e,
];

/// A link that gives a heartbeat and ends. The first one reads only once the flag is set, which a write to the second sets.
#[derive(Drop)]
pub struct Waiting {
    first: bool,
    flag: Arc<AtomicU64, Global>,
    given: bool,
    faults: u64,
}

impl Waiting {
    // Whether the flag was seen to be set.
    fn sees(&self) -> bool {
        for _ in 0..MOST_LOOKS {
            if self.flag.load(Ordering::SeqCst) != 0 {
                return true;
            }
        }
        false
    }
}

impl Sink for Waiting {
    ghost use Rattle.std.specs.Prelude.{None};

    ghost written = { λ _. None };

    ghost faults = { λ link. link.faults };

    fn write(&mut self, buf: &[u8]) -> Put {
        let _faults = self.faults;
        if !self.first {
            self.flag.store(1, Ordering::SeqCst);
        }
        Put::Count(buf.len())
    }
}

impl Link for Waiting {
    fn read(&mut self, buf: &mut [u8]) -> LinkGot {
        let faults = self.faults;
        if self.first && !self.sees() {
            self.faults = faults.saturating_add(1);
            return LinkGot::Failed;
        }
        if self.given || buf.len() < HEARTBEAT.len() {
            return LinkGot::End;
        }
        self.given = true;
        buf[..HEARTBEAT.len()].copy_from_slice(&HEARTBEAT);
        LinkGot::Bytes(HEARTBEAT.len())
    }
}

/// A listener to which two such links come.
#[derive(Drop)]
pub struct Pair {
    first: Option<Arc<AtomicU64, Global>>,
    second: Option<Arc<AtomicU64, Global>>,
}

/// A listener to which two links come that share a flag.
pub fn make_pair(rt: &impl Abort, alloc: Global) -> Pair {
    let flag = Arc::new(alloc, AtomicU64::new(0)).expect(rt, "there is memory");
    let other = Arc::try_clone(&flag).expect(rt, "there is memory");
    Pair {
        first: Some(flag),
        second: Some(other),
    }
}

fn link(first: bool, flag: Arc<AtomicU64, Global>) -> Waiting
    ensures { result.faults ≡ 0 }
{
    Waiting {
        first,
        flag,
        given: false,
        faults: 0,
    }
}

impl Listen for Pair {
    ghost use Rattle.std.specs.Prelude.{None};

    type Link = Waiting;

    ghost pool = { λ _. record { coming = None; back = None; lent = None } };

    ghost faults = { λ _. 0 };

    fn start(&mut self, _port: u16) -> bool {
        true
    }

    fn accept(&mut self) -> Accepted<Waiting> {
        if let Some(flag) = self.first.take() {
            return Accepted::Link(link(true, flag));
        }
        match self.second.take() {
            Some(flag) => Accepted::Link(link(false, flag)),
            None => Accepted::Over,
        }
    }

    fn back(&mut self, link: Waiting) {
        drop(link);
    }
}
