//! Links and a door in memory.

ghost use Rattle.std.specs.Prelude.{◌≡◌, ◌<◌, None, length};
ghost use Rattle.jt_outside.specs.Sink.{TakesOctets, WriteHasCause};
ghost use Rattle.jt_outside.specs.Link.{Reads, ReadHasCause};
ghost use Rattle.jt_outside.specs.Adapters.{inbound_of};

use crate::counting::Counting;
use jt_outside::{Link, LinkGot, Put, Sink};
use jt_service::{Arrived, Door, Watch};
use jt_value::{Edition, Phone};
use std::marker::Model;
use std::net::{IpAddr, Ipv4Addr, SocketAddr};
use std::sync::atomic::{AtomicBool, Ordering};
use std::sync::{Arc, Wait};
use std::thread;
use std::time::{Clock, Duration};

/// The heartbeat of phone 013912345678, which takes 20 octets of an answer.
pub const HEARTBEAT: &[u8] = b"\x7e\0\x02\0\0\x019\x124Vx\0\02\x7e";

/// Five of them.
pub const HEARTBEATS: &[u8] =
    b"\x7e\0\x02\0\0\x019\x124Vx\0\02\x7e\x7e\0\x02\0\0\x019\x124Vx\0\02\x7e\x7e\0\x02\0\0\x019\x124Vx\0\02\x7e\x7e\0\x02\0\0\x019\x124Vx\0\02\x7e\x7e\0\x02\0\0\x019\x124Vx\0\02\x7e";

/// The registration of phone 333435363738, and its authentication, with a unit behind them: 53, 31 and 43 octets. The answers have
/// 34, 20 and 20.
pub const TERMINAL: &[u8] =
    b"\x7e\x01\0\0\x26345678\0\0\0\0\0\0\0\0\0\0\0\0\0\0\0\0\0\0\0\0\0\0\0\0\0\0\0\0\0\0\01\0\0\0\0\0\0\x01A\x5d\x7e\x7e\x01\x02\0\x10345678\0\x01ef797c8118f02dfbD\x7e\x7e\x02\0\0\x1c345678\0\x02\0\0\0\0\0\0\0\0\0\0\0\0\0\0\0\0\0\0\0\0\0\0\0\0\0\0\0\0\x17\x7e";

const PHONE: Phone = Phone {
    edition: Edition::E2013,
    digits: [0, 0, 0, 0, 0x33, 0x34, 0x35, 0x36, 0x37, 0x38],
};

pub(crate) fn peer() -> SocketAddr {
    SocketAddr::new(IpAddr::V4(Ipv4Addr::new(127, 0, 0, 1)), 41_022)
}

// So long a deaf link looks at its flag between two looks, in milliseconds, and so often.
const LOOK: u64 = 10;

const LOOKS: u32 = 1_000;

// So long a slow link waits, in milliseconds.
const QUIET: u64 = 100;

/// A link that gives octets, and then ends, or is quiet for ever. It takes what is written; or, where it is deaf, nothing: a write
/// waits until its flag is set, for ten seconds at most, and fails.
#[derive(Drop)]
pub struct TestLink<'w, R> {
    octets: &'static [u8],
    stays: bool,
    deaf: Option<(&'w R, Arc<AtomicBool>)>,
    slow: Option<&'w R>,
    faults: u64,
    quiets: u64,
    run: u64,
}

impl<'w, R> Model for TestLink<'w, R> {
    ghost use Rattle.std.specs.Prelude.{◌≤◌, ◌-◌, ◌^◌};
    ghost use Rattle.jt_outside.specs.Adapters.{Counted};

    ghost Value = { Counted };

    ghost view = { λ l. record { faults = l.faults; quiets = l.quiets; run = l.run } };

    ghost invariant = { λ l. (l.faults ≤ 2 ^ 64 - 1) × (l.quiets ≤ 2 ^ 64 - 1) };
}

impl<'w, R: Clock> TestLink<'w, R> {
    fn made(
        octets: &'static [u8],
        stays: bool,
        deaf: Option<(&'w R, Arc<AtomicBool>)>,
        slow: Option<&'w R>,
    ) -> TestLink<'w, R> {
        TestLink {
            octets,
            stays,
            deaf,
            slow,
            faults: 0,
            quiets: 0,
            run: 0,
        }
    }

    pub fn new(octets: &'static [u8], stays: bool) -> TestLink<'w, R> {
        TestLink::made(octets, stays, None, None)
    }

    fn deaf(octets: &'static [u8], rt: &'w R, ends: Arc<AtomicBool>) -> TestLink<'w, R> {
        TestLink::made(octets, true, Some((rt, ends)), None)
    }

    /// A link that gives octets, and is then quiet each tenth of a second.
    pub fn slow(octets: &'static [u8], rt: &'w R) -> TestLink<'w, R> {
        TestLink::made(octets, true, None, Some(rt))
    }

    // Waits where it is deaf. Tells whether it was.
    fn waited(&self) -> bool {
        let Some((rt, ends)) = &self.deaf else {
            return false;
        };
        for _ in 0..LOOKS {
            if ends.load(Ordering::SeqCst) {
                break;
            }
            thread::sleep(*rt, Duration::from_millis(LOOK));
        }
        true
    }
}

impl<'w, R: Clock> Sink for TestLink<'w, R> {
    ghost written = { λ _. None };

    ghost faults = { λ link. link.faults };

    ghost inbound = { λ link. inbound_of link };

    fn write(&mut self, buf: &[u8]) -> Put
        requires { 0 < length buf.now }
        ensures octets { TakesOctets None None result buf.now }
        ensures cause { WriteHasCause self.old.faults self.new.faults result }
        ensures inbound { inbound_of self.new ≡ inbound_of self.old }
    {
        if self.waited() {
            self.faults = self.faults.saturating_add(1);
            return Put::Failed;
        }
        Put::Count(buf.len())
    }
}

impl<'w, R: Clock> Link for TestLink<'w, R> {
    fn read(&mut self, buf: &mut [u8]) -> LinkGot
        requires { 0 < length buf.old }
        ensures octets { Reads (inbound_of self.old) (inbound_of self.new) result buf.new }
        ensures cause { ReadHasCause self.old.faults self.new.faults
            (inbound_of self.old) (inbound_of self.new) result }
    {
        let octets = self.octets;
        let count = octets.len().min(buf.len());
        if count > 0 {
            buf[..count].copy_from_slice(&octets[..count]);
            self.octets = &octets[count..];
            self.run = 0;
            return LinkGot::Bytes(count);
        }
        if let Some(rt) = self.slow {
            thread::sleep(rt, Duration::from_millis(QUIET));
        }
        if self.stays {
            self.quiets = self.quiets.saturating_add(1);
            self.run = self.run.saturating_add(1);
            return LinkGot::Quiet;
        }
        LinkGot::End
    }
}

/// What a door does next.
#[derive(Clone, Copy)]
pub enum Step {
    /// So many links come that give these octets, and then end, or stay, each once fewer are served than these.
    Links(u32, &'static [u8], bool, u32),
    /// A link comes that gives these octets, and then stays, and takes none before all links are to end.
    Deaf(&'static [u8]),
    /// It waits until somebody was let in on so many links.
    LetIn(u32),
    /// It waits until so many links are served at most.
    Open(u32),
    /// It waits for so many seconds.
    Seconds(u64),
    /// The terminal of phone 333435363738 is dismissed.
    Dismisses,
    /// So many accepts fail.
    Fails(u32),
    /// The service is stopped.
    Stops,
    /// The service is to begin anew.
    Renews,
}

/// A door of these steps, which is over behind the last one.
#[derive(Drop)]
pub struct Steps<'w, R> {
    pub rt: &'w R,
    pub watch: &'w Watch<Counting>,
    pub ends: Arc<AtomicBool>,
    pub steps: &'static [Step],
    pub done: u32,
}

impl<'w, R: Wait + Clock> Steps<'w, R> {
    fn is_ready(&self, step: Step) -> bool {
        let counts = self.watch.counts(self.rt);
        match step {
            Step::Links(_, _, _, fewer) => counts.open < fewer,
            Step::LetIn(wanted) => counts.let_in >= wanted,
            Step::Open(most) => counts.open <= most,
            Step::Deaf(_) | Step::Fails(_) | Step::Seconds(_) | Step::Dismisses => true,
            Step::Stops | Step::Renews => true,
        }
    }

    // The step was done once. Whether it is to be done again.
    fn again(&mut self, wanted: u32) -> bool {
        self.done = self.done.saturating_add(1);
        self.done < wanted
    }

    fn pass_step(&mut self) {
        if let Some((_, rest)) = self.steps.split_first() {
            self.steps = rest;
            self.done = 0;
        }
    }

    fn give(&mut self, step: Step) -> Arrived<TestLink<'w, R>> {
        match step {
            Step::Deaf(octets) => {
                self.pass_step();
                match self.ends.clone() {
                    Ok(ends) => {
                        Arrived::Link(TestLink::deaf(octets, self.rt, ends), Some(peer()))
                    }
                    Err(_) => Arrived::Over,
                }
            }
            Step::Links(wanted, octets, stays, _) => {
                if !self.again(wanted) {
                    self.pass_step();
                }
                Arrived::Link(TestLink::new(octets, stays), Some(peer()))
            }
            Step::Fails(wanted) => {
                if !self.again(wanted) {
                    self.pass_step();
                }
                Arrived::Failed
            }
            Step::Stops => {
                self.watch.stop();
                self.pass_step();
                Arrived::Nobody
            }
            Step::Renews => {
                self.watch.renew();
                self.pass_step();
                Arrived::Nobody
            }
            Step::Seconds(seconds) => {
                thread::sleep(self.rt, Duration::from_secs(seconds));
                self.pass_step();
                Arrived::Nobody
            }
            Step::Dismisses => {
                self.watch.dismiss(self.rt, &PHONE);
                self.pass_step();
                Arrived::Nobody
            }
            Step::LetIn(_) | Step::Open(_) => {
                self.pass_step();
                Arrived::Nobody
            }
        }
    }
}

impl<'w, R: Wait + Clock> Door for Steps<'w, R> {
    type Link = TestLink<'w, R>;

    fn next(&mut self) -> Arrived<TestLink<'w, R>> {
        match self.steps.first() {
            Some(step) if self.is_ready(*step) => self.give(*step),
            Some(_) => Arrived::Nobody,
            None => Arrived::Over,
        }
    }
}
