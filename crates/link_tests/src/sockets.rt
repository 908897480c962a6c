ghost use Rattle.std.specs.Prelude.{◌≡◌, ◌≤◌, ◌<◌, length, IfSome};

use jt_outside::{
    Accepted, Clock, Dial, Link, LinkGot, Listen, Put, Sink, StdClock, TcpDial, TcpListen,
    write_all,
};
use std::test::Fail;
use std::thread;
use std::time::Duration;

// Below those that the system gives to connections, so that none of an earlier program still has one; several, so that two runs at
// one time on one machine do not meet.
const FIRST_PORT: u16 = 18_808;

const LAST_PORT: u16 = 18_907;

/// Begins to listen at the first port that is free.
pub fn start<L: Listen>(listen: &mut L) -> Option<u16> {
    for port in FIRST_PORT..=LAST_PORT {
        if listen.start(port) {
            return Some(port);
        }
    }
    None
}

// Both ends in one process: the listener's end in a thread echoes one octet.
#[test]
fn both_ends(rt: HostRuntime) -> Result<(), Fail> {
    let mut listen = TcpListen::new(rt.clone()?);
    let port = start(&mut listen).expect(&rt, "a port is free");
    let child = thread::spawn(&rt, move || {
        let mut echoed = false;
        if let Accepted::Link(mut link) = listen.accept() {
            let mut buf = [0u8; 8];
            if let LinkGot::Bytes(count) = link.read(&mut buf) {
                echoed = write_all(&mut link, &buf[..count]);
            }
        }
        echoed
    })?;
    let mut dial = TcpDial::new(rt.clone()?);
    let mut got = 0;
    let mut quiet = false;
    let mut end = false;
    if let Some(mut link) = dial.dial("127.0.0.1", port) {
        let mut buf = [0u8; 8];
        quiet = link.read(&mut buf) == LinkGot::Quiet;
        if write_all(&mut link, b"ab") {
            if let LinkGot::Bytes(count) = link.read(&mut buf) {
                got = count;
            }
        }
        end = link.read(&mut buf) == LinkGot::End;
        dial.back(link);
    }
    let echoed = child.join(&rt);
    assert!(rt; echoed);
    assert!(rt; quiet);
    assert!(rt; end);
    assert_eq!(rt; got, 2);
    Ok(())
}

// The listener's end hangs up and is kept: the other end sees the end of what was sent, and the link itself fails from then on.
#[test]
fn a_link_that_hung_up(rt: HostRuntime) -> Result<(), Fail> {
    let mut listen = TcpListen::new(rt.clone()?);
    let port = start(&mut listen).expect(&rt, "a port is free");
    let mut dial = TcpDial::new(rt.clone()?);
    let dialled = dial.dial("127.0.0.1", port);
    let accepted = listen.accept();
    let mut buf = [0u8; 8];
    let mut end = LinkGot::Quiet;
    let mut read = LinkGot::Quiet;
    let mut put = Put::Count(0);
    if let (Some(mut near), Accepted::Link(mut far)) = (dialled, accepted) {
        far.hang_up();
        end = near.read(&mut buf);
        read = far.read(&mut buf);
        put = far.write(b"a");
        dial.back(near);
        listen.back(far);
    }
    assert_eq!(rt; end, LinkGot::End);
    assert_eq!(rt; read, LinkGot::Failed);
    assert_eq!(rt; put, Put::Failed);
    Ok(())
}

// More octets than the system keeps for a peer that does not read.
const MANY: usize = 16_777_216;

// How often a link is read at most.
const MOST_READS: u32 = 1_000_000;

// How many octets a link gives until it is quiet, ends or fails.
fn count_read(link: &mut impl Link, buf: &mut [u8]) -> usize
    requires { 0 < length buf.old }
    ensures { length buf.new ≡ length buf.old }
{
    let mut total = 0usize;
    for _ in 0..MOST_READS {
        match link.read(buf) {
            LinkGot::Bytes(count) => total = total.saturating_add(count),
            _ => return total,
        }
    }
    total
}

// The other end reads only once the write is over: the count is that of the octets that come there.
#[test]
fn a_short_write_is_counted_short(rt: HostRuntime) -> Result<(), Fail> {
    let mut octets = Vec::new(rt.alloc());
    octets.resize(MANY, 7)?;
    let mut listen = TcpListen::new(rt.clone()?);
    let port = start(&mut listen).expect(&rt, "a port is free");
    let mut dial = TcpDial::new(rt.clone()?);
    let mut put = Put::Failed;
    let mut come = 0;
    if let Some(mut near) = dial.dial("127.0.0.1", port) {
        put = near.write(&octets);
        near.hang_up();
        dial.back(near);
    }
    if let Accepted::Link(mut far) = listen.accept() {
        come = count_read(&mut far, &mut octets);
        listen.back(far);
    }
    assert!(rt; 0 < come);
    assert!(rt; come < MANY);
    assert_eq!(rt; put, Put::Count(come));
    Ok(())
}

// How long the other end of the next test reads nothing, in seconds: longer than a write waits, so that one which waits without end
// shows.
const DEAF: u64 = 40;

// What one write to the link that comes gives, and how many milliseconds it took. Failed stands for no link too.
fn write_once<L: Listen, C: Clock>(listen: &mut L, clock: &mut C, octets: &[u8]) -> (Put, u64)
    requires { 0 < length octets.now }
{
    let Accepted::Link(mut far) = listen.accept() else {
        return (Put::Failed, 0);
    };
    let first = clock.now();
    let put = far.write(octets);
    (put, clock.now().saturating_sub(first))
}

// A write of an accepted link to an end that does not read is over, in part, once it waited for 5 seconds.
#[test]
fn a_write_of_an_accepted_link_waits_for_a_time(rt: HostRuntime) -> Result<(), Fail> {
    let mut octets = Vec::new(rt.alloc());
    octets.resize(MANY, 7)?;
    let mut clock = StdClock::new(rt.clone()?);
    let mut listen = TcpListen::new(rt.clone()?);
    let port = start(&mut listen).expect(&rt, "a port is free");
    let near = TcpDial::new(rt.clone()?).dial("127.0.0.1", port);
    assert!(rt; near.is_some());
    let child = thread::spawn(&rt, move || write_once(&mut listen, &mut clock, &octets))?;
    thread::sleep(&rt, Duration::from_secs(DEAF));
    drop(near);
    let (put, passed) = child.join(&rt);
    assert!(rt; matches!(put, Put::Count(count) if 0 < count && count < MANY));
    assert!(rt; passed >= 4_900);
    assert!(rt; passed < 35_000);
    Ok(())
}

// Nobody listens there. Two dials begin at least a second apart.
#[test]
fn a_refused_dial(rt: HostRuntime) -> Result<(), Fail> {
    let mut clock = StdClock::new(rt.clone()?);
    let mut dial = TcpDial::new(rt.clone()?);
    let first = clock.now();
    assert!(rt; dial.dial("127.0.0.1", 9).is_none());
    assert!(rt; dial.dial("127.0.0.1", 9).is_none());
    let second = clock.now();
    assert!(rt; second.saturating_sub(first) >= 1_000);
    Ok(())
}

// The clock tells milliseconds: neither seconds nor microseconds.
#[test]
fn a_clock_goes_on(rt: HostRuntime) -> Result<(), Fail> {
    let mut clock = StdClock::new(rt.clone()?);
    let first = clock.now();
    thread::sleep(&rt, Duration::from_millis(100));
    let passed = clock.now().saturating_sub(first);
    assert!(rt; passed >= 100);
    assert!(rt; passed < 50_000);
    Ok(())
}
