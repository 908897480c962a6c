//! A door over sockets.

use jt_outside::{Link, LinkGot, Put, Sink};
use jt_service::{Arrived, Door, ServiceListen};
use std::io;
use std::io::Write;
use std::net::{Ipv4Addr, Net, SocketAddr, TcpStream};
use std::process::Abort;
use std::sync::Arc;
use std::sync::atomic::{AtomicBool, Ordering};
use std::test::Fail;
use std::time::Clock;

// So many octets a write is given, and so often at most: no system keeps as many.
const PIECE: usize = 1 << 16;

const PIECES: u32 = 10_000;

fn moment<R: Clock>(rt: &R) -> u64 {
    match rt.monotonic() {
        Ok(since) => u64::try_from(since.as_millis()).unwrap_or(u64::MAX),
        Err(_) => 0,
    }
}

// A door at a port that the system chooses, and its address.
fn door(
    rt: &HostRuntime,
    ends: Arc<AtomicBool>,
) -> io::Result<(ServiceListen<HostRuntime>, SocketAddr)> {
    let door = ServiceListen::bind(
        rt.clone()?,
        SocketAddr::from((Ipv4Addr::LOCALHOST, 0)),
        ends,
    )?;
    let address = door.address()?;
    Ok((door, address))
}

// Writes until a write fails. Tells whether one did.
fn fill<L: Link>(link: &mut L, octets: &[u8; PIECE]) -> bool {
    for _ in 0..PIECES {
        if let Put::Failed = link.write(octets) {
            return true;
        }
    }
    false
}

// What comes of a link: it says who is at its other end, gives what that sends, and is quiet then; a write that nobody reads ends
// soon, since the flag is set.
fn try_link<L: Link + Drop>(rt: &(impl Abort + Clock), mut link: L) {
    let mut octets = [0u8; 16];
    assert!(rt; link.read(&mut octets) == LinkGot::Bytes(2));
    assert!(rt; octets[0] == b'a' && octets[1] == b'b');
    assert!(rt; link.read(&mut octets) == LinkGot::Quiet);
    let began = moment(rt);
    assert!(rt; fill(&mut link, &[0; PIECE]));
    assert!(rt; moment(rt).saturating_sub(began) < 10_000);
    link.hang_up();
}

#[test]
fn a_link_that_nobody_reads(rt: HostRuntime) -> Result<(), Fail> {
    let ends = Arc::new(rt.alloc(), AtomicBool::new(false))?;
    let (mut door, address) = door(&rt, ends.clone()?)?;
    assert!(rt; matches!(door.next(), Arrived::Nobody));
    let mut stream = TcpStream::connect(&rt, address)?;
    let own = stream.local_addr()?;
    stream.write_all(b"ab")?;
    ends.store(true, Ordering::SeqCst);
    match door.next() {
        Arrived::Link(link, peer) => {
            assert!(rt; peer == Some(own));
            try_link(&rt, link);
        }
        _ => assert!(rt; false),
    }
    drop(stream);
    Ok(())
}
