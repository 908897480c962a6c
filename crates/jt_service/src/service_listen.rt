//! TCP connections that come to a service.

use crate::door::{Arrived, Door};
use jt_outside::TcpLink;
use std::io::ErrorKind;
use std::net::{Net, OpenListener, SocketAddr, TcpListener, TcpStream};
use std::os::fd::AsRawFd;
use std::sync::Arc;
use std::sync::atomic::AtomicBool;
use std::time::{Clock, Duration};
use std::{io, thread};

// How long a read of the links waits, in seconds; an accept waits as long (this project's own).
const WAIT: u64 = 1;

const WAIT_MILLISECONDS: i32 = 1_000;

// How long a write of them waits for the other end to read, in seconds, and how often (this project's own).
const WRITE_WAIT: u64 = 1;

const WRITE_WAITS: u32 = 60;

// How many connections the system keeps for the accepts to come (this project's own; it may keep fewer).
const BACKLOG: i32 = 4_096;

// How long an accept waits behind a connection that failed before it was accepted, in milliseconds (this project's own).
const PASSED_WAIT: u64 = 10;

// The system has no descriptor left, or no memory for a socket, by the numbers that it gives.
const ENFILE: i32 = 23;

const ENOBUFS: i32 = 105;

/// Listens by TCP at an address and port, of IPv4 or IPv6. The links' reads wait for a second, their writes for 60, and for 2 at most
/// once a flag is set. Descriptors or memory that are short, and no connection within a second, are told as such. A connection that
/// failed before it was accepted, or whose waits the system would not set, is passed over, as a second within which nobody came:
/// nothing counts it.
#[derive(Drop)]
pub struct ServiceListen<R: Net> {
    rt: R,
    listener: R::Listener,
    ends: Arc<AtomicBool>,
}

impl<R: Net<Stream = TcpStream> + Drop> ServiceListen<R> {
    /// Listens at this address, and keeps the runtime and the flag. An error is what the system said.
    pub fn bind(rt: R, address: SocketAddr, ends: Arc<AtomicBool>) -> io::Result<ServiceListen<R>> {
        let listener = TcpListener::bind(&rt, address)?;
        listener.set_nonblocking(true)?;
        let _ = libc::net::listen(listener.as_raw_fd(), BACKLOG);
        Ok(ServiceListen { rt, listener, ends })
    }

    /// The address at which it listens, with the port that the system chose where that was 0.
    pub fn address(&self) -> io::Result<SocketAddr> {
        self.listener.local_addr()
    }
}

// Whether descriptors or memory are short: the connection is still there to be accepted.
fn is_short(error: &io::Error) -> bool {
    matches!(
        error.raw_os_error(),
        Some(libc::EMFILE | ENFILE | libc::ENOMEM | ENOBUFS)
    )
}

// Whether the listener itself can't accept. Every other error is taken as one of a connection, of the network or of a firewall.
fn is_of_listener(error: &io::Error) -> bool {
    matches!(
        error.raw_os_error(),
        None | Some(libc::EBADF | libc::EINVAL | libc::ENOTSOCK)
    )
}

fn set_waits(stream: &TcpStream) -> io::Result<()> {
    // (answers are short, and not to wait for one another)
    let _ = stream.set_nodelay(true);
    stream.set_read_timeout(Some(Duration::from_secs(WAIT)))?;
    stream.set_write_timeout(Some(Duration::from_secs(WRITE_WAIT)))
}

// Waits until a connection comes, for a second at most. Tells whether one may have come.
fn comes(descriptor: i32) -> bool {
    let mut waits = [libc::types::pollfd {
        fd: descriptor,
        events: libc::net::POLLIN,
        revents: 0,
    }];
    libc::net::poll(&mut waits, WAIT_MILLISECONDS) != 0
}

// What became of a connection that could not be accepted. It waits where that would come again at once.
fn failure<R: Clock>(rt: &R, error: &io::Error) -> Arrived<TcpLink> {
    if error.kind() == ErrorKind::WouldBlock {
        thread::sleep(rt, Duration::from_millis(PASSED_WAIT));
        return Arrived::Nobody;
    }
    if is_short(error) {
        thread::sleep(rt, Duration::from_secs(WAIT));
        return Arrived::Short;
    }
    if is_of_listener(error) {
        return Arrived::Failed;
    }
    thread::sleep(rt, Duration::from_millis(PASSED_WAIT));
    Arrived::Nobody
}

impl<R: Net<Stream = TcpStream> + Clock> Door for ServiceListen<R> {
    type Link = TcpLink;

    fn next(&mut self) -> Arrived<TcpLink> {
        if !comes(self.listener.as_raw_fd()) {
            return Arrived::Nobody;
        }
        match self.listener.accept() {
            Ok((stream, peer)) if set_waits(&stream).is_ok() => match self.ends.clone() {
                Ok(ends) => { Arrived::Link(TcpLink::until(stream, WRITE_WAITS, ends), Some(peer)) }
                Err(_) => Arrived::Nobody,
            },
            Ok(_) => Arrived::Nobody,
            Err(error) => failure(&self.rt, &error),
        }
    }
}
