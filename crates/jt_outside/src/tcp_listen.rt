//! TCP connections that come.

ghost use Rattle.std.specs.Prelude.{◌≡◌, ◌<◌, false, IfSome};
ghost use Rattle.jt_value.specs.Counts.{Rose, Counts};
ghost use Rattle.jt_outside.specs.Pool.{taken_back};
ghost use Rattle.jt_outside.specs.Accepted.{Accepts};
ghost use Rattle.jt_outside.specs.declared.listen.Accepted.TheVariants.{Failed};
ghost use Rattle.jt_outside.specs.Adapters.{untold, wire};

use crate::tcp_link::TcpLink;
use crate::{Accepted, Listen};
use std::io::ErrorKind;
use std::marker::Model;
use std::net::{Net, OpenListener, TcpListener, TcpStream};
use std::os::fd::AsRawFd;
use std::time::Duration;
use std::{io, thread, time};

// How long a read of the platform's links waits, in seconds (this project's own).
const WAIT: u64 = 60;

// How long a write of them waits for the other end to read, in seconds, and how often (this project's own).
const WRITE_WAIT: u64 = 5;

const WRITE_WAITS: u32 = 12;

// How many connections the system keeps for the accepts to come (this project's own; it may keep fewer).
const BACKLOG: i32 = 4_096;

// The system has no descriptor left, or no memory for a socket, by the numbers that it gives.
const ENFILE: i32 = 23;

const ENOBUFS: i32 = 105;

// How often in a row an accept waits where descriptors or memory are short, a second each time (this project's own).
const MOST_WAITS: u32 = 600;

// How many connections in a row that failed before they were accepted an accept passes over, and how long it waits behind each, in
// milliseconds: these waits are ten minutes in all (this project's own).
const MOST_PASSED: u32 = 60_000;

const PASSED_WAIT: u64 = 10;

/// Listens by TCP on every address of IPv4. The links' reads wait for 60 seconds, their writes likewise. Where descriptors or memory
/// are short an accept waits a second and tries again, 600 times in a row; then it fails. A connection that failed before it was
/// accepted is passed over: the accept waits for 10 milliseconds and takes the next one. It fails where 60,000 in a row failed so.
#[derive(Drop)]
pub struct TcpListen<R: Net> {
    rt: R,
    listener: Option<R::Listener>,
    faults: u64,
}

impl<R: Net> Model for TcpListen<R> {
    ghost use Rattle.std.specs.Prelude.{◌≤◌, ◌-◌, ◌^◌, ℕ};

    ghost Value = { ℕ };

    ghost view = { λ l. l.faults };

    ghost invariant = { λ l. l.faults ≤ 2 ^ 64 - 1 };
}

impl<R: Net<Stream = TcpStream>> TcpListen<R> {
    /// A listener with no fault so far, which listens nowhere yet and keeps the runtime.
    pub fn new(rt: R) -> TcpListen<R>
        ensures { result ≡ 0 }
    {
        TcpListen {
            rt,
            listener: None,
            faults: 0,
        }
    }
}

// Listens at the port, with room for more connections to come than std asks for. Where the system refuses that, std's room stays.
fn open<R: Net<Stream = TcpStream>>(rt: &R, port: u16) -> io::Result<R::Listener> {
    let listener = TcpListener::bind(rt, ("0.0.0.0", port))?;
    let _ = libc::net::listen(listener.as_raw_fd(), BACKLOG);
    Ok(listener)
}

// Whether descriptors or memory are short: the connection is still there to be accepted.
fn is_short(error: &io::Error) -> bool {
    matches!(
        error.raw_os_error(),
        Some(libc::EMFILE | ENFILE | libc::ENOMEM | ENOBUFS)
    )
}

// Whether the listener itself can't accept. Every other error is taken as one of a connection, of the network or of a firewall.
fn is_of_listener(error: &io::Error) -> bool {
    matches!(
        error.raw_os_error(),
        None | Some(libc::EBADF | libc::EINVAL | libc::ENOTSOCK)
    )
}

// What the next accept gives. It waits where descriptors or memory are short.
fn accept_patiently<R: Net<Stream = TcpStream> + time::Clock>(
    rt: &R,
    listener: &R::Listener,
) -> io::Result<TcpStream> {
    for _ in 0..MOST_WAITS {
        match listener.accept() {
            Err(error) if is_short(&error) => thread::sleep(rt, Duration::from_secs(1)),
            Err(error) => return Err(error),
            Ok((stream, _)) => return Ok(stream),
        }
    }
    let (stream, _) = listener.accept()?;
    Ok(stream)
}

fn set_waits(stream: &TcpStream) -> io::Result<()> {
    stream.set_read_timeout(Some(Duration::from_secs(WAIT)))?;
    stream.set_write_timeout(Some(Duration::from_secs(WRITE_WAIT)))
}

// The next stream that comes. What failed for one connection is passed over.
fn accept_stream<R: Net<Stream = TcpStream> + time::Clock>(
    rt: &R,
    listener: &R::Listener,
) -> io::Result<TcpStream> {
    for _ in 0..MOST_PASSED {
        match accept_patiently(rt, listener) {
            Ok(stream) if set_waits(&stream).is_ok() => return Ok(stream),
            Err(error) if is_short(&error) || is_of_listener(&error) => return Err(error),
            _ => thread::sleep(rt, Duration::from_millis(PASSED_WAIT)),
        }
    }
    Err(io::Error::from(ErrorKind::ConnectionAborted))
}

fn next_stream<R: Net<Stream = TcpStream> + time::Clock>(
    rt: &R,
    listener: &Option<R::Listener>,
) -> io::Result<TcpStream> {
    match listener {
        Some(listener) => accept_stream(rt, listener),
        None => Err(io::Error::from(ErrorKind::NotConnected)),
    }
}

impl<R: Net<Stream = TcpStream> + time::Clock> Listen for TcpListen<R> {
    type Link = TcpLink;

    ghost pool = { λ _. untold };

    ghost faults = { λ listen. listen };

    fn start(&mut self, port: u16) -> bool
        ensures count { Counts self.old self.new }
        ensures cause { result ≡ false → Rose self.old self.new }
    {
        match open(&self.rt, port) {
            Ok(listener) => {
                self.listener = Some(listener);
                true
            }
            Err(_) => {
                self.faults = self.faults.saturating_add(1);
                false
            }
        }
    }

    fn accept(&mut self) -> Accepted<TcpLink>
        ensures link { Accepts wire untold untold result }
        ensures count { Counts self.old self.new }
        ensures cause { result ≡ Failed → Rose self.old self.new }
    {
        match next_stream(&self.rt, &self.listener) {
            Ok(stream) => Accepted::Link(TcpLink::new(stream, WRITE_WAITS)),
            Err(_) => {
                self.faults = self.faults.saturating_add(1);
                Accepted::Failed
            }
        }
    }

    fn back(&mut self, link: TcpLink)
        ensures back { untold ≡ taken_back (wire link) untold }
        ensures count { self.new ≡ self.old }
    {
        drop(link);
    }
}
