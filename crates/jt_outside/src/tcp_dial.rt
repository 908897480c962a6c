//! TCP connections to a host and a port.

ghost use Rattle.std.specs.Prelude.{◌≡◌, ◌<◌, None, IfSome, IsNone};
ghost use Rattle.std.specs.Prelude.{option_map};
ghost use Rattle.jt_value.specs.Counts.{Rose, Counts};
ghost use Rattle.jt_outside.specs.Pool.{GivesLink, taken_back};
ghost use Rattle.jt_outside.specs.Adapters.{untold, wire};

use crate::Dial;
use crate::tcp_link::TcpLink;
use std::io::ErrorKind;
use std::marker::Model;
use std::net::{Net, TcpStream, ToSocketAddrs};
use std::time::Duration;
use std::{io, thread, time};

// How long a read of the terminal's links waits, in seconds (this project's own).
const WAIT: u64 = 1;

// How long a write of them waits for the other end to read, in seconds, and how often (this project's own).
const WRITE_WAIT: u64 = 5;

const WRITE_WAITS: u32 = 6;

// How long a connection to one address may take to come about, in seconds (this project's own).
const CONNECT_WAIT: u64 = 30;

// How long after a dial's beginning the next one begins at the earliest, in seconds (this project's own).
const PAUSE: u64 = 1;

/// Connects by TCP, to each address of the host in turn, for up to 30 seconds each. Two dials begin at least a second apart. The
/// links' reads wait for one second, their writes for 30.
#[derive(Drop)]
pub struct TcpDial<R> {
    rt: R,
    // The clock's moment when the last dial began.
    begun: Option<Duration>,
    faults: u64,
}

impl<R> Model for TcpDial<R> {
    ghost use Rattle.std.specs.Prelude.{◌≤◌, ◌-◌, ◌^◌, ℕ};

    ghost Value = { ℕ };

    ghost view = { λ d. d.faults };

    ghost invariant = { λ d. d.faults ≤ 2 ^ 64 - 1 };
}

impl<R: Net<Stream = TcpStream>> TcpDial<R> {
    /// A dial with no fault so far, which keeps the runtime.
    pub fn new(rt: R) -> TcpDial<R>
        ensures { result ≡ 0 }
    {
        TcpDial {
            rt,
            begun: None,
            faults: 0,
        }
    }
}

impl<R: time::Clock> TcpDial<R> {
    // Waits until a dial may begin. Where the clock cannot be read that is a second.
    fn wait_for_turn(&mut self)
        ensures { self.new ≡ self.old }
    {
        if let Some(begun) = self.begun {
            let since = self.rt.monotonic().unwrap_or(begun).saturating_sub(begun);
            thread::sleep(&self.rt, Duration::from_secs(PAUSE).saturating_sub(since));
        }
        self.begun = Some(self.rt.monotonic().unwrap_or(Duration::ZERO));
    }
}

fn connect<R: Net<Stream = TcpStream>>(rt: &R, host: &str, port: u16) -> io::Result<TcpStream> {
    let mut last = io::Error::from(ErrorKind::NotFound);
    for address in (host, port).to_socket_addrs(rt)? {
        match TcpStream::connect_timeout(rt, &address, Duration::from_secs(CONNECT_WAIT)) {
            Ok(stream) => return Ok(stream),
            Err(error) => last = error,
        }
    }
    Err(last)
}

fn connect_link<R: Net<Stream = TcpStream>>(
    rt: &R,
    host: &str,
    port: u16,
) -> io::Result<TcpStream> {
    let stream = connect(rt, host, port)?;
    stream.set_read_timeout(Some(Duration::from_secs(WAIT)))?;
    stream.set_write_timeout(Some(Duration::from_secs(WRITE_WAIT)))?;
    Ok(stream)
}

impl<R: Net<Stream = TcpStream> + time::Clock> Dial for TcpDial<R> {
    type Link = TcpLink;

    ghost pool = { λ _. untold };

    ghost faults = { λ dial. dial };

    fn dial(&mut self, host: &str, port: u16) -> Option<TcpLink>
        ensures link { GivesLink untold untold (option_map wire result) }
        ensures count { Counts self.old self.new }
        ensures cause { IsNone result → Rose self.old self.new }
    {
        self.wait_for_turn();
        match connect_link(&self.rt, host, port) {
            Ok(stream) => Some(TcpLink::new(stream, WRITE_WAITS)),
            Err(_) => {
                self.faults = self.faults.saturating_add(1);
                None
            }
        }
    }

    fn back(&mut self, link: TcpLink)
        ensures back { untold ≡ taken_back (wire link) untold }
        ensures count { self.new ≡ self.old }
    {
        drop(link);
    }
}
