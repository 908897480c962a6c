//! A TCP stream as a link.

ghost use Rattle.std.specs.Prelude.{◌≡◌, ◌<◌, None, length};
ghost use Rattle.std.specs.Io.{ReadsAtMost, WritesAtMost};
ghost use Rattle.jt_outside.specs.Sink.{TakesOctets, WriteHasCause};
ghost use Rattle.jt_outside.specs.Link.{Reads, ReadHasCause};
ghost use Rattle.jt_outside.specs.Adapters.{inbound_of, wire, after_read, after_write};

use crate::retrying::{read_again, write_again};
use crate::{Link, LinkGot, Put, Sink};
use std::io;
use std::io::ErrorKind;
use std::marker::Model;
use std::net::{Shutdown, SocketAddr, TcpStream};
use std::sync::Arc;
use std::sync::atomic::{AtomicBool, Ordering};

/// A TCP stream as a link. A read that ran into the stream's timeout is quiet, every other error is a fault, and so is a write that
/// takes nothing, or that runs into the stream's timeout as often as the link waits. What was interrupted is made again, up to 1,000
/// times. Hanging up gives the stream's descriptor back; each read and write behind it is a fault.
#[derive(Drop)]
pub struct TcpLink {
    stream: Option<TcpStream>,
    // How often a write waits for the stream's timeout.
    waits: u32,
    // Once it is set, a write waits at most once more.
    stops: Option<Arc<AtomicBool>>,
    faults: u64,
    quiets: u64,
    run: u64,
}

impl Model for TcpLink {
    ghost use Rattle.std.specs.Prelude.{◌≤◌, ◌-◌, ◌^◌};
    ghost use Rattle.jt_outside.specs.Adapters.{Counted};

    ghost Value = { Counted };

    ghost view = { λ l. record { faults = l.faults; quiets = l.quiets; run = l.run } };

    ghost invariant = { λ l. (l.faults ≤ 2 ^ 64 - 1) × (l.quiets ≤ 2 ^ 64 - 1) };
}

impl TcpLink {
    /// The link of a stream, of which nothing was counted so far. A write waits for the stream's timeout so often, and at least once.
    pub fn new(stream: TcpStream, waits: u32) -> TcpLink
        ensures { result ≡ record { faults = 0; quiets = 0; run = 0 } }
    {
        TcpLink {
            stream: Some(stream),
            waits,
            stops: None,
            faults: 0,
            quiets: 0,
            run: 0,
        }
    }

    /// A link as `new` makes it, whose writes wait for the stream's timeout at most once more after the flag is set.
    pub fn until(stream: TcpStream, waits: u32, stops: Arc<AtomicBool>) -> TcpLink
        ensures { result ≡ record { faults = 0; quiets = 0; run = 0 } }
    {
        TcpLink {
            stream: Some(stream),
            waits,
            stops: Some(stops),
            faults: 0,
            quiets: 0,
            run: 0,
        }
    }

    /// The other end's address; none behind a hang-up, or where the system knows none.
    pub fn peer(&self) -> Option<SocketAddr> {
        self.stream.as_ref()?.peer_addr().ok()
    }
}

fn read_stream(stream: &mut Option<TcpStream>, buf: &mut [u8]) -> io::Result<usize>
    ensures { ReadsAtMost result buf.new }
{
    match stream {
        Some(stream) => read_again(stream, buf),
        None => Err(io::Error::from(ErrorKind::NotConnected)),
    }
}

fn is_timeout(error: &io::Error) -> bool {
    matches!(error.kind(), ErrorKind::WouldBlock | ErrorKind::TimedOut)
}

// Writes, and where the other end took nothing in the stream's timeout writes again, so often in all. The system tells of a part
// that it took only once it has waited for the rest, so one long timeout would be waited for twice.
fn write_patiently(
    stream: &mut TcpStream,
    buf: &[u8],
    waits: u32,
    stops: &Option<Arc<AtomicBool>>,
) -> io::Result<usize>
    ensures { WritesAtMost result buf.now }
{
    for _ in 1..waits {
        if is_set(stops) {
            break;
        }
        match write_again(stream, buf) {
            Err(error) if is_timeout(&error) => {}
            answer => return answer,
        }
    }
    write_again(stream, buf)
}

fn is_set(stops: &Option<Arc<AtomicBool>>) -> bool {
    match stops {
        Some(flag) => flag.load(Ordering::SeqCst),
        None => false,
    }
}

fn write_stream(
    stream: &mut Option<TcpStream>,
    buf: &[u8],
    waits: u32,
    stops: &Option<Arc<AtomicBool>>,
) -> io::Result<usize>
    ensures { WritesAtMost result buf.now }
{
    match stream {
        Some(stream) => write_patiently(stream, buf, waits, stops),
        None => Err(io::Error::from(ErrorKind::NotConnected)),
    }
}

impl Sink for TcpLink {
    ghost written = { λ _. None };

    ghost faults = { λ link. link.faults };

    ghost inbound = { λ link. inbound_of link };

    fn write(&mut self, buf: &[u8]) -> Put
        requires { 0 < length buf.now }
        ensures octets { TakesOctets None None result buf.now }
        ensures cause { WriteHasCause self.old.faults self.new.faults result }
        ensures inbound { inbound_of self.new ≡ inbound_of self.old }
        ensures exact { self.new ≡ after_write self.old result }
    {
        match write_stream(&mut self.stream, buf, self.waits, &self.stops) {
            Ok(count) if count > 0 => Put::Count(count),
            _ => {
                self.faults = self.faults.saturating_add(1);
                Put::Failed
            }
        }
    }
}

impl Link for TcpLink {
    fn read(&mut self, buf: &mut [u8]) -> LinkGot
        requires { 0 < length buf.old }
        ensures octets { Reads (inbound_of self.old) (inbound_of self.new) result buf.new }
        ensures cause { ReadHasCause self.old.faults self.new.faults
            (inbound_of self.old) (inbound_of self.new) result }
        ensures exact { self.new ≡ after_read self.old result }
    {
        match read_stream(&mut self.stream, buf) {
            Ok(0) => LinkGot::End,
            Ok(count) => {
                self.run = 0;
                LinkGot::Bytes(count)
            }
            Err(error) => match error.kind() {
                ErrorKind::WouldBlock | ErrorKind::TimedOut => {
                    self.quiets = self.quiets.saturating_add(1);
                    self.run = self.run.saturating_add(1);
                    LinkGot::Quiet
                }
                _ => {
                    self.faults = self.faults.saturating_add(1);
                    LinkGot::Failed
                }
            },
        }
    }

    fn hang_up(&mut self)
        ensures kept { wire self.new ≡ wire self.old }
        ensures exact { self.new ≡ self.old }
    {
        if let Some(stream) = self.stream.take() {
            let _ = stream.shutdown(Shutdown::Both);
        }
    }
}
