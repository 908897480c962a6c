//! The system's sockets behind a listener that fails at first, and a clock that counts how long it is slept.

use std::alloc::Global;
use std::io;
use std::net::{Net, OpenListener, SocketAddr, TcpListener, TcpStream};
use std::os::fd::{AsRawFd, RawFd};
use std::sync::Arc;
use std::sync::atomic::{AtomicU64, Ordering};
use std::time::{Clock, Duration};

/// A listener whose first accepts give the error of this number, so many times.
#[derive(Drop)]
pub struct ShakyListener {
    listener: TcpListener,
    error: i32,
    left: AtomicU64,
}

impl ShakyListener {
    // Whether an accept fails once more.
    fn fails(&self) -> bool {
        let left = self.left.load(Ordering::SeqCst);
        self.left.store(left.saturating_sub(1), Ordering::SeqCst);
        left > 0
    }
}

impl OpenListener for ShakyListener {
    type Stream = TcpStream;

    fn accept(&self) -> io::Result<(TcpStream, SocketAddr)> {
        if self.fails() {
            return Err(io::Error::from_raw_os_error(self.error));
        }
        self.listener.accept()
    }
}

impl AsRawFd for ShakyListener {
    fn as_raw_fd(&self) -> RawFd {
        self.listener.as_raw_fd()
    }
}

/// A runtime of such a listener. Its clock adds to `slept` what it is slept, in milliseconds, and does not sleep.
#[derive(Drop)]
pub struct Shaky {
    pub rt: HostRuntime,
    pub error: i32,
    pub times: u64,
    pub slept: Arc<AtomicU64, Global>,
}

impl Net for Shaky {
    type Stream = TcpStream;

    type Listener = ShakyListener;

    fn bind(&self, address: SocketAddr) -> io::Result<ShakyListener> {
        Ok(ShakyListener {
            listener: self.rt.bind(address)?,
            error: self.error,
            left: AtomicU64::new(self.times),
        })
    }

    fn connect(&self, address: SocketAddr) -> io::Result<TcpStream> {
        self.rt.connect(address)
    }
}

impl Clock for Shaky {
    fn monotonic(&self) -> io::Result<Duration> {
        self.rt.monotonic()
    }

    fn since_1970(&self) -> io::Result<Duration> {
        self.rt.since_1970()
    }

    fn sleep(&self, duration: Duration) {
        let millis = u64::try_from(duration.as_millis()).unwrap_or(u64::MAX);
        let slept = self.slept.load(Ordering::SeqCst);
        self.slept
            .store(slept.saturating_add(millis), Ordering::SeqCst);
    }
}
