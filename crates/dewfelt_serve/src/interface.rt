//! The interface over HTTP of a service.

use crate::tokens::{TOKEN, Tokens, tokens_of};
use dewfelt_board::Board;
use dewfelt_folder::{Status, Trouble, path_in, read_whole};
use dewfelt_http::{Base, Gate, Requests, Site};
use dewfelt_settings::{HostName, Settings};
use dewfelt_told::VERSION;
use std::alloc::{AllocError, Global};
use std::io;
use std::io::ErrorKind;
use std::net::SocketAddr;
use std::random::RandomSource;
use std::rt::Files;
use std::sync::atomic::{AtomicBool, Ordering};
use std::sync::{Arc, Mutex};
use std::time::Clock;

/// What the interface over HTTP of a service answers by.
#[derive(Drop)]
pub struct Interface {
    /// The address and port where browsers come in.
    pub address: SocketAddr,
    /// The path of the file with the token that allows all.
    pub token_file: String,
    pub site: Site,
    pub board: Arc<Mutex<Board>>,
    /// It is set once the interface is to end.
    pub ends: Arc<AtomicBool>,
}

/// The interface over HTTP of a service, and where browsers come in.
#[derive(Drop)]
pub struct Web<H> {
    pub door: H,
    pub interface: Interface,
}

// A number that another run does not have, but by chance.
fn run_number<R: RandomSource>(rt: &R) -> io::Result<u32> {
    let mut octets = [0; 4];
    rt.fill_bytes(&mut octets)?;
    Ok(u32::from_be_bytes(octets))
}

// Seconds since 1970; 0 where the clock can't be read.
fn seconds<R: Clock>(rt: &R) -> u64 {
    match rt.since_1970() {
        Ok(since) => since.as_secs(),
        Err(_) => 0,
    }
}

// The base map of a folder, where it has one.
fn base_of<R: Files + AllocGlobal>(rt: &R, folder: &str) -> Result<Option<Base>, Trouble> {
    let alloc = rt.alloc();
    let Ok(path) = path_in(alloc, folder, "map.geojson") else {
        return Err(Trouble::memory(alloc));
    };
    match read_whole(rt, path.as_str()) {
        Ok(content) => match Base::of(alloc, content) {
            Ok(base) => Ok(Some(base)),
            Err(_) => Err(Trouble::memory(alloc)),
        },
        Err(error) if error.kind() == ErrorKind::NotFound => Ok(None),
        Err(error) => Err(Trouble::of_error(alloc, Status::Http, path.as_str(), &error)),
    }
}

fn names_of(alloc: Global, name: Option<HostName>) -> Result<Vec<String>, AllocError> {
    let mut names = Vec::new(alloc);
    if let Some(name) = name {
        names.push(String::from_str(alloc, name.as_str())?)?;
    }
    Ok(names)
}

// What is read of a folder and of the system for an interface.
#[derive(Drop)]
struct Read {
    tokens: Tokens,
    base: Option<Base>,
    run: u32,
    now: u64,
}

impl Read {
    fn of<R: Files + RandomSource + Clock + AllocGlobal>(
        rt: &R,
        folder: &str,
    ) -> Result<Read, Trouble> {
        let run = match run_number(rt) {
            Ok(run) => run,
            Err(error) => {
                return Err(Trouble::of_error(rt.alloc(), Status::Http, "a random number", &error));
            }
        };
        Ok(Read {
            tokens: tokens_of(rt, folder)?,
            base: base_of(rt, folder)?,
            run,
            now: seconds(rt),
        })
    }

    fn gate(
        &self,
        alloc: Global,
        settings: &Settings,
        address: SocketAddr,
    ) -> Result<Gate, AllocError> {
        let names = names_of(alloc, settings.http_name)?;
        let operate = self.tokens.operate.as_slice();
        let read = self.tokens.read.as_slice();
        Gate::new(alloc, address, names.as_slice(), operate, read)
    }

    fn site(
        self,
        alloc: Global,
        settings: &Settings,
        address: SocketAddr,
    ) -> Result<Site, AllocError> {
        let gate = self.gate(alloc, settings, address)?;
        let Read {
            tokens: _,
            base,
            run: _,
            now,
        } = self;
        Ok(Site {
            gate,
            started: now,
            terminals: settings.listen,
            version: VERSION,
            base,
            requests: Requests::new(alloc)?,
            is_ready: AtomicBool::new(false),
        })
    }
}

fn board_of(alloc: Global, run: u32) -> Result<Arc<Mutex<Board>>, AllocError> {
    Ok(Arc::new(alloc, Mutex::new(Board::new(alloc, run)?))?)
}

// The interface of what is read.
fn made_of(
    alloc: Global,
    folder: &str,
    settings: &Settings,
    address: SocketAddr,
    ends: Arc<AtomicBool>,
    read: Read,
) -> Result<Interface, AllocError> {
    let run = read.run;
    Ok(Interface {
        address,
        token_file: path_in(alloc, folder, TOKEN)?,
        site: read.site(alloc, settings, address)?,
        board: board_of(alloc, run)?,
        ends,
    })
}

impl Interface {
    /// The interface of a service over a folder, at this address, until the flag is set. Tokens that are missing are made.
    pub fn of<R: Files + RandomSource + Clock + AllocGlobal>(
        rt: &R,
        folder: &str,
        settings: &Settings,
        address: SocketAddr,
        ends: Arc<AtomicBool>,
    ) -> Result<Interface, Trouble> {
        let read = Read::of(rt, folder)?;
        match made_of(rt.alloc(), folder, settings, address, ends, read) {
            Ok(interface) => Ok(interface),
            Err(_) => Err(Trouble::memory(rt.alloc())),
        }
    }

    /// Has it end.
    pub(crate) fn end(&self) {
        self.ends.store(true, Ordering::SeqCst);
    }
}
