//! Files that are read whole, and the file of a store as the system sees it.

use std::fs::OpenOptions;
use std::io::{ErrorKind, Read};
use std::rt::Files;
use std::{fs, io};

// The octets with which a file of SQLite begins.
const SQLITE_HEAD: &[u8] = b"SQLite format 3\0";

const HEAD: usize = 16;

fn not_so(said: &str) -> io::Error {
    io::Error::new(ErrorKind::InvalidInput, said)
}

// Whether a file lies there. A pipe, or what else is none, is an error: its read could wait for ever.
fn expect_file<R: Files>(rt: &R, path: &str) -> io::Result<()> {
    if fs::metadata(rt, path)?.is_file() {
        return Ok(());
    }
    Err(not_so("it is no file"))
}

/// The octets of a file. What is no file is an error, and is not read.
pub fn read_whole<R: Files + AllocGlobal>(rt: &R, path: &str) -> io::Result<Vec<u8>> {
    expect_file(rt, path)?;
    fs::read(rt, path)
}

/// How many octets a file has; 0 where there is none.
pub fn octets_of<R: Files>(rt: &R, path: &str) -> u64 {
    match fs::metadata(rt, path) {
        Ok(about) => about.len(),
        Err(_) => 0,
    }
}

// Whether these are the first octets of a file of SQLite, which a new one has none of.
fn is_head(octets: &[u8]) -> bool {
    octets.is_empty() || octets == SQLITE_HEAD
}

/// Looks whether the file of a store can be read and written, and begins as one. An error is what the system says of it.
pub fn try_store<R: Files>(rt: &R, path: &str) -> io::Result<()> {
    expect_file(rt, path)?;
    let mut file = OpenOptions::new().read(true).write(true).open(rt, path)?;
    let mut head = [0; HEAD];
    let count = file.read(&mut head)?;
    if is_head(&head[..count]) {
        return Ok(());
    }
    Err(not_so("it is no database of SQLite"))
}
