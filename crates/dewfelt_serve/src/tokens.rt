//! The tokens of a folder.

use dewfelt_folder::{Status, Trouble, path_in, read_whole};
use dewfelt_http::{TOKEN_DIGITS, make_token};
use std::fs::OpenOptions;
use std::io::ErrorKind;
use std::os::unix::fs::OpenOptionsExt;
use std::random::RandomSource;
use std::rt::Files;
use std::{fs, io};

/// The file of the token that allows all, in the folder of a service.
pub const TOKEN: &str = "http.token";

// The file of the token that allows to look.
const READ_TOKEN: &str = "http.read.token";

// Its owner may read and write it, and nobody else.
const OWNERS: u32 = 0o600;

/// The tokens of a folder, of which each has 64 hexadecimal digits.
#[derive(Drop)]
pub struct Tokens {
    /// Allows all.
    pub operate: Vec<u8>,
    /// Allows to look.
    pub read: Vec<u8>,
}

// The token in the octets of its file; None where they are none.
fn token_in(octets: &[u8]) -> Option<&[u8]> {
    let token = octets.trim_ascii_end();
    let are_digits = token.iter().all(|octet| octet.is_ascii_hexdigit());
    if token.len() == TOKEN_DIGITS && are_digits {
        return Some(token);
    }
    None
}

// A new file that its owner alone may read and write.
fn create<R: Files>(rt: &R, path: &str, octets: &[u8]) -> io::Result<()> {
    let _ = fs::remove_file(rt, path);
    let file = OpenOptions::new()
        .write(true)
        .create_new(true)
        .mode(OWNERS)
        .open(rt, path)?;
    drop(file);
    fs::write(rt, path, octets)
}

// Makes the file that has a token and its line's end. (under another name first, so that the file is never there in part)
fn put<R: Files + AllocGlobal>(rt: &R, path: &str, token: &[u8]) -> io::Result<()> {
    let new = format!(in rt.alloc(); "{path}.new")?;
    let mut line = Vec::from_slice(rt.alloc(), token)?;
    line.push(b'\n')?;
    create(rt, new.as_str(), line.as_slice())?;
    fs::rename(rt, new.as_str(), path)
}

// Makes a token, and the file that has it.
fn make<R: Files + RandomSource + AllocGlobal>(rt: &R, path: &str) -> io::Result<Vec<u8>> {
    let token = make_token(rt)?;
    put(rt, path, &token)?;
    Ok(Vec::from_slice(rt.alloc(), &token)?)
}

// The token of a file; None where there is no file.
fn read<R: Files + AllocGlobal>(rt: &R, path: &str) -> Result<Option<Vec<u8>>, Trouble> {
    let alloc = rt.alloc();
    let octets = match read_whole(rt, path) {
        Ok(octets) => octets,
        Err(error) if error.kind() == ErrorKind::NotFound => return Ok(None),
        Err(error) => return Err(Trouble::of_error(alloc, Status::Http, path, &error)),
    };
    let Some(token) = token_in(octets.as_slice()) else {
        return Err(Trouble::of_file(
            alloc,
            Status::Http,
            path,
            "holds no token: expected 64 hexadecimal digits",
        ));
    };
    match Vec::from_slice(alloc, token) {
        Ok(token) => Ok(Some(token)),
        Err(_) => Err(Trouble::memory(alloc)),
    }
}

// The token of a file of the folder, which is made where there is no file.
fn read_or_make<R: Files + RandomSource + AllocGlobal>(
    rt: &R,
    folder: &str,
    name: &str,
) -> Result<Vec<u8>, Trouble> {
    let alloc = rt.alloc();
    let Ok(path) = path_in(alloc, folder, name) else {
        return Err(Trouble::memory(alloc));
    };
    if let Some(token) = read(rt, path.as_str())? {
        return Ok(token);
    }
    match make(rt, path.as_str()) {
        Ok(token) => Ok(token),
        Err(error) => Err(Trouble::of_error(alloc, Status::Http, path.as_str(), &error)),
    }
}

/// The tokens of a folder. One whose file is missing is made, with mode 600.
pub fn tokens_of<R: Files + RandomSource + AllocGlobal>(
    rt: &R,
    folder: &str,
) -> Result<Tokens, Trouble> {
    Ok(Tokens {
        operate: read_or_make(rt, folder, TOKEN)?,
        read: read_or_make(rt, folder, READ_TOKEN)?,
    })
}

/// The token that allows all, which has to be there.
pub(crate) fn operating_token_of<R: Files + AllocGlobal>(
    rt: &R,
    folder: &str,
) -> Result<Vec<u8>, Trouble> {
    let alloc = rt.alloc();
    let Ok(path) = path_in(alloc, folder, TOKEN) else {
        return Err(Trouble::memory(alloc));
    };
    match read(rt, path.as_str())? {
        Some(token) => Ok(token),
        None => Err(Trouble::of_file(
            alloc,
            Status::Http,
            path.as_str(),
            "not there: a service makes it when it starts",
        )),
    }
}
