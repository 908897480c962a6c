//! The names of the files by which a command and a service speak: in DIR/commands, each with the command's own sixteen letters.

ghost use Rattle.std.specs.Prelude.{◌<◌};

use std::alloc::{AllocError, Global};
use std::io;
use std::random::RandomSource;

// Half as many octets as letters.
const OCTETS: usize = 8;

const REQUEST: &str = ".request";

/// The folder, in that of a service, in which requests and answers lie.
pub(crate) fn commands_in(alloc: Global, folder: &str) -> Result<String, AllocError> {
    format!(in alloc; "{folder}/commands")
}

/// The file of rows and registrations.
pub(crate) fn store_in(alloc: Global, folder: &str) -> Result<String, AllocError> {
    format!(in alloc; "{folder}/platform.db")
}

/// The log beside a file of rows and registrations.
pub(crate) fn log_of(alloc: Global, path: &str) -> Result<String, AllocError> {
    format!(in alloc; "{path}-wal")
}

fn letter(number: u8) -> char
    requires { number < 16 }
{
    if number < 10 {
        return (b'0' + number) as char;
    }
    (b'a' + (number - 10)) as char
}

/// Sixteen letters that no other command has, but by chance.
pub(crate) fn new_letters<R: RandomSource + AllocGlobal>(rt: &R) -> io::Result<String> {
    let mut octets = [0; OCTETS];
    rt.fill_bytes(&mut octets)?;
    let mut letters = String::new(rt.alloc());
    for octet in &octets {
        letters.push(letter(*octet / 16))?;
        letters.push(letter(*octet % 16))?;
    }
    Ok(letters)
}

fn is_letter(octet: u8) -> bool {
    octet.is_ascii_digit() || (b'a' <= octet && octet <= b'f')
}

/// The letters in the name of a request; None for all other names.
pub(crate) fn letters_in(name: &str) -> Option<&str> {
    let letters = name.strip_suffix(REQUEST)?;
    if letters.len() == 2 * OCTETS && letters.as_bytes().iter().all(|octet| is_letter(*octet)) {
        return Some(letters);
    }
    None
}

/// The paths of the files of one command.
#[derive(Drop)]
pub(crate) struct Names {
    /// The request, and before that the file that becomes it.
    pub request: String,
    pub asking: String,
    /// The answer, and before that the file that becomes it.
    pub answer: String,
    pub answering: String,
    /// The copy of the store.
    pub copy: String,
}

impl Names {
    /// Those with these letters, in DIR/commands.
    pub(crate) fn new(alloc: Global, commands: &str, letters: &str) -> Result<Names, AllocError> {
        Ok(Names {
            request: format!(in alloc; "{commands}/{letters}{REQUEST}")?,
            asking: format!(in alloc; "{commands}/{letters}.asking")?,
            answer: format!(in alloc; "{commands}/{letters}.answer")?,
            answering: format!(in alloc; "{commands}/{letters}.answering")?,
            copy: format!(in alloc; "{commands}/{letters}.db")?,
        })
    }
}
