//! Copies of the store's files.

use crate::names::log_of;
use crate::{Failed, Outcome, Stores};
use jt_store::{Keeper, StoreError};
use jt_value::{Edition, Phone};
use std::fs::{File, OpenFile};
use std::io::ErrorKind;
use std::rt::Files;
use std::{fs, io};

// A log that is shorter than its header, the header of one frame and the smallest page has nothing in it, by SQLite's format.
const LOG_WITH_NOTHING: u64 = 32 + 24 + 512;

// A phone that no terminal has.
const NOBODY: Phone = Phone {
    edition: Edition::E2019,
    digits: [0; 10],
};

/// Copies a store's file and the log beside it to a path, while nobody writes them. What stands there is written over.
pub fn copy_store<R: Files + AllocGlobal>(rt: &R, from: &str, to: &str) -> io::Result<()> {
    let from_log = log_of(rt.alloc(), from)?;
    let to_log = log_of(rt.alloc(), to)?;
    fs::copy(rt, from, to)?;
    match fs::copy(rt, from_log.as_str(), to_log.as_str()) {
        Err(error) if error.kind() != ErrorKind::NotFound => Err(error),
        _ => Ok(()),
    }
}

/// Removes a copy and the log beside it.
pub(crate) fn remove_store<R: Files + AllocGlobal>(rt: &R, path: &str) {
    let _ = fs::remove_file(rt, path);
    if let Ok(log) = log_of(rt.alloc(), path) {
        let _ = fs::remove_file(rt, log.as_str());
    }
}

// Opens a copy, which reads the whole of it, and lets go of it, which copies its log into it.
fn open_once<R: AllocGlobal, T: Stores>(rt: &R, stores: &T, path: &str) -> Result<(), StoreError> {
    let mut keeper = stores.at(path)?;
    let asked = keeper.registered(rt.alloc(), &NOBODY);
    drop(keeper);
    match asked {
        Ok(_) => Ok(()),
        Err(error) => Err(error),
    }
}

// Removes the log of a copy, which has nothing in it any more.
fn remove_log<R: Files + AllocGlobal>(rt: &R, path: &str) -> io::Result<bool> {
    let log = log_of(rt.alloc(), path)?;
    match fs::metadata(rt, log.as_str()) {
        Ok(about) if about.len() >= LOG_WITH_NOTHING => return Ok(false),
        Ok(_) => {}
        Err(error) if error.kind() == ErrorKind::NotFound => return Ok(true),
        Err(error) => return Err(error),
    }
    fs::remove_file(rt, log.as_str())?;
    Ok(true)
}

fn sync<R: Files>(rt: &R, path: &str) -> io::Result<()> {
    let file = File::open(rt, path)?;
    file.sync_all()
}

// The folder in which a file stands.
fn folder_of(path: &str) -> &str {
    match path.rsplit_once("/") {
        Some(("", _)) => "/",
        Some((folder, _)) => folder,
        None => ".",
    }
}

// Gives a copy its name, which it has on the disk then.
fn place<R: Files>(rt: &R, part: &str, file: &str) -> io::Result<u64> {
    sync(rt, part)?;
    let length = fs::metadata(rt, part)?.len();
    fs::rename(rt, part, file)?;
    sync(rt, folder_of(file))?;
    Ok(length)
}

/// Makes one sound file of a copy and its log, under a name that is free. Gives its length in octets.
pub(crate) fn settle<R, T>(rt: &R, stores: &T, part: &str, file: &str) -> Result<u64, Failed>
where
    R: Files + AllocGlobal,
    T: Stores,
{
    let alloc = rt.alloc();
    match open_once(rt, stores, part) {
        Ok(()) => {}
        Err(StoreError::Memory) => return Err(Failed::memory(alloc)),
        Err(_) => {
            let said = "the copy can't be opened: is the disk full?";
            return Err(Failed::of_path(alloc, Outcome::Store, file, said));
        }
    }
    match remove_log(rt, part) {
        Ok(true) => {}
        Ok(false) => {
            let said = "the copy is not whole: is the disk full?";
            return Err(Failed::of_path(alloc, Outcome::File, file, said));
        }
        Err(error) => return Err(Failed::of_error(alloc, Outcome::File, file, &error)),
    }
    is_new(rt, file)?;
    match place(rt, part, file) {
        Ok(length) => Ok(length),
        Err(error) => Err(Failed::of_error(alloc, Outcome::File, file, &error)),
    }
}

/// Tells of a file whose folder is not there, or is no folder.
pub(crate) fn has_folder<R: Files + AllocGlobal>(rt: &R, file: &str) -> Result<(), Failed> {
    let folder = folder_of(file);
    match fs::metadata(rt, folder) {
        Ok(about) if about.is_dir() => Ok(()),
        Ok(_) => Err(Failed::of_path(rt.alloc(), Outcome::File, folder, "is no folder")),
        Err(error) => Err(Failed::of_error(rt.alloc(), Outcome::File, folder, &error)),
    }
}

fn is_free<R: Files + AllocGlobal>(rt: &R, path: &str) -> Result<(), Failed> {
    match fs::symlink_metadata(rt, path) {
        Ok(_) => {
            let said = "is there already: name a new file";
            Err(Failed::of_path(rt.alloc(), Outcome::File, path, said))
        }
        Err(error) if error.kind() == ErrorKind::NotFound => Ok(()),
        Err(error) => Err(Failed::of_error(rt.alloc(), Outcome::File, path, &error)),
    }
}

/// Tells of a file that is there already, or whose log is.
pub(crate) fn is_new<R: Files + AllocGlobal>(rt: &R, file: &str) -> Result<(), Failed> {
    is_free(rt, file)?;
    match log_of(rt.alloc(), file) {
        Ok(log) => is_free(rt, log.as_str()),
        Err(_) => Err(Failed::memory(rt.alloc())),
    }
}
