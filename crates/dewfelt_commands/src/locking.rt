//! The lock of a folder.

use crate::failed::is_not_there;
use crate::{Failed, Outcome};
use std::fs::{File, OpenOptions, TryLockError};
use std::rt::Files;

/// A folder over which nothing else of `dewfelt` runs while this is there.
#[derive(Drop)]
pub struct Locked {
    file: File,
}

/// Locks the folder, by a file in it that stays. None means that a service runs over it, or another command.
pub fn try_lock<R: Files<File = File> + AllocGlobal>(
    rt: &R,
    folder: &str,
) -> Result<Option<Locked>, Failed> {
    let alloc = rt.alloc();
    let Ok(path) = format!(in alloc; "{folder}/lock") else {
        return Err(Failed::memory(alloc));
    };
    let opened = OpenOptions::new()
        .write(true)
        .create(true)
        .open(rt, path.as_str());
    let file = match opened {
        Ok(file) => file,
        // (what is not there is the folder, or what it is in)
        Err(error) if is_not_there(&error) => {
            return Err(Failed::of_error(alloc, Outcome::Folder, folder, &error));
        }
        Err(error) => return Err(Failed::of_error(alloc, Outcome::Folder, path.as_str(), &error)),
    };
    match file.try_lock() {
        Ok(()) => Ok(Some(Locked { file })),
        Err(TryLockError::WouldBlock) => Ok(None),
        Err(TryLockError::Error(error)) => {
            Err(Failed::of_error(alloc, Outcome::Folder, path.as_str(), &error))
        }
    }
}
