//! The files of a folder.

use crate::Status;
use crate::reading::read_whole;
use dewfelt_commands::{Clerk, Failed, Locked, try_lock};
use dewfelt_fleet::{BadLine, Fleet, NoFleet, read_fleet};
use dewfelt_settings::{Choices, Settings, Wrong, read_file};
use std::alloc::{AllocError, Global};
use std::fs::File;
use std::io::ErrorKind;
use std::net::SocketAddr;
use std::rt::Files;
use std::{fs, io};

/// Why a folder can't be served: the status, and the line that says so.
#[derive(Drop)]
pub struct Trouble {
    pub status: Status,
    pub text: String,
}

impl Trouble {
    /// The trouble of a file, with what is said of it. Where memory is refused for the line there is none.
    pub fn of_file(alloc: Global, status: Status, path: &str, said: &str) -> Trouble {
        match format!(in alloc; "{path}: {said}") {
            Ok(text) => Trouble { status, text },
            Err(_) => Trouble::memory(alloc),
        }
    }

    /// The trouble of a file, with what the system says of it.
    pub fn of_error(alloc: Global, status: Status, path: &str, error: &io::Error) -> Trouble {
        match format!(in alloc; "{path}: {error}") {
            Ok(text) => Trouble { status, text },
            Err(_) => Trouble::memory(alloc),
        }
    }

    fn of_wrong(alloc: Global, path: &str, wrong: &Wrong) -> Trouble {
        match format!(in alloc; "{path}: {wrong}") {
            Ok(text) => Trouble {
                status: Status::Settings,
                text,
            },
            Err(_) => Trouble::memory(alloc),
        }
    }

    fn of_line(alloc: Global, path: &str, bad: &BadLine) -> Trouble {
        match format!(in alloc; "{path}: {bad}") {
            Ok(text) => Trouble {
                status: Status::Fleet,
                text,
            },
            Err(_) => Trouble::memory(alloc),
        }
    }

    /// The address can't be listened at.
    pub fn of_listen(alloc: Global, address: SocketAddr, error: &io::Error) -> Trouble {
        match format!(in alloc; "{address} can't be listened at: {error}") {
            Ok(text) => Trouble {
                status: Status::Listen,
                text,
            },
            Err(_) => Trouble::memory(alloc),
        }
    }

    /// Memory was wanted and refused. Its text is empty: the status has words of its own.
    pub fn memory(alloc: Global) -> Trouble {
        Trouble {
            status: Status::Memory,
            text: String::new(alloc),
        }
    }
}

/// The path of a file of the folder.
pub fn path_in(alloc: Global, folder: &str, name: &str) -> Result<String, AllocError> {
    format!(in alloc; "{folder}/{name}")
}

/// What the file of settings chooses: nothing, where there is none.
pub fn read_settings_of<R: Files + AllocGlobal>(rt: &R, folder: &str) -> Result<Choices, Trouble> {
    let alloc = rt.alloc();
    let Ok(path) = path_in(alloc, folder, "dewfelt.toml") else {
        return Err(Trouble::memory(alloc));
    };
    match read_whole(rt, path.as_str()) {
        Ok(octets) => match read_file(alloc, octets.as_slice()) {
            Ok(choices) => Ok(choices),
            Err(wrong) => Err(Trouble::of_wrong(alloc, path.as_str(), &wrong)),
        },
        Err(error) if error.kind() == ErrorKind::NotFound => Ok(Choices::none()),
        Err(error) if error.kind() == ErrorKind::NotADirectory => {
            Err(Trouble::of_error(alloc, Status::Folder, folder, &error))
        }
        Err(error) => Err(Trouble::of_error(alloc, Status::Settings, path.as_str(), &error)),
    }
}

/// The settings of a service over a folder, started by these words.
pub fn settings_of<R: Files + AllocGlobal>(
    rt: &R,
    folder: &str,
    words: &Choices,
) -> Result<Settings, Trouble> {
    let file = read_settings_of(rt, folder)?;
    Ok(Settings::of(words, &file))
}

// Why the file of the fleet can't be read: by itself, or since there is no folder.
fn no_fleet<R: Files + AllocGlobal>(
    rt: &R,
    folder: &str,
    path: &str,
    error: &io::Error,
) -> Trouble {
    match fs::metadata(rt, folder) {
        Ok(_) => Trouble::of_error(rt.alloc(), Status::Fleet, path, error),
        Err(missing) => Trouble::of_error(rt.alloc(), Status::Folder, folder, &missing),
    }
}

/// The text of the file of the fleet, and the fleet that it names.
pub fn read_fleet_of<R: Files + AllocGlobal>(
    rt: &R,
    folder: &str,
) -> Result<(Vec<u8>, Fleet), Trouble> {
    let alloc = rt.alloc();
    let Ok(path) = path_in(alloc, folder, "fleet") else {
        return Err(Trouble::memory(alloc));
    };
    let text = match read_whole(rt, path.as_str()) {
        Ok(text) => text,
        Err(error) => return Err(no_fleet(rt, folder, path.as_str(), &error)),
    };
    match read_fleet(alloc, text.as_slice()) {
        Ok(fleet) => Ok((text, fleet)),
        Err(NoFleet::Bad(bad)) => Err(Trouble::of_line(alloc, path.as_str(), &bad)),
        Err(NoFleet::Memory) => Err(Trouble::memory(alloc)),
    }
}

/// Locks the folder, by a file in it that stays.
pub fn lock<R: Files<File = File> + AllocGlobal>(rt: &R, folder: &str) -> Result<Locked, Trouble> {
    let alloc = rt.alloc();
    match try_lock(rt, folder) {
        Ok(Some(locked)) => Ok(locked),
        Ok(None) => Err(Trouble::of_file(
            alloc,
            Status::Busy,
            folder,
            "another dewfelt runs over this folder",
        )),
        Err(failed) => {
            let Failed { outcome: _, text } = failed;
            Err(Trouble {
                status: Status::Folder,
                text,
            })
        }
    }
}

/// The folder's clerk, who has a folder for requests there, in which nothing lies.
pub fn clerk_of<R: Files + AllocGlobal + Clone + Drop>(
    rt: &R,
    folder: &str,
) -> Result<Clerk, Trouble> {
    match Clerk::start(rt, folder) {
        Ok(clerk) => Ok(clerk),
        Err(error) => Err(Trouble::of_error(rt.alloc(), Status::Folder, folder, &error)),
    }
}
