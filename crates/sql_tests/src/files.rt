//! Where the tests' files lie.

use std::{fs, io};

/// Makes a folder with nothing in it.
pub fn make_folder(rt: &HostRuntime, folder: &str) -> io::Result<()> {
    let _ = fs::remove_dir_all(rt, folder);
    fs::create_dir(rt, folder)
}

/// Removes a folder and what is in it.
pub fn remove_folder(rt: &HostRuntime, folder: &str) -> io::Result<()> {
    fs::remove_dir_all(rt, folder)
}
