//! The commands.

use crate::asking::{PATIENCE, Reached, reach, wait_until_gone};
use crate::copying::{has_folder, is_new, remove_store, settle};
use crate::listing::all_lines;
use crate::names::{new_letters, store_in};
use crate::{Failed, Kept, Outcome, Request, Stores, copy_store};
use jt_outside::Sink;
use jt_store::{Keeper, StoreError};
use jt_value::Phone;
use std::alloc::{AllocError, Global};
use std::fs;
use std::fs::File;
use std::random::RandomSource;
use std::rt::Files;
use std::time::Clock;

// The path of the store's file, which has to be there.
fn store_there<R: Files + AllocGlobal>(rt: &R, folder: &str) -> Result<String, Failed> {
    let Ok(path) = store_in(rt.alloc(), folder) else {
        return Err(Failed::memory(rt.alloc()));
    };
    match fs::metadata(rt, path.as_str()) {
        Ok(_) => Ok(path),
        Err(error) => Err(Failed::of_error(rt.alloc(), Outcome::Store, path.as_str(), &error)),
    }
}

fn store_fault<R: AllocGlobal>(rt: &R, path: &str, error: StoreError) -> Failed {
    match error {
        StoreError::Memory => Failed::memory(rt.alloc()),
        _ => Failed::of_path(rt.alloc(), Outcome::Store, path, "store fault"),
    }
}

// The lines of the registrations in a file that no service has.
fn list_file<R, T>(rt: &R, stores: &T, folder: &str) -> Result<String, Failed>
where
    R: Files + AllocGlobal,
    T: Stores,
{
    let path = store_there(rt, folder)?;
    let mut kept = match stores.at(path.as_str()) {
        Ok(keeper) => Kept { keeper },
        Err(_) => return Err(Failed::memory(rt.alloc())),
    };
    let lines = all_lines(rt.alloc(), &mut kept);
    drop(kept);
    match lines {
        Ok(lines) => Ok(lines),
        Err(error) => Err(store_fault(rt, path.as_str(), error)),
    }
}

/// The registrations over a folder, a line each, in the order of the phones' digits.
pub fn registrations<R, T, L>(
    rt: &R,
    stores: &T,
    folder: &str,
    err: &mut L,
) -> Result<String, Failed>
where
    R: Files<File = File> + Clock + RandomSource + AllocGlobal,
    T: Stores,
    L: Sink,
{
    match reach(rt, folder, &Request::Registrations, PATIENCE, err)? {
        Reached::Free(locked) => {
            let lines = list_file(rt, stores, folder);
            drop(locked);
            lines
        }
        Reached::Answered(answer, asked) => {
            asked.remove(rt);
            answer.printed()
        }
    }
}

// Removes the phone's registration. Tells whether there was one.
fn unregister<P: Keeper>(alloc: Global, keeper: &mut P, phone: &Phone) -> Result<bool, StoreError> {
    if keeper.registered(alloc, phone)?.is_none() {
        return Ok(false);
    }
    keeper.unregister(alloc, phone)?;
    Ok(true)
}

fn forget_in_file<R, T>(rt: &R, stores: &T, folder: &str, phone: &Phone) -> Result<(), Failed>
where
    R: Files + AllocGlobal,
    T: Stores,
{
    let path = store_there(rt, folder)?;
    let Ok(mut keeper) = stores.at(path.as_str()) else {
        return Err(Failed::memory(rt.alloc()));
    };
    let removed = unregister(rt.alloc(), &mut keeper, phone);
    drop(keeper);
    match removed {
        Ok(true) => Ok(()),
        Ok(false) => Err(Failed::of(rt.alloc(), Outcome::NotRegistered)),
        Err(error) => Err(store_fault(rt, path.as_str(), error)),
    }
}

/// Removes the registration of a phone over a folder.
pub fn forget<R, T, L>(
    rt: &R,
    stores: &T,
    folder: &str,
    phone: &Phone,
    err: &mut L,
) -> Result<(), Failed>
where
    R: Files<File = File> + Clock + RandomSource + AllocGlobal,
    T: Stores,
    L: Sink,
{
    match reach(rt, folder, &Request::Forget(*phone), PATIENCE, err)? {
        Reached::Free(locked) => {
            let forgotten = forget_in_file(rt, stores, folder, phone);
            drop(locked);
            forgotten
        }
        Reached::Answered(answer, asked) => {
            asked.remove(rt);
            let _text = answer.printed()?;
            Ok(())
        }
    }
}

// The path under which a copy is made, beside the one that it gets.
fn part_of<R: RandomSource + AllocGlobal>(rt: &R, file: &str) -> Result<String, Failed> {
    let letters = match new_letters(rt) {
        Ok(letters) => letters,
        Err(error) => return Err(Failed::of_error(rt.alloc(), Outcome::File, file, &error)),
    };
    match format!(in rt.alloc(); "{file}.{letters}") {
        Ok(path) => Ok(path),
        Err(_) => Err(Failed::memory(rt.alloc())),
    }
}

fn take_files<R: Files + AllocGlobal>(rt: &R, from: &str, to: &str) -> Result<(), Failed> {
    match copy_store(rt, from, to) {
        Ok(()) => Ok(()),
        Err(error) => Err(Failed::of_error(rt.alloc(), Outcome::File, to, &error)),
    }
}

// Copies the files of a folder's store to a path, or those that the service copied.
fn take<R, L>(rt: &R, folder: &str, to: &str, err: &mut L) -> Result<(), Failed>
where
    R: Files<File = File> + Clock + RandomSource + AllocGlobal,
    L: Sink,
{
    match reach(rt, folder, &Request::Copy, u64::MAX, err)? {
        Reached::Free(locked) => {
            let path = store_there(rt, folder)?;
            let taken = take_files(rt, path.as_str(), to);
            drop(locked);
            taken
        }
        Reached::Answered(answer, asked) => {
            let taken = match answer.printed() {
                Ok(_) => take_files(rt, asked.copy(), to),
                Err(failed) => Err(failed),
            };
            asked.remove(rt);
            taken
        }
    }
}

fn copied_text(alloc: Global, file: &str, length: u64) -> Result<String, AllocError> {
    format!(in alloc; "{file}: {length} octets\n")
}

fn take_and_settle<R, T, L>(
    rt: &R,
    stores: &T,
    folder: &str,
    part: &str,
    file: &str,
    err: &mut L,
) -> Result<u64, Failed>
where
    R: Files<File = File> + Clock + RandomSource + AllocGlobal,
    T: Stores,
    L: Sink,
{
    take(rt, folder, part, err)?;
    settle(rt, stores, part, file)
}

/// Copies rows and registrations of a folder into a file that is not there yet. The file is whole or not there.
pub fn copy<R, T, L>(
    rt: &R,
    stores: &T,
    folder: &str,
    file: &str,
    err: &mut L,
) -> Result<String, Failed>
where
    R: Files<File = File> + Clock + RandomSource + AllocGlobal,
    T: Stores,
    L: Sink,
{
    has_folder(rt, file)?;
    is_new(rt, file)?;
    let part = part_of(rt, file)?;
    match take_and_settle(rt, stores, folder, part.as_str(), file, err) {
        Ok(length) => match copied_text(rt.alloc(), file, length) {
            Ok(text) => Ok(text),
            Err(_) => Err(Failed::memory(rt.alloc())),
        },
        Err(failed) => {
            remove_store(rt, part.as_str());
            Err(failed)
        }
    }
}

/// Stops the service over a folder, and waits until it is gone. Says so, or that none runs.
pub fn stop<R, L>(rt: &R, folder: &str, err: &mut L) -> Result<&'static str, Failed>
where
    R: Files<File = File> + Clock + RandomSource + AllocGlobal,
    L: Sink,
{
    match reach(rt, folder, &Request::Stop, PATIENCE, err)? {
        Reached::Free(locked) => {
            drop(locked);
            Ok("no service runs\n")
        }
        Reached::Answered(answer, asked) => {
            let gone = match answer.printed() {
                Ok(_) => wait_until_gone(rt, folder, &asked),
                Err(failed) => Err(failed),
            };
            asked.remove(rt);
            gone?;
            Ok("stopped\n")
        }
    }
}
