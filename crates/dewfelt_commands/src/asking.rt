//! The command's side: a request is put into the service's folder, and its answer waited for.

use crate::failed::is_not_there;
use crate::names::{Names, commands_in, log_of, new_letters};
use crate::{Answer, Failed, Locked, Outcome, Request, try_lock};
use jt_outside::{Sink, write_all};
use std::fs::File;
use std::io::ErrorKind;
use std::random::RandomSource;
use std::rt::Files;
use std::time::{Clock, Duration};
use std::{fs, io, thread};

// How long is waited between two looks, in milliseconds (this project's own).
const PAUSE: u64 = 100;

// After so many looks it is said that a service is waited for: 3 seconds (this project's own).
const SAYS: u64 = 30;

/// How many looks the answer to a request may take: 30 seconds (this project's own).
pub(crate) const PATIENCE: u64 = 300;

/// What came of a command's reach for a folder.
#[derive(Drop)]
pub(crate) enum Reached {
    /// No service runs over it, and none begins while this is there.
    Free(Locked),
    /// The service answered.
    Answered(Answer, Asked),
}

/// A request that was put into the folder of a service.
#[derive(Drop)]
pub(crate) struct Asked {
    names: Names,
    text: String,
}

fn pause<R: Clock>(rt: &R) {
    thread::sleep(rt, Duration::from_millis(PAUSE));
}

// Whether a file is there. One that can't be looked for is not.
fn is_there<R: Files>(rt: &R, path: &str) -> bool {
    matches!(fs::exists(rt, path), Ok(true))
}

fn new_asked<R>(rt: &R, folder: &str, request: &Request) -> io::Result<Asked>
where
    R: RandomSource + AllocGlobal,
{
    let alloc = rt.alloc();
    let commands = commands_in(alloc, folder)?;
    let letters = new_letters(rt)?;
    Ok(Asked {
        names: Names::new(alloc, commands.as_str(), letters.as_str())?,
        text: request.text(alloc)?,
    })
}

impl Asked {
    // The request with letters of its own, which lies nowhere yet.
    fn new<R>(rt: &R, folder: &str, request: &Request) -> Result<Asked, Failed>
    where
        R: RandomSource + AllocGlobal,
    {
        match new_asked(rt, folder, request) {
            Ok(asked) => Ok(asked),
            Err(error) if error.kind() == ErrorKind::OutOfMemory => Err(Failed::memory(rt.alloc())),
            Err(error) => Err(Failed::of_error(rt.alloc(), Outcome::Folder, folder, &error)),
        }
    }

    // Puts the request, unless it lies there, or its answer does. A folder that is not there yet is made by the service.
    fn put<R: Files + AllocGlobal>(&self, rt: &R) -> Result<(), Failed> {
        let names = &self.names;
        if is_there(rt, names.request.as_str()) || is_there(rt, names.answer.as_str()) {
            return Ok(());
        }
        match self.write(rt) {
            Err(error) if error.kind() != ErrorKind::NotFound => {
                let path = names.request.as_str();
                Err(Failed::of_error(rt.alloc(), Outcome::Folder, path, &error))
            }
            _ => Ok(()),
        }
    }

    fn write<R: Files>(&self, rt: &R) -> io::Result<()> {
        fs::write(rt, self.names.asking.as_str(), self.text.as_str())?;
        fs::rename(rt, self.names.asking.as_str(), self.names.request.as_str())
    }

    // The answer, where it is there.
    fn answer<R: Files + AllocGlobal>(&self, rt: &R) -> Result<Option<Answer>, Failed> {
        let alloc = rt.alloc();
        let path = self.names.answer.as_str();
        let text = match fs::read_to_string(rt, path) {
            Ok(text) => text,
            // (where DIR is no folder, that is told of its lock)
            Err(error) if is_not_there(&error) => return Ok(None),
            Err(error) => return Err(Failed::of_error(alloc, Outcome::Folder, path, &error)),
        };
        match Answer::of(alloc, text.as_str()) {
            Ok(Some(answer)) => Ok(Some(answer)),
            Ok(None) => Err(Failed::of(alloc, Outcome::NotUnderstood)),
            Err(_) => Err(Failed::memory(alloc)),
        }
    }

    /// The copy that the service made.
    pub(crate) fn copy(&self) -> &str {
        self.names.copy.as_str()
    }

    /// Whether its answer still lies there. A service that starts removes it.
    pub(crate) fn is_answered<R: Files>(&self, rt: &R) -> bool {
        is_there(rt, self.names.answer.as_str())
    }

    /// Removes all that lies there for it.
    pub(crate) fn remove<R: Files + AllocGlobal>(&self, rt: &R) {
        let names = &self.names;
        let _ = fs::remove_file(rt, names.request.as_str());
        let _ = fs::remove_file(rt, names.asking.as_str());
        let _ = fs::remove_file(rt, names.answer.as_str());
        let _ = fs::remove_file(rt, names.copy.as_str());
        if let Ok(log) = log_of(rt.alloc(), names.copy.as_str()) {
            let _ = fs::remove_file(rt, log.as_str());
        }
    }

    // Looks once: at the answer, then at the lock; else the request is put, where it does not lie there.
    fn look<R>(&self, rt: &R, folder: &str) -> Result<Option<Looked>, Failed>
    where
        R: Files<File = File> + AllocGlobal,
    {
        if let Some(answer) = self.answer(rt)? {
            return Ok(Some(Looked::Answer(answer)));
        }
        if let Some(locked) = try_lock(rt, folder)? {
            return Ok(Some(Looked::Locked(locked)));
        }
        self.put(rt)?;
        Ok(None)
    }
}

#[derive(Drop)]
enum Looked {
    Answer(Answer),
    Locked(Locked),
}

fn no_answer<R: AllocGlobal>(rt: &R, folder: &str) -> Failed {
    let said = "the service did not answer within 30 seconds; what was asked may still be done";
    Failed::of_path(rt.alloc(), Outcome::NoAnswer, folder, said)
}

// Looks until there is an answer or no service, at most so often.
fn wait<R, L>(
    rt: &R,
    folder: &str,
    asked: &Asked,
    patience: u64,
    err: &mut L,
) -> Result<Looked, Failed>
where
    R: Files<File = File> + Clock + AllocGlobal,
    L: Sink,
{
    for look in 0..patience {
        if let Some(looked) = asked.look(rt, folder)? {
            return Ok(looked);
        }
        if look == SAYS {
            let _ = write_all(
                err,
                b"dewfelt: a service has the folder: waits for its answer\n",
            );
        }
        pause(rt);
    }
    Err(no_answer(rt, folder))
}

/// Locks the folder, or asks the service that has it, and waits for the answer, for so many looks.
pub(crate) fn reach<R, L>(
    rt: &R,
    folder: &str,
    request: &Request,
    patience: u64,
    err: &mut L,
) -> Result<Reached, Failed>
where
    R: Files<File = File> + Clock + RandomSource + AllocGlobal,
    L: Sink,
{
    let asked = Asked::new(rt, folder, request)?;
    match wait(rt, folder, &asked, patience, err) {
        Ok(Looked::Answer(answer)) => Ok(Reached::Answered(answer, asked)),
        Ok(Looked::Locked(locked)) => {
            asked.remove(rt);
            Ok(Reached::Free(locked))
        }
        Err(failed) => {
            asked.remove(rt);
            Err(failed)
        }
    }
}

/// Waits until the service that answered is gone.
pub(crate) fn wait_until_gone<R>(rt: &R, folder: &str, asked: &Asked) -> Result<(), Failed>
where
    R: Files<File = File> + Clock + AllocGlobal,
{
    for _ in 0..u64::MAX {
        if !asked.is_answered(rt) || try_lock(rt, folder)?.is_some() {
            break;
        }
        pause(rt);
    }
    Ok(())
}
