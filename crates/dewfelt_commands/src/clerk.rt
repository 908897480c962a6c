//! The service's side: requests that lie in its folder are answered.

use crate::answer::head;
use crate::copying::remove_store;
use crate::listing::put_page;
use crate::names::{Names, commands_in, letters_in};
use crate::{Answer, Failed, Forgot, Office, Outcome, Request};
use jt_store::StoreError;
use jt_value::Phone;
use std::alloc::AllocError;
use std::fs::File;
use std::io::{ErrorKind, Write};
use std::rt::Files;
use std::{fs, io};

// So many requests at most are answered at one look, and so many files removed at a time (this project's own).
const MOST: usize = 256;

// So many octets at most does a request have (this project's own).
const LONGEST: u64 = 64;

/// Who answers the requests that lie in DIR/commands.
#[derive(Drop)]
pub struct Clerk {
    commands: String,
}

// The names of the files in a folder, the first ones where there are many.
fn names_in<R: Files + AllocGlobal + Clone + Drop>(
    rt: &R,
    folder: &str,
) -> io::Result<Vec<String>> {
    let mut names = Vec::new(rt.alloc());
    for entry in fs::read_dir(rt, folder)?.take(MOST) {
        let entry = entry?;
        names.push(String::from_str(rt.alloc(), entry.file_name())?)?;
    }
    Ok(names)
}

// The letters of the requests in a folder, of the first ones where there are many.
fn requests_in<R: Files + AllocGlobal + Clone + Drop>(
    rt: &R,
    folder: &str,
) -> io::Result<Vec<String>> {
    let mut requests = Vec::new(rt.alloc());
    for entry in fs::read_dir(rt, folder)? {
        let entry = entry?;
        if let Some(letters) = letters_in(entry.file_name()) {
            requests.push(String::from_str(rt.alloc(), letters)?)?;
        }
        if requests.len() == MOST {
            break;
        }
    }
    Ok(requests)
}

fn make_folder<R: Files>(rt: &R, folder: &str) -> io::Result<()> {
    match fs::create_dir(rt, folder) {
        Err(error) if error.kind() != ErrorKind::AlreadyExists => Err(error),
        _ => Ok(()),
    }
}

fn remove_any<R: Files + AllocGlobal>(rt: &R, path: &str) -> io::Result<()> {
    match fs::remove_file(rt, path) {
        Err(error) if error.kind() == ErrorKind::IsADirectory => fs::remove_dir_all(rt, path),
        removed => removed,
    }
}

// Removes what lies in a folder.
fn clear<R: Files + AllocGlobal + Clone + Drop>(rt: &R, folder: &str) -> io::Result<()> {
    let alloc = rt.alloc();
    for _ in 0..u64::MAX {
        let names = names_in(rt, folder)?;
        if names.is_empty() {
            break;
        }
        for name in &names {
            let path = format!(in alloc; "{folder}/{name}")?;
            remove_any(rt, path.as_str())?;
        }
    }
    Ok(())
}

// Puts an answer, whole or not at all.
fn put<R: Files + AllocGlobal>(
    rt: &R,
    names: &Names,
    outcome: Outcome,
    text: &str,
) -> io::Result<()> {
    let whole = Answer::text(rt.alloc(), outcome, text)?;
    fs::write(rt, names.answering.as_str(), whole.as_str())?;
    fs::rename(rt, names.answering.as_str(), names.answer.as_str())
}

fn put_failed<R: Files + AllocGlobal>(rt: &R, names: &Names, failed: &Failed) -> io::Result<()> {
    put(rt, names, failed.outcome, failed.text.as_str())
}

fn put_outcome<R: Files + AllocGlobal>(rt: &R, names: &Names, outcome: Outcome) -> io::Result<()> {
    put(rt, names, outcome, outcome.text())
}

fn outcome_of(error: StoreError) -> Outcome {
    match error {
        StoreError::Memory => Outcome::Memory,
        _ => Outcome::Store,
    }
}

// Writes the lines of all registrations. The inner error is the store's.
fn write_lines<R, F, O>(rt: &R, file: &mut F, office: &mut O) -> io::Result<Result<(), StoreError>>
where
    R: AllocGlobal,
    F: Write,
    O: Office,
{
    let mut last = None;
    for _ in 0..u64::MAX {
        let mut page = String::new(rt.alloc());
        last = match put_page(rt.alloc(), office, last, &mut page) {
            Ok(last) => last,
            Err(error) => return Ok(Err(error)),
        };
        file.write_all(page.as_bytes())?;
        if last.is_none() {
            break;
        }
    }
    Ok(Ok(()))
}

// Answers with the registrations.
fn put_registrations<R, O>(rt: &R, names: &Names, office: &mut O) -> io::Result<()>
where
    R: Files + AllocGlobal,
    O: Office,
{
    let mut file = File::create(rt, names.answering.as_str())?;
    let first = head(rt.alloc(), Outcome::Done)?;
    file.write_all(first.as_bytes())?;
    let written = write_lines(rt, &mut file, office)?;
    drop(file);
    match written {
        Ok(()) => fs::rename(rt, names.answering.as_str(), names.answer.as_str()),
        Err(error) => put_outcome(rt, names, outcome_of(error)),
    }
}

fn put_forgot<R, O>(rt: &R, names: &Names, office: &mut O, phone: &Phone) -> io::Result<()>
where
    R: Files + AllocGlobal,
    O: Office,
{
    match office.forget(rt.alloc(), phone) {
        Ok(Forgot::Gone) => put_outcome(rt, names, Outcome::Done),
        Ok(Forgot::NotRegistered) => put_outcome(rt, names, Outcome::NotRegistered),
        Ok(Forgot::Bound) => put_outcome(rt, names, Outcome::Bound),
        Err(error) => put_outcome(rt, names, outcome_of(error)),
    }
}

fn put_copy<R, O>(rt: &R, names: &Names, office: &mut O) -> io::Result<()>
where
    R: Files + AllocGlobal,
    O: Office,
{
    match office.copy(names.copy.as_str()) {
        Ok(()) => put_outcome(rt, names, Outcome::Done),
        Err(error) => {
            let path = names.copy.as_str();
            // (its part would keep a full disk full)
            remove_store(rt, path);
            let failed = Failed::of_error(rt.alloc(), Outcome::Store, path, &error);
            put_failed(rt, names, &failed)
        }
    }
}

// The text of a request; None where it is not there any more. One that is too long, or no file, whose read could wait for ever, reads
// as none.
fn request_text<R: Files + AllocGlobal>(rt: &R, path: &str) -> io::Result<Option<String>> {
    match fs::metadata(rt, path) {
        Ok(about) if about.len() > LONGEST || !about.is_file() => {
            return Ok(Some(String::new(rt.alloc())));
        }
        Ok(_) => {}
        Err(error) if error.kind() == ErrorKind::NotFound => return Ok(None),
        Err(error) => return Err(error),
    }
    match fs::read_to_string(rt, path) {
        Ok(text) => Ok(Some(text)),
        Err(error) if error.kind() == ErrorKind::NotFound => Ok(None),
        Err(error) => Err(error),
    }
}

fn put_answer<R, O>(rt: &R, names: &Names, office: &mut O, request: &Request) -> io::Result<()>
where
    R: Files + AllocGlobal,
    O: Office,
{
    match request {
        Request::Registrations => put_registrations(rt, names, office),
        Request::Forget(phone) => put_forgot(rt, names, office, phone),
        Request::Copy => put_copy(rt, names, office),
        Request::Stop => {
            let answered = put_outcome(rt, names, Outcome::Done);
            // (also where the disk is full)
            office.stop();
            answered
        }
    }
}

// Reads a request and puts the answer to it.
fn answer<R, O>(rt: &R, names: &Names, office: &mut O) -> io::Result<()>
where
    R: Files + AllocGlobal,
    O: Office,
{
    match request_text(rt, names.request.as_str()) {
        Ok(Some(text)) => match Request::of(rt.alloc(), text.as_str())? {
            Some(request) => put_answer(rt, names, office, &request),
            None => put_outcome(rt, names, Outcome::NotUnderstood),
        },
        Ok(None) => Ok(()),
        Err(error) => {
            let path = names.request.as_str();
            let failed = Failed::of_error(rt.alloc(), Outcome::Folder, path, &error);
            put_failed(rt, names, &failed)
        }
    }
}

impl Clerk {
    /// Makes DIR/commands, where it is missing, and removes what lies there.
    pub fn start<R>(rt: &R, folder: &str) -> io::Result<Clerk>
    where
        R: Files + AllocGlobal + Clone + Drop,
    {
        let commands = commands_in(rt.alloc(), folder)?;
        make_folder(rt, commands.as_str())?;
        clear(rt, commands.as_str())?;
        Ok(Clerk { commands })
    }

    // The letters of the requests that lie there. The folder is made anew where somebody removed it.
    fn letters<R>(&self, rt: &R) -> io::Result<Vec<String>>
    where
        R: Files + AllocGlobal + Clone + Drop,
    {
        match requests_in(rt, self.commands.as_str()) {
            Err(error) if error.kind() == ErrorKind::NotFound => {
                make_folder(rt, self.commands.as_str())?;
                Ok(Vec::new(rt.alloc()))
            }
            found => found,
        }
    }

    /// Answers the requests that lie there, 256 at most. A request is gone once it is answered, or where its answer could not be
    /// written, which is the error then.
    pub fn look<R, O>(&self, rt: &R, office: &mut O) -> io::Result<()>
    where
        R: Files + AllocGlobal + Clone + Drop,
        O: Office,
    {
        for letters in &self.letters(rt)? {
            self.answer_one(rt, letters.as_str(), office)?;
        }
        Ok(())
    }

    fn answer_one<R, O>(&self, rt: &R, letters: &str, office: &mut O) -> io::Result<()>
    where
        R: Files + AllocGlobal,
        O: Office,
    {
        let names = Names::new(rt.alloc(), self.commands.as_str(), letters)?;
        let answered = answer(rt, &names, office);
        let _ = fs::remove_file(rt, names.request.as_str());
        if answered.is_err() {
            let _ = fs::remove_file(rt, names.answering.as_str());
        }
        answered
    }
}
