//! The program `dewfelt`: it makes the real objects, and leaves all else to `dewfelt_serve`.
#![tactic(auto)]

mod file_keeper;
mod made;

use crate::file_keeper::FileKeeper;
use crate::made::{Made, MakesKeeper};
use dewfelt_commands::{Clerk, Failed, Locked, copy, forget, registrations, stop};
use dewfelt_fleet::Fleet;
use dewfelt_serve::{
    Flags, Interface, OverFolder, Status, Told, Trouble, Web, check, clerk_of, lock, page, page_of,
    read_fleet_of, read_settings_of, serve_over,
};
use dewfelt_settings::{Choices, Command, HELP, Http, Settings, VERSION, read_command};
use jt_outside::StdSink;
use jt_service::{Door, ServiceListen};
use jt_sql::SqlKeeper;
use jt_store::Registrations;
use jt_value::Memory;
use std::alloc::{AllocError, Global};
use std::env::Env;
use std::io::{ErrorKind, IsTerminal, Read, Stdin, Stdout};
use std::net::SocketAddr;
use std::process::ExitCode;
use std::random::RandomSource;
use std::sync::atomic::{AtomicBool, Ordering};
use std::sync::{Arc, Wait};
use std::thread::Threads;
use std::time::Clock;
use std::{env, io, thread};

// How many octets of standard input a read takes.
const INPUT: usize = 64;

// The words after the program's name. A word that is not UTF-8 makes the command line faulty.
fn words<R: Env + AllocGlobal>(rt: &R) -> io::Result<Vec<String>> {
    let mut words = Vec::new(rt.alloc());
    for word in env::args(rt)?.skip(1) {
        words.push(word)?;
    }
    Ok(words)
}

// Says of a status what is always said of it.
fn say_text(rt: &HostRuntime, status: Status) -> Status {
    let text = status.text();
    let _ = eprintln!(rt; "dewfelt: {text}");
    status
}

fn say(rt: &HostRuntime, trouble: &Trouble) -> Status {
    let text = trouble.text.as_str();
    if text.is_empty() {
        return say_text(rt, trouble.status);
    }
    let _ = eprintln!(rt; "dewfelt: {text}");
    trouble.status
}

fn print_text(rt: &HostRuntime, text: &str) -> Status {
    match print!(rt; "{text}") {
        Ok(()) => Status::Done,
        Err(_) => say_text(rt, Status::Output),
    }
}

// Reads the input to its end, or until it can't be read.
fn wait_for_the_end(mut input: Stdin, ended: Arc<AtomicBool>) {
    let mut room = [0u8; INPUT];
    for _ in 0..u64::MAX {
        match input.read(&mut room) {
            Ok(0) => break,
            Ok(_) => {}
            Err(error) if error.kind() == ErrorKind::Interrupted => {}
            Err(_) => break,
        }
    }
    ended.store(true, Ordering::SeqCst);
}

// Who makes keepers of files.
#[derive(Drop)]
struct SqlFiles {
    rt: HostRuntime,
}

impl MakesKeeper<FileKeeper> for SqlFiles {
    fn make(&self, path: &str) -> Result<FileKeeper, Memory> {
        Ok(FileKeeper {
            keeper: SqlKeeper::at(self.rt.clone()?, path)?,
        })
    }
}

fn sql_files(rt: &HostRuntime) -> Result<SqlFiles, AllocError> {
    Ok(SqlFiles { rt: rt.clone()? })
}

// What is read before a service is made, and the lock of the folder.
#[derive(Drop)]
struct Prepared {
    settings: Settings,
    locked: Locked,
    text: Vec<u8>,
    fleet: Fleet,
    clerk: Clerk,
}

fn prepare(rt: &HostRuntime, folder: &str, words: &Choices) -> Result<Prepared, Trouble> {
    let file = read_settings_of(rt, folder)?;
    let locked = lock(rt, folder)?;
    let (text, fleet) = read_fleet_of(rt, folder)?;
    Ok(Prepared {
        settings: Settings::of(words, &file),
        locked,
        text,
        fleet,
        clerk: clerk_of(rt, folder)?,
    })
}

// Listens at an address. The door's links look at the flag.
fn door_of(
    rt: &HostRuntime,
    address: SocketAddr,
    ends: &Arc<AtomicBool>,
) -> Result<ServiceListen<HostRuntime>, Trouble> {
    let Ok(own) = rt.clone() else {
        return Err(Trouble::memory(rt.alloc()));
    };
    let Ok(ends) = ends.clone() else {
        return Err(Trouble::memory(rt.alloc()));
    };
    match ServiceListen::bind(own, address, ends) {
        Ok(door) => Ok(door),
        Err(error) => Err(Trouble::of_listen(rt.alloc(), address, &error)),
    }
}

// The interface over HTTP, where the settings want one.
fn web_of(
    rt: &HostRuntime,
    folder: &str,
    settings: &Settings,
    stops: &Arc<AtomicBool>,
) -> Result<Option<Web<ServiceListen<HostRuntime>>>, Trouble> {
    let Http::At(address) = settings.http else {
        return Ok(None);
    };
    let Ok(ends) = stops.clone() else {
        return Err(Trouble::memory(rt.alloc()));
    };
    // (who stops the service has not to wait for browsers besides)
    let interface = Interface::of(rt, folder, settings, address, ends)?;
    Ok(Some(Web {
        door: door_of(rt, address, &interface.ends)?,
        interface,
    }))
}

// Where terminals come in, and browsers.
#[derive(Drop)]
struct Doors {
    door: ServiceListen<HostRuntime>,
    web: Option<Web<ServiceListen<HostRuntime>>>,
}

fn doors_of(
    rt: &HostRuntime,
    folder: &str,
    settings: &Settings,
    flags: &Flags,
) -> Result<Doors, Trouble> {
    Ok(Doors {
        door: door_of(rt, settings.listen, &flags.ends)?,
        web: web_of(rt, folder, settings, &flags.stops)?,
    })
}

// Shows the address of the page, with its token, to who looks at a terminal. A file or another program gets no token.
fn show_page(rt: &HostRuntime, folder: &str, settings: &Settings) {
    if !rt.stdout().is_terminal() {
        return;
    }
    if let Ok(line) = page_of(rt, folder, settings) {
        let text = line.as_str();
        let _ = print!(rt; "{text}");
    }
}

fn flags(alloc: Global) -> Result<Flags, AllocError> {
    Ok(Flags {
        stops: Arc::new(alloc, AtomicBool::new(false))?,
        ends: Arc::new(alloc, AtomicBool::new(false))?,
    })
}

// Starts the thread that sets the first flag once standard input has ended.
fn watch_input<R: Threads>(threads: &R, rt: &HostRuntime, flags: &Flags) -> Result<(), Status> {
    let input = rt.stdin();
    let Ok(stops) = flags.stops.clone() else {
        return Err(Status::Memory);
    };
    match thread::spawn(threads, move || wait_for_the_end(input, stops)) {
        Ok(_) => Ok(()),
        Err(_) => Err(Status::Threads),
    }
}

// Who is told, and what reads the folder's files.
fn made_of<R: Wait + Clock + Clone + Drop>(
    threads: &R,
    rt: &HostRuntime,
) -> Result<(Told<R>, HostRuntime), AllocError> {
    let told = Told::new(rt.alloc(), threads.clone()?)?;
    Ok((told, rt.clone()?))
}

// Serves over a door and keepers of any types.
fn serve_over_both<R, D, H, K, M>(
    threads: &R,
    rt: &HostRuntime,
    folder: &str,
    prepared: Prepared,
    door: D,
    web: Option<Web<H>>,
    maker: M,
    flags: Flags,
) -> Status
where
    R: Threads + RandomSource + Wait + Clock + Sync + Send + Clone + Drop,
    D: Door + Drop,
    D::Link: Send,
    H: Door + Send + Drop,
    H::Link: Send,
    K: Registrations + Send + Drop,
    M: MakesKeeper<K> + Drop,
{
    let Prepared {
        settings,
        locked,
        text,
        fleet,
        clerk,
    } = prepared;
    if settings.until_input_ends {
        if let Err(status) = watch_input(threads, rt, &flags) {
            return status;
        }
    }
    let Ok((told, files)) = made_of(threads, rt) else {
        return Status::Memory;
    };
    let over = OverFolder {
        folder,
        files,
        stores: Made::<K, M>::by(maker),
        text,
        fleet,
        clerk,
        door,
        sink: StdSink::new(rt.stdout()),
        told,
        web,
    };
    let status = serve_over(threads, rt.alloc(), over, &settings, flags);
    drop(locked);
    status
}

fn serve_folder<R, K, M>(
    threads: &R,
    rt: &HostRuntime,
    maker: M,
    folder: &str,
    words: &Choices,
) -> Status
where
    R: Threads + RandomSource + Wait + Clock + Sync + Send + Clone + Drop,
    K: Registrations + Send + Drop,
    M: MakesKeeper<K> + Drop,
{
    let prepared = match prepare(rt, folder, words) {
        Ok(prepared) => prepared,
        Err(trouble) => return say(rt, &trouble),
    };
    let Ok(flags) = flags(rt.alloc()) else {
        return say_text(rt, Status::Memory);
    };
    match doors_of(rt, folder, &prepared.settings, &flags) {
        Ok(doors) => {
            let Doors { door, web } = doors;
            show_page(rt, folder, &prepared.settings);
            let status = serve_over_both::<
                R,
                ServiceListen<HostRuntime>,
                ServiceListen<HostRuntime>,
                K,
                M,
            >(threads, rt, folder, prepared, door, web, maker, flags);
            say_status(rt, folder, status)
        }
        Err(trouble) => say(rt, &trouble),
    }
}

// Says why a service ended, where it was not asked to.
fn say_status(rt: &HostRuntime, folder: &str, status: Status) -> Status {
    let why = status.text();
    if why.is_empty() {
        return status;
    }
    let _ = eprintln!(rt; "dewfelt: {folder}: {why}");
    status
}

fn check_folder(rt: &HostRuntime, folder: &str, words: &Choices) -> Status {
    match check(rt, folder, words) {
        Ok(text) => print_text(rt, text.as_str()),
        Err(trouble) => say(rt, &trouble),
    }
}

fn print_page(rt: &HostRuntime, folder: &str, words: &Choices) -> Status {
    match page(rt, folder, words) {
        Ok(text) => print_text(rt, text.as_str()),
        Err(trouble) => say(rt, &trouble),
    }
}

// How the program ends where a command beside a service ended so, and what it prints.
fn end_of(rt: &HostRuntime, answer: Result<String, Failed>) -> u8 {
    match answer {
        Ok(text) => print_text(rt, text.as_str()).number(),
        Err(failed) => {
            let why = failed.text.as_str();
            let why = if why.is_empty() {
                failed.outcome.text()
            } else {
                why
            };
            let _ = eprintln!(rt; "dewfelt: {why}");
            failed.outcome.number()
        }
    }
}

fn text_of(rt: &HostRuntime, said: Result<&'static str, Failed>) -> Result<String, Failed> {
    match String::from_str(rt.alloc(), said?) {
        Ok(text) => Ok(text),
        Err(_) => Err(Failed::memory(rt.alloc())),
    }
}

// What a command beside a service prints.
fn beside<K, M>(rt: &HostRuntime, maker: M, command: Command) -> Result<String, Failed>
where
    K: Registrations + Drop,
    M: MakesKeeper<K> + Drop,
{
    let stores = Made::<K, M>::by(maker);
    let mut err = StdSink::new(rt.stderr());
    match command {
        Command::Registrations(folder) => registrations(rt, &stores, folder, &mut err),
        Command::Forget(folder, phone) => {
            text_of(
                rt,
                forget(rt, &stores, folder, &phone, &mut err).map(|()| ""),
            )
        }
        Command::Copy(folder, file) => copy(rt, &stores, folder, file, &mut err),
        Command::Stop(folder) => text_of(rt, stop(rt, folder, &mut err)),
        _ => text_of(rt, Ok("")),
    }
}

// Does what the words say, over keepers of any type.
fn over_words<R, K, M>(threads: &R, rt: &HostRuntime, maker: M, words: &[String]) -> u8
where
    R: Threads + RandomSource + Wait + Clock + Sync + Send + Clone + Drop,
    K: Registrations + Send + Drop,
    M: MakesKeeper<K> + Drop,
{
    match read_command(rt.alloc(), words) {
        Ok(Command::Serve(folder, choices)) => {
            serve_folder::<R, K, M>(threads, rt, maker, folder, &choices).number()
        }
        Ok(Command::Check(folder, choices)) => check_folder(rt, folder, &choices).number(),
        Ok(Command::Page(folder, choices)) => print_page(rt, folder, &choices).number(),
        Ok(Command::Help) => print_text(rt, HELP).number(),
        Ok(Command::Version) => print_text(rt, VERSION).number(),
        Ok(command) => end_of(rt, beside::<K, M>(rt, maker, command)),
        Err(wrong) => {
            let _ = eprintln!(rt; "dewfelt: {wrong}");
            Status::Usage.number()
        }
    }
}

// Why there are no words: memory was refused, or one is no UTF-8.
fn status_of_words(error: &io::Error) -> Status {
    if error.kind() == ErrorKind::OutOfMemory {
        return Status::Memory;
    }
    Status::Usage
}

// Does what the words say, where there are any.
fn run<R, K, M>(threads: &R, rt: &HostRuntime, maker: M, words: io::Result<Vec<String>>) -> ExitCode
where
    R: Threads + RandomSource + Wait + Clock + Sync + Send + Clone + Drop,
    K: Registrations + Send + Drop,
    M: MakesKeeper<K> + Drop,
{
    ExitCode::from(match words {
        Ok(words) => over_words::<R, K, M>(threads, rt, maker, words.as_slice()),
        Err(error) => say_text(rt, status_of_words(&error)).number(),
    })
}

fn main(rt: HostRuntime) -> ExitCode {
    let words = words(&rt);
    match sql_files(&rt) {
        Ok(files) => { run::<HostRuntime, FileKeeper, SqlFiles>(&rt, &rt, files, words) }
        Err(_) => ExitCode::from(say_text(&rt, Status::Memory).number()),
    }
}
