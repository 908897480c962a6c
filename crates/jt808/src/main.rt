//! The program `jt808`: it makes the real objects, and leaves all else to `jt_cli::run`, by a call that hides its contract.
#![tactic(auto)]

use jt_cli::{Ended, Outside, Status, run_bare};
use jt_outside::{
    Clock, Dial, Listen, Sink, Source, StdClock, StdSink, StdSource, TcpDial, TcpListen,
};
use jt_sql::{SqlKeeper, SqlVault};
use jt_store::{Keeper, Vault};
use jt_value::Memory;
use std::alloc::{AllocError, Global};
use std::env::Env;
use std::io::{Stdin, Stdout};
use std::process::ExitCode;
use std::sync::Wait;
use std::thread::Threads;
use std::{env, io};

// The files of the stores, in the present folder.
const KEEPER: &str = "platform.db";

const VAULT: &str = "terminal.db";

// The words after the program's name. A word that is not UTF-8 makes the command line faulty, as no words do.
fn words<R: Env + AllocGlobal>(rt: &R) -> io::Result<Vec<String>> {
    let mut words = Vec::new(rt.alloc());
    match env::args(rt) {
        Ok(args) => {
            for word in args.skip(1) {
                words.push(word)?;
            }
            Ok(words)
        }
        Err(error) if error.kind() == io::ErrorKind::InvalidData => Ok(words),
        Err(error) => Err(error),
    }
}

// All that is outside but the stores.
#[derive(Drop)]
struct Ends<S, K, D, L, C> {
    source: S,
    sink: K,
    dial: D,
    listen: L,
    clock: C,
}

type RealEnds = Ends<
    StdSource<Stdin>,
    StdSink<Stdout>,
    TcpDial<HostRuntime>,
    TcpListen<HostRuntime>,
    StdClock<HostRuntime>,
>;

fn make_ends(rt: &HostRuntime) -> Result<RealEnds, AllocError> {
    Ok(Ends {
        source: StdSource::new(rt.stdin()),
        sink: StdSink::new(rt.stdout()),
        dial: TcpDial::new(rt.clone()?),
        listen: TcpListen::new(rt.clone()?),
        clock: StdClock::new(rt.clone()?),
    })
}

// The stores, whose files are opened by the first calls.
#[derive(Drop)]
struct Stores {
    keeper: SqlKeeper<HostRuntime>,
    vault: SqlVault<HostRuntime>,
}

fn make_stores(rt: &HostRuntime) -> Result<Stores, Memory> {
    Ok(Stores {
        keeper: SqlKeeper::at(rt.clone()?, KEEPER)?,
        vault: SqlVault::at(rt.clone()?, VAULT)?,
    })
}

// Runs the words over all that is outside, and says how the run ended. (of any types: over the real ones each part, and what
// lets go of it, would be a step of the proof)
fn ran<
    R: Threads + Wait + Sync,
    S: Source + Drop,
    K: Sink + Drop,
    D: Dial + Drop,
    L: Listen + Drop,
    C: Clock + Drop,
    P: Keeper + Send + Drop,
    V: Vault + Drop,
>(rt: &R, alloc: Global, words: &Vec<String>, outside: Outside<S, K, D, L, C, P, V>) -> Status
where
    L::Link: Send,
{
    let Ended {
        status,
        outside,
        reports,
        history,
    } = run_bare(rt, alloc, words, outside);
    drop(outside);
    drop(reports);
    drop(history);
    status
}

// The run over the real stores and ends of any types. (the types of both at once are too much for one proof)
fn over_stores<
    R: Threads + Wait + Sync,
    S: Source + Drop,
    K: Sink + Drop,
    D: Dial + Drop,
    L: Listen + Drop,
    C: Clock + Drop,
>(
    threads: &R,
    alloc: Global,
    words: &Vec<String>,
    ends: Ends<S, K, D, L, C>,
    stores: Stores,
) -> Status
where
    L::Link: Send,
{
    let outside = Outside {
        source: ends.source,
        sink: ends.sink,
        dial: ends.dial,
        listen: ends.listen,
        clock: ends.clock,
        keeper: stores.keeper,
        vault: stores.vault,
    };
    ran(threads, alloc, words, outside)
}

fn over_ends<R: Threads + Wait + Sync>(
    threads: &R,
    rt: &HostRuntime,
    words: &Vec<String>,
    ends: RealEnds,
) -> Status {
    match make_stores(rt) {
        Ok(stores) => over_stores(threads, rt.alloc(), words, ends, stores),
        Err(_) => {
            drop(ends);
            Status::Memory
        }
    }
}

fn over_words<R: Threads + Wait + Sync>(
    threads: &R,
    rt: &HostRuntime,
    words: &Vec<String>,
) -> Status {
    match make_ends(rt) {
        Ok(ends) => over_ends(threads, rt, words, ends),
        Err(_) => Status::Memory,
    }
}

fn main(rt: HostRuntime) -> ExitCode {
    let status = match words(&rt) {
        Ok(words) => over_words(&rt, &rt, &words),
        Err(_) => Status::Memory,
    };
    ExitCode::from(status.number())
}
