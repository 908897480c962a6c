//! The command `serve`, over a door, what hubs are made of, and a sink.

ghost use Rattle.std.specs.Thread.{IsSync};

use crate::answering::answer_browsers;
use crate::interface::{Interface, Web};
use crate::running::Run;
use dewfelt_folder::Status;
use dewfelt_http::HasRows;
use dewfelt_log::empty_room;
use dewfelt_settings::Settings;
use dewfelt_tending::{Chores, HasGround, do_chores};
use dewfelt_told::{Told, say_http, say_start, write_lines};
use jt_outside::Sink;
use jt_service::{Door, ServiceEnd, Watch};
use std::alloc::Global;
use std::random::RandomSource;
use std::sync::atomic::{AtomicBool, Ordering};
use std::sync::{Arc, Wait};
use std::thread;
use std::thread::{Scope, Threads};
use std::time::Clock;

/// All that a service is made of.
#[derive(Drop)]
pub struct Service<D, G, C, K, T, H, Q> {
    /// Where links come in.
    pub door: D,
    /// What hubs are made of.
    pub ground: G,
    /// What is done each second.
    pub chores: C,
    /// Where lines go.
    pub sink: K,
    /// Who is told.
    pub told: Told<T>,
    /// The interface over HTTP, where there is one.
    pub web: Option<Web<H>>,
    /// What that reads rows of.
    pub rows: Q,
}

/// The flags of a service, which others have too.
#[derive(Drop)]
pub struct Flags {
    /// Once it is set the service ends.
    pub stops: Arc<AtomicBool>,
    /// It is set while all links are to end.
    pub ends: Arc<AtomicBool>,
}

fn status_of(end: ServiceEnd) -> Status {
    match end {
        ServiceEnd::ListenerFailed => Status::Listen,
        ServiceEnd::NoThread => Status::Threads,
        ServiceEnd::Memory => Status::Memory,
        _ => Status::Done,
    }
}

// What a service is made of, but for its lines.
#[derive(Drop)]
struct Parts<D, G, C, H> {
    door: D,
    ground: G,
    chores: C,
    // Where browsers come in, where there is an interface for them.
    web_door: Option<H>,
}

// What lines are written with.
#[derive(Drop)]
struct Writer<K> {
    sink: K,
    room: Vec<u8>,
}

// Starts the thread that writes lines. Tells whether it could be made.
fn start_writer<'t, E, R, T, K>(
    scope: &'t Scope<'t, E>,
    rt: &'t R,
    watch: &'t Watch<Told<T>>,
    sink: K,
    room: Vec<u8>,
    is_done: &'t AtomicBool,
) -> bool
where
    R: Threads + Wait + Clock + Sync + 't,
    T: Wait + Clock + Send + Drop + 't,
    K: Sink + Send + Drop + 't,
{
    scope
        .spawn(move || write_lines(rt, watch, sink, room, is_done))
        .is_ok()
}

// Starts the thread that does the chores, behind which no line comes any more but the last ones. Tells whether it could be made.
fn start_chores<'t, E, R, T, C>(
    scope: &'t Scope<'t, E>,
    rt: &'t R,
    watch: &'t Watch<Told<T>>,
    chores: C,
    is_over: &'t AtomicBool,
    is_done: &'t AtomicBool,
) -> bool
where
    R: Threads + Wait + Clock + Sync + 't,
    T: Wait + Clock + Send + Drop + 't,
    C: Chores<T> + Send + Drop + 't,
{
    scope
        .spawn(move || do_chores(rt, watch, chores, is_over, is_done))
        .is_ok()
}

// Starts the thread that answers browsers. Tells whether it could be made.
fn start_answering<'t, E, R, T, H, Q>(
    scope: &'t Scope<'t, E>,
    rt: &'t R,
    alloc: Global,
    watch: &'t Watch<Told<T>>,
    door: H,
    interface: &'t Interface,
    rows: &'t Q,
) -> bool
where
    R: Threads + RandomSource + Wait + Clock + Sync + 't,
    T: Wait + Clock + Send + Drop + 't,
    H: Door + Send + Drop + 't,
    H::Link: Send,
    Q: HasRows + Sync + 't,
{
    scope
        .spawn(move || answer_browsers(rt, alloc, watch, door, interface, rows))
        .is_ok()
}

// Starts the thread that answers browsers, where there is an interface for them. Tells whether it could be made.
fn start_web<'t, E, R, T, H, Q>(
    scope: &'t Scope<'t, E>,
    rt: &'t R,
    alloc: Global,
    watch: &'t Watch<Told<T>>,
    door: Option<H>,
    interface: &'t Option<Interface>,
    rows: &'t Q,
) -> bool
where
    R: Threads + RandomSource + Wait + Clock + Sync + 't,
    T: Wait + Clock + Send + Drop + 't,
    H: Door + Send + Drop + 't,
    H::Link: Send,
    Q: HasRows + Sync + 't,
{
    let Some(interface) = interface else {
        return true;
    };
    match door {
        Some(door) => start_answering(scope, rt, alloc, watch, door, interface, rows),
        None => true,
    }
}

// The service ended so: whoever looks at the flag ends.
fn finish<R: Wait, T: Wait + Clock + Drop>(
    rt: &R,
    watch: &Watch<Told<T>>,
    end: ServiceEnd,
    flag: &AtomicBool,
) {
    watch.told().lock(rt).end_with(end);
    flag.store(true, Ordering::SeqCst);
}

// Serves while a thread writes lines, one does the chores, and one answers browsers.
fn serve_beside<R, D, G, C, T, K, H, Q>(
    run: Run<R, T>,
    parts: Parts<D, G, C, H>,
    writer: Writer<K>,
    rows: &Q,
    is_over: &AtomicBool,
    is_done: &AtomicBool,
) -> ServiceEnd
where
    R: Threads + RandomSource + Wait + Clock + Sync,
    D: Door + Drop,
    D::Link: Send,
    H: Door + Send + Drop,
    H::Link: Send,
    Q: HasRows + Sync,
    G: HasGround + Drop,
    G::Keeper: Send,
    C: Chores<T> + Send + Drop,
    T: Wait + Clock + Send + Drop,
    K: Sink + Send + Drop,
{
    let rt = run.rt;
    let watch = run.watch;
    let Parts {
        mut door,
        ground,
        chores,
        web_door,
    } = parts;
    let alloc = run.alloc;
    let interface = run.interface;
    let Writer { sink, room } = writer;
    thread::scope(
        thread::scope_env(),
        rt,
        move |scope| -> ServiceEnd
            requires sync { IsSync R.row }
        {
            if !start_writer(scope, rt, watch, sink, room, is_done) {
                return ServiceEnd::NoThread;
            }
            if !start_chores(scope, rt, watch, chores, is_over, is_done) {
                finish(rt, watch, ServiceEnd::NoThread, is_done);
                return ServiceEnd::NoThread;
            }
            if !start_web(scope, rt, alloc, watch, web_door, interface, rows) {
                finish(rt, watch, ServiceEnd::NoThread, is_over);
                return ServiceEnd::NoThread;
            }
            let end = run.serve(&mut door, ground);
            finish(rt, watch, end, is_over);
            if let Some(interface) = interface {
                interface.end();
            }
            end
        },
    )
}

// What an interface is made of, apart.
fn parts_of<H: Drop>(web: Option<Web<H>>) -> (Option<H>, Option<Interface>) {
    match web {
        Some(web) => {
            let Web { door, interface } = web;
            (Some(door), Some(interface))
        }
        None => (None, None),
    }
}

/// Serves the links that come in at the door, does the chores, answers browsers, and writes lines to the sink, until the first flag
/// is set, or no more links can be served. A store that does not open, or fails, is tried again. Answers how it ended, once the sink
/// has taken the last lines.
pub fn serve<R, D, G, C, K, T, H, Q>(
    rt: &R,
    alloc: Global,
    service: Service<D, G, C, K, T, H, Q>,
    settings: &Settings,
    flags: Flags,
) -> Status
where
    R: Threads + RandomSource + Wait + Clock + Sync,
    D: Door + Drop,
    D::Link: Send,
    H: Door + Send + Drop,
    H::Link: Send,
    Q: HasRows + Sync + Drop,
    G: HasGround + Drop,
    G::Keeper: Send,
    C: Chores<T> + Send + Drop,
    K: Sink + Send + Drop,
    T: Wait + Clock + Send + Drop,
{
    let Ok(room) = empty_room(alloc) else {
        return Status::Memory;
    };
    let Service {
        door,
        ground,
        chores,
        sink,
        mut told,
        web,
        rows,
    } = service;
    let (web_door, interface) = parts_of(web);
    say_start(&mut told, settings);
    if let Some(interface) = &interface {
        say_http(&mut told, interface.address, interface.token_file.as_str());
    }
    let is_over = AtomicBool::new(false);
    let is_done = AtomicBool::new(false);
    let watch = Watch::new(alloc, told, flags.stops, flags.ends);
    let parts = Parts {
        door,
        ground,
        chores,
        web_door,
    };
    let writer = Writer { sink, room };
    let run = Run {
        rt,
        alloc,
        watch: &watch,
        settings,
        interface: &interface,
    };
    status_of(serve_beside(run, parts, writer, &rows, &is_over, &is_done))
}
