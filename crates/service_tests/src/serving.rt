//! A service over stores, links and lines in memory.

ghost use Rattle.std.specs.Prelude.{◌≡◌, ◌<◌, None, length};
ghost use Rattle.jt_outside.specs.Sink.{TakesOctets, WriteHasCause};

use crate::links::{TERMINAL, TestLink, peer};
use crate::rows::{one, secret};
use dewfelt_commands::Stores;
use dewfelt_http::HasRows;
use dewfelt_serve::{
    Chores, Flags, Ground, HasGround, OverFolder, Service, Status, Told, Web, clerk_of,
    read_fleet_of, serve, serve_over,
};
use dewfelt_settings::{Choices, Count, Http, Settings};
use jt_outside::{Put, Sink};
use jt_platform::Fleet;
use jt_service::{Arrived, Door, Watch};
use jt_store::{MemKeeper, Row, StoreError};
use jt_value::{Memory, Octets, Phone, Seq};
use std::alloc::Global;
use std::fs::File;
use std::marker::Model;
use std::process::Abort;
use std::random::RandomSource;
use std::rt::Files;
use std::sync::atomic::{AtomicBool, Ordering};
use std::sync::{Arc, Mutex, Wait};
use std::thread::Threads;
use std::time::Clock;
use std::{fs, io};

/// The lines of a service.
#[derive(Drop)]
pub(crate) struct Lines {
    octets: Mutex<Vec<u8>>,
}

impl Lines {
    pub(crate) fn new(alloc: Global) -> Lines {
        Lines {
            octets: Mutex::new(Vec::new(alloc)),
        }
    }

    // How often a text stands in the lines.
    pub(crate) fn count<R: Wait>(&self, rt: &R, text: &str) -> usize {
        let octets = self.octets.lock(rt);
        octets
            .as_slice()
            .windows(text.len().max(1))
            .filter(|window| *window == text.as_bytes())
            .count()
    }
}

/// Takes lines.
#[derive(Drop)]
pub(crate) struct Taker<'w, R> {
    rt: &'w R,
    lines: &'w Lines,
    faults: u64,
}

impl<'w, R> Taker<'w, R> {
    pub(crate) fn new(rt: &'w R, lines: &'w Lines) -> Taker<'w, R>
        ensures { result ≡ 0 }
    {
        Taker {
            rt,
            lines,
            faults: 0,
        }
    }
}

impl<'w, R> Model for Taker<'w, R> {
    ghost use Rattle.std.specs.Prelude.{◌≤◌, ◌-◌, ◌^◌, ℕ};

    ghost Value = { ℕ };

    ghost view = { λ taker. taker.faults };

    ghost invariant = { λ taker. taker.faults ≤ 2 ^ 64 - 1 };
}

impl<'w, R: Wait> Sink for Taker<'w, R> {
    ghost written = { λ _. None };

    ghost faults = { λ taker. taker };

    fn write(&mut self, buf: &[u8]) -> Put
        requires { 0 < length buf.now }
        ensures octets { TakesOctets None None result buf.now }
        ensures cause { WriteHasCause self.old self.new result }
    {
        match self.lines.octets.lock(self.rt).extend_from_slice(buf) {
            Ok(()) => Put::Count(buf.len()),
            Err(_) => {
                self.faults = self.faults.saturating_add(1);
                Put::Failed
            }
        }
    }
}

/// What a door does next.
#[derive(Clone, Copy)]
enum Act {
    /// The terminal's link comes, and stays.
    Terminal,
    /// It waits until this text stands so often in the lines.
    Said(&'static str, usize),
    /// The file of the fleet is written anew.
    Fleet(&'static str),
    /// The service is stopped.
    Stops,
}

/// A door of these acts, behind which no link comes.
#[derive(Drop)]
struct Acts<'w, R, F> {
    rt: &'w R,
    files: &'w F,
    fleet: &'w str,
    lines: &'w Lines,
    stops: Arc<AtomicBool>,
    acts: &'static [Act],
}

impl<'w, R: Wait + Clock, F: Files> Acts<'w, R, F> {
    fn act(&mut self, act: Act) -> Arrived<TestLink<'w, R>> {
        match act {
            Act::Terminal => Arrived::Link(TestLink::slow(TERMINAL, self.rt), Some(peer())),
            Act::Said(_, _) => Arrived::Nobody,
            Act::Fleet(text) => match fs::write(self.files, self.fleet, text) {
                Ok(()) => Arrived::Nobody,
                Err(_) => Arrived::Over,
            },
            Act::Stops => {
                self.stops.store(true, Ordering::SeqCst);
                Arrived::Nobody
            }
        }
    }

    fn is_ready(&self, act: Act) -> bool {
        match act {
            Act::Said(text, count) => self.lines.count(self.rt, text) >= count,
            Act::Terminal | Act::Fleet(_) | Act::Stops => true,
        }
    }
}

impl<'w, R: Wait + Clock, F: Files> Door for Acts<'w, R, F> {
    type Link = TestLink<'w, R>;

    fn next(&mut self) -> Arrived<TestLink<'w, R>> {
        let Some((act, rest)) = self.acts.split_first() else {
            return Arrived::Nobody;
        };
        if !self.is_ready(*act) {
            return Arrived::Nobody;
        }
        self.acts = rest;
        self.act(*act)
    }
}

/// No browser comes.
#[derive(Drop)]
pub(crate) struct Nobody<'w, R> {
    pub(crate) rt: &'w R,
}

impl<'w, R: Wait + Clock> Door for Nobody<'w, R> {
    type Link = TestLink<'w, R>;

    fn next(&mut self) -> Arrived<TestLink<'w, R>> {
        std::thread::sleep(self.rt, std::time::Duration::from_millis(20));
        Arrived::Nobody
    }
}

/// There are no rows that a browser reads.
#[derive(Drop)]
struct NoRows;

impl HasRows for NoRows {
    fn rows_from(
        &self,
        _alloc: Global,
        _phone: &Phone,
        _from: u64,
        _limit: usize,
    ) -> Result<Vec<Row>, StoreError> {
        Err(StoreError::Failed)
    }
}

/// What becomes of an opening of the store.
#[derive(Clone, Copy)]
enum Opening {
    Fails,
    /// It opens, and the first call of the keeper fails then.
    FailsLater,
    Opens,
}

/// Stores that are opened so, one after another. The fleet has the plate `A` and the terminal id `1`, and the secret is 3132.
#[derive(Drop)]
struct Openings {
    fleet: Fleet,
    secret: Octets,
    openings: &'static [Opening],
}

impl Openings {
    fn ground(&self, alloc: Global, failing: Seq<u64>) -> Result<Ground<MemKeeper>, StoreError> {
        Ok(Ground {
            keeper: MemKeeper::new(alloc, 1000, failing),
            fleet: Fleet {
                plates: self.fleet.plates.copy(alloc)?,
                terminals: self.fleet.terminals.copy(alloc)?,
            },
            secret: self.secret.copy(alloc)?,
            vehicles: 0,
            forgotten: 0,
            octets: 0,
        })
    }
}

impl HasGround for Openings {
    type Keeper = MemKeeper;

    fn next(&mut self, alloc: Global) -> Result<Ground<MemKeeper>, StoreError> {
        let Some((opening, rest)) = self.openings.split_first() else {
            return Err(StoreError::Failed);
        };
        self.openings = rest;
        let mut failing = Seq::new(alloc);
        match opening {
            Opening::Fails => return Err(StoreError::Failed),
            Opening::FailsLater => failing.push(1)?,
            Opening::Opens => {}
        }
        self.ground(alloc, failing)
    }

    fn said(&self, alloc: Global) -> Option<String> {
        String::from_str(alloc, "it is gone").ok()
    }

    fn let_go(&mut self) {}
}

/// Has the service begin anew once this text stands in the lines.
#[derive(Drop)]
struct Renews<'w> {
    lines: &'w Lines,
    text: &'static str,
    is_done: bool,
}

impl<'w, T: Wait + Clock + Drop> Chores<T> for Renews<'w> {
    fn look<R: Wait>(&mut self, rt: &R, watch: &Watch<Told<T>>) {
        if !self.is_done && self.lines.count(rt, self.text) > 0 {
            self.is_done = true;
            watch.renew();
        }
    }
}

pub(crate) fn flag(rt: &impl Abort, alloc: Global) -> Arc<AtomicBool> {
    Arc::new(alloc, AtomicBool::new(false)).expect(rt, "there is memory")
}

// Two links, and no interface over HTTP.
fn settings() -> Settings {
    let mut choices = Choices::none();
    choices.links = Count::of(2);
    choices.http = Some(Http::Off);
    Settings::of(&choices, &Choices::none())
}

// Serves by these acts over a store that opens so, and begins anew once this text is said. The lines are said meanwhile.
fn serve_acts<R, F, T>(
    rt: &R,
    alloc: Global,
    files: &F,
    clock: T,
    lines: &Lines,
    acts: &'static [Act],
    openings: &'static [Opening],
    renews: &'static str,
) -> Status
where
    R: Threads + RandomSource + Wait + Clock + Sync + Abort,
    F: Files + Send + Sync,
    T: Wait + Clock + Send + Drop,
{
    let flags = Flags {
        stops: flag(rt, alloc),
        ends: flag(rt, alloc),
    };
    let stops = flags.stops.clone().expect(rt, "there is memory");
    let service = Service {
        door: Acts {
            rt,
            files,
            fleet: "",
            lines,
            stops,
            acts,
        },
        ground: Openings {
            fleet: Fleet {
                plates: one(rt, alloc, b"A"),
                terminals: one(rt, alloc, b"1"),
            },
            secret: secret(rt, alloc),
            openings,
        },
        chores: Renews {
            lines,
            text: renews,
            is_done: false,
        },
        sink: Taker::new(rt, lines),
        told: Told::new(alloc, clock).expect(rt, "there is memory"),
        web: None::<Web<Nobody<R>>>,
        rows: NoRows,
    };
    serve(rt, alloc, service, &settings(), flags)
}

// Serves so. The lines have each text so often.
fn served_so<R, F>(
    rt: &R,
    files: F,
    acts: &'static [Act],
    openings: &'static [Opening],
    renews: &'static str,
    wanted: &[(&str, usize)],
)
where
    R: Threads + RandomSource + Wait + Clock + Sync + Abort,
    F: Files + Wait + Clock + AllocGlobal + Clone + Send + Sync + Drop,
{
    let alloc = files.alloc();
    let lines = Lines::new(alloc);
    let clock = files.clone().expect(rt, "there is memory");
    let status = serve_acts(rt, alloc, &files, clock, &lines, acts, openings, renews);
    assert!(rt; status.number() == 0);
    for (text, count) in wanted {
        assert!(rt; lines.count(rt, text) == *count);
    }
}

// A store that does not open at the start, and one that fails later, are opened again, ten seconds after they were tried last.
#[test]
fn a_store_is_tried_again(rt: HostRuntime) {
    let acts: &[Act] = &[
        Act::Terminal,
        Act::Said(" event=fault serving=failed\n", 1),
        Act::Terminal,
        Act::Said(" event=let_in ", 1),
        Act::Stops,
    ];
    let openings: &[Opening] = &[Opening::Fails, Opening::FailsLater, Opening::Opens];
    let wanted: &[(&str, usize)] = &[
        (" event=start version=0.1.0 listen=0.0.0.0:8808 links=2 ", 1),
        (" event=fault opening=failed said=\"it is gone\"\n", 1),
        (" event=opened ", 2),
        (" event=listening ", 2),
        (
            " event=session session=1 peer=127.0.0.1:41022 end=store-fault ",
            1,
        ),
        (" event=let_in session=2 phone=333435363738\n", 1),
        (" event=session session=2 ", 1),
        (" end=stopped ", 1),
        (" event=end why=stopped\n", 1),
    ];
    let files = rt.clone().expect(&rt, "there is memory");
    served_so(&rt, files, acts, openings, "never", wanted);
}

// A service begins anew beside its clerk, and sessions are counted on.
#[test]
fn a_service_begins_anew(rt: HostRuntime) {
    let acts: &[Act] = &[
        Act::Terminal,
        Act::Said(" event=renewed why=fleet\n", 1),
        Act::Terminal,
        Act::Said(" event=let_in ", 2),
        Act::Stops,
    ];
    let openings: &[Opening] = &[Opening::Opens, Opening::Opens];
    let wanted: &[(&str, usize)] = &[
        (" event=opened ", 1),
        (" event=listening ", 2),
        (" event=let_in session=1 phone=333435363738\n", 1),
        (" end=renewed ", 1),
        (" event=let_in session=2 phone=333435363738\n", 1),
        (" end=stopped ", 1),
    ];
    let files = rt.clone().expect(&rt, "there is memory");
    served_so(&rt, files, acts, openings, " event=let_in ", wanted);
}

/// Stores in memory, each of which is new.
#[derive(Drop)]
struct MemStores {
    alloc: Global,
}

impl Stores for MemStores {
    type Keeper = MemKeeper;

    fn at(&self, _path: &str) -> Result<MemKeeper, Memory> {
        Ok(MemKeeper::new(self.alloc, 1000, Seq::new(self.alloc)))
    }
}

// A folder with the file of a fleet, whose path it gives.
pub(crate) fn make_folder<F: Files + AllocGlobal>(
    files: &F,
    folder: &str,
    text: &str,
) -> io::Result<String> {
    fs::create_dir(files, folder)?;
    let path = format!(in files.alloc(); "{folder}/fleet")?;
    fs::write(files, path.as_str(), text)?;
    Ok(path)
}

// What a service over the folder is made of.
fn over_folder<'w, R, F>(
    rt: &'w R,
    files: &'w F,
    lines: &'w Lines,
    folder: &'static str,
    door: Acts<'w, R, F>,
) -> OverFolder<'static, F, MemStores, Acts<'w, R, F>, Taker<'w, R>, F, Nobody<'w, R>>
where
    R: Wait + Clock + Abort,
    F: Files<File = File> + Wait + Clock + AllocGlobal + Clone + Drop,
{
    let alloc = files.alloc();
    let (text, fleet) = read_fleet_of(files, folder)
        .ok()
        .expect(rt, "it is a fleet");
    let clock = files.clone().expect(rt, "there is memory");
    OverFolder {
        folder,
        files: files.clone().expect(rt, "there is memory"),
        stores: MemStores { alloc },
        text,
        fleet,
        clerk: clerk_of(files, folder).ok().expect(rt, "it is a folder"),
        door,
        sink: Taker::new(rt, lines),
        told: Told::new(alloc, clock).expect(rt, "there is memory"),
        web: None,
    }
}

// Serves the folder by these acts. The lines have each text so often.
fn served_over<R, F>(
    rt: &R,
    files: F,
    folder: &'static str,
    acts: &'static [Act],
    wanted: &[(&str, usize)],
)
where
    R: Threads + RandomSource + Wait + Clock + Sync + Send + Clone + Drop + Abort,
    F: Files<File = File> + Wait + Clock + AllocGlobal + Clone + Send + Sync + Drop,
    F::Dir: Send,
{
    let alloc = files.alloc();
    let path = make_folder(&files, folder, BOUND).expect(rt, "it can be made");
    let lines = Lines::new(alloc);
    let flags = Flags {
        stops: flag(rt, alloc),
        ends: flag(rt, alloc),
    };
    let door = Acts {
        rt,
        files: &files,
        fleet: path.as_str(),
        lines: &lines,
        stops: flags.stops.clone().expect(rt, "there is memory"),
        acts,
    };
    let over = over_folder(rt, &files, &lines, folder, door);
    let status = serve_over(rt, alloc, over, &settings(), flags);
    assert!(rt; status.number() == 0);
    for (text, count) in wanted {
        assert!(rt; lines.count(rt, text) == *count);
    }
}

/// A fleet that binds the terminal's phone.
const BOUND: &str = "secret 3132\nvehicle 41 31 333435363738\n";

// A fleet changes while its service runs: a bad one is not taken, a new plate has the service begin anew, and one that is gone ends
// its terminal's link.
#[test]
fn a_fleet_lives(rt: HostRuntime) {
    let acts: &[Act] = &[
        Act::Terminal,
        Act::Said(" event=let_in ", 1),
        Act::Fleet("secret 3132\nnonsense\n"),
        Act::Said(" event=fleet result=bad line=2 text=nonsense ", 1),
        Act::Fleet("secret 3132\nplate 41\nterminal 31\n"),
        Act::Said(" event=renewed why=fleet\n", 1),
        Act::Terminal,
        Act::Said(" event=let_in ", 2),
        Act::Fleet("secret 3132\nplate 41\n"),
        Act::Said(" end=dismissed ", 1),
        Act::Stops,
    ];
    let wanted: &[(&str, usize)] = &[
        (
            " event=opened vehicles=1 plates=0 terminals=0 forgotten=0 ",
            1,
        ),
        (" event=let_in session=1 phone=333435363738\n", 1),
        (
            " vehicles=0 plates=1 terminals=1 forgotten=0 renews=yes\n",
            1,
        ),
        (" phone=333435363738 end=renewed ", 1),
        (" event=let_in session=2 phone=333435363738\n", 1),
        (
            " vehicles=0 plates=1 terminals=0 forgotten=1 renews=no\n",
            1,
        ),
        (" phone=333435363738 end=dismissed ", 1),
        (" event=end why=stopped\n", 1),
    ];
    let files = rt.clone().expect(&rt, "there is memory");
    served_over(&rt, files, "a_fleet_lives", acts, wanted);
}
