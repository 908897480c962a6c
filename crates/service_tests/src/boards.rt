//! What a board shows of a service over a folder.

use crate::links::{TERMINAL, TestLink, peer};
use crate::serving::{Lines, Nobody, Taker, flag, make_folder};
use dewfelt_board::{Board, Vehicle};
use dewfelt_commands::Stores;
use dewfelt_serve::{
    Flags, Interface, OverFolder, Status, Told, Web, clerk_of, read_fleet_of, serve_over,
};
use dewfelt_settings::{Choices, Http, Settings};
use jt_service::{Arrived, Door};
use jt_store::{Keeper, MemKeeper};
use jt_value::{Edition, Memory, Phone, Seq};
use std::alloc::Global;
use std::fs;
use std::fs::File;
use std::net::{IpAddr, Ipv4Addr, SocketAddr};
use std::process::Abort;
use std::random::RandomSource;
use std::rt::Files;
use std::sync::atomic::{AtomicBool, Ordering};
use std::sync::{Arc, Mutex, Wait};
use std::thread::Threads;
use std::time::Clock;
use store_tests::keeper_calls::{enrol, put};

// The phone of the terminal whose link comes.
const COMING: Phone = Phone {
    edition: Edition::E2013,
    digits: [0, 0, 0, 0, 0x33, 0x34, 0x35, 0x36, 0x37, 0x38],
};

// A phone that is registered when the store is opened, with a row.
const KEPT: Phone = Phone {
    edition: Edition::E2013,
    digits: [0, 0, 0, 0, 0x01, 0x39, 0x12, 0x34, 0x56, 0x78],
};

// Another one, which the fleet does not allow.
const GONE: Phone = Phone {
    edition: Edition::E2013,
    digits: [0, 0, 0, 0, 0x01, 0x39, 0x12, 0x34, 0x56, 0x79],
};

// The number of the row.
const NUMBER: u64 = 60_000;

// The fleet binds the phone that is kept; the other one that comes may have the plate `A` and the terminal id `1`.
const FLEET: &str = "secret 3132\nplate 41\nterminal 31\nvehicle 42 32 13912345678\n";

// The same without the plate that was kept for who comes.
const LESS: &str = "secret 3132\nterminal 31\nvehicle 42 32 13912345678\n";

// Puts two phones into a keeper, of which one has a row.
fn keep<K: Keeper>(alloc: Global, keeper: &mut K) {
    let _ = enrol(alloc, keeper, &KEPT, b"B", b"2");
    let _ = enrol(alloc, keeper, &GONE, b"C", b"3");
    let _ = put(alloc, keeper, &KEPT, NUMBER, 0);
}

// A store of these phones.
#[derive(Drop)]
struct KeptStores {
    alloc: Global,
}

impl Stores for KeptStores {
    type Keeper = MemKeeper;

    fn at(&self, _path: &str) -> Result<MemKeeper, Memory> {
        let mut keeper = MemKeeper::new(self.alloc, 1000, Seq::new(self.alloc));
        keep(self.alloc, &mut keeper);
        Ok(keeper)
    }
}

// What a door does next.
#[derive(Clone, Copy)]
enum Act {
    // The board is looked at until it shows what it does at the start.
    Filled,
    // The terminal's link comes, and stays.
    Comes,
    // The board is looked at until it shows the terminal that came, with its fix.
    Shown,
    // The fleet has no place any more for the terminal that came.
    Less,
    // The board is looked at until the terminal that came is gone.
    Left,
    // The service is stopped.
    Stops,
}

// A door of these acts, behind which no link comes.
#[derive(Drop)]
struct Acts<'w, R, F> {
    rt: &'w R,
    files: &'w F,
    fleet: &'w str,
    board: Arc<Mutex<Board>>,
    stops: Arc<AtomicBool>,
    acts: &'static [Act],
}

// Whether the phone that is kept is shown alone, bound and with its row.
fn is_filled(board: &Board) -> bool {
    match board.vehicle(&KEPT.digits) {
        Some(vehicle) => {
            vehicle.stays && board.last_of(&KEPT) == Some(NUMBER) && board.count() == 1
        }
        None => false,
    }
}

fn is_let_in_with_a_fix(vehicle: Option<Vehicle>) -> bool {
    match vehicle {
        Some(vehicle) => vehicle.session == Some(1) && vehicle.fix.is_some() && !vehicle.stays,
        None => false,
    }
}

impl<'w, R: Wait + Clock, F: Files> Acts<'w, R, F> {
    fn is_ready(&self, act: Act) -> bool {
        let board = self.board.lock(self.rt);
        match act {
            Act::Filled => is_filled(&board),
            Act::Shown => is_let_in_with_a_fix(board.vehicle(&COMING.digits)),
            Act::Left => board.count() == 1 && board.sessions().count() == 0,
            Act::Comes | Act::Less | Act::Stops => true,
        }
    }

    fn act(&mut self, act: Act) -> Arrived<TestLink<'w, R>> {
        match act {
            Act::Comes => return Arrived::Link(TestLink::slow(TERMINAL, self.rt), Some(peer())),
            Act::Less => {
                if fs::write(self.files, self.fleet, LESS).is_err() {
                    return Arrived::Over;
                }
            }
            Act::Stops => self.stops.store(true, Ordering::SeqCst),
            Act::Filled | Act::Shown | Act::Left => {}
        }
        Arrived::Nobody
    }
}

impl<'w, R: Wait + Clock, F: Files> Door for Acts<'w, R, F> {
    type Link = TestLink<'w, R>;

    fn next(&mut self) -> Arrived<TestLink<'w, R>> {
        let Some((act, rest)) = self.acts.split_first() else {
            return Arrived::Nobody;
        };
        if !self.is_ready(*act) {
            std::thread::sleep(self.rt, std::time::Duration::from_millis(20));
            return Arrived::Nobody;
        }
        self.acts = rest;
        self.act(*act)
    }
}

// The settings of an interface that no browser comes to.
fn with_http() -> Settings {
    let mut choices = Choices::none();
    choices.http = Some(Http::At(address()));
    Settings::of(&choices, &Choices::none())
}

fn address() -> SocketAddr {
    SocketAddr::new(IpAddr::V4(Ipv4Addr::LOCALHOST), 8_080)
}

// What a service over the folder is made of.
fn over_folder<'w, R, F>(
    rt: &'w R,
    files: &'w F,
    lines: &'w Lines,
    folder: &'static str,
    door: Acts<'w, R, F>,
    interface: Interface,
) -> OverFolder<'static, F, KeptStores, Acts<'w, R, F>, Taker<'w, R>, F, Nobody<'w, R>>
where
    R: Wait + Clock + Abort,
    F: Files<File = File> + Wait + Clock + AllocGlobal + Clone + Drop,
{
    let alloc = files.alloc();
    let (text, fleet) = read_fleet_of(files, folder)
        .ok()
        .expect(rt, "it is a fleet");
    let clock = files.clone().expect(rt, "there is memory");
    OverFolder {
        folder,
        files: files.clone().expect(rt, "there is memory"),
        stores: KeptStores { alloc },
        text,
        fleet,
        clerk: clerk_of(files, folder).ok().expect(rt, "it is a folder"),
        door,
        sink: Taker::new(rt, lines),
        told: Told::new(alloc, clock).expect(rt, "there is memory"),
        web: Some(Web {
            door: Nobody { rt },
            interface,
        }),
    }
}

// Serves a folder by these acts, and has the lines said.
fn serve_acts<R, F>(
    rt: &R,
    files: &F,
    lines: &Lines,
    folder: &'static str,
    acts: &'static [Act],
) -> Status
where
    R: Threads + RandomSource + Wait + Clock + Sync + Send + Clone + Drop + Abort,
    F: Files<File = File> + RandomSource + Wait + Clock + AllocGlobal + Clone + Send + Sync + Drop,
    F::Dir: Send,
{
    let alloc = files.alloc();
    let path = make_folder(files, folder, FLEET).expect(rt, "it can be made");
    let settings = with_http();
    let flags = Flags {
        stops: flag(rt, alloc),
        ends: flag(rt, alloc),
    };
    let stops = flags.stops.clone().expect(rt, "there is memory");
    let interface = Interface::of(files, folder, &settings, address(), stops)
        .ok()
        .expect(rt, "it can be made");
    let door = Acts {
        rt,
        files,
        fleet: path.as_str(),
        board: interface.board.clone().expect(rt, "there is memory"),
        stops: flags.stops.clone().expect(rt, "there is memory"),
        acts,
    };
    let over = over_folder(rt, files, lines, folder, door, interface);
    serve_over(rt, alloc, over, &settings, flags)
}

// A store that is opened fills the board, but for who is not allowed; a terminal that registers is shown, and with the fix of its
// unit; where the fleet has no place for it any more it is gone, and its session with it.
#[test]
fn a_board_is_told(rt: HostRuntime) {
    let acts: &[Act] = &[
        Act::Filled,
        Act::Comes,
        Act::Shown,
        Act::Less,
        Act::Left,
        Act::Stops,
    ];
    let files = rt.clone().expect(&rt, "there is memory");
    let lines = Lines::new(rt.alloc());
    let status = serve_acts(&rt, &files, &lines, "a_board_is_told", acts);
    assert!(rt; status.number() == 0);
    assert!(rt; lines.count(&rt, " http=127.0.0.1:8080\n") == 1);
    let line = " event=http address=127.0.0.1:8080 token_file=a_board_is_told/http.token\n";
    assert!(rt; lines.count(&rt, line) == 1);
    assert!(rt; lines.count(&rt, " event=end why=stopped\n") == 1);
}
