//! A service over a folder.

use crate::interface::Web;
use crate::kept_rows::KeptRows;
use crate::serving::{Flags, Service, serve};
use dewfelt_board::Board;
use dewfelt_commands::{Clerk, Stores};
use dewfelt_fleet::Fleet;
use dewfelt_folder::Status;
use dewfelt_settings::Settings;
use dewfelt_tending::{Living, Present, Root, Tended, Tending};
use dewfelt_told::Told;
use jt_outside::Sink;
use jt_service::Door;
use jt_store::Registrations;
use std::alloc::{AllocError, Global};
use std::mem::replace;
use std::random::RandomSource;
use std::rt::Files;
use std::sync::{Arc, Mutex, Wait};
use std::thread::Threads;
use std::time::Clock;

/// What a service over a folder is made of.
#[derive(Drop)]
pub struct OverFolder<'f, F, S, D, K, T, H> {
    /// The folder.
    pub folder: &'f str,
    /// What reads and writes its files.
    pub files: F,
    /// What opens its store.
    pub stores: S,
    /// The text of its fleet, and the fleet that it names.
    pub text: Vec<u8>,
    pub fleet: Fleet,
    /// Who answers commands there.
    pub clerk: Clerk,
    /// Where links come in.
    pub door: D,
    /// Where lines go.
    pub sink: K,
    /// Who is told.
    pub told: Told<T>,
    /// The interface over HTTP, where there is one. Its board is told.
    pub web: Option<Web<H>>,
}

// The board of an interface.
fn board_of<H>(web: &Option<Web<H>>) -> Result<Option<Arc<Mutex<Board>>>, AllocError> {
    match web {
        Some(web) => Ok(Some(web.interface.board.clone()?)),
        None => Ok(None),
    }
}

// The present fleet and store, for each of those who share them.
#[derive(Drop)]
struct Presents<K> {
    ground: Arc<Mutex<Present<K>>>,
    chores: Arc<Mutex<Present<K>>>,
    rows: Arc<Mutex<Present<K>>>,
}

impl<K: Drop> Presents<K> {
    fn of(alloc: Global, present: Present<K>) -> Result<Presents<K>, AllocError> {
        let ground = Arc::new(alloc, Mutex::new(present))?;
        let chores = ground.clone()?;
        let rows = ground.clone()?;
        Ok(Presents {
            ground,
            chores,
            rows,
        })
    }
}

// What a service over a folder has beside what is given.
#[derive(Drop)]
struct Beside<W, F, K> {
    root: Root<W>,
    files: F,
    tended: Tended,
    presents: Presents<K>,
    rt: W,
}

// What reads and writes a folder's files, and what counts time, for one more who has them.
fn copies_of<W: Clone + Drop, F: Clone + Drop>(rt: &W, files: &F) -> Result<(W, F), AllocError> {
    let rt = rt.clone()?;
    Ok((rt, files.clone()?))
}

impl<W: Clone + Drop, F: Clone + Drop, K: Drop> Beside<W, F, K> {
    fn of(
        rt: &W,
        alloc: Global,
        files: &F,
        folder: &str,
        secret: &[u8],
        presents: Presents<K>,
    ) -> Result<Beside<W, F, K>, AllocError> {
        let root = Root::of(rt, alloc, folder, secret)?;
        let tended = Tended::of(alloc, folder)?;
        let (rt, files) = copies_of(rt, files)?;
        Ok(Beside {
            root,
            files,
            tended,
            presents,
            rt,
        })
    }
}

// The service of what is given, and of what it has beside that.
fn put_together<W, F, S, D, K, T, H>(
    over: OverFolder<F, S, D, K, T, H>,
    beside: Beside<W, F, S::Keeper>,
) -> Service<D, Living<W, F, S>, Tending<F, S::Keeper>, K, T, H, KeptRows<W, S::Keeper>>
where
    W: Wait + Clone + Drop,
    F: Files + AllocGlobal + Clone + Drop,
    S: Stores + Drop,
    D: Drop,
    K: Drop,
    T: Wait + Clock + Drop,
    H: Drop,
{
    let OverFolder {
        folder: _,
        files,
        stores,
        text: _,
        fleet: _,
        clerk,
        door,
        sink,
        told,
        web,
    } = over;
    let Beside {
        root,
        files: own,
        tended,
        presents,
        rt,
    } = beside;
    let Presents {
        ground,
        chores,
        rows,
    } = presents;
    Service {
        door,
        ground: Living::of(root, own, stores, ground),
        chores: Tending::of(files, tended, clerk, chores),
        sink,
        told,
        web,
        rows: KeptRows::of(rt, rows),
    }
}

// What a service has beside what is given. Its text is taken.
fn beside_of<W, F, S, D, K, T, H>(
    rt: &W,
    alloc: Global,
    over: &mut OverFolder<F, S, D, K, T, H>,
) -> Result<Beside<W, F, S::Keeper>, AllocError>
where
    W: Wait + Clone + Drop,
    F: Clone + Drop,
    S: Stores + Drop,
    T: Wait + Clock + Clone + Drop,
{
    let board = board_of(&over.web)?;
    over.told.tell_board(board)?;
    let board = board_of(&over.web)?;
    let text = replace(&mut over.text, Vec::new(alloc));
    let presents = Presents::of(alloc, Present::of(text, board))?;
    let secret = over.fleet.secret();
    Beside::of(rt, alloc, &over.files, over.folder, secret, presents)
}

/// Serves a folder, as `serve` does: its fleet is read again where it changed, and commands are answered.
pub fn serve_over<R, F, S, D, K, T, H>(
    rt: &R,
    alloc: Global,
    mut over: OverFolder<F, S, D, K, T, H>,
    settings: &Settings,
    flags: Flags,
) -> Status
where
    R: Threads + RandomSource + Wait + Clock + Sync + Send + Clone + Drop,
    F: Files + AllocGlobal + Clone + Send + Drop,
    F::File: Send,
    F::Dir: Send,
    S: Stores + Drop,
    S::Keeper: Send,
    D: Door + Drop,
    D::Link: Send,
    K: Sink + Send + Drop,
    T: Wait + Clock + Clone + Send + Drop,
    H: Door + Send + Drop,
    H::Link: Send,
{
    match beside_of(rt, alloc, &mut over) {
        Ok(beside) => serve(rt, alloc, put_together(over, beside), settings, flags),
        Err(_) => Status::Memory,
    }
}
