//! What hubs are made of over a folder, whose fleet may change.

use crate::ground::{Ground, HasGround};
use crate::present::Present;
use dewfelt_commands::Stores;
use dewfelt_fleet::Fleet;
use dewfelt_folder::{octets_of, path_in, try_store};
use dewfelt_keeper::{Registry, SharedKeeper};
use jt_platform::Fleet as Names;
use jt_store::{Registrations, StoreError};
use jt_value::limits::ROW_LIMIT;
use jt_value::{Memory, Octets};
use std::alloc::{AllocError, Global};
use std::rt::Files;
use std::sync::{Arc, Mutex, Wait};

/// What hubs are made of over a folder, whose fleet may change: they share the registry, and have the secret of the start.
#[derive(Drop)]
pub struct Living<W, F, S: Stores> {
    rt: W,
    files: F,
    stores: S,
    path: String,
    secret: Octets,
    present: Arc<Mutex<Present<S::Keeper>>>,
}

/// What hubs have of a folder: its store's path, and a secret.
#[derive(Drop)]
pub struct Root<W> {
    rt: W,
    path: String,
    secret: Octets,
}

impl<W: Clone + Drop> Root<W> {
    /// What hubs have of this folder, with this secret.
    pub fn of(rt: &W, alloc: Global, folder: &str, secret: &[u8]) -> Result<Root<W>, AllocError> {
        Ok(Root {
            path: path_in(alloc, folder, "platform.db")?,
            secret: Octets::from_vec(Vec::from_slice(alloc, secret)?),
            rt: rt.clone()?,
        })
    }
}

impl<W, F, S: Stores> Living<W, F, S> {
    /// What hubs are made of over this root, whose file is looked at so.
    pub fn of(
        root: Root<W>,
        files: F,
        stores: S,
        present: Arc<Mutex<Present<S::Keeper>>>,
    ) -> Living<W, F, S> {
        let Root { rt, path, secret } = root;
        Living {
            rt,
            files,
            stores,
            path,
            secret,
            present,
        }
    }
}

// The names that any phone may register that is not bound.
fn names_of(alloc: Global, fleet: &Fleet) -> Result<Names, Memory> {
    Ok(Names {
        plates: fleet.plates(alloc)?,
        terminals: fleet.terminals(alloc)?,
    })
}

// The names that any phone may register, and how many vehicles are bound, by the fleet of a registry.
fn named_by<W: Wait, K: Registrations + Drop>(
    rt: &W,
    alloc: Global,
    registry: &Mutex<Registry<K>>,
) -> Result<(Names, usize), Memory> {
    let guard = registry.lock(rt);
    let (vehicles, _plates, _terminals) = guard.fleet().counts();
    Ok((names_of(alloc, guard.fleet())?, vehicles))
}

impl<W: Wait + Clone + Drop, F, S: Stores> Living<W, F, S> {
    // The registry, over a store that is opened where it is not open. Answers how many registrations went then.
    fn open(&self, alloc: Global) -> Result<(Arc<Mutex<Registry<S::Keeper>>>, usize), StoreError> {
        let mut present = self.present.lock(&self.rt);
        let forgotten = present.open(&self.rt, alloc, &self.stores, self.path.as_str())?;
        Ok((present.shared()?, forgotten))
    }

    // What counts time, and the secret, for one more who has them.
    fn copies(&self, alloc: Global) -> Result<(W, Octets), Memory> {
        let rt = self.rt.clone()?;
        Ok((rt, self.secret.copy(alloc)?))
    }
}

impl<W: Wait + Clone + Drop, F: Files, S: Stores> HasGround for Living<W, F, S> {
    type Keeper = SharedKeeper<W, S::Keeper>;

    fn next(&mut self, alloc: Global) -> Result<Ground<SharedKeeper<W, S::Keeper>>, StoreError> {
        let (registry, forgotten) = self.open(alloc)?;
        let (fleet, vehicles) = named_by(&self.rt, alloc, &*registry)?;
        let (rt, secret) = self.copies(alloc)?;
        Ok(Ground {
            keeper: SharedKeeper::over(rt, registry, ROW_LIMIT),
            fleet,
            secret,
            vehicles,
            forgotten,
            octets: octets_of(&self.files, self.path.as_str()),
        })
    }

    fn said(&self, alloc: Global) -> Option<String> {
        match try_store(&self.files, self.path.as_str()) {
            Ok(()) => None,
            Err(error) => format!(in alloc; "{error}").ok(),
        }
    }

    fn let_go(&mut self) {
        self.present.lock(&self.rt).close();
    }
}
