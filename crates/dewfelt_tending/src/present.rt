//! The present fleet and the store, as the threads of a service share them.

use crate::filling::fill;
use dewfelt_board::Board;
use dewfelt_commands::Stores;
use dewfelt_fleet::{Change, Fleet, read_fleet};
use dewfelt_keeper::{Forgetting, Registry};
use jt_store::{Registrations, StoreError};
use jt_value::{Phone, Seq};
use std::alloc::Global;
use std::sync::{Arc, Mutex, Wait};

/// The present fleet and the store, as the threads of a service share them.
#[derive(Drop)]
pub struct Present<K> {
    // The text of the fleet, in which no line is bad.
    text: Vec<u8>,
    // Where registrations are kept, while the store is open.
    registry: Option<Arc<Mutex<Registry<K>>>>,
    // What shows the registrations and the last rows, where there is one.
    board: Option<Arc<Mutex<Board>>>,
}

// A registry over the store at this path, under no fleet so far.
fn registry_at<S: Stores>(
    alloc: Global,
    stores: &S,
    path: &str,
) -> Result<Registry<S::Keeper>, StoreError> {
    let keeper = stores.at(path)?;
    Ok(Registry::new(keeper, Fleet::new(alloc, Seq::new(alloc))))
}

// Puts a registry under a fleet. Answers how many registrations went.
fn apply_all<K: Registrations + Drop>(
    alloc: Global,
    registry: &mut Registry<K>,
    fleet: Fleet,
) -> Result<usize, StoreError> {
    let mut forgotten = Seq::new(alloc);
    registry.apply(alloc, fleet, &mut forgotten)?;
    Ok(forgotten.len())
}

impl<K: Registrations + Drop> Present<K> {
    /// A fleet of this text, in which no line is bad, over a store that is not open. The board shows it.
    pub fn of(text: Vec<u8>, board: Option<Arc<Mutex<Board>>>) -> Present<K> {
        Present {
            text,
            registry: None,
            board,
        }
    }

    // Has the board show the registrations of a registry, where there is a board.
    fn show<R: Wait>(
        &self,
        rt: &R,
        alloc: Global,
        registry: &Mutex<Registry<K>>,
    ) -> Result<(), StoreError> {
        match &self.board {
            Some(board) => fill(rt, alloc, registry, &**board),
            None => Ok(()),
        }
    }

    /// The text of the fleet.
    pub(crate) fn text(&self) -> &[u8] {
        self.text.as_slice()
    }

    // The fleet of the text.
    fn fleet(&self, alloc: Global) -> Result<Fleet, StoreError> {
        match read_fleet(alloc, self.text.as_slice()) {
            Ok(fleet) => Ok(fleet),
            Err(_) => Err(StoreError::Memory),
        }
    }

    /// Takes a newer fleet, of this text. Registrations that it does not allow are removed, where the store is open, and their phones
    /// put behind those that are `forgotten`. Answers what changed. After an error it is to be taken again.
    pub(crate) fn take<R: Wait>(
        &mut self,
        rt: &R,
        alloc: Global,
        fleet: Fleet,
        text: Vec<u8>,
        forgotten: &mut Seq<Phone>,
    ) -> Result<Change, StoreError> {
        let change = Change::between(&self.fleet(alloc)?, &fleet);
        if let Some(registry) = &self.registry {
            registry.lock(rt).apply(alloc, fleet, forgotten)?;
            self.show(rt, alloc, &**registry)?;
        }
        self.text = text;
        Ok(change)
    }

    // Takes a phone that is registered no more off the board, where there is one.
    fn unseat<R: Wait>(&self, rt: &R, phone: &Phone) {
        if let Some(board) = &self.board {
            board.lock(rt).unseat(phone);
        }
    }

    /// Removes the phone's registration, for an operator, where the store is open.
    pub(crate) fn forget<R: Wait>(
        &self,
        rt: &R,
        alloc: Global,
        phone: &Phone,
    ) -> Result<Forgetting, StoreError> {
        let Some(registry) = &self.registry else {
            return Err(StoreError::Failed);
        };
        let mut guard = registry.lock(rt);
        let done = guard.forget(alloc, phone)?;
        if done == Forgetting::Done {
            // (under the registry's lock, since the phone may be registered again at once)
            self.unseat(rt, phone);
        }
        Ok(done)
    }

    /// The registry, where the store is open.
    pub fn registry(&self) -> Option<&Mutex<Registry<K>>> {
        match &self.registry {
            Some(registry) => Some(&**registry),
            None => None,
        }
    }

    /// The registry for a hub, where the store is open.
    pub(crate) fn shared(&self) -> Result<Arc<Mutex<Registry<K>>>, StoreError> {
        match &self.registry {
            Some(registry) => Ok(registry.clone()?),
            None => Err(StoreError::Failed),
        }
    }

    /// Opens the store, where it is not open, and removes the registrations that the fleet does not allow. Answers how many.
    pub(crate) fn open<R: Wait, S: Stores<Keeper = K>>(
        &mut self,
        rt: &R,
        alloc: Global,
        stores: &S,
        path: &str,
    ) -> Result<usize, StoreError> {
        if self.registry.is_some() {
            return Ok(0);
        }
        let (registry, forgotten) = self.under_fleet(alloc, stores, path)?;
        self.share(rt, alloc, registry)?;
        Ok(forgotten)
    }

    // A registry over the store at this path, which has the registrations that the fleet allows. Answers how many others went.
    fn under_fleet<S: Stores<Keeper = K>>(
        &self,
        alloc: Global,
        stores: &S,
        path: &str,
    ) -> Result<(Registry<K>, usize), StoreError> {
        let mut registry = registry_at(alloc, stores, path)?;
        let forgotten = apply_all(alloc, &mut registry, self.fleet(alloc)?)?;
        Ok((registry, forgotten))
    }

    // Has the board show a registry, and the threads share it.
    fn share<R: Wait>(
        &mut self,
        rt: &R,
        alloc: Global,
        registry: Registry<K>,
    ) -> Result<(), StoreError> {
        let registry = Arc::new(alloc, Mutex::new(registry))?;
        self.show(rt, alloc, &*registry)?;
        self.registry = Some(registry);
        Ok(())
    }

    /// Closes the store.
    pub(crate) fn close(&mut self) {
        drop(self.registry.take());
    }
}
