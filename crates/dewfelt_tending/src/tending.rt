//! The chores over a folder: its fleet is read again where it changed, and commands are answered.

use crate::chores::Chores;
use crate::desk::Desk;
use crate::present::Present;
use dewfelt_commands::Clerk;
use dewfelt_fleet::{Fleet, NoFleet, read_fleet};
use dewfelt_folder::{FleetFile, path_in};
use dewfelt_told::{FleetTaken, Told, say_bad_fleet, say_fleet};
use jt_service::Watch;
use jt_store::{Registrations, StoreError};
use jt_value::{Phone, Seq};
use std::alloc::{AllocError, Global};
use std::io;
use std::mem::replace;
use std::rt::Files;
use std::sync::{Arc, Mutex, Wait};
use std::time::Clock;

/// Tends a folder while a service runs over it.
#[derive(Drop)]
pub struct Tending<F, K> {
    files: F,
    store: String,
    fleet: FleetFile,
    clerk: Clerk,
    present: Arc<Mutex<Present<K>>>,
    // The phones that were forgotten at the last look. One of them may have been let in just then, so that their links end once more.
    forgotten: Seq<Phone>,
    // Whether the file of the fleet was read.
    has_read: bool,
    // Whether it was said that a fleet can't be taken, or that commands can't be answered.
    is_fault_said: bool,
    is_folder_said: bool,
}

/// The paths of a folder's store and of its fleet.
#[derive(Drop)]
pub struct Tended {
    store: String,
    fleet: String,
}

impl Tended {
    /// Those of this folder.
    pub fn of(alloc: Global, folder: &str) -> Result<Tended, AllocError> {
        Ok(Tended {
            store: path_in(alloc, folder, "platform.db")?,
            fleet: path_in(alloc, folder, "fleet")?,
        })
    }
}

impl<F, K> Tending<F, K>
where
    F: Files + AllocGlobal + Clone + Drop,
    K: Registrations + Drop,
{
    /// Tends the folder of these paths, by this clerk.
    pub fn of(
        files: F,
        tended: Tended,
        clerk: Clerk,
        present: Arc<Mutex<Present<K>>>,
    ) -> Tending<F, K> {
        let alloc = files.alloc();
        let Tended { store, fleet } = tended;
        Tending {
            store,
            fleet: FleetFile::new(fleet),
            files,
            clerk,
            present,
            forgotten: Seq::new(alloc),
            has_read: false,
            is_fault_said: false,
            is_folder_said: false,
        }
    }

    // Ends the links of those that were forgotten.
    fn dismiss<R: Wait, T: Wait + Clock + Drop>(&self, rt: &R, watch: &Watch<Told<T>>) {
        for phone in self.forgotten.as_slice() {
            watch.dismiss(rt, phone);
        }
    }

    // The text is that of the present fleet. The first look at the file, which was read at the start, says nothing of that.
    fn is_same<R: Wait, T: Wait + Clock + Drop>(
        &mut self,
        rt: &R,
        watch: &Watch<Told<T>>,
        text: &[u8],
    ) -> bool {
        // (a fleet that could not be taken may be in force in part)
        let is_same = !self.is_fault_said && self.present.lock(rt).text() == text;
        if is_same && self.has_read {
            watch.told().lock(rt).say("fleet", "result", "same");
        }
        self.has_read = true;
        is_same
    }

    // The fleet could not be taken, for want of memory or by a store fault: it is tried again.
    fn fleet_failed<R: Wait, T: Wait + Clock + Drop>(&mut self, rt: &R, watch: &Watch<Told<T>>) {
        self.fleet.forget();
        if !self.is_fault_said {
            watch.told().lock(rt).say("fleet", "result", "fault");
        }
        self.is_fault_said = true;
    }

    // The file could not be read: that is said once.
    fn say_unread<R: Wait, T: Wait + Clock + Drop>(
        &mut self,
        rt: &R,
        watch: &Watch<Told<T>>,
        error: &io::Error,
    ) {
        if !self.is_fault_said {
            watch.told().lock(rt).say_error("fleet", error);
        }
        self.is_fault_said = true;
    }

    fn take_fleet<R: Wait, T: Wait + Clock + Drop>(
        &mut self,
        rt: &R,
        watch: &Watch<Told<T>>,
        fleet: Fleet,
        text: Vec<u8>,
    ) {
        let (vehicles, plates, terminals) = fleet.counts();
        let alloc = self.files.alloc();
        let mut present = self.present.lock(rt);
        let change = present.take(rt, alloc, fleet, text, &mut self.forgotten);
        let is_open = present.registry().is_some();
        drop(present);
        self.dismiss(rt, watch);
        let Ok(change) = change else {
            self.fleet_failed(rt, watch);
            return;
        };
        self.is_fault_said = false;
        let taken = FleetTaken {
            vehicles,
            plates,
            terminals,
            forgotten: self.forgotten.len(),
            renews: is_open && change.names,
            has_new_secret: change.secret,
        };
        say_fleet(&mut watch.told().lock(rt), taken);
        if taken.renews {
            watch.renew();
        }
    }

    fn take_text<R: Wait, T: Wait + Clock + Drop>(
        &mut self,
        rt: &R,
        watch: &Watch<Told<T>>,
        text: Vec<u8>,
    ) {
        if self.is_same(rt, watch, text.as_slice()) {
            return;
        }
        match read_fleet(self.files.alloc(), text.as_slice()) {
            Ok(fleet) => self.take_fleet(rt, watch, fleet, text),
            Err(NoFleet::Bad(bad)) => say_bad_fleet(&mut watch.told().lock(rt), &bad),
            Err(NoFleet::Memory) => self.fleet_failed(rt, watch),
        }
    }

    // Answers the commands that wait. Phones that one of them wants to be forgotten are put behind those that are.
    fn answer_all<'x, R: Wait, T: Wait + Clock + Drop>(
        &'x self,
        rt: &'x R,
        watch: &'x Watch<Told<T>>,
        forgotten: &'x mut Seq<Phone>,
    ) -> io::Result<()> {
        let mut desk = Desk {
            rt,
            files: &self.files,
            store: self.store.as_str(),
            present: &self.present,
            forgotten,
            watch,
        };
        self.clerk.look(&self.files, &mut desk)
    }

    // Answers the commands that wait, and says once that it can't.
    fn answer<R: Wait, T: Wait + Clock + Drop>(&mut self, rt: &R, watch: &Watch<Told<T>>) {
        let mut forgotten = replace(&mut self.forgotten, Seq::new(self.files.alloc()));
        let answered = self.answer_all(rt, watch, &mut forgotten);
        self.forgotten = forgotten;
        match answered {
            Ok(()) => self.is_folder_said = false,
            Err(error) => {
                if !self.is_folder_said {
                    watch.told().lock(rt).say_error("commands", &error);
                }
                self.is_folder_said = true;
            }
        }
    }
}

impl<F, K, T> Chores<T> for Tending<F, K>
where
    F: Files + AllocGlobal + Clone + Drop,
    K: Registrations + Drop,
    T: Wait + Clock + Drop,
{
    fn look<R: Wait>(&mut self, rt: &R, watch: &Watch<Told<T>>) {
        self.dismiss(rt, watch);
        self.forgotten = Seq::new(self.files.alloc());
        match self.fleet.look(&self.files) {
            Some(Ok(text)) => self.take_text(rt, watch, text),
            Some(Err(error)) => self.say_unread(rt, watch, &error),
            None => {}
        }
        self.answer(rt, watch);
    }
}
