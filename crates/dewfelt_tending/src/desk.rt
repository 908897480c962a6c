//! What a service does for commands.

use crate::present::Present;
use dewfelt_commands::{Forgot, Lists, Office, copy_store};
use dewfelt_keeper::Forgetting;
use dewfelt_told::Told;
use jt_service::Watch;
use jt_store::{Registered, Registrations, StoreError};
use jt_value::{Phone, Seq};
use std::alloc::Global;
use std::io;
use std::rt::Files;
use std::sync::{Mutex, Wait};
use std::time::Clock;

/// What a service does for commands.
#[derive(Drop)]
pub(crate) struct Desk<'w, R, F, T, K> {
    pub(crate) rt: &'w R,
    pub(crate) files: &'w F,
    pub(crate) store: &'w str,
    pub(crate) present: &'w Mutex<Present<K>>,
    // The phones that are forgotten, whose links are to be ended once more.
    pub(crate) forgotten: &'w mut Seq<Phone>,
    pub(crate) watch: &'w Watch<Told<T>>,
}

impl<'w, R, F, T, K> Lists for Desk<'w, R, F, T, K>
where
    R: Wait,
    K: Registrations + Drop,
{
    fn next_registered(
        &mut self,
        alloc: Global,
        after: Option<&Phone>,
    ) -> Result<Option<(Phone, Registered)>, StoreError> {
        let present = self.present.lock(self.rt);
        match present.registry() {
            Some(registry) => registry
                .lock(self.rt)
                .keeper()
                .next_registered(alloc, after),
            None => Err(StoreError::Failed),
        }
    }
}

impl<'w, R, F, T, K> Desk<'w, R, F, T, K>
where
    R: Wait,
    T: Wait + Clock + Drop,
    K: Registrations + Drop,
{
    fn forget_registered(&self, alloc: Global, phone: &Phone) -> Result<Forgetting, StoreError> {
        self.present.lock(self.rt).forget(self.rt, alloc, phone)
    }
}

impl<'w, R, F, T, K> Office for Desk<'w, R, F, T, K>
where
    R: Wait,
    F: Files + AllocGlobal,
    T: Wait + Clock + Drop,
    K: Registrations + Drop,
{
    fn forget(&mut self, alloc: Global, phone: &Phone) -> Result<Forgot, StoreError> {
        match self.forget_registered(alloc, phone)? {
            Forgetting::Done => {
                self.forgotten.push(*phone)?;
                self.watch.dismiss(self.rt, phone);
                self.watch.told().lock(self.rt).say_forgot(phone);
                Ok(Forgot::Gone)
            }
            Forgetting::NotRegistered => Ok(Forgot::NotRegistered),
            Forgetting::Bound => Ok(Forgot::Bound),
        }
    }

    fn copy(&mut self, to: &str) -> io::Result<()> {
        let present = self.present.lock(self.rt);
        let copied = match present.registry() {
            Some(registry) => {
                let guard = registry.lock(self.rt);
                let copied = copy_store(self.files, self.store, to);
                drop(guard);
                copied
            }
            None => copy_store(self.files, self.store, to),
        };
        drop(present);
        if copied.is_ok() {
            self.watch
                .told()
                .lock(self.rt)
                .say("copied", "by", "command");
        }
        copied
    }

    fn stop(&mut self) {
        self.watch.told().lock(self.rt).say("stop", "by", "command");
        self.watch.stop();
    }
}
