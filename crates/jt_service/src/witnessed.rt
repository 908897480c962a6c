//! The journal of a hub whose service sees each entry.

ghost use Rattle.std.specs.Prelude.{◌≡◌, []};

use crate::telling::Tell;
use crate::watch::Watch;
use http_server::Log;
use jt_platform::{Entry, Journal};
use jt_value::Memory;
use std::alloc::Global;
use std::sync::Wait;

/// A journal of which contracts alone know the entries: each is shown to the watch and then let go.
#[derive(Drop)]
pub struct Witnessed<'w, R: Wait, T: Tell> {
    log: Log<Entry, ()>,
    spare: u64,
    rt: Option<&'w R>,
    watch: Option<&'w Watch<T>>,
}

impl<'w, R: Wait, T: Tell> Witnessed<'w, R, T> {
    /// A journal without entries, which shows each to the watch.
    pub fn of(rt: &'w R, watch: &'w Watch<T>) -> Witnessed<'w, R, T>
        ensures { result.log.items ≡ [] }
    {
        Witnessed {
            log: Log::new(),
            spare: 0,
            rt: Some(rt),
            watch: Some(watch),
        }
    }

    fn show(&self, entry: &Entry) {
        if let (Some(rt), Some(watch)) = (self.rt, self.watch) {
            watch.note(rt, entry);
        }
    }
}

impl<'w, R: Wait, T: Tell> Journal for Witnessed<'w, R, T> {
    ghost use Rattle.std.specs.Prelude.{map};

    ghost entries = { λ j. map (λ x. x.0) j.log.items };

    ghost spare = { λ j. j.spare };

    // Nobody sees the entries.
    fn new(_alloc: Global) -> Witnessed<'w, R, T> {
        Witnessed {
            log: Log::new(),
            spare: 0,
            rt: None,
            watch: None,
        }
    }

    fn reserve(&mut self, more: u64) -> Result<(), Memory> {
        self.spare = self.spare.max(more);
        Ok(())
    }

    fn push(&mut self, entry: Entry) {
        self.show(&entry);
        self.log = self.log.and(&entry, &());
        self.spare -= 1;
    }
}
