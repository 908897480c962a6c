//! Where a history's entries go.

use crate::request::Entry;
use http_server::Log as Told;
use jt_value::{Buffer, Memory};
use std::alloc::Global;

/// The entries of a hub's history. Contracts see all of them, whatever an implementation does with an entry that is put: a
/// `Buffer<Entry>` keeps it, a `GhostJournal` lets it go, and a journal of another crate may show it to somebody first.
pub trait Journal: Drop {
    ghost use Rattle.std.specs.Prelude.{◌≡◌, ◌≤◌, ◌<◌, ◌-◌, ◌++◌, ◌∷◌, [], ℕ, List, OnOk, OnErr};
    ghost use Rattle.jt_platform.specs.declared.request.Entry.{Entry};

    /// The entries, oldest first.
    ghost entries: { Self → List Entry };
    /// For how many more entries there is room at least.
    ghost spare: { Self → ℕ };

    /// A journal without entries and without room, which takes no memory.
    fn new(alloc: Global) -> Self
        ensures entries { entries result ≡ [] }
        ensures spare { spare result ≡ 0 };

    /// Makes room for so many more entries at least. After Memory all is as before.
    fn reserve(&mut self, more: u64) -> Result<(), Memory>
        ensures entries { entries self.new ≡ entries self.old }
        ensures room { OnOk result (more ≤ spare self.new) }
        ensures err { OnErr result (spare self.new ≡ spare self.old) };

    /// Puts an entry at the end, for which there is room.
    fn push(&mut self, entry: Entry)
        requires room { 0 < spare self.old }
        ensures entries { entries self.new ≡ entries self.old ++ entry ∷ [] }
        ensures spare { spare self.new ≡ spare self.old - 1 };
}

// All entries are kept.
impl Journal for Buffer<Entry> {
    ghost entries = { λ b. b.items };

    ghost spare = { λ b. b.spare };

    fn new(alloc: Global) -> Buffer<Entry> {
        Buffer::new(alloc)
    }

    fn reserve(&mut self, more: u64) -> Result<(), Memory> {
        Buffer::reserve(self, more)
    }

    fn push(&mut self, entry: Entry) {
        let Ok(()) = Buffer::push(self, entry) else {
            unreachable!();
        };
    }
}

/// A journal of which contracts alone know the entries: each is let go as it is put. It takes eight octets, for the room that
/// was asked for, and never answers Memory.
#[derive(Drop)]
pub struct GhostJournal {
    told: Told<Entry, ()>,
    spare: u64,
}

impl Journal for GhostJournal {
    ghost use Rattle.std.specs.Prelude.{map};

    ghost entries = { λ j. map (λ x. x.0) j.told.items };

    ghost spare = { λ j. j.spare };

    fn new(_alloc: Global) -> GhostJournal {
        GhostJournal {
            told: Told::new(),
            spare: 0,
        }
    }

    fn reserve(&mut self, more: u64) -> Result<(), Memory> {
        self.spare = self.spare.max(more);
        Ok(())
    }

    fn push(&mut self, entry: Entry) {
        self.told = self.told.and(&entry, &());
        self.spare -= 1;
    }
}
