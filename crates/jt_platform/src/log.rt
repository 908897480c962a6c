//! A history with its tables.

ghost use Rattle.std.specs.Prelude.{◌≡◌, ◌≤◌, ◌<◌, ◌-◌, ◌++◌, ◌∷◌, [], ℕ, OnOk, OnErr, IsSome, true, false};
ghost use Rattle.jt_value.specs.Sameness.{key_of};
ghost use Rattle.jt_platform.specs.History.{newest, live, closed, holder as held_by};
ghost use Rattle.jt_platform.specs.Index.{Logged, empty, IsReady, KeepsPlaces, HasPlaces, is_let_in, HasClose};

use crate::index::Index;
use crate::journal::Journal;
use crate::request::{Entry, Request};
use jt_value::{Buffer, Memory, Phone, Seq};
use std::alloc::Global;
use std::marker::Model;

// The entries, oldest first, and tables that tell what they say of sessions and holders.
#[derive(Drop)]
pub(crate) struct Log<J: Journal> {
    entries: J,
    index: Index,
}

impl<J: Journal> Model for Log<J> {
    ghost use Rattle.jt_platform.specs.Index.{Logged, IsIndex};
    ghost use Rattle.jt_platform.specs.History.{newest};

    ghost Value = { Logged };

    ghost view = { λ log. record { entries = J.entries log.entries; spare = J.spare log.entries; index = log.index } };

    ghost invariant = { λ log. IsIndex log.index (newest (J.entries log.entries)) };
}

impl<J: Journal> Log<J> {
    #[tactic(auto, using(crate::proofs::Marking::none_marked))]
    pub(crate) fn new(alloc: Global) -> Log<J>
        ensures { result ≡ record { entries = []; spare = 0; index = empty } }
    {
        Log {
            entries: J::new(alloc),
            index: Index::new(alloc),
        }
    }

    // The log of a journal that has no entries yet.
    #[tactic(auto, using(crate::proofs::Marking::none_marked))]
    pub(crate) fn over(alloc: Global, entries: J) -> Log<J>
        requires { J.entries entries ≡ [] }
        ensures { result ≡ record { entries = []; spare = J.spare entries; index = empty } }
    {
        Log {
            entries,
            index: Index::new(alloc),
        }
    }

    pub(crate) fn is_closed(&self, session: u32) -> bool
        ensures { result ≡ closed (newest self.now.entries) session }
    {
        self.index.is_closed(session)
    }

    // Whether a session that is not closed is live for the phone.
    pub(crate) fn is_live(&self, phone: &Phone, session: u32) -> bool
        requires { closed (newest self.now.entries) session ≡ false }
        ensures { result ≡ live (key_of phone.now) (newest self.now.entries) session }
    {
        self.index.is_live(phone, session)
    }

    pub(crate) fn holder(&self, phone: &Phone) -> Option<u32>
        ensures { result ≡ held_by (key_of phone.now) (newest self.now.entries) }
    {
        self.index.holder(phone)
    }

    // Makes room for so many more entries at least.
    pub(crate) fn reserve(&mut self, more: u64) -> Result<(), Memory>
        ensures entries { self.new.entries ≡ self.old.entries }
        ensures index { self.new.index ≡ self.old.index }
        ensures room { OnOk result (more ≤ self.new.spare) }
        ensures err { OnErr result (self.new.spare ≡ self.old.spare) }
    {
        self.entries.reserve(more)
    }

    // Makes the places in the tables for an entry of this request.
    #[tactic(auto, using(crate::proofs::Indexing::index_kept))]
    pub(crate) fn place(&mut self, session: u32, request: &Request) -> Result<(), Memory>
        ensures entries { self.new.entries ≡ self.old.entries }
        ensures spare { self.new.spare ≡ self.old.spare }
        ensures made { OnOk result (IsReady self.new.index session request.now) }
        ensures kept { KeepsPlaces self.old.index self.new.index }
    {
        self.index.place(session, request)
    }

    // Lets the places go that were made for an entry of this request, where none was made.
    #[tactic(auto, using(crate::proofs::Indexing::index_kept))]
    pub(crate) fn let_go(&mut self, session: u32, request: &Request)
        ensures entries { self.new.entries ≡ self.old.entries }
        ensures spare { self.new.spare ≡ self.old.spare }
        ensures kept { KeepsPlaces self.old.index self.new.index }
    {
        self.index.let_go(session, request);
    }

    // Makes the places for a Close of each session above one and up to another.
    pub(crate) fn place_closes(&mut self, above: u32, upto: u32) -> Result<(), Memory>
        ensures entries { self.new.entries ≡ self.old.entries }
        ensures spare { self.new.spare ≡ self.old.spare }
        ensures made { OnOk result (HasPlaces self.new.index above upto) }
        ensures kept { KeepsPlaces self.old.index self.new.index }
    {
        for session in above..upto {
            self.place_close(session + 1)?;
        }
        Ok(())
    }

    #[tactic(auto, using(crate::proofs::Indexing::index_kept))]
    fn place_close(&mut self, session: u32) -> Result<(), Memory>
        ensures entries { self.new.entries ≡ self.old.entries }
        ensures spare { self.new.spare ≡ self.old.spare }
        ensures made { OnOk result (HasClose self.new.index session) }
        ensures kept { KeepsPlaces self.old.index self.new.index }
    {
        self.index.place_close(session)
    }

    // Puts an entry at the end, for which room and places are made.
    pub(crate) fn push(&mut self, entry: Entry)
        requires room { 0 < self.old.spare }
        requires ready { IsReady self.old.index entry.session entry.request }
        requires unclosed { is_let_in entry.request entry.reply ≡ true →
            closed (newest self.old.entries) entry.session ≡ false }
        ensures entries { self.new.entries ≡ self.old.entries ++ entry ∷ [] }
        ensures spare { self.new.spare ≡ self.old.spare - 1 }
        ensures kept { KeepsPlaces self.old.index self.new.index }
    {
        self.index.note(entry.session, &entry.request, &entry.reply);
        self.entries.push(entry);
    }
}

impl Log<Buffer<Entry>> {
    pub(crate) fn entries(&self) -> &[Entry]
        ensures { result.now ≡ self.now.entries }
    {
        self.entries.as_slice()
    }

    pub(crate) fn into_seq(self) -> Seq<Entry>
        ensures { result ≡ self.entries }
    {
        let Log { entries, index: _ } = self;
        entries.into_seq()
    }
}
