//! The terminals that were turned away last.

ghost use Rattle.std.specs.Prelude.{◌≡◌, ◌⊎◌, ◌≤◌, ◌<◌, ◌++◌, ◌∷◌, [], ℕ, nat_eq, find, length, slice_get};
ghost use Rattle.dewfelt_board.specs.Strangers.{Keeps, count_from, joined, known, room, room_of, without};

use crate::stranger::Stranger;
use std::alloc::{AllocError, Global};

/// So many terminals that were turned away are kept (this project's own).
pub const STRANGERS_LIMIT: usize = 100;

/// So many of them of one address, so that nobody drives the others out by made-up phones (this project's own).
pub const STRANGERS_OF_ADDRESS: usize = 5;

/// The terminals that were turned away last, the one that came last at the end.
#[derive(Drop)]
pub struct Strangers {
    list: Vec<Stranger>,
    ghost most: { length list.items ≤ 100 },
    ghost most_of_address: { (address : ℕ) → count_from address list.items ≤ 5 },
}

impl Strangers {
    /// None so far. The memory for all is taken now.
    pub fn new(alloc: Global) -> Result<Strangers, AllocError> {
        Ok(Strangers {
            list: Vec::with_capacity(alloc, STRANGERS_LIMIT)?,
        })
    }

    /// Those that are kept, the one that came last at the end.
    pub fn as_slice(&self) -> &[Stranger]
        ensures most { length result.now ≤ 100 }
        ensures most_of_address { (address : ℕ) → count_from address result.now ≤ 5 }
    {
        self.list.as_slice()
    }

    fn count(&self, address: u128) -> usize
        ensures { result ≡ count_from address self.now.list.items }
    {
        self.list.iter().filter(|it| it.is_from(address)).count()
    }

    // The oldest one of an address.
    fn oldest_from(&self, address: u128) -> Option<Stranger>
        ensures { result ≡ find (λ it. nat_eq it.address address) self.now.list.items }
    {
        self.list.iter().copied().find(|it| it.is_from(address))
    }

    fn oldest(&self) -> Option<Stranger>
        ensures { result ≡ slice_get self.now.list.items 0 }
    {
        self.list.first().copied()
    }

    /// Forgets the one of this phone.
    pub fn forget(&mut self, digits: &[u8; 10])
        ensures { self.new.list.items ≡ without digits.now self.old.list.items }
    {
        self.list.retain(|it| !it.has(digits));
    }

    // Makes room for one more of an address.
    fn make_room_of(&mut self, address: u128)
        ensures list { self.new.list.items ≡ room_of address self.old.list.items }
        ensures room { count_from address self.new.list.items < 5 }
    {
        if self.count(address) < STRANGERS_OF_ADDRESS {
            return;
        }
        match self.oldest_from(address) {
            Some(oldest) => self.forget(&oldest.digits),
            None => {}
        }
    }

    // Makes room for one more.
    fn make_room(&mut self)
        ensures list { self.new.list.items ≡ room self.old.list.items }
        ensures room { length self.new.list.items < 100 }
        ensures fewer { (address : ℕ) →
            count_from address self.new.list.items ≤ count_from address self.old.list.items }
    {
        if self.list.len() < STRANGERS_LIMIT {
            return;
        }
        match self.oldest() {
            Some(oldest) => self.forget(&oldest.digits),
            None => {}
        }
    }

    // What is kept of the phone of these digits.
    fn known(&self, digits: &[u8; 10]) -> Option<Stranger>
        ensures { result ≡ known digits.now self.now.list.items }
    {
        self.list.iter().copied().find(|it| it.has(digits))
    }

    // The terminal, with what is known of its phone.
    fn joined(&self, stranger: Stranger) -> Stranger
        ensures { result ≡ joined (known stranger.digits self.now.list.items) stranger }
    {
        match self.known(&stranger.digits) {
            Some(known) => {
                let mut joined = stranger;
                joined.tried = known.tried.saturating_add(stranger.tried);
                joined.first = known.first;
                joined
            }
            None => stranger,
        }
    }

    // Puts one at the end, for which there is room, where memory is not refused.
    fn push(&mut self, stranger: Stranger)
        requires room { length self.old.list.items < 100 }
        requires room_of_address { count_from stranger.address self.old.list.items < 5 }
        ensures { (self.new.list.items ≡ self.old.list.items ++ stranger ∷ [])
            ⊎ (self.new.list.items ≡ self.old.list.items) }
    {
        let _ = self.list.push(stranger);
    }

    /// A terminal was turned away. It comes to the end, in place of what is kept of its phone, whose count goes on.
    pub fn put(&mut self, stranger: Stranger)
        ensures { Keeps stranger self.old.list.items self.new.list.items }
    {
        let joined = self.joined(stranger);
        self.forget(&stranger.digits);
        self.make_room_of(stranger.address);
        self.make_room();
        self.push(joined);
    }
}
