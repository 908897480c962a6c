//! Lists with room.

ghost use Rattle.std.specs.Prelude.{◌≡◌, ◌<◌, ◌≤◌, ◌+◌, ◌-◌, [], ◌∷◌, ◌++◌, length, OnOk, OnErr, IsOk};

use crate::memory::Memory;
use crate::seq::Seq;
use std::alloc::Global;
use std::marker::Model;

/// A list with room: so many items can be pushed without taking memory.
#[derive(Drop)]
pub struct Buffer<T> {
    items: Vec<T>,
    spare: u64,
}

impl<T> Model for Buffer<T> {
    ghost use Rattle.std.specs.Prelude.{◌+◌, ◌≤◌, vec_len, vec_capacity};
    ghost use Rattle.jt_value.specs.Room.{Room};

    ghost Value = { Room T };

    ghost view = { λ b. record { items = b.items.items; spare = b.spare } };

    ghost invariant = { λ b. vec_len b.items + b.spare ≤ vec_capacity b.items };
}

impl<T> Buffer<T> {
    /// The empty list without room, which takes no memory.
    pub fn new(alloc: Global) -> Buffer<T>
        ensures items { result.items ≡ [] }
        ensures spare { result.spare ≡ 0 }
    {
        Buffer {
            items: Vec::new(alloc),
            spare: 0,
        }
    }

    /// Makes room for so many more items at least. The list stays.
    pub fn reserve(&mut self, more: u64) -> Result<(), Memory>
        ensures items { self.new.items ≡ self.old.items }
        ensures room { OnOk result (more ≤ self.new.spare) }
        ensures err { OnErr result (self.new.spare ≡ self.old.spare) }
    {
        if self.spare < more {
            self.items.try_reserve(more as usize)?;
            self.spare = more;
        }
        Ok(())
    }

    /// Puts an item at the end, which takes no memory where there is room.
    pub fn push(&mut self, item: T) -> Result<(), Memory>
    where
        T: Drop,
        ensures ok { OnOk result (self.new.items ≡ self.old.items ++ item ∷ []) }
        ensures room { 0 < self.old.spare → IsOk result }
        ensures spare { self.new.spare ≡ self.old.spare - 1 }
        ensures err { OnErr result (self.new.items ≡ self.old.items) }
    {
        self.items.push(item)?;
        if self.spare > 0 {
            self.spare -= 1;
        }
        Ok(())
    }

    /// The number of items.
    pub fn len(&self) -> u64
        ensures { result ≡ length self.now.items }
    {
        self.items.len() as u64
    }

    /// The items as a slice.
    pub fn as_slice(&self) -> &[T]
        ensures { result.now ≡ self.now.items }
    {
        self.items.as_slice()
    }

    /// The items as a `Seq`, with no memory taken.
    pub fn into_seq(self) -> Seq<T>
        ensures { result ≡ self.items }
    {
        let Buffer { items, spare: _ } = self;
        Seq::from_vec(items)
    }
}
