//! Lists that lose items at their front.

ghost use Rattle.std.specs.Prelude.{◌≡◌, ◌∷◌, ◌++◌, [], length, drop, OnOk, OnErr, MatchOption, IsNone, IsTrue, ◌↔◌, ◌≤◌, option_copied, slice_get};

use jt_value::{Memory, Seq};
use std::alloc::Global;
use std::collections::VecDeque;
use std::marker::Model;

/// A list of values that loses items at its front. Both ends cost the same, however many items there are.
#[derive(Drop)]
pub struct Queue<T> {
    items: VecDeque<T>,
}

impl<T> Model for Queue<T> {
    ghost use Rattle.std.specs.Prelude.{List};

    ghost Value = { List T };

    ghost view = { λ queue. queue.items.items };
}

impl<T> Queue<T> {
    /// The empty list, which takes no memory.
    pub fn new(alloc: Global) -> Queue<T>
        ensures { result ≡ [] }
    {
        Queue {
            items: VecDeque::new(alloc),
        }
    }

    /// The same list, with no memory taken.
    pub fn from_seq(items: Seq<T>) -> Queue<T>
        ensures { result ≡ items }
    {
        Queue {
            items: VecDeque::from_vec(items.into_vec()),
        }
    }

    /// Puts an item at the end.
    pub fn push(&mut self, item: T) -> Result<(), Memory>
    where
        T: Drop,
        ensures ok { OnOk result (self.new ≡ self.old ++ item ∷ []) }
        ensures err { OnErr result (self.new ≡ self.old) }
    {
        self.items.push_back(item)?;
        Ok(())
    }

    /// Takes the first item.
    pub fn pop_front(&mut self) -> Option<T>
        ensures { MatchOption result ((self.old ≡ []) × (self.new ≡ []))
            (λ item. self.old ≡ item ∷ self.new) }
    {
        self.items.pop_front()
    }

    /// Takes the last item.
    pub fn pop_back(&mut self) -> Option<T>
        ensures { MatchOption result ((self.old ≡ []) × (self.new ≡ []))
            (λ item. self.old ≡ self.new ++ item ∷ []) }
    {
        self.items.pop_back()
    }

    /// Drops so many items at the front, or all where there are fewer.
    pub fn drop_front(&mut self, count: usize)
    where
        T: Drop,
        ensures { self.new ≡ drop count self.old }
    {
        for _ in 0..count {
            let _item = self.items.pop_front();
        }
    }

    /// The item at a place, which counts from 0.
    pub fn get(&self, place: usize) -> Option<&T>
        ensures item { option_copied result ≡ slice_get self.now place }
        ensures none { IsNone result ↔ (length self.now ≤ place) }
    {
        self.items.get(place)
    }

    /// The number of items.
    pub fn len(&self) -> usize
        ensures { result ≡ length self.now }
    {
        self.items.len()
    }

    /// Whether there is no item.
    pub fn is_empty(&self) -> bool
        ensures { IsTrue result ↔ (self.now ≡ []) }
    {
        self.items.is_empty()
    }
}
