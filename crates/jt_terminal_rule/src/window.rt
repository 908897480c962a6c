//! Lists of units, with a ring for those that may be in flight.

ghost use Rattle.std.specs.Prelude.{◌≡◌, ◌<◌, ◌≤◌, ◌↔◌, ◌+◌, ◌∷◌, ◌++◌, [], length, min, IfOk, MatchOption, IsNone, IsTrue, option_copied, slice_get};
ghost use Rattle.jt_terminal_rule.specs.declared.window.TheConstants.{WINDOW};

use crate::queue::Queue;
use circular_buffer::HeapCircularBuffer;
use jt_value::{Memory, Seq};
use std::alloc::Global;
use std::marker::Model;

/// How many units that are not accepted are sent on a line at most.
pub const WINDOW: usize = 16;

/// A list of values that loses items at its front. The first sixteen are kept in a ring, whose memory is taken when the list is
/// made. Where the list is filled with more, those stand behind the ring.
#[derive(Drop)]
pub struct Window<T> {
    ring: HeapCircularBuffer<T>,
    behind: Queue<T>,
}

impl<T> Model for Window<T> {
    ghost use Rattle.std.specs.Prelude.{◌≡◌, ◌<◌, ◌++◌, [], List, length};
    ghost use Rattle.jt_terminal_rule.specs.declared.window.TheConstants.{WINDOW};

    ghost Value = { List T };

    ghost view = { λ window. window.ring.items ++ window.behind };

    // Nothing stands behind a ring that has room.
    ghost invariant = { λ window. (window.ring.capacity ≡ WINDOW)
        × (length window.ring.items < WINDOW → window.behind ≡ []) };
}

// The first item that stands behind the ring goes into it, where it has room.
fn move_up<T: Drop>(ring: &mut HeapCircularBuffer<T>, behind: &mut Queue<T>)
    ensures list { ring.new.items ++ behind.new ≡ ring.old.items ++ behind.old }
    ensures more { length ring.new.items
        ≡ min ring.old.capacity (length ring.old.items + min 1 (length behind.old)) }
    ensures count { length ring.new.items + length behind.new
        ≡ length ring.old.items + length behind.old }
    ensures capacity { ring.new.capacity ≡ ring.old.capacity }
{
    if ring.len() >= ring.capacity() {
        return;
    }
    if let Some(item) = behind.pop_front() {
        let _none = ring.push_back(item);
    }
}

// The first items that stand behind an empty ring go into it.
fn move_all_up<T: Drop>(ring: &mut HeapCircularBuffer<T>, behind: &mut Queue<T>)
    requires empty { length ring.old.items ≡ 0 }
    requires capacity { ring.old.capacity ≡ WINDOW }
    ensures list { ring.new.items ++ behind.new ≡ ring.old.items ++ behind.old }
    ensures full { length ring.new.items ≡ min WINDOW (length behind.old) }
    ensures count { length ring.new.items + length behind.new ≡ length behind.old }
    ensures capacity { ring.new.capacity ≡ WINDOW }
{
    for _ in 0..WINDOW {
        move_up(ring, behind);
    }
}

impl<T: Drop> Window<T> {
    /// The empty list. It takes the memory of the ring.
    pub fn new(alloc: Global) -> Result<Window<T>, Memory>
        ensures { IfOk result (λ window. window ≡ []) }
    {
        let ring = HeapCircularBuffer::with_capacity(alloc, WINDOW)?;
        let behind = Queue::new(alloc);
        Ok(Window { ring, behind })
    }

    /// The list becomes that of these items, with no memory taken.
    pub fn fill(&mut self, items: Seq<T>)
        ensures { self.new ≡ items }
    {
        self.ring.clear();
        self.behind = Queue::from_seq(items);
        move_all_up(&mut self.ring, &mut self.behind);
    }

    /// Puts an item at the end of a list of fewer than sixteen, with no memory taken.
    pub fn put(&mut self, item: T)
        requires { length self.old < WINDOW }
        ensures { self.new ≡ self.old ++ item ∷ [] }
    {
        let _none = self.ring.push_back(item);
    }

    /// Takes the first item.
    pub fn pop_front(&mut self) -> Option<T>
        ensures { MatchOption result ((self.old ≡ []) × (self.new ≡ []))
            (λ item. self.old ≡ item ∷ self.new) }
    {
        let first = self.ring.pop_front();
        move_up(&mut self.ring, &mut self.behind);
        first
    }

    /// The item at a place, which counts from 0.
    pub fn get(&self, place: usize) -> Option<&T>
        ensures item { option_copied result ≡ slice_get self.now place }
        ensures none { IsNone result ↔ (length self.now ≤ place) }
    {
        let count = self.ring.len();
        if place < count {
            return self.ring.get(place);
        }
        self.behind.get(place - count)
    }

    /// Whether there is no item.
    pub fn is_empty(&self) -> bool
        ensures { IsTrue result ↔ (self.now ≡ []) }
    {
        self.ring.is_empty()
    }
}
