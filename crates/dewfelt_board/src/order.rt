//! In which order vehicles changed.

ghost use Rattle.std.specs.Prelude.{◌≡◌, ◌<◌, ◌≤◌, ◌+◌, ◌++◌, ◌∷◌, ◌↔◌, [], ℕ, List, Option, IfOk, IfSome, IfNone, IsTrue, length, take, if◌then◌else◌};
ghost use Rattle.std.specs.Str.{bytes_eq};
ghost use Rattle.dewfelt_board.specs.declared.change.Change.{Change as Told};
ghost use Rattle.dewfelt_board.specs.Order.{are_rising, behind, count_of, is_anew, last_of, point_of, told_of, without};

use crate::change::Change;
use crate::cursor::Cursor;
use std::alloc::{AllocError, Global};

/// The last change of each vehicle, in order of their numbers.
#[derive(Drop)]
pub struct Order {
    pub changes: Vec<Change>,
    /// The number of the last change.
    pub last: u64,
    /// The number of the last change by which a vehicle left.
    pub left: u64,
    pub ghost rising: { IsTrue (are_rising 0 changes.items last) },
    pub ghost once: { (digits : List ℕ) → count_of digits changes.items ≤ 1 },
}

/// What is told behind a cursor.
#[derive(Drop)]
pub struct Page {
    /// The changes, in order of their numbers.
    pub changes: Vec<Change>,
    /// Where the next page begins.
    pub cursor: Cursor,
    /// Whether the page is the first of all vehicles, so that a vehicle which no page of these names is gone.
    pub is_full: bool,
    /// Whether there are changes behind this page.
    pub is_more: bool,
}

/// What is told by pages is told once, and in order: behind a number stand the first so many changes, and then those behind the last
/// of these.
#[tactic(auto)]
pub fn law_pages()
    ensures { (told high limit : ℕ) → (changes : List Told) → IsTrue (are_rising 0 changes high)
        → behind told changes ≡ take limit (behind told changes)
        ++ behind (last_of told (take limit (behind told changes))) changes }
{}

// Whether it is the change of the vehicle of these digits.
fn is_of(change: &Change, digits: &[u8; 10]) -> bool
    ensures { result ≡ bytes_eq change.now.digits digits.now }
{
    change.digits == *digits
}

// The number of the last of some changes, where the one before them has this number.
fn last_of(before: u64, changes: &[Change]) -> u64
    ensures { result ≡ last_of before changes.now }
{
    match changes.last() {
        Some(change) => change.number,
        None => before,
    }
}

impl Order {
    /// No change so far.
    pub fn new(alloc: Global) -> Order
        ensures { result.changes.items ≡ [] }
    {
        Order {
            changes: Vec::new(alloc),
            last: 0,
            left: 0,
        }
    }

    // Takes out the change of the vehicle of these digits, if it has one.
    fn take_out(&mut self, digits: &[u8; 10])
        ensures changes { self.new.changes.items ≡ without digits.now self.old.changes.items }
        ensures last { (self.new.last ≡ self.old.last) × (self.new.left ≡ self.old.left) }
    {
        self.changes.retain(|change| !is_of(change, digits));
    }

    /// The vehicle of these digits changed. The number of its change, which is its only one; None where memory was refused.
    pub fn renew(&mut self, digits: [u8; 10]) -> Option<u64>
        ensures number { IfSome result (λ number.
            (number ≡ self.old.last + 1) × (self.new.last ≡ number)) }
        ensures changes { IfSome result (λ number. self.new.changes.items
            ≡ without digits self.old.changes.items
            ++ (record { number = number; digits = digits }) ∷ []) }
        ensures left { self.new.left ≡ self.old.left }
        ensures none { IfNone result (self.new.last ≡ self.old.last) }
    {
        let number = self.last.checked_add(1)?;
        self.take_out(&digits);
        self.changes.push(Change { number, digits }).ok()?;
        self.last = number;
        Some(number)
    }

    /// The vehicle of these digits left. Whoever follows reads all vehicles anew.
    pub fn leave(&mut self, digits: &[u8; 10])
        ensures changes { self.new.changes.items ≡ without digits.now self.old.changes.items }
        ensures left { self.new.left ≡ self.new.last }
        ensures last { self.old.last ≤ self.new.last }
    {
        self.take_out(digits);
        self.last = self.last.saturating_add(1);
        self.left = self.last;
    }

    // Behind which number the reader of a cursor is told, of which moment its picture is, and whether it begins anew: so it does where
    // a vehicle left meanwhile.
    fn start(&self, cursor: Option<Cursor>) -> (u64, u64, bool)
        ensures told { result.0 ≡ told_of self.now.left self.now.last cursor }
        ensures point { result.1 ≡ point_of self.now.left self.now.last cursor }
        ensures anew { result.2 ≡ is_anew self.now.left self.now.last cursor }
    {
        match cursor {
            Some(cursor)
                if cursor.point >= self.left
                    && cursor.point <= self.last
                    && cursor.told <= self.last => { (cursor.told, cursor.point, false) }
            _ => (0, self.last, true),
        }
    }

    fn behind(&self, told: u64) -> usize
        ensures { result ≡ length (behind told self.now.changes.items) }
    {
        self.changes
            .iter()
            .filter(|change| change.number > told)
            .count()
    }

    fn first_behind(
        &self,
        alloc: Global,
        told: u64,
        limit: usize,
    ) -> Result<Vec<Change>, AllocError>
        ensures { IfOk result (λ list. list.items
            ≡ take limit (behind told self.now.changes.items)) }
    {
        self.changes
            .iter()
            .filter(|change| change.number > told)
            .take(limit)
            .copied()
            .collect(alloc)
    }

    /// The changes behind a cursor of this run, at most so many; all of them where there is none. A vehicle has one change, its last.
    pub fn page(
        &self,
        alloc: Global,
        cursor: Option<Cursor>,
        limit: usize,
    ) -> Result<Page, AllocError>
        ensures changes { IfOk result (λ page. page.changes.items ≡ take limit
            (behind (told_of self.now.left self.now.last cursor) self.now.changes.items)) }
        ensures more { IfOk result (λ page. IsTrue page.is_more ↔ (limit
            < length (behind (told_of self.now.left self.now.last cursor) self.now.changes.items))) }
        ensures told { IfOk result (λ page. page.cursor.told ≡ (if page.is_more
            then last_of (told_of self.now.left self.now.last cursor) page.changes.items
            else self.now.last)) }
        ensures point { IfOk result (λ page. page.cursor.point ≡ (if page.is_more
            then point_of self.now.left self.now.last cursor else self.now.last)) }
        ensures full { IfOk result (λ page.
            page.is_full ≡ is_anew self.now.left self.now.last cursor) }
    {
        let (told, point, is_full) = self.start(cursor);
        let changes = self.first_behind(alloc, told, limit)?;
        let is_more = limit < self.behind(told);
        let cursor = if is_more {
            Cursor {
                told: last_of(told, changes.as_slice()),
                point,
            }
        } else {
            Cursor {
                told: self.last,
                point: self.last,
            }
        };
        Ok(Page {
            changes,
            cursor,
            is_full,
            is_more,
        })
    }
}
