//! Maps by the digits of phones.

ghost use Rattle.std.specs.Cmp.Lexicographic.{slice_cmp};
ghost use Rattle.std.specs.Ordering.{is_gt, nat_cmp};
ghost use Rattle.std.specs.Prelude.{◌≡◌, ℕ, List, [], ◌∷◌, ◌++◌, false, IfNone, IfOk, IfSome, IsSome, OnOk, OnErr, Some, None, length, option_copied, if◌then◌else◌};
ghost use Rattle.std.specs.declared.cmp.Ordering.TheVariants.{Less};
ghost use Rattle.jt_value.specs.Sameness.{key_of, same_key};
ghost use Rattle.jt_value.specs.declared.phone.Edition.TheVariants.{E2019};
ghost use Rattle.jt_store.specs.Memory.{list_under, under};

use crate::digits::Digits;
use jt_value::{Memory, Phone, Seq};
use std::alloc::Global;
use std::collections::BTreeMap;
use std::marker::Model;
use std::ops::Bound;

/// The twenty digits of a phone, two an octet.
pub type Key = [u8; 10];

/// A value for each of some phones, by their digits.
#[derive(Drop)]
pub struct ByPhone<T> {
    values: BTreeMap<Digits, T>,
}

impl<T> Model for ByPhone<T> {
    ghost use Rattle.std.specs.Prelude.{List, ℕ};

    ghost Value = { List (List ℕ × T) };

    ghost view = { λ map. map.values.entries };
}

impl<T> ByPhone<T> {
    /// No values, and no memory taken.
    pub fn new(alloc: Global) -> ByPhone<T>
        ensures { result ≡ [] }
    {
        ByPhone {
            values: BTreeMap::new(alloc),
        }
    }

    /// The value of a phone.
    pub fn get(&self, key: &Key) -> Option<&T>
        ensures { option_copied result ≡ under self.now key.now }
    {
        self.values.get(&Digits::of(key))
    }

    /// How many phones have a value.
    pub fn len(&self) -> usize
        ensures { result ≡ length self.now }
    {
        self.values.len()
    }

    /// The least phone, as one of 2019, and its value.
    pub fn first(&self) -> Option<(Phone, &T)>
        ensures none { IfNone result ((q : List ℕ) → under self.now q ≡ None) }
        ensures edition { IfSome result (λ one. one.0.edition ≡ E2019) }
        ensures value { IfSome result (λ one. under self.now (key_of one.0) ≡ Some one.1.now) }
        ensures least { IfSome result (λ one. (q : List ℕ) → IsSome (under self.now q) →
            is_gt (slice_cmp nat_cmp (key_of one.0) q) ≡ false) }
    {
        match self.values.first_key_value() {
            Some((digits, value)) => Some((digits.phone(), value)),
            None => None,
        }
    }

    /// The least phone behind these digits, as one of 2019, and its value.
    pub fn behind(&self, after: &Key) -> Option<(Phone, &T)>
        ensures none { IfNone result
            ((q : List ℕ) → slice_cmp nat_cmp after.now q ≡ Less → under self.now q ≡ None) }
        ensures edition { IfSome result (λ one. one.0.edition ≡ E2019) }
        ensures behind { IfSome result (λ one. slice_cmp nat_cmp after.now (key_of one.0) ≡ Less) }
        ensures value { IfSome result (λ one. under self.now (key_of one.0) ≡ Some one.1.now) }
        ensures least { IfSome result (λ one.
            (q : List ℕ) → slice_cmp nat_cmp after.now q ≡ Less → IsSome (under self.now q) →
            is_gt (slice_cmp nat_cmp (key_of one.0) q) ≡ false) }
    {
        let from = Bound::Excluded(Digits::of(after));
        match self.values.range((from, Bound::Unbounded)).next() {
            Some((digits, value)) => Some((digits.phone(), value)),
            None => None,
        }
    }

    /// Sets the value of a phone, and answers the one that it had.
    pub fn set(&mut self, key: Key, value: T) -> Result<Option<T>, Memory>
    where
        T: Drop,
        ensures was { IfOk result (λ was. was ≡ under self.old key) }
        ensures ok { OnOk result ((q : List ℕ) →
            under self.new q ≡ (if same_key key q then Some value else under self.old q)) }
        ensures err { OnErr result (self.new ≡ self.old) }
    {
        let was = self.values.insert(Digits::of(&key), value)?;
        Ok(was)
    }

    /// Takes the value of a phone out.
    pub fn remove(&mut self, key: &Key) -> Option<T>
        ensures value { result ≡ under self.old key.now }
        ensures others { (q : List ℕ) →
            under self.new q ≡ (if same_key key.now q then None else under self.old q) }
    {
        self.values.remove(&Digits::of(key))
    }
}

impl<T> ByPhone<Seq<T>> {
    /// Puts an item at the end of a phone's list.
    pub fn push(&mut self, alloc: Global, key: Key, item: T) -> Result<(), Memory>
    where
        T: Drop,
        ensures ok { OnOk result ((q : List ℕ) → list_under self.new q
            ≡ list_under self.old q ++ (if same_key key q then item ∷ [] else [])) }
        ensures err { OnErr result ((q : List ℕ) → list_under self.new q ≡ list_under self.old q) }
    {
        let digits = Digits::of(&key);
        match self.values.get_mut(&digits) {
            Some(list) => {
                list.push(item)?;
                return Ok(());
            }
            None => {}
        }
        let mut list = Seq::new(alloc);
        list.push(item)?;
        self.values.insert(digits, list)?;
        Ok(())
    }
}
