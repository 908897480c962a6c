//! Maps whose keys stay until they are let go.

ghost use Rattle.std.specs.Prelude.{◌≡◌, [], IfOk, OnOk, OnErr, IsOk, IsSome, Some, None, option_copied, if◌then◌else◌, filter, not, ◌==◌};
ghost use Rattle.std.specs.BTreeMap.{is_at};
ghost use Rattle.std.specs.Map.{lookup};
ghost use Rattle.std.specs.Option.{unwrap_or};

use jt_store::Digits;
use jt_value::Memory;
use std::alloc::Global;
use std::collections::BTreeMap;
use std::marker::Model;

// A value for each of some keys. A key that has a value is given another without memory.
#[derive(Drop)]
pub(crate) struct Lookup<K: Ord, V> {
    values: BTreeMap<K, V>,
}

impl<K: Ord, V> Model for Lookup<K, V> {
    ghost use Rattle.std.specs.Prelude.{List};

    ghost Value = { List (K × V) };

    ghost view = { λ map. map.values.entries };
}

impl<K: Ord + Drop, V: Drop> Lookup<K, V> {
    pub(crate) fn new(alloc: Global) -> Lookup<K, V>
        ensures { result ≡ [] }
    {
        Lookup {
            values: BTreeMap::new(alloc),
        }
    }

    pub(crate) fn get(&self, key: &K) -> Option<&V>
        ensures { option_copied result ≡ lookup (is_at (K.cmp key.now)) self.now }
    {
        self.values.get(key)
    }

    pub(crate) fn set(&mut self, key: K, value: V) -> Result<(), Memory>
        ensures ok { OnOk result ((q : K) → lookup (is_at (K.cmp q)) self.new
            ≡ (if is_at (K.cmp key) q then Some value else lookup (is_at (K.cmp q)) self.old)) }
        ensures err { OnErr result (self.new ≡ self.old) }
        ensures known { IsSome (lookup (is_at (K.cmp key)) self.old) → IsOk result }
    {
        self.values.insert(key, value)?;
        Ok(())
    }

    // Makes a place for the key, with this value, where it has none.
    pub(crate) fn place(&mut self, key: K, value: V) -> Result<(), Memory>
        ensures made { OnOk result (IsSome (lookup (is_at (K.cmp key)) self.new)) }
        ensures kept { (q : K) → IsSome (lookup (is_at (K.cmp q)) self.old) →
            IsSome (lookup (is_at (K.cmp q)) self.new) }
        ensures same { (q : K) → unwrap_or (lookup (is_at (K.cmp q)) self.new) value
            ≡ unwrap_or (lookup (is_at (K.cmp q)) self.old) value }
    {
        if self.values.contains_key(&key) {
            return Ok(());
        }
        self.set(key, value)
    }

    // Lets the key go, with its value, where it has one.
    pub(crate) fn forget(&mut self, key: &K)
        ensures { (q : K) → lookup (is_at (K.cmp q)) self.new
            ≡ (if is_at (K.cmp key.now) q then None else lookup (is_at (K.cmp q)) self.old) }
    {
        self.values.remove(key);
    }
}

impl<V: Drop> Lookup<(u32, Digits), V> {
    // Lets all keys of this number go.
    pub(crate) fn forget_number(&mut self, number: u32)
        ensures { self.new ≡ filter (λ e. not (number == e.0.0)) self.old }
    {
        self.values.retain(|key, _value| number != key.0);
    }
}
