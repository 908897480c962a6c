//! Maps from plates and terminal ids to the digits of phones.

ghost use Rattle.std.specs.Prelude.{◌≡◌, ℕ, List, [], OnOk, OnErr, Some, None, if◌then◌else◌};
ghost use Rattle.std.specs.Str.{bytes_eq};
ghost use Rattle.jt_store.specs.Memory.{under};

use crate::by_phone::Key;
use jt_value::Memory;
use std::alloc::Global;
use std::collections::BTreeMap;
use std::marker::Model;

/// The phone of each of some names.
#[derive(Drop)]
pub struct Names {
    phones: BTreeMap<Vec<u8>, Key>,
}

impl Model for Names {
    ghost use Rattle.std.specs.Prelude.{List, ℕ, map};

    ghost Value = { List (List ℕ × List ℕ) };

    ghost view = { λ names. map (λ e. (e.0.items, e.1)) names.phones.entries };
}

impl Names {
    /// No names, and no memory taken.
    pub fn new(alloc: Global) -> Names
        ensures { result ≡ [] }
    {
        Names {
            phones: BTreeMap::new(alloc),
        }
    }

    /// The phone of a name.
    pub fn phone(&self, name: &[u8]) -> Option<Key>
        ensures { result ≡ under self.now name.now }
    {
        self.phones.get(name).copied()
    }

    /// Sets the phone of a name.
    pub fn set(&mut self, alloc: Global, name: &[u8], key: Key) -> Result<(), Memory>
        ensures ok { OnOk result ((q : List ℕ) →
            under self.new q ≡ (if bytes_eq name.now q then Some key else under self.old q)) }
        ensures err { OnErr result (self.new ≡ self.old) }
    {
        let name = Vec::from_slice(alloc, name)?;
        self.phones.insert(name, key)?;
        Ok(())
    }

    /// Takes a name out.
    pub fn remove(&mut self, name: &[u8])
        ensures { (q : List ℕ) →
            under self.new q ≡ (if bytes_eq name.now q then None else under self.old q) }
    {
        let _ = self.phones.remove(name);
    }
}
