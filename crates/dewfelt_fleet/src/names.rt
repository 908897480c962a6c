//! Sets of names.

ghost use Rattle.std.specs.Prelude.{◌≡◌, ℕ, List, [], ◌||◌, OnErr, OnOk};
ghost use Rattle.std.specs.Str.{bytes_eq};
ghost use Rattle.dewfelt_fleet.specs.Names.{is_among};

use jt_value::{Memory, Octets, Seq};
use std::alloc::Global;
use std::collections::BTreeSet;
use std::marker::Model;

// A set of plates, or of terminal ids.
#[derive(Drop)]
pub(crate) struct Names {
    names: BTreeSet<Vec<u8>>,
}

impl Model for Names {
    ghost use Rattle.std.specs.Prelude.{List, ℕ, map};

    ghost Value = { List (List ℕ) };

    ghost view = { λ set. map (λ name. name.items) set.names.keys };
}

impl Names {
    pub(crate) fn new(alloc: Global) -> Names
        ensures { result ≡ [] }
    {
        Names {
            names: BTreeSet::new(alloc),
        }
    }

    pub(crate) fn has(&self, name: &[u8]) -> bool
        ensures { result ≡ is_among self.now name.now }
    {
        self.names.contains(name)
    }

    pub(crate) fn add(&mut self, alloc: Global, name: &[u8]) -> Result<(), Memory>
        ensures ok { OnOk result ((q : List ℕ) →
            is_among self.new q ≡ (bytes_eq name.now q || is_among self.old q)) }
        ensures err { OnErr result (self.new ≡ self.old) }
    {
        let name = Vec::from_slice(alloc, name)?;
        self.names.insert(name)?;
        Ok(())
    }

    // How many there are.
    pub(crate) fn len(&self) -> usize {
        self.names.len()
    }

    // All of them, in order.
    pub(crate) fn list(&self, alloc: Global) -> Result<Seq<Octets>, Memory> {
        let mut list = Seq::new(alloc);
        for name in &self.names {
            list.push(Octets::from_vec(Vec::from_slice(alloc, name.as_slice())?))?;
        }
        Ok(list)
    }

    // Whether each name of the other set is in this one.
    pub(crate) fn has_all(&self, other: &Names) -> bool {
        other.names.iter().all(|name| self.names.contains(name))
    }
}
