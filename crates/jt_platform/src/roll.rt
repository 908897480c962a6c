//! The fleet's names, found without going through them.

ghost use Rattle.std.specs.Prelude.{◌≡◌, ℕ, List, [], ◌||◌, OnOk, IfOk};
ghost use Rattle.std.specs.Str.{bytes_eq};
ghost use Rattle.jt_platform.specs.Allowed.{has_plate as has_this_plate, has_terminal as has_this_terminal};

use crate::request::Fleet;
use crate::trimming::without_zeros;
use jt_value::{Memory, Octets, Seq};
use std::alloc::Global;
use std::collections::BTreeSet;
use std::marker::Model;
use std::snapshot::Snapshot;

// A set of names.
#[derive(Drop)]
struct Names {
    names: BTreeSet<Vec<u8>>,
}

impl Model for Names {
    ghost use Rattle.std.specs.Prelude.{List, ℕ, map};

    ghost Value = { List (List ℕ) };

    ghost view = { λ set. map (λ name. name.items) set.names.keys };
}

impl Names {
    fn new(alloc: Global) -> Names
        ensures { result ≡ [] }
    {
        Names {
            names: BTreeSet::new(alloc),
        }
    }

    fn has(&self, name: &[u8]) -> bool
        ensures { result ≡ has_this_plate self.now name.now }
    {
        self.names.contains(name)
    }

    fn add(&mut self, alloc: Global, name: &[u8]) -> Result<(), Memory>
        ensures { OnOk result ((q : List ℕ) →
            has_this_plate self.new q ≡ (bytes_eq name.now q || has_this_plate self.old q)) }
    {
        let name = Vec::from_slice(alloc, name)?;
        self.names.insert(name)?;
        Ok(())
    }
}

// The names as they are.
fn plates_of(alloc: Global, plates: &Seq<Octets>) -> Result<Names, Memory>
    ensures { IfOk result (λ names.
        (q : List ℕ) → has_this_plate names q ≡ has_this_plate plates.now q) }
{
    let mut names = Names::new(alloc);
    for one in plates.as_slice() {
        names.add(alloc, one.as_slice())?;
    }
    Ok(names)
}

// The names without the zeros at their end.
fn terminals_of(alloc: Global, terminals: &Seq<Octets>) -> Result<Names, Memory>
    ensures { IfOk result (λ names.
        (q : List ℕ) → has_this_plate names q ≡ has_this_terminal terminals.now q) }
{
    let mut names = Names::new(alloc);
    for one in terminals.as_slice() {
        names.add(alloc, without_zeros(one.as_slice()))?;
    }
    Ok(names)
}

// What a hub keeps of its fleet: sets of the plates and of the terminal ids. The fleet as it was handed in is for contracts alone
// and takes no octets.
#[derive(Drop)]
pub(crate) struct Roll {
    told: Snapshot<Fleet>,
    plates: Names,
    terminals: Names,
}

impl Model for Roll {
    ghost use Rattle.std.specs.Prelude.{List, ℕ, ◌≡◌};
    ghost use Rattle.jt_platform.specs.declared.request.Fleet.{Fleet};
    ghost use Rattle.jt_platform.specs.Allowed.{has_plate, has_terminal};

    ghost Value = { Fleet };

    ghost view = { λ roll. roll.told.value };

    ghost invariant = { λ roll. ((q : List ℕ) → has_plate roll.plates q ≡ has_plate roll.told.value.plates q) × ((q : List ℕ) → has_plate roll.terminals q ≡ has_terminal roll.told.value.terminals q) };
}

impl Roll {
    pub(crate) fn of(alloc: Global, fleet: &Fleet) -> Result<Roll, Memory>
        ensures { IfOk result (λ roll. roll ≡ fleet.now) }
    {
        let plates = plates_of(alloc, &fleet.plates)?;
        let terminals = terminals_of(alloc, &fleet.terminals)?;
        Ok(Roll {
            told: Snapshot::of(fleet),
            plates,
            terminals,
        })
    }

    pub(crate) fn has_plate(&self, plate: &[u8]) -> bool
        ensures { result ≡ has_this_plate self.now.plates plate.now }
    {
        self.plates.has(plate)
    }

    // Whether the fleet has this terminal id, which has no zeros at its end.
    pub(crate) fn has_terminal(&self, terminal: &[u8]) -> bool
        ensures { result ≡ has_this_terminal self.now.terminals terminal.now }
    {
        self.terminals.has(terminal)
    }
}
