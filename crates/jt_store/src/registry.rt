//! Registrations in memory, found by the phone, by the plate and by the terminal id.

ghost use Rattle.std.specs.Cmp.Lexicographic.{slice_cmp};
ghost use Rattle.std.specs.Option.{option_map};
ghost use Rattle.std.specs.Ordering.{is_gt, nat_cmp};
ghost use Rattle.std.specs.Prelude.{◌≡◌, ℕ, List, [], Some, None, false, IfNone, IfOk, IfSome, IsSome, OnOk, OnErr, length, option_copied, if◌then◌else◌};
ghost use Rattle.jt_value.specs.Sameness.{key_of, same_key};
ghost use Rattle.jt_value.specs.declared.phone.Edition.TheVariants.{E2019};
ghost use Rattle.jt_store.specs.Memory.{under};
ghost use Rattle.jt_store.specs.Tables.{AreNamedOnce, IsBehind, IsHolder, IsTrimmed, MayRegister, plates, terminals};

use crate::by_phone::{ByPhone, Key};
use crate::names::Names;
use crate::row::{Registered, copy_registered};
use jt_value::{Memory, Phone};
use std::alloc::Global;
use std::marker::Model;

/// The registrations of phones. A name whose registration is gone goes too, unless memory was refused then.
#[derive(Drop)]
pub struct Registry {
    registered: ByPhone<Registered>,
    plates: Names,
    terminals: Names,
}

impl Model for Registry {
    ghost use Rattle.std.specs.Prelude.{List, ℕ};
    ghost use Rattle.jt_store.specs.declared.row.Registered.{Registered};

    ghost Value = { List (List ℕ × Registered) };

    ghost use Rattle.jt_store.specs.Memory.{under};
    ghost use Rattle.jt_store.specs.Registry.{IsRegistry};

    ghost view = { λ registry. registry.registered };

    ghost invariant = { λ registry. IsRegistry (under registry.registered) (under registry.plates) (under registry.terminals) };
}

impl Registry {
    /// No registrations, and no memory taken.
    pub fn new(alloc: Global) -> Registry
        ensures { result ≡ [] }
    {
        Registry {
            registered: ByPhone::new(alloc),
            plates: Names::new(alloc),
            terminals: Names::new(alloc),
        }
    }

    /// How many phones are registered.
    pub fn len(&self) -> usize
        ensures { result ≡ length self.now }
    {
        self.registered.len()
    }

    /// What a phone is registered with.
    pub fn get(&self, key: &Key) -> Option<&Registered>
        ensures value { option_copied result ≡ under self.now key.now }
        ensures names { AreNamedOnce (under self.now) }
    {
        self.registered.get(key)
    }

    /// The least phone behind this one, or the least of all, as one of 2019, and what it is registered with.
    pub fn next(&self, after: Option<&Phone>) -> Option<(Phone, &Registered)>
        ensures none { IfNone result ((q : List ℕ) →
            IsBehind (option_map key_of (option_copied after.entry)) q → under self.now q ≡ None) }
        ensures edition { IfSome result (λ one. one.0.edition ≡ E2019) }
        ensures behind { IfSome result (λ one.
            IsBehind (option_map key_of (option_copied after.entry)) (key_of one.0)) }
        ensures value { IfSome result (λ one. under self.now (key_of one.0) ≡ Some one.1.now) }
        ensures least { IfSome result (λ one. (q : List ℕ) →
            IsBehind (option_map key_of (option_copied after.entry)) q →
            IsSome (under self.now q) → is_gt (slice_cmp nat_cmp (key_of one.0) q) ≡ false) }
        ensures names { AreNamedOnce (under self.now) }
    {
        let _ = &self.plates;
        match after {
            Some(phone) => self.registered.behind(&phone.digits),
            None => self.registered.first(),
        }
    }

    /// The phone that has a plate.
    pub fn plate_holder(&self, plate: &[u8]) -> Option<Key>
        ensures holder { IsHolder plates (under self.now) plate.now result }
        ensures names { AreNamedOnce (under self.now) }
    {
        let _ = &self.registered;
        self.with_plate(plate)
    }

    /// The phone that has a terminal id.
    pub fn terminal_holder(&self, terminal: &[u8]) -> Option<Key>
        ensures holder { IsHolder terminals (under self.now) terminal.now result }
        ensures names { AreNamedOnce (under self.now) }
    {
        let _ = &self.registered;
        self.with_terminal(terminal)
    }

    /// Registers a phone with names that no other phone has.
    pub fn set(&mut self, alloc: Global, key: Key, registered: &Registered) -> Result<(), Memory>
        requires trimmed { IsTrimmed registered.now.terminal }
        requires may { MayRegister (under self.old) key registered.now }
        ensures ok { OnOk result ((q : List ℕ) →
            under self.new q ≡ (if same_key key q then Some registered.now else under self.old q)) }
        ensures err { OnErr result (self.new ≡ self.old) }
    {
        if let Some(was) = self.put(alloc, key, registered)? {
            self.forget(&was);
        }
        Ok(())
    }

    /// Takes the registration of a phone out.
    pub fn remove(&mut self, key: &Key)
        ensures { (q : List ℕ) →
            under self.new q ≡ (if same_key key.now q then None else under self.old q) }
    {
        if let Some(was) = self.take(key) {
            self.forget(&was);
        }
    }

    // The phone that has a plate.
    fn with_plate(&self, plate: &[u8]) -> Option<Key>
        ensures { IsHolder plates (under self.now) plate.now result }
    {
        let key = match self.plates.phone(plate) {
            Some(key) => key,
            None => return None,
        };
        match self.registered.get(&key) {
            Some(registered) => {
                if registered.plate.as_slice() == plate {
                    return Some(key);
                }
                None
            }
            None => None,
        }
    }

    // The phone that has a terminal id.
    fn with_terminal(&self, terminal: &[u8]) -> Option<Key>
        ensures { IsHolder terminals (under self.now) terminal.now result }
    {
        let key = match self.terminals.phone(terminal) {
            Some(key) => key,
            None => return None,
        };
        match self.registered.get(&key) {
            Some(registered) => {
                if registered.terminal.as_slice() == terminal {
                    return Some(key);
                }
                None
            }
            None => None,
        }
    }

    // Registers a phone, and answers what it was registered with.
    fn put(
        &mut self,
        alloc: Global,
        key: Key,
        registered: &Registered,
    ) -> Result<Option<Registered>, Memory>
        requires trimmed { IsTrimmed registered.now.terminal }
        requires may { MayRegister (under self.old) key registered.now }
        ensures ok { OnOk result ((q : List ℕ) →
            under self.new q ≡ (if same_key key q then Some registered.now else under self.old q)) }
        ensures err { OnErr result (self.new ≡ self.old) }
    {
        let copy = copy_registered(alloc, registered)?;
        self.plates.set(alloc, registered.plate.as_slice(), key)?;
        self.terminals
            .set(alloc, registered.terminal.as_slice(), key)?;
        let was = self.registered.set(key, copy)?;
        Ok(was)
    }

    // Takes a registration out, and answers it.
    fn take(&mut self, key: &Key) -> Option<Registered>
        ensures { (q : List ℕ) →
            under self.new q ≡ (if same_key key.now q then None else under self.old q) }
    {
        self.registered.remove(key)
    }

    // Takes the names of a registration that is gone out, where no other phone has them.
    fn forget(&mut self, was: &Registered)
        ensures { self.new ≡ self.old }
    {
        self.forget_plate(was.plate.as_slice());
        self.forget_terminal(was.terminal.as_slice());
    }

    fn forget_plate(&mut self, plate: &[u8])
        ensures { self.new ≡ self.old }
    {
        let holder = self.with_plate(plate);
        if holder.is_none() {
            self.plates.remove(plate);
        }
    }

    fn forget_terminal(&mut self, terminal: &[u8])
        ensures { self.new ≡ self.old }
    {
        let holder = self.with_terminal(terminal);
        if holder.is_none() {
            self.terminals.remove(terminal);
        }
    }
}
