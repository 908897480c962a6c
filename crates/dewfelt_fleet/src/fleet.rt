//! The fleet: which names may register, and which are bound to a phone.

ghost use Rattle.std.specs.Cmp.Lexicographic.{slice_cmp};
ghost use Rattle.std.specs.Bool.{OnFalse, OnTrue};
ghost use Rattle.std.specs.Option.{option_map};
ghost use Rattle.std.specs.Ordering.{is_gt, nat_cmp};
ghost use Rattle.std.specs.Prelude.{◌≡◌, ◌||◌, ℕ, List, [], Some, None, true, false, IfNone, IfOk, IfSome, IsSome, IsTrue, OnErr, option_copied, if◌then◌else◌};
ghost use Rattle.std.specs.Str.{bytes_eq};
ghost use Rattle.dewfelt_fleet.specs.Fleets.{IsApart, IsBound, MayBind, is_allowed};
ghost use Rattle.dewfelt_fleet.specs.Names.{is_among};
ghost use Rattle.jt_store.specs.Memory.{under};
ghost use Rattle.jt_store.specs.Tables.{AreNamedOnce, IsBehind, IsHolder, IsTrimmed, plates, terminals};
ghost use Rattle.jt_value.specs.Sameness.{key_of, same_key};
ghost use Rattle.jt_value.specs.declared.phone.Edition.TheVariants.{E2019};

use crate::names::Names;
use jt_store::{Registered, RegistrationTable};
use jt_value::{Memory, Octets, Phone, Seq};
use std::alloc::Global;
use std::marker::Model;

/// The secret that codes are made of, vehicles, whose plate, terminal id and phone are bound to one another, and other plates and
/// terminal ids, which any other phone may register. No plate, id or phone is bound twice, and no bound one is among the others.
#[derive(Drop)]
pub struct Fleet {
    secret: Octets,
    bound: RegistrationTable,
    plates: Names,
    terminals: Names,
}

impl Model for Fleet {
    ghost use Rattle.dewfelt_fleet.specs.Fleets.{FleetValue, IsApart};
    ghost use Rattle.jt_store.specs.Memory.{under};

    ghost Value = { FleetValue };

    ghost view = { λ f. record { secret = f.secret; bound = f.bound; plates = f.plates; terminals = f.terminals } };

    ghost invariant = { λ f. IsApart (under f.bound) f.plates f.terminals };
}

impl Fleet {
    /// The fleet of this secret in which there is nobody.
    pub fn new(alloc: Global, secret: Octets) -> Fleet
        ensures { result ≡ record { secret = secret; bound = []; plates = []; terminals = [] } }
    {
        Fleet {
            secret,
            bound: RegistrationTable::new(alloc),
            plates: Names::new(alloc),
            terminals: Names::new(alloc),
        }
    }

    /// What codes are made of.
    pub fn secret(&self) -> &[u8]
        ensures { result.now ≡ self.now.secret }
    {
        self.secret.as_slice()
    }

    /// What a phone is bound to.
    pub fn bound(&self, phone: &Phone) -> Option<&Registered>
        ensures { option_copied result ≡ under self.now.bound (key_of phone.now) }
    {
        self.bound.get(&phone.digits)
    }

    /// The bound phone with the least digits behind those of `after`, or with the least of all, as one of 2019, and what it is bound
    /// to.
    pub fn next_bound(&self, after: Option<&Phone>) -> Option<(Phone, &Registered)>
        ensures none { IfNone result ((q : List ℕ) →
            IsBehind (option_map key_of (option_copied after.entry)) q →
            under self.now.bound q ≡ None) }
        ensures edition { IfSome result (λ one. one.0.edition ≡ E2019) }
        ensures behind { IfSome result (λ one.
            IsBehind (option_map key_of (option_copied after.entry)) (key_of one.0)) }
        ensures bound { IfSome result (λ one.
            under self.now.bound (key_of one.0) ≡ Some one.1.now) }
        ensures least { IfSome result (λ one. (q : List ℕ) →
            IsBehind (option_map key_of (option_copied after.entry)) q →
            IsSome (under self.now.bound q) → is_gt (slice_cmp nat_cmp (key_of one.0) q) ≡ false) }
        ensures names { AreNamedOnce (under self.now.bound) }
        ensures apart { IsApart (under self.now.bound) self.now.plates self.now.terminals }
    {
        let _ = &self.plates;
        self.bound.next(after)
    }

    /// Whether any phone that is bound to nothing may register with this plate.
    pub fn has_plate(&self, plate: &[u8]) -> bool
        ensures { result ≡ is_among self.now.plates plate.now }
    {
        self.plates.has(plate)
    }

    /// Whether any phone that is bound to nothing may register with this terminal id, which has no zeros at its end.
    pub fn has_terminal(&self, terminal: &[u8]) -> bool
        ensures { result ≡ is_among self.now.terminals terminal.now }
    {
        self.terminals.has(terminal)
    }

    /// Whether a phone may be registered so.
    pub fn allows(&self, phone: &Phone, registered: &Registered) -> bool
        ensures { result ≡ is_allowed self.now (key_of phone.now) registered.now }
    {
        match self.bound.get(&phone.digits) {
            Some(own) => {
                own.plate.as_slice() == registered.plate.as_slice()
                    && own.terminal.as_slice() == registered.terminal.as_slice()
            }
            None => {
                self.plates.has(registered.plate.as_slice())
                    && self.terminals.has(registered.terminal.as_slice())
            }
        }
    }

    /// How many vehicles, other plates and other terminal ids there are.
    pub fn counts(&self) -> (usize, usize, usize) {
        (self.bound.len(), self.plates.len(), self.terminals.len())
    }

    /// The plates that are not bound, in order.
    pub fn plates(&self, alloc: Global) -> Result<Seq<Octets>, Memory> {
        self.plates.list(alloc)
    }

    /// The terminal ids that are not bound, in order.
    pub fn terminals(&self, alloc: Global) -> Result<Seq<Octets>, Memory> {
        self.terminals.list(alloc)
    }

    pub(crate) fn free_plates(&self) -> &Names {
        &self.plates
    }

    pub(crate) fn free_terminals(&self) -> &Names {
        &self.terminals
    }

    /// Binds a plate and a terminal id to a phone, by its digits. False, and all is as before, where one of the three is bound
    /// already, or the plate or the id is among the others.
    pub fn bind(
        &mut self,
        alloc: Global,
        phone: &Phone,
        registered: &Registered,
    ) -> Result<bool, Memory>
        requires trimmed { IsTrimmed registered.now.terminal }
        ensures done { IfOk result (λ done. OnTrue done
            (IsBound self.old (key_of phone.now) registered.now self.new)) }
        ensures refused { IfOk result (λ done. OnFalse done (self.new ≡ self.old)) }
        ensures why { IfOk result (λ done. OnFalse done
            (¬ MayBind self.old (key_of phone.now) registered.now)) }
        ensures err { OnErr result (self.new ≡ self.old) }
    {
        if !self.may_bind(phone, registered) {
            return Ok(false);
        }
        self.bound.set(alloc, phone.digits, registered)?;
        Ok(true)
    }

    // Whether neither phone nor names are bound, and the names are not among the others.
    fn may_bind(&self, phone: &Phone, registered: &Registered) -> bool
        ensures may { IsTrue result → MayBind self.now (key_of phone.now) registered.now }
        ensures may_not { result ≡ false → ¬ MayBind self.now (key_of phone.now) registered.now }
    {
        !self.binds_phone(phone)
            && !self.binds_plate(registered.plate.as_slice())
            && !self.binds_terminal(registered.terminal.as_slice())
            && !self.plates.has(registered.plate.as_slice())
            && !self.terminals.has(registered.terminal.as_slice())
    }

    fn binds_phone(&self, phone: &Phone) -> bool
        ensures free { result ≡ false → under self.now.bound (key_of phone.now) ≡ None }
        ensures bound { result ≡ true → ¬ (under self.now.bound (key_of phone.now) ≡ None) }
    {
        match self.bound.get(&phone.digits) {
            Some(_) => true,
            None => false,
        }
    }

    fn binds_plate(&self, plate: &[u8]) -> bool
        ensures free { result ≡ false → IsHolder plates (under self.now.bound) plate.now None }
        ensures bound { result ≡ true → ¬ IsHolder plates (under self.now.bound) plate.now None }
    {
        match self.bound.plate_holder(plate) {
            Some(_) => true,
            None => false,
        }
    }

    fn binds_terminal(&self, terminal: &[u8]) -> bool
        ensures free { result ≡ false →
            IsHolder terminals (under self.now.bound) terminal.now None }
        ensures bound { result ≡ true →
            ¬ IsHolder terminals (under self.now.bound) terminal.now None }
    {
        match self.bound.terminal_holder(terminal) {
            Some(_) => true,
            None => false,
        }
    }

    /// Puts a plate among those that are not bound. False, and all is as before, where it is bound.
    pub fn add_plate(&mut self, alloc: Global, plate: &[u8]) -> Result<bool, Memory>
        ensures done { IfOk result (λ done. OnTrue done ((q : List ℕ) →
            is_among self.new.plates q ≡ (bytes_eq plate.now q || is_among self.old.plates q))) }
        ensures others { (self.new.secret ≡ self.old.secret) × (self.new.bound ≡ self.old.bound)
            × (self.new.terminals ≡ self.old.terminals) }
        ensures refused { IfOk result (λ done. OnFalse done (self.new ≡ self.old)) }
        ensures why { IfOk result (λ done. OnFalse done
            (¬ IsHolder plates (under self.old.bound) plate.now None)) }
        ensures err { OnErr result (self.new ≡ self.old) }
    {
        if self.binds_plate(plate) {
            return Ok(false);
        }
        self.plates.add(alloc, plate)?;
        Ok(true)
    }

    /// Puts a terminal id, which has no zeros at its end, among those that are not bound. False, and all is as before, where it is
    /// bound.
    pub fn add_terminal(&mut self, alloc: Global, terminal: &[u8]) -> Result<bool, Memory>
        ensures done { IfOk result (λ done. OnTrue done ((q : List ℕ) →
            is_among self.new.terminals q
            ≡ (bytes_eq terminal.now q || is_among self.old.terminals q))) }
        ensures others { (self.new.secret ≡ self.old.secret) × (self.new.bound ≡ self.old.bound)
            × (self.new.plates ≡ self.old.plates) }
        ensures refused { IfOk result (λ done. OnFalse done (self.new ≡ self.old)) }
        ensures why { IfOk result (λ done. OnFalse done
            (¬ IsHolder terminals (under self.old.bound) terminal.now None)) }
        ensures err { OnErr result (self.new ≡ self.old) }
    {
        if self.binds_terminal(terminal) {
            return Ok(false);
        }
        self.terminals.add(alloc, terminal)?;
        Ok(true)
    }
}
