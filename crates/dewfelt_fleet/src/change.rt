//! What changed from one fleet to a newer one.

use crate::fleet::Fleet;
use jt_store::Registered;
use jt_value::Phone;

/// What changed from one fleet to a newer one.
#[derive(Clone, Copy, Debug, PartialEq, Eq)]
pub struct Change {
    /// The secret is another one.
    pub secret: bool,
    /// A vehicle is bound that was not bound so, or is bound no more, or a plate or terminal id that was not bound is gone.
    pub registrations: bool,
    /// A plate or terminal id is among those that are not bound, and was not.
    pub names: bool,
}

impl Change {
    /// What changed from the old fleet to the new one.
    pub fn between(old: &Fleet, new: &Fleet) -> Change {
        Change {
            secret: old.secret() != new.secret(),
            registrations: !binds_all(old, new) || !binds_all(new, old) || !names_all(old, new),
            names: !names_all(new, old),
        }
    }

    /// Whether anything changed.
    pub fn is_some(&self) -> bool {
        self.secret || self.registrations || self.names
    }
}

// Whether each name of this fleet that is not bound is such a one of the other, too.
fn names_all(fleet: &Fleet, other: &Fleet) -> bool {
    other.free_plates().has_all(fleet.free_plates())
        && other.free_terminals().has_all(fleet.free_terminals())
}

fn is_bound_so(fleet: &Fleet, phone: &Phone, registered: &Registered) -> bool {
    match fleet.bound(phone) {
        Some(own) => {
            own.plate.as_slice() == registered.plate.as_slice()
                && own.terminal.as_slice() == registered.terminal.as_slice()
        }
        None => false,
    }
}

// Whether each vehicle of this fleet is bound so by the other, too.
fn binds_all(fleet: &Fleet, other: &Fleet) -> bool {
    let mut after = None;
    for _ in 0..u64::MAX {
        let Some((phone, registered)) = fleet.next_bound(after.as_ref()) else {
            return true;
        };
        if !is_bound_so(other, &phone, registered) {
            return false;
        }
        after = Some(phone);
    }
    false
}
