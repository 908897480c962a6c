//! The registrations of any keeper, one after another.

use jt_store::{Registered, Registrations, StoreError};
use jt_value::{Edition, Phone};
use std::alloc::Global;

// More registrations than a test has.
const MOST: usize = 16;

/// A registered phone, by its last two digits, and the first octets of its plate and of its terminal id.
#[derive(Clone, Copy, Debug, PartialEq, Eq)]
pub struct Listed(pub u8, pub u8, pub u8);

// None where it is no phone of 2019, or a name is empty.
fn make_listed(phone: &Phone, registered: &Registered) -> Option<Listed> {
    if phone.edition != Edition::E2019 {
        return None;
    }
    let plate = registered.plate.as_slice().first()?;
    let terminal = registered.terminal.as_slice().first()?;
    Some(Listed(phone.digits[9], *plate, *terminal))
}

/// The place of the first registration behind those of `after` that is not as the list has it, by calls of which each asks behind
/// the phone of the one before. A registration too few or too many is one that is not so.
pub fn first_unlike<K: Registrations>(
    alloc: Global,
    keeper: &mut K,
    after: Option<Phone>,
    wanted: &[Listed],
) -> Result<Option<usize>, StoreError> {
    let mut last = after;
    for place in 0..MOST {
        let Some((phone, registered)) = keeper.next_registered(alloc, last.as_ref())? else {
            let is_end = place == wanted.len();
            return Ok(if is_end { None } else { Some(place) });
        };
        if make_listed(&phone, &registered) != wanted.get(place).copied() {
            return Ok(Some(place));
        }
        last = Some(phone);
    }
    Ok(Some(MOST))
}
