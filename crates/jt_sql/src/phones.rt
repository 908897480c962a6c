//! Phones in the tables: the ten octets of their digits.

use crate::refused::Refused;
use jt_value::{Edition, Phone};

/// The phone of an edition with these twenty digits. Anything but ten octets of digits is refused.
pub(crate) fn phone_of(edition: Edition, digits: &[u8]) -> Result<Phone, Refused> {
    if digits.len() != 10 {
        return Err(Refused::Failed);
    }
    match Phone::from_octets(Edition::E2019, digits) {
        Ok(phone) => {
            let digits = phone.digits;
            Ok(Phone { edition, digits })
        }
        Err(_) => Err(Refused::Failed),
    }
}
