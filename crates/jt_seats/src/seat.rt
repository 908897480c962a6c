//! A place for a link.

ghost use Rattle.std.specs.Prelude.{◌≡◌};
ghost use Rattle.std.specs.Option.{option_or};
ghost use Rattle.jt_value.specs.Sameness.{key_of};
ghost use Rattle.jt_seats.specs.Seats.{dismissed, goes_on, is_let_in, is_of, is_phone, is_session, is_stranger};
ghost use Rattle.jt_seats.specs.Verdicts.{of_seat, of_stranger};

use crate::cut::Cut;
use crate::limits::Limits;
use jt_value::Phone;
use std::net::IpAddr;

const MILLISECONDS: u128 = 1_000;

/// A place for a link.
#[derive(Clone, Copy)]
pub struct Seat {
    /// Whether a link is served in it.
    pub is_taken: bool,
    /// The session's number; 0 before it has one.
    pub session: u32,
    /// When the link came, in milliseconds.
    pub since: u64,
    /// The number of the other end's address, as `address_number` has it.
    pub address: u128,
    /// The phone that was let in on it last, if one was.
    pub phone: Option<Phone>,
    /// Why the link is to be ended, where it is.
    pub cut: Option<Cut>,
}

/// The number of an address, of IPv4 as IPv6 maps it; 0 where it is not known.
pub fn address_number(peer: Option<IpAddr>) -> u128 {
    match peer {
        Some(IpAddr::V4(address)) => u128::from(address.to_ipv6_mapped()),
        Some(IpAddr::V6(address)) => u128::from(address),
        None => 0,
    }
}

// Why a stranger's link is to end, which sent so many octets and has been there for so many milliseconds.
fn of_stranger(limits: &Limits, octets: u64, stay: u64) -> Option<Cut>
    ensures { result ≡ of_stranger limits.now octets stay }
{
    if octets >= limits.stranger_octets {
        return Some(Cut::StrangerOctets);
    }
    if u128::from(stay) >= u128::from(limits.stranger_seconds) * MILLISECONDS {
        return Some(Cut::StrangerTime);
    }
    None
}

impl Seat {
    // Whether nobody was let in on its link, which may be one that is to end.
    pub(crate) fn is_stranger(&self) -> bool
        ensures { result ≡ is_stranger self.now }
    {
        self.is_taken && self.phone.is_none()
    }

    // Whether it is a stranger's from this address.
    pub(crate) fn is_of(&self, address: u128) -> bool
        ensures { result ≡ is_of address self.now }
    {
        self.is_stranger() && self.address == address
    }

    // Whether it is a stranger's, and does not end yet.
    pub(crate) fn goes_on(&self) -> bool
        ensures { result ≡ goes_on self.now }
    {
        self.is_stranger() && self.cut.is_none()
    }

    // Whether a link is served in it.
    pub(crate) fn has_link(&self) -> bool
        ensures { result ≡ self.now.is_taken }
    {
        self.is_taken
    }

    // Whether somebody was let in on its link.
    pub(crate) fn is_let_in(&self) -> bool
        ensures { result ≡ is_let_in self.now }
    {
        self.is_taken && self.phone.is_some()
    }

    // Whether its link has the session of this number.
    pub(crate) fn is_session(&self, session: u32) -> bool
        ensures { result ≡ is_session session self.now }
    {
        self.is_taken && self.session == session
    }

    // Whether the phone was let in on its link.
    pub(crate) fn has_phone(&self, phone: &Phone) -> bool
        ensures { result ≡ is_phone (key_of phone.now) self.now.phone }
    {
        match self.phone {
            Some(seated) => seated.digits == phone.digits,
            None => false,
        }
    }

    // The same, to end where the phone was let in on its link.
    pub(crate) fn dismissed(&self, phone: &Phone) -> Seat
        ensures { result ≡ dismissed (key_of phone.now) self.now }
    {
        let mut seat = *self;
        if seat.has_phone(phone) {
            seat.cut = Some(Cut::Dismissed);
        }
        seat
    }

    // Why its link is to end now, which sent so many octets: by what was decided of it, or by a stranger's limits.
    pub(crate) fn verdict(&self, limits: &Limits, octets: u64, now: u64) -> Option<Cut>
        ensures { result
            ≡ option_or self.now.cut (of_seat limits.now octets now self.now) }
    {
        if self.cut.is_some() {
            return self.cut;
        }
        if self.phone.is_some() {
            return None;
        }
        of_stranger(limits, octets, now.saturating_sub(self.since))
    }
}
