//! A terminal that was turned away.

ghost use Rattle.std.specs.Prelude.{◌≡◌, nat_eq};
ghost use Rattle.std.specs.Str.{bytes_eq};

use crate::name::Name;
use std::net::IpAddr;

/// A terminal whose registration was denied. Moments are in seconds since 1970.
#[derive(Clone, Copy)]
pub struct Stranger {
    /// The twenty digits of the phone, two an octet.
    pub digits: [u8; 10],
    pub plate: Name,
    pub terminal: Name,
    /// How often it tried.
    pub tried: u64,
    /// Why it was denied the last time: 1 the plate is another phone's, 2 the plate is not in the fleet, 3 the terminal id is another
    /// phone's, 4 the terminal id is not in the fleet.
    pub denied: u8,
    pub first: u64,
    pub last: u64,
    /// The address that it came from the last time, where it is known.
    pub peer: Option<IpAddr>,
    /// The number of that address, by which those of one address are counted.
    pub address: u128,
}

/// The number of an address, of IPv4 as IPv6 maps it; 0 where it is not known.
pub(crate) fn number_of(peer: Option<IpAddr>) -> u128 {
    match peer {
        Some(IpAddr::V4(address)) => u128::from(address.to_ipv6_mapped()),
        Some(IpAddr::V6(address)) => u128::from(address),
        None => 0,
    }
}

impl Stranger {
    /// Whether it has these digits.
    pub fn has(&self, digits: &[u8; 10]) -> bool
        ensures { result ≡ bytes_eq self.now.digits digits.now }
    {
        self.digits == *digits
    }

    /// Whether it came from the address of this number.
    pub fn is_from(&self, address: u128) -> bool
        ensures { result ≡ nat_eq self.now.address address }
    {
        self.address == address
    }
}
