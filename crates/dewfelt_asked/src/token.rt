//! Tokens.

use std::io;
use std::random::RandomSource;

/// A token has so many hexadecimal digits.
pub const TOKEN_DIGITS: usize = 64;

const OCTETS: usize = 32;

/// A new token: the hexadecimal digits of 32 random octets. An error is what the system said.
pub fn make_token<R: RandomSource>(rt: &R) -> io::Result<[u8; TOKEN_DIGITS]> {
    let mut octets = [0; OCTETS];
    rt.fill_bytes(&mut octets)?;
    let mut digits = [b'0'; TOKEN_DIGITS];
    let _ = hex::encode_to_slice(&octets[..], &mut digits);
    Ok(digits)
}
