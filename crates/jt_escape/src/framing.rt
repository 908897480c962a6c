//! Check octets, escapes and frames.

ghost use Rattle.std.specs.Prelude.{◌≡◌, ◌≤◌, [], length, take, fold, bit_xor};
ghost use Rattle.std.specs.Simd.Lanes.{zip2};
ghost use Rattle.jt_escape.specs.Frame.{check_of, framed};

use arrayvec::ArrayVec;
use jt_value::limits::{CONTENT_LIMIT, FRAME_LIMIT};
use std::simd::prelude::*;

/// Opens and closes a frame.
pub const FLAG: u8 = 0x7E;
/// Stands before the code of a content octet that is a flag or an escape.
pub const ESCAPE: u8 = 0x7D;
/// The code of an escape.
pub const ESCAPE_CODE: u8 = 0x01;
/// The code of a flag.
pub const FLAG_CODE: u8 = 0x02;

// Octets that are taken together into a check octet.
const LANES: usize = 16;

// The XOR of a value and all octets.
fn check_on(check: u8, octets: &[u8]) -> u8
    ensures { result ≡ fold bit_xor check octets.now }
{
    octets.iter().fold(check, |check, octet| check ^ octet)
}

// One more row of octets, each in its lane.
#[inline(always)]
fn check_row(lanes: u8x16, octets: &[u8]) -> u8x16
    requires { 16 ≤ length octets.now }
    ensures { result ≡ zip2 bit_xor lanes (take 16 octets.now) }
{
    lanes ^ u8x16::from_slice(octets)
}

// The XOR of all lanes.
#[inline(always)]
fn check_lanes(lanes: u8x16) -> u8
    ensures { result ≡ fold bit_xor 0 lanes }
{
    lanes.reduce_xor()
}

/// The XOR of all octets, 0 for none: the check octet of these octets (the standard's framing).
pub fn check(octets: &[u8]) -> u8
    ensures { result ≡ check_of octets.now }
{
    let mut lanes = u8x16::splat(0);
    let mut left = octets;
    while left.len() >= LANES {
        lanes = check_row(lanes, left);
        left = &left[LANES..];
    }
    check_on(check_lanes(lanes), left)
}

/// Writes the frame of a content of at most 1,045 octets into an empty `out` (the standard's framing).
pub fn escape_into(content: &[u8], out: &mut ArrayVec<u8, FRAME_LIMIT>)
    requires short { length content.now ≤ CONTENT_LIMIT }
    requires empty { out.old.items ≡ [] }
    ensures { out.new.items ≡ framed content.now }
{
    out.push(FLAG);
    for octet in content {
        match *octet {
            FLAG => {
                out.push(ESCAPE);
                out.push(FLAG_CODE);
            }
            ESCAPE => {
                out.push(ESCAPE);
                out.push(ESCAPE_CODE);
            }
            other => out.push(other),
        }
    }
    out.push(FLAG);
}
