//! Text that is put together from its end.

ghost use Rattle.std.specs.Prelude.{◌≡◌, ◌+◌, ◌*◌, ◌/◌, ◌%◌, ◌≤◌, ◌++◌, [], length, drop, slice_index, string_bytes, OnOk};
ghost use Rattle.std.specs.Fmt.{decimal};
ghost use Rattle.std.specs.Io.{StartsWith};
ghost use Rattle.hex.specs.Hex.{encode_lower, lower_digits};
ghost use Rattle.jt_text.specs.Values.{byte_digits};

use crate::values::push_text;
use itoa::write_digits;
use std::alloc::AllocError;
use std::marker::Model;

/// Octets of the room. The front of a frame's line, with the fields of a position or a response, is shorter, and so are an item
/// and a refusal's line. The digits of long octets fill it, a piece at a time, and so do elements of lists.
pub(crate) const ROOM: usize = 512;

/// Octets whose digits fill the room.
pub(crate) const HALF_ROOM: usize = ROOM / 2;

// The digits of every octet, two for each.
static PAIRS: [u8; 512] =
    *b"000102030405060708090a0b0c0d0e0f101112131415161718191a1b1c1d1e1f202122232425262728292a2b2c2d2e2f303132333435363738393a3b3c3d3e3f404142434445464748494a4b4c4d4e4f505152535455565758595a5b5c5d5e5f606162636465666768696a6b6c6d6e6f707172737475767778797a7b7c7d7e7f808182838485868788898a8b8c8d8e8f909192939495969798999a9b9c9d9e9fa0a1a2a3a4a5a6a7a8a9aaabacadaeafb0b1b2b3b4b5b6b7b8b9babbbcbdbebfc0c1c2c3c4c5c6c7c8c9cacbcccdcecfd0d1d2d3d4d5d6d7d8d9dadbdcdddedfe0e1e2e3e4e5e6e7e8e9eaebecedeeeff0f1f2f3f4f5f6f7f8f9fafbfcfdfeff";

// The two digits of an octet.
#[inline(always)]
fn digits(octet: u8) -> (u8, u8)
    ensures { (result.0 ≡ slice_index lower_digits (octet / 16))
        × (result.1 ≡ slice_index lower_digits (octet % 16)) }
{
    let from = octet as usize * 2;
    (PAIRS[from], PAIRS[from + 1])
}

// Writes a text, its last octet first, so that it ends at `end`, and returns where it starts. At a text that is known when the
// program is built this comes to a few stores.
#[inline(always)]
fn write_octets(text: &[u8], room: &mut [u8], end: usize) -> usize
    requires { (length text.now ≤ end) × (end ≤ length room.old) }
    ensures start { result + length text.now ≡ end }
    ensures written { drop result room.new ≡ text.now ++ drop end room.old }
{
    let mut at = end;
    let mut left = text.len();
    while left > 0 {
        at -= 1;
        left -= 1;
        room[at] = text[left];
    }
    at
}

// Writes the digits of octets, the last octet first, so that they end at `end`, and returns where they start.
#[inline(always)]
fn write_pairs(octets: &[u8], room: &mut [u8], end: usize) -> usize
    requires { (2 * length octets.now ≤ end) × (end ≤ length room.old) }
    ensures start { result + 2 * length octets.now ≡ end }
    ensures written { drop result room.new ≡ encode_lower octets.now ++ drop end room.old }
{
    let mut at = end;
    let mut left = octets.len();
    while left > 0 {
        at -= 2;
        left -= 1;
        let (high, low) = digits(octets[left]);
        room[at] = high;
        room[at + 1] = low;
    }
    at
}

/// Text that is put together from its end, in a room of 512 octets, so that it is pushed to a text at once. In clauses it is
/// the list of its octets. A call of this crate that is handed a line drops what it held, and does not say what it holds
/// afterwards: it is handed on to save making it anew.
#[derive(Drop)]
pub struct Line {
    octets: [u8; ROOM],
    start: usize,
}

impl Model for Line {
    ghost use Rattle.std.specs.Prelude.{ℕ, List, ◌≤◌, drop};
    ghost use Rattle.std.specs.Str.{IsUtf8};

    ghost Value = { List ℕ };

    ghost view = { λ line. drop line.start line.octets };

    ghost invariant = { λ line. (line.start ≤ 512) × ∥ IsUtf8 (drop line.start line.octets) ∥₁ };
}

impl Line {
    /// A line with no text yet.
    pub fn new() -> Line
        ensures { result ≡ [] }
    {
        Line {
            octets: [0; ROOM],
            start: ROOM,
        }
    }

    // Takes the text away, and leaves the room as it is.
    #[inline(always)]
    pub(crate) fn clear(&mut self)
        ensures { self.new ≡ [] }
    {
        self.start = ROOM;
    }

    // A short text in front, one that the program has.
    #[inline(always)]
    pub(crate) fn put_str(&mut self, text: &str)
        requires { length text.now + length self.old ≤ 512 }
        ensures text { self.new ≡ text.now ++ self.old }
        ensures room { length self.new ≡ length text.now + length self.old }
    {
        self.start = write_octets(text.as_bytes(), &mut self.octets, self.start);
    }

    // Any text in front.
    #[inline(always)]
    pub(crate) fn put_copy(&mut self, text: &str)
        requires { length text.now + length self.old ≤ 512 }
        ensures text { self.new ≡ text.now ++ self.old }
        ensures room { length self.new ≡ length text.now + length self.old }
    {
        let end = self.start;
        let start = end - text.len();
        self.octets[start..end].copy_from_slice(text.as_bytes());
        self.start = start;
    }

    // A number in decimal in front.
    #[inline(always)]
    pub(crate) fn put_number(&mut self, number: u64)
        requires { length self.old + 20 ≤ 512 }
        ensures text { self.new ≡ decimal number ++ self.old }
        ensures room { length self.new ≤ length self.old + 20 }
    {
        self.start = write_digits(number, &mut self.octets, self.start);
    }

    // The two digits of an octet in front.
    #[inline(always)]
    pub(crate) fn put_octet(&mut self, octet: u8)
        requires { length self.old + 2 ≤ 512 }
        ensures text { self.new ≡ byte_digits octet ++ self.old }
        ensures room { length self.new ≡ length self.old + 2 }
    {
        self.put_digits(&[octet]);
    }

    // The digits of octets in front.
    #[inline(always)]
    pub(crate) fn put_digits(&mut self, octets: &[u8])
        requires { length self.old + 2 * length octets.now ≤ 512 }
        ensures text { self.new ≡ encode_lower octets.now ++ self.old }
        ensures room { length self.new ≡ length self.old + 2 * length octets.now }
    {
        self.start = write_pairs(octets, &mut self.octets, self.start);
    }

    // A number in decimal behind its name, both in front.
    #[inline(always)]
    pub(crate) fn put_named_number(&mut self, name: &str, number: u64)
        requires { length name.now + length self.old + 20 ≤ 512 }
        ensures text { self.new ≡ name.now ++ (decimal number ++ self.old) }
        ensures room { length self.new ≤ length name.now + length self.old + 20 }
    {
        self.put_number(number);
        self.put_str(name);
    }

    // The two digits of an octet behind a name, both in front.
    #[inline(always)]
    pub(crate) fn put_named_octet(&mut self, name: &str, octet: u8)
        requires { length name.now + length self.old + 2 ≤ 512 }
        ensures text { self.new ≡ name.now ++ (byte_digits octet ++ self.old) }
        ensures room { length self.new ≡ length name.now + length self.old + 2 }
    {
        self.put_octet(octet);
        self.put_str(name);
    }

    // The digits of octets behind their name, both in front.
    #[inline(always)]
    pub(crate) fn put_named_digits(&mut self, name: &str, octets: &[u8])
        requires { length name.now + length self.old + 2 * length octets.now ≤ 512 }
        ensures text { self.new ≡ name.now ++ (encode_lower octets.now ++ self.old) }
        ensures room { length self.new ≡ length name.now + length self.old + 2 * length octets.now }
    {
        self.put_digits(octets);
        self.put_str(name);
    }

    // The text at the end of another.
    #[inline(always)]
    pub(crate) fn push_to(&self, text: &mut String) -> Result<(), AllocError>
        ensures text { OnOk result (string_bytes text.new ≡ string_bytes text.old ++ self.now) }
        ensures kept { StartsWith (string_bytes text.new) (string_bytes text.old) }
    {
        push_text(text, &self.octets[self.start..])
    }
}
