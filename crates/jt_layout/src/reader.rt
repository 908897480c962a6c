//! Fields of a body, read one after the other.

ghost use Rattle.std.specs.Prelude.{◌≡◌, ◌≤◌, ◌<◌, ◌^◌, ◌↔◌, ◌+◌, length, take, IsTrue, IsOk, IfOk, IfErr, OnErr, OnOk};
ghost use Rattle.jt_layout.specs.Layout.{byte, word, dword, octets_of, rest, at_end, truncated};
ghost use Rattle.jt_layout.specs.Reading.{Finds, Gives};

use jt_value::{CodecError, Octets, Refusal, Why};
use std::alloc::Global;
use std::marker::Model;

/// Octets of a body that are read from the front, field by field. Places count from the body's first octet.
#[derive(Drop)]
pub struct Reader<'a> {
    octets: &'a [u8],
    place: usize,
}

impl<'a> Model for Reader<'a> {
    ghost use Rattle.std.specs.Prelude.{◌≤◌, length};
    ghost use Rattle.jt_layout.specs.At.{At};

    ghost Value = { At };

    ghost view = { λ reader. record { octets = reader.octets.now; place = reader.place } };

    ghost invariant = { λ reader. reader.place ≤ length reader.octets.now };
}

impl<'a> Reader<'a> {
    /// A reader of a whole body.
    pub fn new(octets: &'a [u8]) -> Reader<'a>
        ensures { result ≡ record { octets = octets.now; place = 0 } }
    {
        Reader { octets, place: 0 }
    }

    /// The place of the next octet.
    pub fn place(&self) -> usize
        ensures place { result ≡ self.now.place }
        ensures within { result ≤ length self.now.octets }
    {
        self.place
    }

    /// How many octets are left.
    pub fn left(&self) -> usize
        ensures left { self.now.place + result ≡ length self.now.octets }
        ensures within { result < 2 ^ 63 }
    {
        self.octets.len() - self.place
    }

    /// A second reader that stands at the same place.
    pub fn ahead(&self) -> Reader<'a>
        ensures { result ≡ self.now }
    {
        Reader {
            octets: self.octets,
            place: self.place,
        }
    }

    /// The next so many octets, or Truncated.
    #[tactic(auto, unfolding(crate::specs::Layout::octets_of))]
    pub fn slice(&mut self, count: usize) -> Result<&'a [u8], Refusal>
        ensures value { Finds (λ field. (field.now, self.new.place)) result
            ((octets_of count).read self.old.octets self.old.place) }
        ensures count { IfOk result (λ field. length field.now ≡ count) }
        ensures ok { IsOk result ↔ (self.old.place + count ≤ length self.old.octets) }
        ensures refusal { IfErr result (λ refusal. refusal ≡ truncated self.old.place) }
        ensures octets { self.new.octets ≡ self.old.octets }
        ensures place { OnOk result (self.new.place ≡ self.old.place + count) }
        ensures err { OnErr result (self.new ≡ self.old) }
    {
        if self.left() < count {
            return Err(truncated(self.place));
        }
        let field = &self.octets[self.place..self.place + count];
        self.place += count;
        Ok(field)
    }

    /// The next octet, or Truncated.
    #[tactic(auto, unfolding(crate::specs::Layout::number, crate::specs::Layout::octets_of))]
    pub fn byte(&mut self) -> Result<u8, Refusal>
        ensures value { Finds (λ number. (number, self.new.place)) result
            (byte.read self.old.octets self.old.place) }
        ensures octets { self.new.octets ≡ self.old.octets }
        ensures place { OnOk result (self.new.place ≡ self.old.place + 1) }
        ensures err { OnErr result (self.new ≡ self.old) }
    {
        let field = self.slice(1)?;
        Ok(field[0])
    }

    /// The next two octets as a number, or Truncated.
    #[tactic(auto, unfolding(crate::specs::Layout::number, crate::specs::Layout::octets_of))]
    pub fn word(&mut self) -> Result<u16, Refusal>
        ensures value { Finds (λ number. (number, self.new.place)) result
            (word.read self.old.octets self.old.place) }
        ensures octets { self.new.octets ≡ self.old.octets }
        ensures place { OnOk result (self.new.place ≡ self.old.place + 2) }
        ensures err { OnErr result (self.new ≡ self.old) }
    {
        let field = self.slice(2)?;
        Ok(u16::from_be_bytes([field[0], field[1]]))
    }

    /// The next four octets as a number, or Truncated.
    #[tactic(auto, unfolding(crate::specs::Layout::number, crate::specs::Layout::octets_of))]
    pub fn dword(&mut self) -> Result<u32, Refusal>
        ensures value { Finds (λ number. (number, self.new.place)) result
            (dword.read self.old.octets self.old.place) }
        ensures octets { self.new.octets ≡ self.old.octets }
        ensures place { OnOk result (self.new.place ≡ self.old.place + 4) }
        ensures err { OnErr result (self.new ≡ self.old) }
    {
        let field = self.slice(4)?;
        Ok(u32::from_be_bytes([field[0], field[1], field[2], field[3]]))
    }

    /// A copy of the next so many octets, or Truncated.
    pub fn octets(&mut self, alloc: Global, count: usize) -> Result<Octets, CodecError>
        ensures value { Gives (λ field. (field, self.new.place)) result
            ((octets_of count).read self.old.octets self.old.place) }
        ensures octets { self.new.octets ≡ self.old.octets }
        ensures place { OnOk result (self.new.place ≡ self.old.place + count) }
    {
        let field = self.slice(count)?;
        Ok(Octets::from_vec(Vec::from_slice(alloc, field)?))
    }

    /// A copy of all octets up to the end.
    #[tactic(auto, unfolding(crate::specs::Layout::rest))]
    pub fn rest(&mut self, alloc: Global) -> Result<Octets, CodecError>
        ensures value { Gives (λ rest. rest) result (rest.read self.old.octets self.old.place) }
        ensures octets { self.new.octets ≡ self.old.octets }
        ensures place { OnOk result (self.new.place ≡ length self.old.octets) }
    {
        let rest = Vec::from_slice(alloc, &self.octets[self.place..])?;
        self.place = self.octets.len();
        Ok(Octets::from_vec(rest))
    }

    /// A reader of the next so many octets alone, which are passed over here, or Truncated.
    pub fn within(&mut self, count: usize) -> Result<Reader<'a>, Refusal>
        ensures inner { IfOk result (λ inner. inner ≡ record {
          octets = take (self.old.place + count) self.old.octets;
          place = self.old.place;
        }) }
        ensures ok { IsOk result ↔ (self.old.place + count ≤ length self.old.octets) }
        ensures refusal { IfErr result (λ refusal. refusal ≡ truncated self.old.place) }
        ensures octets { self.new.octets ≡ self.old.octets }
        ensures place { OnOk result (self.new.place ≡ self.old.place + count) }
        ensures err { OnErr result (self.new ≡ self.old) }
    {
        let place = self.place;
        self.slice(count)?;
        Ok(Reader {
            octets: &self.octets[..self.place],
            place,
        })
    }

    /// Whether no octets are left.
    pub fn is_at_end(&self) -> bool
        ensures { IsTrue result ↔ (length self.now.octets ≤ self.now.place) }
    {
        self.place == self.octets.len()
    }

    /// Trailing where octets are left.
    #[tactic(auto, unfolding(crate::specs::Layout::at_end))]
    pub fn end(&self) -> Result<(), Refusal>
        ensures { Finds (λ end. end) result (at_end self.now.octets self.now.place) }
    {
        if self.place < self.octets.len() {
            return Err(refusal(self.place, Why::Trailing));
        }
        Ok(())
    }
}

fn refusal(place: usize, why: Why) -> Refusal
    ensures { result ≡ record { at = 0; inside = place; why = why } }
{
    Refusal {
        at: 0,
        inside: place as u64,
        why,
    }
}

/// The refusal of a field that begins at a place and passes the end.
fn truncated(place: usize) -> Refusal
    ensures { result ≡ truncated place }
{
    refusal(place, Why::Truncated)
}
