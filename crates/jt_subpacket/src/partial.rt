//! A message of which some packets have come.

ghost use Rattle.std.specs.Prelude.{◌≡◌, ℕ, ◌≤◌, ◌<◌, ◌↔◌, List, [], IfOk, OnOk, OnErr, IsTrue};
ghost use Rattle.std.specs.FinMap.{contains_key, empty, len};
ghost use Rattle.jt_subpacket.specs.Partials.{missing, piece, with_piece};
ghost use Rattle.jt_subpacket.specs.Fates.{unfinished};
ghost use Rattle.jt_subpacket.specs.Steps.{IsPartial, joined_beside, missing_beside};

use crate::key::PartKey;
use crate::taken::Fate;
use jt_value::{Memory, Octets, Seq};
use std::alloc::Global;
use std::collections::BTreeMap;
use std::marker::Model;

/// A message that is not whole, and the octets of the packets of it that have come.
#[derive(Drop)]
pub struct PartialMessage {
    key: PartKey,
    pieces: BTreeMap<u16, Octets>,
}

impl Model for PartialMessage {
    ghost use Rattle.std.specs.FinMap.{from_entries};
    ghost use Rattle.jt_subpacket.specs.Partials.{Partial};
    ghost use Rattle.jt_subpacket.specs.Stored.{partial_code};

    ghost Value = { Partial };

    ghost coded = { partial_code };

    ghost view = { λ p. record { key = p.key; pieces = from_entries p.pieces.entries } };
}

impl PartialMessage {
    /// A message of which nothing has come, which takes no memory.
    pub fn new(alloc: Global, key: PartKey) -> PartialMessage
        ensures { result ≡ record { key = key; pieces = empty } }
    {
        PartialMessage {
            key,
            pieces: BTreeMap::new(alloc),
        }
    }

    /// Which message it is.
    pub fn key(&self) -> PartKey
        ensures { result ≡ self.now.key }
    {
        self.key
    }

    // Whether octets are kept under a number.
    fn has(&self, number: u16) -> bool
        ensures { result ≡ contains_key self.now.pieces number }
    {
        self.pieces.contains_key(&number)
    }

    // How many packets are kept.
    fn count(&self) -> usize
        ensures { result ≡ len self.now.pieces }
    {
        self.pieces.len()
    }

    // The octets under a number, none where nothing is kept.
    fn piece(&self, number: u16) -> &[u8]
        ensures { result.now ≡ piece self.now.pieces number }
    {
        match self.pieces.get(&number) {
            Some(octets) => octets.as_slice(),
            None => &[],
        }
    }

    /// Whether all packets are there once this one is.
    pub fn is_completed_by(&self, number: u16) -> bool
        requires kept { IsPartial self.now }
        requires low { 1 ≤ number }
        requires high { number ≤ self.now.key.total }
        ensures { IsTrue result ↔ (missing_beside self.now.key.total self.now.pieces number ≡ []) }
    {
        !self.has(number) && self.count() + 1 == self.key.total as usize
    }

    // The numbers that are missing once this one is there, upwards.
    fn missing_beside(&self, alloc: Global, number: u16) -> Result<Seq<u16>, Memory>
        ensures { IfOk result (λ missing.
            missing ≡ missing_beside self.now.key.total self.now.pieces number) }
    {
        let mut missing = Seq::new(alloc);
        for before in 0..self.key.total {
            let other = before + 1;
            if other != number && !self.has(other) {
                missing.push(other)?;
            }
        }
        Ok(missing)
    }

    /// The body of the message, with these octets under this number.
    pub fn joined_beside(&self, alloc: Global, number: u16, body: &[u8]) -> Result<Octets, Memory>
        ensures { IfOk result (λ whole.
            whole ≡ joined_beside self.now.key.total self.now.pieces number body.now) }
    {
        let mut whole = Vec::new(alloc);
        for before in 0..self.key.total {
            let other = before + 1;
            let octets = if other == number {
                body
            } else {
                self.piece(other)
            };
            whole.extend_from_slice(octets)?;
        }
        Ok(Octets::from_vec(whole))
    }

    // What a packet is told with which the message is not whole.
    fn told(&self, alloc: Global, number: u16) -> Result<Fate, Memory>
        ensures { (body : List ℕ) → IfOk result (λ fate. fate ≡ unfinished self.now.key number
            self.now.pieces (with_piece self.now.pieces number body)) }
    {
        if number == self.key.total {
            return Ok(Fate::Resend {
                first: self.key.first,
                missing: self.missing_beside(alloc, number)?,
            });
        }
        if self.has(number) {
            return Ok(Fate::Repeat);
        }
        Ok(Fate::Kept)
    }

    // Keeps octets under a number, if none are kept there.
    fn put(&mut self, alloc: Global, number: u16, body: &[u8]) -> Result<(), Memory>
        ensures ok { OnOk result (self.new
            ≡ record { key = self.old.key; pieces = with_piece self.old.pieces number body.now }) }
        ensures err { OnErr result (self.new ≡ self.old) }
    {
        if self.has(number) {
            return Ok(());
        }
        let octets = Octets::from_vec(Vec::from_slice(alloc, body)?);
        self.pieces.insert(number, octets)?;
        Ok(())
    }

    /// Keeps a packet with which the message is not whole, and says what it is told. After Memory the message is as before.
    pub fn keep(&mut self, alloc: Global, number: u16, body: &[u8]) -> Result<Fate, Memory>
        ensures fate { IfOk result (λ fate. fate ≡ unfinished self.old.key number self.old.pieces
            (with_piece self.old.pieces number body.now)) }
        ensures ok { OnOk result (self.new
            ≡ record { key = self.old.key; pieces = with_piece self.old.pieces number body.now }) }
        ensures err { OnErr result (self.new ≡ self.old) }
    {
        let fate = self.told(alloc, number)?;
        self.put(alloc, number, body)?;
        Ok(fate)
    }
}
