//! Packets joined to messages.

ghost use Rattle.std.specs.Prelude.{◌≡◌, ◌≤◌, ◌<◌, List, [], ◌∷◌, length, slice_get, IfOk, IfSome, IsSome, OnOk, OnErr};
ghost use Rattle.std.specs.List.{position};
ghost use Rattle.jt_value.specs.declared.limits.TheConstants.{BODY_LIMIT};
ghost use Rattle.jt_header.specs.Content.{IsPacket};
ghost use Rattle.jt_subpacket.specs.Parts.{Message};
ghost use Rattle.jt_subpacket.specs.Partials.{IsBounded, Partial, same_key};
ghost use Rattle.jt_subpacket.specs.Fates.{IsWithinLimits, begins, left_by, taken_as, taken_by};
ghost use Rattle.jt_subpacket.specs.Steps.{AnswersPacket, AreKept, IsPartial};

use crate::key::PartKey;
use crate::partial::PartialMessage;
use crate::taken::{Fate, Taken};
use jt_header::{Header, Packet};
use jt_value::{Memory, Octets};
use std::alloc::Global;
use std::marker::Model;

/// The most packets of a message that is joined (this project's own limit).
const MOST_PACKETS: u16 = 256;

/// The most partial messages (this project's own limit).
const MOST_MESSAGES: usize = 4;

/// Joins packets to messages: at most 4 partial messages, of at most 256 packets each, and 1,047,552 octets together (this
/// project's own limits).
#[derive(Drop)]
pub struct Assembler {
    alloc: Global,
    partials: Vec<PartialMessage>,
}

impl Model for Assembler {
    ghost use Rattle.std.specs.Prelude.{List};
    ghost use Rattle.std.specs.Coded.{coded_list};
    ghost use Rattle.jt_subpacket.specs.Partials.{Partial};
    ghost use Rattle.jt_subpacket.specs.Steps.{AreKept};
    ghost use Rattle.jt_subpacket.specs.Stored.{partial_code};

    ghost Value = { List Partial };

    ghost coded = { coded_list partial_code };

    ghost view = { λ assembler. assembler.partials.items };

    ghost invariant = { λ assembler. AreKept assembler.partials.items };
}

// The place of a message among the partial ones.
fn place_of(partials: &[PartialMessage], key: PartKey) -> Option<usize>
    ensures { result ≡ position (λ p. same_key p.key key) partials.now }
{
    partials
        .iter()
        .position(|partial| partial.key().is_same(key))
}

// Begins a message, and drops the one that began first where it is a fifth one.
fn begin(
    partials: &mut Vec<PartialMessage>,
    alloc: Global,
    key: PartKey,
    number: u16,
    body: &[u8],
) -> Result<Taken, Memory>
    requires { length partials.old.items ≤ 4 }
    ensures dropped { IfOk result (λ taken.
        taken.dropped ≡ (begins partials.old.items key number body.now).dropped) }
    ensures fate { IfOk result (λ taken.
        taken.fate ≡ (begins partials.old.items key number body.now).fate) }
    ensures ok { OnOk result
        (partials.new.items ≡ (begins partials.old.items key number body.now).partial) }
    ensures err { OnErr result (partials.new.items ≡ partials.old.items) }
{
    let mut partial = PartialMessage::new(alloc, key);
    let fate = partial.keep(alloc, number, body)?;
    partials.push(partial)?;
    if partials.len() <= MOST_MESSAGES {
        return Ok(Taken {
            dropped: None,
            fate,
        });
    }
    let first = partials.remove(0);
    Ok(Taken {
        dropped: Some(first.key()),
        fate,
    })
}

// Takes a packet of the message at a place.
fn go_on(
    partials: &mut Vec<PartialMessage>,
    alloc: Global,
    place: usize,
    number: u16,
    body: &[u8],
) -> Result<Fate, Memory>
    requires place { place < length partials.old.items }
    requires kept { (p : Partial) → slice_get partials.old.items place ≡ Some p →
        IsPartial p × (1 ≤ number) × (number ≤ p.key.total) }
    ensures ok { IfOk result (λ fate. IfSome (slice_get partials.old.items place)
        (AnswersPacket partials.old.items place number body.now fate partials.new.items)) }
    ensures err { OnErr result (partials.new.items ≡ partials.old.items) }
{
    let partial = &mut partials[place];
    if !partial.is_completed_by(number) {
        let fate = partial.keep(alloc, number, body)?;
        return Ok(fate);
    }
    let body = partial.joined_beside(alloc, number, body)?;
    let PartKey {
        id,
        first,
        total: _,
    } = partial.key();
    partials.remove(place);
    Ok(Fate::Whole {
        id,
        serial: first,
        body,
    })
}

// Takes a packet with these fields.
fn take_in(
    partials: &mut Vec<PartialMessage>,
    alloc: Global,
    header: &Header,
    packet: Packet,
    body: &[u8],
) -> Result<Taken, Memory>
    requires kept { AreKept partials.old.items }
    requires low { 1 ≤ packet.number }
    requires high { packet.number ≤ packet.total }
    ensures dropped { IfOk result (λ taken.
        taken.dropped ≡ (taken_as partials.old.items header.now body.now packet).dropped) }
    ensures fate { IfOk result (λ taken.
        taken.fate ≡ (taken_as partials.old.items header.now body.now packet).fate) }
    ensures ok { OnOk result
        (partials.new.items ≡ (taken_as partials.old.items header.now body.now packet).partial) }
    ensures err { OnErr result (partials.new.items ≡ partials.old.items) }
{
    if packet.total > MOST_PACKETS {
        return Ok(Taken {
            dropped: None,
            fate: Fate::TooMany(packet.total),
        });
    }
    if packet.total == 1 {
        return Ok(Taken {
            dropped: None,
            fate: Fate::Whole {
                id: header.id,
                serial: header.serial,
                body: Octets::from_vec(Vec::from_slice(alloc, body)?),
            },
        });
    }
    let key = PartKey::of(header, packet);
    match place_of(partials.as_slice(), key) {
        Some(place) => Ok(Taken {
            dropped: None,
            fate: go_on(partials, alloc, place, packet.number, body)?,
        }),
        None => Ok(begin(partials, alloc, key, packet.number, body)?),
    }
}

impl Assembler {
    /// An assembler that keeps nothing, which takes no memory.
    pub fn new(alloc: Global) -> Assembler
        ensures empty { result ≡ [] }
        // No packet was taken so far.
        ensures packets { result ≡ left_by [] }
    {
        Assembler {
            alloc,
            partials: Vec::new(alloc),
        }
    }

    /// Takes a packet: a header with packet fields, and its body of at most 1,023 octets. These rules of this project's own
    /// hold, the first that applies first:
    ///
    /// 1. A total above 256 is TooMany, and nothing changes.
    /// 2. A total of 1 is Whole at once, and nothing is kept.
    /// 3. Where no partial message has this key and four stand, the one that began first is dropped; a new one begins.
    /// 4. A packet whose number is not kept yet is kept. Octets that are kept are never replaced.
    /// 5. Where all numbers are kept the answer is Whole, and the partial message is gone.
    /// 6. Otherwise, where the packet's number is the total, the answer is Resend.
    /// 7. Otherwise the answer is Repeat where the number was kept before, and Kept where it was not.
    ///
    /// After Memory the assembler is as before.
    pub fn take(&mut self, header: &Header, body: &[u8]) -> Result<Taken, Memory>
        requires some { IsSome header.now.packet }
        requires packet { IsPacket header.now.packet }
        requires short { length body.now ≤ BODY_LIMIT }
        ensures dropped { IfOk result (λ taken.
            taken.dropped ≡ (taken_by self.old header.now body.now).dropped) }
        ensures fate { IfOk result (λ taken.
            taken.fate ≡ (taken_by self.old header.now body.now).fate) }
        ensures partial { OnOk result (self.new ≡ (taken_by self.old header.now body.now).partial) }
        // What it stood for, and what it stands for now: the packets taken so far, the newest first.
        ensures packets { (packets : List Message) → self.old ≡ left_by packets
            → OnOk result (self.new ≡ left_by ((header.now, body.now) ∷ packets)) }
        ensures err { OnErr result (self.new ≡ self.old) }
        ensures bound { IsBounded self.new }
        ensures limits { IfOk result (λ taken. IsWithinLimits taken.fate) }
    {
        match header.packet {
            Some(packet) => {
                let taken = take_in(&mut self.partials, self.alloc, header, packet, body)?;
                Ok(taken)
            }
            None => unreachable!(),
        }
    }
}
