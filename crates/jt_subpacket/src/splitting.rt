//! A message cut into packets.

ghost use Rattle.std.specs.Prelude.{◌≡◌, ℕ, ◌*◌, ◌<◌, ◌≤◌, length, IfOk, IfErr};
ghost use Rattle.jt_subpacket.specs.Parts.{Parts, packet_header};
ghost use Rattle.jt_subpacket.specs.Steps.{front, packets_of, piece_of};
ghost use Rattle.jt_subpacket.specs.declared.splitting.SplitError.TheVariants.{Memory as NoMemory, TooLarge};

use jt_header::{Header, Packet};
use jt_value::limits::BODY_LIMIT;
use jt_value::{Memory, Octets, Seq};
use std::alloc::{AllocError, AllocFailed, Global};

/// The most octets of a packet's body (the standard's header has ten bits for them).
const PACKET_OCTETS: usize = BODY_LIMIT;

/// The most octets of a message's body: 256 packets (this project's own limit).
const BODY_OCTETS: usize = 256 * PACKET_OCTETS;

/// Why a message was not split.
#[derive(Clone, Copy, Debug, PartialEq, Eq)]
pub enum SplitError {
    /// Its body has so many octets, which are more than 261,888.
    TooLarge(u64),
    /// Memory was wanted and refused.
    Memory,
}

impl From<Memory> for SplitError {
    ghost use Rattle.jt_subpacket.specs.declared.splitting.SplitError.TheVariants as errors;

    ghost from_gives = { λ _ error. error ≡ errors.Memory };

    fn from(_memory: Memory) -> SplitError {
        SplitError::Memory
    }
}

impl From<AllocError> for SplitError {
    ghost use Rattle.jt_subpacket.specs.declared.splitting.SplitError.TheVariants as errors;

    ghost from_gives = { λ _ error. error ≡ errors.Memory };

    fn from(_error: AllocError) -> SplitError {
        SplitError::Memory
    }
}

impl<T: Drop> From<AllocFailed<T>> for SplitError {
    ghost use Rattle.jt_subpacket.specs.declared.splitting.SplitError.TheVariants as errors;

    ghost from_gives = { λ _ error. error ≡ errors.Memory };

    fn from(_error: AllocFailed<T>) -> SplitError {
        SplitError::Memory
    }
}

// The header of the packet at a place, which counts from 0.
fn packet_header(header: &Header, total: u16, place: u16) -> Header
    requires { place < total }
    ensures { result ≡ packet_header header.now total place }
{
    Header {
        serial: header.serial.wrapping_add(place),
        packet: Some(Packet {
            total,
            number: place + 1,
        }),
        ..*header
    }
}

// The piece of a body that the packet at a place has.
fn piece_of(body: &[u8], place: u16) -> &[u8]
    requires { place * BODY_LIMIT < length body.now }
    ensures { result.now ≡ piece_of body.now place }
{
    let start = place as usize * PACKET_OCTETS;
    let end = body.len().min(start + PACKET_OCTETS);
    &body[start..end]
}

// A message in so many packets.
fn in_packets(
    alloc: Global,
    header: &Header,
    body: &[u8],
    total: u16,
) -> Result<Seq<(Header, Octets)>, Memory>
    requires enough { (place : ℕ) → place < total → place * BODY_LIMIT < length body.now }
    ensures { IfOk result (λ packets. packets ≡ front header.now total body.now total) }
{
    let mut packets = Vec::with_capacity(alloc, total as usize)?;
    for place in 0..total {
        let piece = Vec::from_slice(alloc, piece_of(body, place))?;
        packets.push((packet_header(header, total, place), Octets::from_vec(piece)))?;
    }
    Ok(Seq::from_vec(packets))
}

/// The packets of a message (the standard's subpackets): a body of at most 1,023 octets is one packet without packet fields,
/// and a longer one is in pieces of 1,023 octets and a rest, numbered from 1 on, with serials that go on from the header's.
/// TooLarge comes exactly where the body has more than 261,888 octets, which is this project's own limit.
pub fn split(
    alloc: Global,
    header: &Header,
    body: &[u8],
) -> Result<Seq<(Header, Octets)>, SplitError>
    ensures parts { IfOk result (Parts header.now body.now) }
    ensures packets { IfOk result (λ packets. packets ≡ packets_of header.now body.now) }
    ensures too_large { 261888 < length body.now → result ≡ Err (TooLarge (length body.now)) }
    ensures few { length body.now ≤ 261888 → IfErr result (λ error. error ≡ NoMemory) }
{
    let len = body.len();
    if len > BODY_OCTETS {
        return Err(SplitError::TooLarge(len as u64));
    }
    if len <= PACKET_OCTETS {
        let header = Header {
            packet: None,
            ..*header
        };
        let mut packets = Seq::new(alloc);
        packets.push((header, Octets::from_vec(Vec::from_slice(alloc, body)?)))?;
        return Ok(packets);
    }
    let total = len.div_ceil(PACKET_OCTETS) as u16;
    Ok(in_packets(alloc, header, body, total)?)
}
