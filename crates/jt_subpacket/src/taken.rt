//! What a packet is told.

use crate::key::PartKey;
use jt_value::{Octets, Seq};

/// What became of a packet (this project's own).
#[derive(Drop)]
pub enum Fate {
    /// Its message has so many packets, which are more than 256. Nothing changed.
    TooMany(u16),
    /// All packets of its message are there: the message's id, the serial of its packet 1, and its body, of at most 261,888
    /// octets. Nothing is kept of it any more.
    Whole { id: u16, serial: u16, body: Octets },
    /// It is the last packet of its message, and others are missing: the serial of packet 1, and the missing numbers, upwards,
    /// at most 255.
    Resend { first: u16, missing: Seq<u16> },
    /// Octets were kept under its number before, and stay.
    Repeat,
    /// Its octets are kept.
    Kept,
}

/// What became of a packet, and of the message that was dropped for it, if one was.
#[derive(Drop)]
pub struct Taken {
    /// The partial message that began first, where a fifth one began.
    pub dropped: Option<PartKey>,
    pub fate: Fate,
}
