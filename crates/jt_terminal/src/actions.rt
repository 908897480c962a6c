//! What a terminal does at an event.

use jt_terminal_rule::GiveUp;
use jt_value::{Octets, Seq};

/// What a terminal does at an event, beside what it tells its vault.
#[derive(Drop)]
pub struct Actions {
    /// The frames to be written, in order.
    pub frames: Seq<Octets>,
    /// Why the line is given up, where it is.
    pub end: Option<GiveUp>,
    /// For each response that accepts a unit which was sent on this line and is not accepted: how many units that are not
    /// accepted stand before that unit.
    pub told: Seq<u64>,
}
