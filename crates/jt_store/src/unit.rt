//! What a terminal keeps: units, and what a vault loads.

ghost use Rattle.std.specs.Prelude.{◌≡◌, IfOk};

use jt_position::Fix;
use jt_value::{Memory, Octets, Seq};
use std::alloc::{AllocError, Global};

/// A message with fixes that is sent until it is accepted. It fits one packet.
#[derive(Drop)]
pub struct Unit {
    pub serial: u16,
    /// 0x0200, a position, or 0x0704, a batch of positions.
    pub id: u16,
    /// At most 1,023 octets.
    pub body: Octets,
    /// How many fixes the message carries, at least one.
    pub count: u32,
}

/// What a vault holds, as far as a terminal needs it.
#[derive(Drop)]
pub struct Loaded {
    /// The fixes that are in no unit yet.
    pub fixes: Seq<Fix>,
    /// The units that are not accepted yet.
    pub units: Seq<Unit>,
    /// The serial of the last unit that was accepted, at first 65,535.
    pub mark: u16,
    /// The serial of the next unit, at first 0.
    pub next: u16,
    /// The code that the platform gave, of at most 255 octets.
    pub code: Option<Octets>,
    /// How many fixes were recorded.
    pub recorded: u64,
    /// How many fixes were accepted.
    pub accepted: u64,
}

impl Clone for Unit {
    ghost is_clone = { λ unit clone. clone ≡ unit };

    fn clone(&self) -> Result<Unit, AllocError> {
        Ok(Unit {
            serial: self.serial,
            id: self.id,
            body: self.body.clone()?,
            count: self.count,
        })
    }
}

/// The list of a slice's items, whose clones equal them.
pub(crate) fn copy_slice<T: Clone + Drop>(alloc: Global, items: &[T]) -> Result<Seq<T>, Memory>
    requires { (item clone : T) → T.is_clone item clone → clone ≡ item }
    ensures { IfOk result (λ copy. copy ≡ items.now) }
{
    Ok(Seq::from_vec(Vec::from_clones(alloc, items)?))
}
