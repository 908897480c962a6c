//! What a platform keeps: rows and registrations.

ghost use Rattle.std.specs.Prelude.{◌≡◌, IfOk};

use jt_value::{Memory, Octets};
use std::alloc::Global;

/// A unit that a platform stored, under its number.
#[derive(Drop)]
pub struct Row {
    /// Without a bound of its own; below 2^47 in every store. Its rest by 65,536 is the unit's serial.
    pub number: u64,
    /// The id of the unit's message.
    pub id: u16,
    /// The body of the unit's message.
    pub body: Octets,
}

/// What a phone is registered with.
#[derive(Drop)]
pub struct Registered {
    /// The vehicle's plate.
    pub plate: Octets,
    /// The terminal's id, without zeros at its end.
    pub terminal: Octets,
}

/// The same row again.
pub(crate) fn copy_row(alloc: Global, row: &Row) -> Result<Row, Memory>
    ensures { IfOk result (λ copy. copy ≡ row.now) }
{
    let body = row.body.copy(alloc)?;
    Ok(Row {
        number: row.number,
        id: row.id,
        body,
    })
}

/// The same registration again.
pub(crate) fn copy_registered(alloc: Global, registered: &Registered) -> Result<Registered, Memory>
    ensures { IfOk result (λ copy. copy ≡ registered.now) }
{
    let plate = registered.plate.copy(alloc)?;
    let terminal = registered.terminal.copy(alloc)?;
    Ok(Registered { plate, terminal })
}
