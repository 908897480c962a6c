//! Fleets, phones and registrations of these tests.

ghost use Rattle.std.specs.Prelude.{IsTrue};
ghost use Rattle.jt_store.specs.Tables.{IsTrimmed};

use dewfelt_fleet::Fleet;
use jt_store::{MemKeeper, Registered};
use jt_value::{Edition, Memory, Octets, Phone, Seq};
use std::alloc::Global;

/// A vehicle: plate, terminal id, the last two digits of the phone.
pub type Vehicle = (&'static [u8], &'static [u8], u8);

/// A phone of 2019 with these last two digits.
pub fn phone(last: u8) -> Phone {
    Phone {
        edition: Edition::E2019,
        digits: [0, 0, 0, 0, 0x01, 0x39, 0x12, 0x34, 0x56, last],
    }
}

/// A keeper in memory of which no call fails.
pub fn keeper(alloc: Global) -> MemKeeper {
    MemKeeper::new(alloc, 100, Seq::new(alloc))
}

pub fn octets(alloc: Global, octets: &[u8]) -> Result<Octets, Memory> {
    Ok(Octets::from_vec(Vec::from_slice(alloc, octets)?))
}

fn registered(alloc: Global, plate: &[u8], terminal: &[u8]) -> Result<Registered, Memory> {
    Ok(Registered {
        plate: octets(alloc, plate)?,
        terminal: octets(alloc, terminal)?,
    })
}

fn is_trimmed(terminal: &[u8]) -> bool
    ensures { IsTrue result → IsTrimmed terminal.now }
{
    match terminal.last() {
        Some(octet) => *octet != 0,
        None => true,
    }
}

fn bind(alloc: Global, fleet: &mut Fleet, vehicle: Vehicle) -> Result<bool, Memory> {
    let registered = registered(alloc, vehicle.0, vehicle.1)?;
    if !is_trimmed(registered.terminal.as_slice()) {
        return Ok(false);
    }
    fleet.bind(alloc, &phone(vehicle.2), &registered)
}

fn put_all(
    alloc: Global,
    fleet: &mut Fleet,
    vehicles: &[Vehicle],
    plates: &[&'static [u8]],
    terminals: &[&'static [u8]],
) -> Result<bool, Memory> {
    for vehicle in vehicles {
        if !bind(alloc, fleet, *vehicle)? {
            return Ok(false);
        }
    }
    for plate in plates {
        if !fleet.add_plate(alloc, plate)? {
            return Ok(false);
        }
    }
    for terminal in terminals {
        if !fleet.add_terminal(alloc, terminal)? {
            return Ok(false);
        }
    }
    Ok(true)
}

/// A fleet of these vehicles, plates and terminal ids. None where one of them is not taken, or memory is refused.
pub fn fleet(
    alloc: Global,
    vehicles: &[Vehicle],
    plates: &[&'static [u8]],
    terminals: &[&'static [u8]],
) -> Option<Fleet> {
    let mut fleet = Fleet::new(alloc, Octets::new(alloc));
    if let Ok(true) = put_all(alloc, &mut fleet, vehicles, plates, terminals) {
        return Some(fleet);
    }
    drop(fleet);
    None
}
