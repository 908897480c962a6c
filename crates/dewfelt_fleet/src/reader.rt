//! The fleet that a text names.

ghost use Rattle.std.specs.Prelude.{◌<◌, ◌≢◌, [], length};

use crate::bad::{BadLine, Expected, NoFleet, NoLine, shown};
use crate::fleet::Fleet;
use crate::line::{FleetLine, Id, Vehicle, fleet_line};
use jt_value::Octets;
use std::alloc::Global;

// What editors may write before the text.
const MARK: &[u8] = b"\xef\xbb\xbf";

// Tells what was expected in place of a line that was not taken.
fn expect(is_taken: bool, expected: Expected) -> Result<(), NoLine> {
    if is_taken {
        Ok(())
    } else {
        Err(NoLine::Bad(expected))
    }
}

fn take_plate(alloc: Global, fleet: &mut Fleet, plate: Octets) -> Result<(), NoLine> {
    let is_taken = fleet.add_plate(alloc, plate.as_slice())?;
    expect(is_taken, Expected::FreePlate)
}

fn take_terminal(alloc: Global, fleet: &mut Fleet, id: Id) -> Result<(), NoLine> {
    let is_taken = fleet.add_terminal(alloc, id.octets.as_slice())?;
    expect(is_taken, Expected::FreeTerminal)
}

fn take_vehicle(alloc: Global, fleet: &mut Fleet, vehicle: Vehicle) -> Result<(), NoLine> {
    let Vehicle { phone, registered } = vehicle;
    let is_taken = fleet.bind(alloc, &phone, &registered)?;
    expect(is_taken, Expected::FreeVehicle)
}

// Takes a line behind that of the secret.
fn take(alloc: Global, fleet: &mut Fleet, line: FleetLine) -> Result<(), NoLine> {
    match line {
        FleetLine::Passed => Ok(()),
        FleetLine::Secret(_secret) => Err(NoLine::Bad(Expected::OneSecret)),
        FleetLine::Plate(plate) => take_plate(alloc, fleet, plate),
        FleetLine::Terminal(id) => take_terminal(alloc, fleet, id),
        FleetLine::Vehicle(vehicle) => take_vehicle(alloc, fleet, vehicle),
    }
}

// The fleet without names that the line of the secret begins. None where the line is passed over.
fn begun(alloc: Global, line: FleetLine) -> Result<Option<Fleet>, NoLine> {
    match line {
        FleetLine::Passed => Ok(None),
        FleetLine::Secret(secret) => Ok(Some(Fleet::new(alloc, secret))),
        FleetLine::Plate(_plate) => Err(NoLine::Bad(Expected::SecretFirst)),
        FleetLine::Terminal(_id) => Err(NoLine::Bad(Expected::SecretFirst)),
        FleetLine::Vehicle(_vehicle) => Err(NoLine::Bad(Expected::SecretFirst)),
    }
}

// Takes a line. There is no fleet before the line of the secret.
fn hear(alloc: Global, fleet: &mut Option<Fleet>, line: &[u8]) -> Result<(), NoLine> {
    let said = fleet_line(alloc, line)?;
    match fleet {
        Some(fleet) => take(alloc, fleet, said),
        None => {
            *fleet = begun(alloc, said)?;
            Ok(())
        }
    }
}

// The first line, without its end, and what stands behind it.
fn cut_line(text: &[u8]) -> (&[u8], &[u8])
    requires { text.now ≢ [] }
    ensures { length result.1.now < length text.now }
{
    let end = text.iter().position(|octet| *octet == b'\n');
    let (line, rest) = match end {
        Some(place) => (&text[..place], &text[place + 1..]),
        None => (text, b"".as_slice()),
    };
    match line.strip_suffix(b"\r".as_slice()) {
        Some(line) => (line, rest),
        None => (line, rest),
    }
}

fn bad(alloc: Global, number: u64, line: &[u8], expected: Expected) -> NoFleet {
    match shown(alloc, line) {
        Ok(text) => NoFleet::Bad(BadLine {
            number,
            text,
            expected,
        }),
        Err(_) => NoFleet::Memory,
    }
}

/// Reads the fleet that a text names: `secret X` in its first line, and then `plate X`, `terminal X` and `vehicle X X PHONE`. Lines
/// end in LF or CRLF; those that are empty or begin with `#` are passed over. It keeps all names in memory.
pub fn read_fleet(alloc: Global, text: &[u8]) -> Result<Fleet, NoFleet> {
    let mut rest = match text.strip_prefix(MARK) {
        Some(rest) => rest,
        None => text,
    };
    let mut fleet = None;
    let mut number = 1u64;
    while !rest.is_empty() {
        let (line, more) = cut_line(rest);
        match hear(alloc, &mut fleet, line) {
            Ok(()) => {}
            Err(NoLine::Bad(expected)) => return Err(bad(alloc, number, line, expected)),
            Err(NoLine::Memory) => return Err(NoFleet::Memory),
        }
        rest = more;
        number = number.saturating_add(1);
    }
    match fleet {
        Some(fleet) => Ok(fleet),
        None => Err(bad(alloc, number, b"".as_slice(), Expected::SecretFirst)),
    }
}
