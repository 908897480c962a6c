//! What every vault promises of the units that it loads, and every keeper of a row that it finds.

ghost use Rattle.std.specs.Prelude.{◌≡◌, ◌↔◌, ◌≤◌, IfSome, IsTrue, length};
ghost use Rattle.jt_value.specs.Serials.{gap_of};
ghost use Rattle.jt_store_answers.specs.Counted.{AreCounted, IsBehind, IsCounted, said};

use jt_store::{Row, Unit};
use jt_value::ids::{BATCH, POSITION};
use jt_value::limits::{BODY_LIMIT, CODE_LIMIT, SERIAL_WINDOW, UNIT_WINDOW};
use jt_value::{Octets, gap};

// Whether a code, where there is one, has at most 255 octets.
fn is_short(code: &Option<Octets>) -> bool
    ensures { IsTrue result ↔ IfSome code.now (λ octets. length octets ≤ CODE_LIMIT) }
{
    match code {
        Some(octets) => octets.len() <= CODE_LIMIT,
        None => true,
    }
}

// How many fixes a message says that it carries: a batch begins with their number, any other is one.
fn said(unit: &Unit) -> u32
    ensures { result ≡ said unit.now }
{
    if unit.id != BATCH {
        return 1;
    }
    let body = unit.body.as_slice();
    match (body.first(), body.get(1)) {
        (Some(high), Some(low)) => u32::from(*high) * 256 + u32::from(*low),
        _ => 0,
    }
}

/// Whether it is a position or a batch that fits one packet and counts as many fixes as its body says, at least one. Of a
/// batch's body no more than this number is looked at.
pub fn is_unit(unit: &Unit) -> bool
    ensures exact { IsTrue result ↔ IsCounted unit.now }
{
    (unit.id == POSITION || unit.id == BATCH)
        && unit.body.len() <= BODY_LIMIT
        && unit.count >= 1
        && unit.count == said(unit)
}

// Whether the gap of next from the mark is this one or a greater one, up to 32,767, and the code is short.
fn is_behind(mark: u16, low: u16, next: u16, code: &Option<Octets>) -> bool
    ensures { IsTrue result ↔ IsBehind mark low next code.now }
{
    let behind = gap(mark, next);
    low <= behind && behind <= SERIAL_WINDOW && is_short(code)
}

/// Whether the gaps of the units' serials from the mark rise and are 1 to 32,766, the gap of next is above them and at most
/// 32,767, each is a unit by `is_unit`, and the code has at most 255 octets.
pub fn are_in_order(mark: u16, next: u16, units: &[Unit], code: &Option<Octets>) -> bool
    ensures exact { IsTrue result ↔ AreCounted mark next units.now code.now }
{
    let mut low = 1;
    for unit in units {
        let far = gap(mark, unit.serial);
        if far < low || far > UNIT_WINDOW || !is_unit(unit) {
            return false;
        }
        low = far + 1;
    }
    is_behind(mark, low, next, code)
}

/// Whether a unit of this serial stays in order: its gap from the mark is that of next or a greater one, up to 32,766.
pub fn may_form(mark: u16, next: u16, serial: u16) -> bool
    ensures exact { IsTrue result
        ↔ ((gap_of mark next ≤ gap_of mark serial) × (gap_of mark serial ≤ UNIT_WINDOW)) }
{
    let far = gap(mark, serial);
    gap(mark, next) <= far && far <= UNIT_WINDOW
}

/// Whether a row that was found from a number on has that number or a later one.
pub fn is_from(row: &Row, number: u64) -> bool
    ensures exact { IsTrue result ↔ (number ≤ row.now.number) }
{
    row.number >= number
}
