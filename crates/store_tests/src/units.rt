//! Units of fixes that wait.

ghost use Rattle.std.specs.Prelude.{◌≡◌, ◌≤◌, IfOk, IfSome, IsTrue, length, take};
ghost use Rattle.jt_position.specs.Fixes.{fixes_of};
ghost use Rattle.jt_store.specs.Vaults.{IsUnit};

use jt_position::Fix;
use jt_relay::fixes_in;
use jt_store::{Row, Unit};
use jt_value::ids::{BATCH, POSITION};
use jt_value::limits::BODY_LIMIT;
use jt_value::{Memory, Octets};
use std::alloc::Global;

// The body of a batch: the number of its positions, the kind 1, and each position behind its length.
fn batch_body(alloc: Global, fixes: &[Fix]) -> Result<Octets, Memory> {
    let mut body = Vec::from_slice(alloc, &[0, (fixes.len() % 256) as u8, 1])?;
    for fix in fixes {
        body.extend_from_slice(&[0, (fix.as_slice().len() % 256) as u8])?;
        body.extend_from_slice(fix.as_slice())?;
    }
    Ok(Octets::from_vec(body))
}

// The message of some fixes: one is a position.
fn message_of(alloc: Global, serial: u16, fixes: &[Fix]) -> Result<Row, Memory> {
    let number = u64::from(serial);
    match fixes {
        [fix] => Ok(Row {
            number,
            id: POSITION,
            body: Octets::from_vec(Vec::from_slice(alloc, fix.as_slice())?),
        }),
        _ => Ok(Row {
            number,
            id: BATCH,
            body: batch_body(alloc, fixes)?,
        }),
    }
}

// Whether these octets are those of the first fixes.
fn are_first(found: &[Octets], fixes: &[Fix]) -> bool
    ensures first { IsTrue result → found.now ≡ take (length found.now) fixes.now }
    ensures within { IsTrue result → length found.now ≤ length fixes.now }
{
    let Some((octets, more)) = found.split_first() else {
        return true;
    };
    match fixes.split_first() {
        Some((fix, rest)) => octets.as_slice() == fix.as_slice() && are_first(more, rest),
        None => false,
    }
}

// Whether it is a message of fixes, at least one, that fits one packet.
fn is_unit(unit: &Unit) -> bool
    ensures { IsTrue result → IsUnit unit.now }
{
    (unit.id == POSITION || unit.id == BATCH) && unit.body.len() <= BODY_LIMIT && unit.count >= 1
}

// The unit of a message that carries the first of these fixes, and none where it does not.
fn checked(alloc: Global, serial: u16, row: Row, fixes: &[Fix]) -> Result<Option<Unit>, Memory>
    ensures unit { IfOk result (λ made. IfSome made IsUnit) }
    ensures serial { IfOk result (λ made. IfSome made (λ unit. unit.serial ≡ serial)) }
    ensures within { IfOk result (λ made. IfSome made (λ unit. unit.count ≤ length fixes.now)) }
    ensures fixes { IfOk result (λ made. IfSome made (λ unit.
        fixes_of (unit.id, unit.body) ≡ take unit.count fixes.now)) }
{
    let found = fixes_in(alloc, &row)?;
    let Row { id, body, .. } = row;
    let unit = Unit {
        serial,
        id,
        body,
        count: found.len() as u32,
    };
    if is_unit(&unit) && are_first(found.as_slice(), fixes) {
        Ok(Some(unit))
    } else {
        Ok(None)
    }
}

/// The unit of so many fixes, from the first on. None where there are not as many.
pub fn unit_of(
    alloc: Global,
    serial: u16,
    fixes: &[Fix],
    count: usize,
) -> Result<Option<Unit>, Memory>
    ensures unit { IfOk result (λ made. IfSome made IsUnit) }
    ensures serial { IfOk result (λ made. IfSome made (λ unit. unit.serial ≡ serial)) }
    ensures within { IfOk result (λ made. IfSome made (λ unit. unit.count ≤ length fixes.now)) }
    ensures fixes { IfOk result (λ made. IfSome made (λ unit.
        fixes_of (unit.id, unit.body) ≡ take unit.count fixes.now)) }
{
    if count > fixes.len() {
        return Ok(None);
    }
    let row = message_of(alloc, serial, &fixes[..count])?;
    checked(alloc, serial, row, fixes)
}
