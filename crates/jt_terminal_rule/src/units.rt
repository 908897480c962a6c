//! Units are formed of the fixes that wait.

ghost use Rattle.std.specs.Prelude.{◌≡◌, ◌≤◌, ◌<◌, ◌++◌, ◌∷◌, [], length, take, drop, OnOk, IfOk, All, Some, if◌then◌else◌};
ghost use Rattle.jt_position.specs.Fixes.{IsFix};
ghost use Rattle.jt_terminal_rule.specs.Forming as forming;

use crate::queue::Queue;
use jt_layout::Writer;
use jt_position::Fix;
use jt_store::Unit;
use jt_value::ids::{BATCH, POSITION};
use jt_value::limits::BODY_LIMIT;
use jt_value::{Memory, Octets};
use std::alloc::Global;

// The kind of a batch of positions that could not be sent when they were taken.
const BLIND_AREA: u8 = 1;

// How many octets of a batch stand before its positions, and before each of them.
const BATCH_FRONT: usize = 3;

const LENGTH_FRONT: usize = 2;

// How many fixes, from the first on, one batch may carry.
fn fitting(waiting: &Queue<Fix>) -> usize
    ensures value { result ≡ forming.fitting waiting.now }
    ensures few { result ≤ 510 }
    ensures within { result ≤ length waiting.now }
{
    let mut used = BATCH_FRONT;
    let mut count = 0;
    while let Some(fix) = waiting.get(count) {
        let more = used + LENGTH_FRONT + fix.as_slice().len();
        if more > BODY_LIMIT {
            return count;
        }
        used = more;
        count += 1;
    }
    count
}

// Writes a fix behind its length.
#[tactic(auto, using(std::proofs::Common::append_assoc), unfolding(jt_layout::specs::Layout::number))]
fn write_in_batch(writer: &mut Writer, fix: &Fix) -> Result<(), Memory>
    ensures { OnOk result (writer.new ≡ writer.old ++ forming.in_batch fix.now) }
{
    let octets = fix.as_slice();
    writer.word(octets.len() as u16)?;
    writer.octets(octets)
}

// The body of a batch of the first fixes.
#[tactic(auto, using(std::proofs::Common::append_assoc), unfolding(jt_layout::specs::Layout::number))]
fn batch_body(alloc: Global, waiting: &Queue<Fix>, count: usize) -> Result<Octets, Memory>
    requires within { count ≤ length waiting.now }
    requires few { count ≤ 510 }
    ensures { IfOk result (λ body. body ≡ forming.batch_of (take count waiting.now)) }
{
    let mut writer = Writer::new(alloc);
    writer.word(count as u16)?;
    writer.byte(BLIND_AREA)?;
    for place in 0..count {
        let Some(fix) = waiting.get(place) else {
            unreachable!();
        };
        write_in_batch(&mut writer, fix)?;
    }
    Ok(writer.finish())
}

fn position_body(alloc: Global, fix: &Fix) -> Result<Octets, Memory>
    ensures { IfOk result (λ body. body ≡ fix.now) }
{
    Ok(Octets::from_vec(Vec::from_slice(alloc, fix.as_slice())?))
}

/// The unit of this serial of the first fixes that wait: a batch of as many as it may carry, or a position.
pub fn unit_of(alloc: Global, serial: u16, waiting: &Queue<Fix>) -> Result<Unit, Memory>
    requires { 0 < length waiting.now }
    ensures { IfOk result (λ unit. Some unit ≡ forming.unit_from serial waiting.now) }
{
    let count = fitting(waiting);
    if count >= 2 {
        let body = batch_body(alloc, waiting, count)?;
        return Ok(Unit {
            serial,
            id: BATCH,
            body,
            count: count as u32,
        });
    }
    let Some(fix) = waiting.get(0) else {
        unreachable!();
    };
    let body = position_body(alloc, fix)?;
    Ok(Unit {
        serial,
        id: POSITION,
        body,
        count: 1,
    })
}
