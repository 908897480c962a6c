//! Rows of a keeper.

ghost use Rattle.std.specs.Prelude.{◌<◌, ◌^◌, IfSome, IsTrue};
ghost use Rattle.jt_store.specs.Tables.{MayAppend};

use jt_store::{Keeper, MemKeeper, Row, StoreError};
use jt_value::{Edition, Octets, Phone};
use std::alloc::{AllocError, Global};

/// Whose rows they are.
pub(crate) const PHONE: Phone = Phone {
    edition: Edition::E2013,
    digits: [0, 0, 0, 0, 0x01, 0x39, 0x12, 0x34, 0x56, 0x78],
};

// On the equator at 0 degrees, at rest, at 2024-01-01 00:00:00.
const POSITION: [u8; 28] = [
    0, 0, 0, 0, 0, 0, 0, 3, 0, 0, 0, 0, 0, 0, 0, 0, 0, 0, 0, 0, 0, 0, 0x24, 1, 1, 0, 0, 0,
];

/// A row to be put: its number, its message, and for each of its positions how many items of 256 octets it has.
#[derive(Clone, Copy)]
pub(crate) struct Put {
    pub number: u64,
    pub id: u16,
    pub positions: &'static [u8],
}

fn push_position(body: &mut Vec<u8>, items: u8) -> Result<(), AllocError> {
    body.extend_from_slice(&POSITION)?;
    for _ in 0..items {
        body.extend_from_slice(&[0xee, 254])?;
        body.extend_from_slice(&[0; 254])?;
    }
    Ok(())
}

// A batch of at most 255 positions: their number, the kind of a batch, and each behind its length.
fn batch(alloc: Global, positions: &[u8]) -> Result<Vec<u8>, AllocError> {
    let mut body = Vec::new(alloc);
    body.extend_from_slice(&[0, u8::try_from(positions.len()).unwrap_or(0), 1])?;
    for items in positions {
        body.extend_from_slice(&[*items, 28])?;
        push_position(&mut body, *items)?;
    }
    Ok(body)
}

fn body(alloc: Global, put: Put) -> Result<Vec<u8>, AllocError> {
    if put.id == 0x0704 {
        return batch(alloc, put.positions);
    }
    let mut body = Vec::new(alloc);
    push_position(&mut body, 0)?;
    Ok(body)
}

// Whether a row may follow the last one.
fn may_follow(last: Option<u64>, number: u64) -> bool
    requires { IfSome last (λ n. n < 2 ^ 47) }
    ensures { IsTrue result → MayAppend last number }
{
    match last {
        None => number < 65_536,
        Some(last) => last < number && number <= last + 131_071,
    }
}

// Puts a row, where its number may follow.
pub(crate) fn put_row(
    alloc: Global,
    keeper: &mut MemKeeper,
    phone: &Phone,
    number: u64,
    id: u16,
    body: Vec<u8>,
) -> Result<(), StoreError> {
    let row = Row {
        number,
        id,
        body: Octets::from_vec(body),
    };
    let last = keeper.last(alloc, phone)?;
    if !may_follow(last, number) {
        return Err(StoreError::Failed);
    }
    keeper.append(alloc, phone, &row)
}

/// Puts rows, with two calls for each.
pub(crate) fn put_rows(
    alloc: Global,
    keeper: &mut MemKeeper,
    rows: &[Put],
) -> Result<(), StoreError> {
    for put in rows {
        put_row(
            alloc,
            keeper,
            &PHONE,
            put.number,
            put.id,
            body(alloc, *put)?,
        )?;
    }
    Ok(())
}
