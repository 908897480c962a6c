//! Old phones, and a migration that looks first whether their rows follow one another.

ghost use Rattle.std.specs.Prelude.{◌≡◌, None, Some, IsTrue};
ghost use Rattle.jt_store.specs.Migrating.{AreAppended};
ghost use Rattle.jt_store.specs.Tables.{MayAppend};

use jt_store::{NewPhone, OldPhone, Registered, Row, StoreError, migrate};
use jt_value::{Edition, Memory, Octets, Phone, Seq};
use std::alloc::Global;

/// A phone of an edition with these last two digits, a plate of one octet, and rows of a number and an octet each.
pub fn old_phone(
    alloc: Global,
    edition: Edition,
    last: u8,
    plate: Option<u8>,
    numbers: &[(u64, u8)],
) -> Result<OldPhone, Memory> {
    let mut rows = Seq::new(alloc);
    for (number, octet) in numbers {
        rows.push(Row {
            number: *number,
            id: 0x0200,
            body: Octets::from_vec(Vec::from_slice(alloc, &[*octet])?),
        })?;
    }
    let registered = match plate {
        Some(octet) => Some(Registered {
            plate: Octets::from_vec(Vec::from_slice(alloc, &[octet])?),
            terminal: Octets::from_vec(Vec::from_slice(alloc, &[octet])?),
        }),
        None => None,
    };
    Ok(OldPhone {
        phone: Phone {
            edition,
            digits: [0, 0, 0, 0, 0x01, 0x39, 0x12, 0x34, 0x56, last],
        },
        registered,
        rows,
    })
}

fn may_follow(last: Option<u64>, number: u64) -> bool
    ensures { IsTrue result → MayAppend last number }
{
    match last {
        None => number < 65_536,
        Some(last) => last < number && number - last <= 131_071,
    }
}

fn follow(last: Option<u64>, rows: &[Row]) -> bool
    ensures { IsTrue result → AreAppended last rows.now }
{
    match rows.split_first() {
        None => true,
        Some((row, rest)) => may_follow(last, row.number) && follow(Some(row.number), rest),
    }
}

/// Migrates phones whose rows follow one another. Others are answered Failed.
pub fn moved(alloc: Global, old: &Seq<OldPhone>, limit: u64) -> Result<Seq<NewPhone>, StoreError> {
    let all = old
        .as_slice()
        .iter()
        .all(|phone| follow(None, phone.rows.as_slice()));
    if !all || limit > 1_000_000_000 {
        return Err(StoreError::Failed);
    }
    migrate(alloc, old, limit)
}

/// Whether the rows have these numbers and no others.
pub fn has_numbers(rows: &[Row], numbers: &[u64]) -> bool {
    if rows.len() != numbers.len() {
        return false;
    }
    for (row, number) in rows.iter().zip(numbers) {
        if row.number != *number {
            return false;
        }
    }
    true
}
