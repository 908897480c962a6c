//! Rows by pages.

use crate::fleets::{fleet, keeper, octets, phone};
use dewfelt_keeper::Registry;
use jt_store::{MemKeeper, Row, StoreError};
use std::alloc::Global;
use std::test::Fail;

// The numbers of a phone's rows.
const NUMBERS: &[u64] = &[3, 4, 9, 200, 65_535, 131_000];

// Puts rows of these numbers, whose bodies have one octet, the number's last.
fn append_all(
    alloc: Global,
    registry: &mut Registry<MemKeeper>,
    numbers: &[u64],
) -> Result<(), StoreError> {
    for number in numbers {
        let row = Row {
            number: *number,
            id: 0x0200,
            body: octets(alloc, &[(*number % 256) as u8])?,
        };
        registry.append(alloc, &phone(0x11), &row)?;
    }
    Ok(())
}

// Whether rows have these numbers, and the bodies that belong to them.
fn are_rows(rows: &[Row], numbers: &[u64]) -> bool {
    rows.len() == numbers.len()
        && rows.iter().zip(numbers).all(|(row, number)| {
            row.number == *number && row.body.as_slice() == [(*number % 256) as u8].as_slice()
        })
}

// Whether a page has the rows of these numbers.
fn has_page(
    alloc: Global,
    registry: &mut Registry<MemKeeper>,
    from: u64,
    most: usize,
    numbers: &[u64],
) -> bool {
    match registry.rows_from(alloc, &phone(0x11), from, most) {
        Ok(rows) => are_rows(rows.as_slice(), numbers),
        Err(_) => false,
    }
}

// A number, how many rows are asked for, and the numbers of those that are given.
const PAGES: &[(u64, usize, &[u64])] = &[
    (0, 2, &[3, 4]),
    (5, 2, &[9, 200]),
    (201, 2, &[65_535, 131_000]),
    (4, 1, &[4]),
    (0, 100, NUMBERS),
    (131_000, 2, &[131_000]),
    (131_001, 2, &[]),
    (0, 0, &[]),
];

#[test]
fn rows_come_in_pages(rt: HostRuntime) -> Result<(), Fail> {
    let alloc = rt.alloc();
    let fleet = fleet(alloc, &[], &[], &[]).expect(&rt, "fleet");
    let mut registry = Registry::new(keeper(alloc), fleet);
    assert!(rt; append_all(alloc, &mut registry, NUMBERS) == Ok(()));
    for (from, most, numbers) in PAGES {
        assert!(rt; has_page(alloc, &mut registry, *from, *most, numbers));
    }
    let other = registry.rows_from(alloc, &phone(0x12), 0, 2);
    assert!(rt; other.is_ok_and(|rows| rows.is_empty()));
    Ok(())
}
