use crate::keeper_calls;
use crate::listing::{Listed, first_unlike};
use jt_store::{Keeper, MemKeeper, StoreError};
use jt_value::{Edition, Phone, Seq};
use std::alloc::Global;
use std::test::Fail;

fn phone(edition: Edition, last: u8) -> Phone {
    Phone {
        edition,
        digits: [0, 0, 0, 0, 0x01, 0x39, 0x12, 0x34, 0x56, last],
    }
}

// The calls of any keeper, each asked for at this keeper's type once.
fn put(
    alloc: Global,
    keeper: &mut MemKeeper,
    phone: &Phone,
    number: u64,
    octet: u8,
) -> Result<(), StoreError> {
    keeper_calls::put(alloc, keeper, phone, number, octet)
}

fn enrol(
    alloc: Global,
    keeper: &mut MemKeeper,
    phone: &Phone,
    plate: &[u8],
    terminal: &[u8],
) -> Result<bool, StoreError> {
    keeper_calls::enrol(alloc, keeper, phone, plate, terminal)
}

fn number_at(
    alloc: Global,
    keeper: &mut MemKeeper,
    phone: &Phone,
    number: u64,
) -> Result<Option<u64>, StoreError> {
    match keeper.row_at(alloc, phone, number)? {
        Some(row) => Ok(Some(row.number)),
        None => Ok(None),
    }
}

fn number_from(
    alloc: Global,
    keeper: &mut MemKeeper,
    phone: &Phone,
    number: u64,
) -> Result<Option<u64>, StoreError> {
    match keeper.row_from(alloc, phone, number)? {
        Some(row) => Ok(Some(row.number)),
        None => Ok(None),
    }
}

#[test]
fn rows_are_found_by_their_numbers(rt: HostRuntime) -> Result<(), Fail> {
    let alloc = rt.alloc();
    let old = phone(Edition::E2013, 0x78);
    let new = phone(Edition::E2019, 0x78);
    let other = phone(Edition::E2013, 0x79);
    let mut keeper = MemKeeper::new(alloc, 9, Seq::new(alloc));
    assert!(rt; keeper.last(alloc, &old) == Ok(None));
    assert!(rt; put(alloc, &mut keeper, &old, 2, 7) == Ok(()));
    assert!(rt; put(alloc, &mut keeper, &new, 5, 8) == Ok(()));
    assert!(rt; number_at(alloc, &mut keeper, &old, 3) == Ok(None));
    assert!(rt; number_at(alloc, &mut keeper, &old, 5) == Ok(Some(5)));
    assert!(rt; keeper.last(alloc, &old) == Ok(Some(5)));
    assert!(rt; number_from(alloc, &mut keeper, &new, 3) == Ok(Some(5)));
    assert!(rt; number_from(alloc, &mut keeper, &new, 6) == Ok(None));
    assert!(rt; keeper.last(alloc, &other) == Ok(None));
    Ok(())
}

#[test]
fn a_row_keeps_its_body(rt: HostRuntime) -> Result<(), Fail> {
    let alloc = rt.alloc();
    let one = phone(Edition::E2013, 0x78);
    let mut keeper = MemKeeper::new(alloc, 9, Seq::new(alloc));
    assert!(rt; put(alloc, &mut keeper, &one, 2, 7) == Ok(()));
    match keeper.row_at(alloc, &one, 2) {
        Ok(Some(row)) => {
            assert!(rt; row.id == 0x0200);
            assert!(rt; row.body.as_slice() == [7].as_slice());
        }
        _ => assert!(rt; false),
    }
    Ok(())
}

#[test]
fn a_full_list_takes_no_row(rt: HostRuntime) -> Result<(), Fail> {
    let alloc = rt.alloc();
    let one = phone(Edition::E2013, 0x78);
    let mut keeper = MemKeeper::new(alloc, 1, Seq::new(alloc));
    assert!(rt; put(alloc, &mut keeper, &one, 2, 7) == Ok(()));
    assert!(rt; put(alloc, &mut keeper, &one, 3, 7) == Err(StoreError::Full(1)));
    assert!(rt; keeper.last(alloc, &one) == Ok(Some(2)));
    Ok(())
}

#[test]
fn registrations_go_and_rows_stay(rt: HostRuntime) -> Result<(), Fail> {
    let alloc = rt.alloc();
    let one = phone(Edition::E2013, 0x78);
    let mut keeper = MemKeeper::new(alloc, 9, Seq::new(alloc));
    assert!(rt; put(alloc, &mut keeper, &one, 2, 7) == Ok(()));
    assert!(rt; enrol(alloc, &mut keeper, &one, b"AB1", b"TA") == Ok(true));
    match keeper.registered(alloc, &one) {
        Ok(Some(registered)) => {
            assert!(rt; registered.plate.as_slice() == b"AB1".as_slice());
            assert!(rt; registered.terminal.as_slice() == b"TA".as_slice());
        }
        _ => assert!(rt; false),
    }
    assert!(rt; keeper.unregister(alloc, &one) == Ok(()));
    match keeper.registered(alloc, &one) {
        Ok(None) => {}
        _ => assert!(rt; false),
    }
    assert!(rt; keeper.plate_owner(alloc, b"AB1") == Ok(None));
    assert!(rt; keeper.last(alloc, &one) == Ok(Some(2)));
    Ok(())
}

#[test]
fn owners_are_phones_of_2019(rt: HostRuntime) -> Result<(), Fail> {
    let alloc = rt.alloc();
    let one = phone(Edition::E2013, 0x78);
    let other = phone(Edition::E2019, 0x79);
    let owner = phone(Edition::E2019, 0x78);
    let mut keeper = MemKeeper::new(alloc, 9, Seq::new(alloc));
    assert!(rt; enrol(alloc, &mut keeper, &one, b"AB1", b"TA") == Ok(true));
    assert!(rt; keeper.plate_owner(alloc, b"AB1") == Ok(Some(owner)));
    assert!(rt; keeper.terminal_owner(alloc, b"TA") == Ok(Some(owner)));
    assert!(rt; keeper.terminal_owner(alloc, b"AB1") == Ok(None));
    assert!(rt; enrol(alloc, &mut keeper, &other, b"AB1", b"TB") == Ok(false));
    assert!(rt; enrol(alloc, &mut keeper, &other, b"AB2", b"TB") == Ok(true));
    assert!(rt; enrol(alloc, &mut keeper, &owner, b"AB3", b"TA") == Ok(true));
    assert!(rt; keeper.plate_owner(alloc, b"AB1") == Ok(None));
    assert!(rt; keeper.plate_owner(alloc, b"AB3") == Ok(Some(owner)));
    Ok(())
}

#[test]
fn listed_calls_fail(rt: HostRuntime) -> Result<(), Fail> {
    let alloc = rt.alloc();
    let one = phone(Edition::E2013, 0x78);
    let mut failing = Seq::new(alloc);
    assert!(rt; failing.push(2) == Ok(()));
    let mut keeper = MemKeeper::new(alloc, 9, failing);
    assert!(rt; keeper.last(alloc, &one) == Ok(None));
    assert!(rt; keeper.last(alloc, &one) == Err(StoreError::Failed));
    assert!(rt; keeper.last(alloc, &one) == Ok(None));
    Ok(())
}

fn unlike(
    alloc: Global,
    keeper: &mut MemKeeper,
    after: Option<Phone>,
    wanted: &[Listed],
) -> Result<Option<usize>, StoreError> {
    first_unlike(alloc, keeper, after, wanted)
}

#[test]
fn registrations_are_listed_by_their_digits(rt: HostRuntime) -> Result<(), Fail> {
    let alloc = rt.alloc();
    let low = phone(Edition::E2013, 0x10);
    let middle = phone(Edition::E2019, 0x45);
    let high = phone(Edition::E2013, 0x99);
    let mut keeper = MemKeeper::new(alloc, 9, Seq::new(alloc));
    assert!(rt; unlike(alloc, &mut keeper, None, &[]) == Ok(None));
    assert!(rt; enrol(alloc, &mut keeper, &high, b"H1", b"h") == Ok(true));
    assert!(rt; enrol(alloc, &mut keeper, &low, b"L1", b"l") == Ok(true));
    assert!(rt; enrol(alloc, &mut keeper, &middle, b"M1", b"m") == Ok(true));
    let all = &[
        Listed(0x10, b'L', b'l'),
        Listed(0x45, b'M', b'm'),
        Listed(0x99, b'H', b'h'),
    ];
    assert!(rt; unlike(alloc, &mut keeper, None, all) == Ok(None));
    assert!(rt; unlike(alloc, &mut keeper, Some(low), &all[1..]) == Ok(None));
    assert!(rt; unlike(alloc, &mut keeper, Some(high), &[]) == Ok(None));
    assert!(rt; keeper.unregister(alloc, &middle) == Ok(()));
    assert!(rt; unlike(alloc, &mut keeper, Some(middle), &all[2..]) == Ok(None));
    Ok(())
}

#[test]
fn a_listing_fails_once_where_it_is_to(rt: HostRuntime) -> Result<(), Fail> {
    let alloc = rt.alloc();
    let mut failing = Seq::new(alloc);
    assert!(rt; failing.push(1) == Ok(()));
    let mut keeper = MemKeeper::new(alloc, 9, failing);
    assert!(rt; unlike(alloc, &mut keeper, None, &[]) == Err(StoreError::Failed));
    assert!(rt; unlike(alloc, &mut keeper, None, &[]) == Ok(None));
    Ok(())
}
