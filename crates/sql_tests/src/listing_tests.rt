use crate::connections::InMemory;
use crate::files::{make_folder, remove_folder};
use jt_sql::SqlKeeper;
use jt_store::{Registrations, StoreError};
use jt_value::{Edition, Memory, Phone};
use sqlite::MemStore;
use std::alloc::Global;
use std::test::Fail;
use store_tests::keeper_calls::{Call, Said, first_wrong};
use store_tests::listing::{Listed, first_unlike};

const LOW: Phone = Phone {
    edition: Edition::E2013,
    digits: [0, 0, 0, 0, 0x01, 0x39, 0x12, 0x34, 0x56, 0x10],
};

const MIDDLE: Phone = Phone {
    edition: Edition::E2019,
    digits: [0, 0, 0, 0, 0x01, 0x39, 0x12, 0x34, 0x56, 0x45],
};

const HIGH: Phone = Phone {
    edition: Edition::E2019,
    digits: [0x99, 0, 0, 0, 0, 0, 0, 0, 0, 0x01],
};

const BEGIN: &[(Call, Said)] = &[
    (Call::Register(HIGH, b"H1", b"h"), Said::Done),
    (Call::Register(LOW, b"L1", b"l"), Said::Done),
    (Call::Register(MIDDLE, b"M1", b"m"), Said::Done),
    (Call::Append(LOW, 0, 1), Said::Done),
];

const ALL: &[Listed] = &[
    Listed(0x10, b'L', b'l'),
    Listed(0x45, b'M', b'm'),
    Listed(0x01, b'H', b'h'),
];

const FORGET: &[(Call, Said)] = &[(Call::Unregister(MIDDLE), Said::Done)];

// What is wrong with the listings of a keeper in which nobody is registered yet, by the number of the row, if anything is.
fn wrong_listing<K: Registrations>(alloc: Global, keeper: &mut K) -> Result<u32, StoreError> {
    if first_unlike(alloc, keeper, None, &[])?.is_some() {
        return Ok(1);
    }
    if first_wrong(alloc, keeper, BEGIN).is_some() {
        return Ok(2);
    }
    if first_unlike(alloc, keeper, None, ALL)?.is_some() {
        return Ok(3);
    }
    if first_unlike(alloc, keeper, Some(LOW), &ALL[1..])?.is_some() {
        return Ok(4);
    }
    if first_wrong(alloc, keeper, FORGET).is_some() {
        return Ok(5);
    }
    if first_unlike(alloc, keeper, Some(MIDDLE), &ALL[2..])?.is_some() {
        return Ok(6);
    }
    if first_unlike(alloc, keeper, Some(HIGH), &[])?.is_some() {
        return Ok(7);
    }
    Ok(0)
}

fn owned_listing<K: Registrations + Drop>(alloc: Global, mut keeper: K) -> Result<u32, StoreError> {
    let wrong = wrong_listing(alloc, &mut keeper);
    drop(keeper);
    wrong
}

fn listing_in_file(rt: &HostRuntime, path: &str) -> Result<u32, StoreError> {
    match file_keeper(rt, path) {
        Ok(keeper) => owned_listing(rt.alloc(), keeper),
        Err(Memory) => Err(StoreError::Memory),
    }
}

fn file_keeper(rt: &HostRuntime, path: &str) -> Result<SqlKeeper<HostRuntime>, Memory> {
    SqlKeeper::at(rt.clone()?, path)
}

#[test]
fn a_file_lists_registrations_by_their_digits(rt: HostRuntime) -> Result<(), Fail> {
    make_folder(&rt, "listing_test")?;
    assert!(rt; listing_in_file(&rt, "listing_test/a.db") == Ok(0));
    remove_folder(&rt, "listing_test")?;
    Ok(())
}

// The same of a keeper over a connection in memory.
fn listing_over<S: InMemory>(alloc: Global) -> Result<u32, StoreError> {
    match S::connection(alloc) {
        Some(connection) => owned_listing(alloc, SqlKeeper::over(connection)),
        None => Err(StoreError::Memory),
    }
}

#[test]
fn a_connection_lists_registrations_by_their_digits(rt: HostRuntime) -> Result<(), Fail> {
    assert!(rt; listing_over::<MemStore>(rt.alloc()) == Ok(0));
    Ok(())
}
