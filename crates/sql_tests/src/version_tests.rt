use crate::connections::{InMemory, made};
use jt_sql::{SqlKeeper, SqlVault};
use jt_store::{Keeper, StoreError};
use jt_value::{Edition, Phone};
use sqlite::{Alter, Connection, MemStore};
use std::alloc::Global;
use std::test::Fail;
use store_tests::vault_calls;

const PHONE: Phone = Phone {
    edition: Edition::E2019,
    digits: [0, 0, 0, 0, 0x01, 0x39, 0x12, 0x34, 0x56, 0x78],
};

// Whether a keeper over the connection fails twice.
fn keeper_fails<S: Alter + Drop>(alloc: Global, connection: Connection<S>) -> bool {
    let mut keeper = SqlKeeper::over(connection);
    let first = keeper.last(alloc, &PHONE) == Err(StoreError::Failed);
    let second = keeper.unregister(alloc, &PHONE) == Err(StoreError::Failed);
    drop(keeper);
    first && second
}

// Whether a vault over the connection fails twice.
fn vault_fails<S: Alter + Drop>(alloc: Global, connection: Connection<S>) -> bool {
    let mut vault = SqlVault::over(connection);
    let failed = vault_calls::Said::Refused(StoreError::Failed);
    let load = vault_calls::answer(alloc, &mut vault, vault_calls::Call::Load) == failed;
    let note = vault_calls::answer(alloc, &mut vault, vault_calls::Call::Note(1)) == failed;
    drop(vault);
    load && note
}

// Whether a keeper and a vault over a text in memory fail.
fn fail_over<S: InMemory>(alloc: Global, sql: &str) -> bool {
    match (made::<S>(alloc, &[sql]), made::<S>(alloc, &[sql])) {
        (Some(first), Some(second)) => keeper_fails(alloc, first) && vault_fails(alloc, second),
        _ => false,
    }
}

#[test]
fn other_files_are_refused(rt: HostRuntime) -> Result<(), Fail> {
    let texts = [
        "CREATE TABLE meta (version INTEGER); INSERT INTO meta (version) VALUES (3)",
        "CREATE TABLE meta (version INTEGER)",
        "CREATE TABLE meta (version INTEGER); INSERT INTO meta (version) VALUES (NULL)",
        "CREATE TABLE meta (version INTEGER); INSERT INTO meta (version) VALUES (1), (1)",
        "CREATE TABLE meta (version INTEGER); INSERT INTO meta (version) VALUES (2), (2)",
        "CREATE TABLE other (version INTEGER)",
    ];
    for text in texts {
        assert!(rt; fail_over::<MemStore>(rt.alloc(), text));
    }
    Ok(())
}
