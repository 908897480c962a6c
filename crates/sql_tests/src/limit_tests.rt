use crate::connections::{InMemory, answers, made};
use jt_value::{Edition, Phone};
use sqlite::MemStore;
use std::alloc::Global;
use std::test::Fail;
use store_tests::keeper_calls::{Call, Said};

const PHONE: Phone = Phone {
    edition: Edition::E2013,
    digits: [0, 0, 0, 0, 0x01, 0x39, 0x12, 0x34, 0x56, 0x78],
};

const TABLES: &str = "CREATE TABLE meta (version INTEGER); \
     INSERT INTO meta (version) VALUES (2); \
     CREATE TABLE registered (phone BLOB PRIMARY KEY, plate BLOB UNIQUE, terminal BLOB UNIQUE); \
     CREATE TABLE rows808 (phone BLOB, number INTEGER, id INTEGER, body BLOB, PRIMARY KEY (phone, number))";

// Rows of a phone whose last number is as great as that of a full one: one row, and two whose keys are as far apart as those of a
// full file.
const ROWS: [&str; 2] = [
    "INSERT INTO rows808 VALUES (x'00000000013912345678', 999999999, 512, x'07')",
    "INSERT INTO rows808 (rowid, phone, number, id, body) VALUES (1, x'00000000013912345678', 2, 512, x'06'); \
     INSERT INTO rows808 (rowid, phone, number, id, body) VALUES (2000000000, x'00000000013912345678', 999999999, 512, x'07')",
];

const CALLS: [(Call, Said); 4] = [
    (Call::Last(PHONE), Said::Number(999_999_999)),
    (Call::Append(PHONE, 1_000_000_000, 8), Said::Done),
    (Call::Append(PHONE, 1_000_000_001, 9), Said::Done),
    (
        Call::From(PHONE, 1_000_000_001),
        Said::Row(1_000_000_001, 9),
    ),
];

// Whether a keeper over these rows in memory answers so.
fn answers_over<S: InMemory>(alloc: Global, rows: &str) -> bool {
    match made::<S>(alloc, &[TABLES, rows]) {
        Some(connection) => answers(alloc, connection, &CALLS),
        None => false,
    }
}

#[test]
fn a_phone_with_great_numbers_and_few_rows_is_not_full(rt: HostRuntime) -> Result<(), Fail> {
    for rows in ROWS {
        assert!(rt; answers_over::<MemStore>(rt.alloc(), rows));
    }
    Ok(())
}
