use crate::connections::{InMemory, answers, ran, wrong_over};
use jt_store::StoreError;
use jt_value::{Edition, Phone};
use sqlite::MemStore;
use std::alloc::Global;
use std::test::Fail;
use store_tests::keeper_calls::{Call, Said};

const PHONE: Phone = Phone {
    edition: Edition::E2013,
    digits: [0, 0, 0, 0, 0x01, 0x39, 0x12, 0x34, 0x56, 0x78],
};

const OTHER: Phone = Phone {
    edition: Edition::E2013,
    digits: [0, 0, 0, 0, 0x01, 0x39, 0x12, 0x34, 0x56, 0x79],
};

// Rows of two phones.
const BEFORE: [(Call, Said); 4] = [
    (Call::Append(PHONE, 2, 7), Said::Done),
    (Call::Append(PHONE, 5, 8), Said::Done),
    (Call::Append(PHONE, 6, 9), Said::Done),
    (Call::Append(OTHER, 0, 6), Said::Done),
];

// How two rows of the first phone leave the file, as tools/archive.py lets them, and what is answered then: from a number of these
// on the rows are not all there, and all else is answered from the rows that stayed. Likewise of a table whose name is in capitals.
// Where the table lacks the column of numbers, nobody knows which rows left.
const LEAVES: [(&str, &[(Call, Said)]); 3] = [
    (
        "CREATE TABLE left808 (phone BLOB PRIMARY KEY, number INTEGER, rows INTEGER, fixes INTEGER); \
         INSERT INTO left808 SELECT phone, number, 2, 2 FROM rows808 WHERE number = 5; \
         DELETE FROM rows808 WHERE number = 2 OR number = 5",
        &[
            (Call::From(PHONE, 0), Said::Refused(StoreError::Failed)),
            (Call::From(PHONE, 5), Said::Refused(StoreError::Failed)),
            (Call::From(PHONE, 6), Said::Row(6, 9)),
            (Call::At(PHONE, 5), Said::Nothing),
            (Call::At(PHONE, 6), Said::Row(6, 9)),
            (Call::Last(PHONE), Said::Number(6)),
            (Call::From(OTHER, 0), Said::Row(0, 6)),
            (Call::Append(PHONE, 7, 3), Said::Done),
            (Call::From(PHONE, 7), Said::Row(7, 3)),
        ],
    ),
    (
        "CREATE TABLE LEFT808 (phone BLOB PRIMARY KEY, number INTEGER); \
         INSERT INTO LEFT808 SELECT phone, number FROM rows808 WHERE number = 2; \
         DELETE FROM rows808 WHERE number = 2",
        &[
            (Call::From(PHONE, 0), Said::Refused(StoreError::Failed)),
            (Call::From(PHONE, 3), Said::Row(5, 8)),
        ],
    ),
    (
        "CREATE TABLE left808 (phone BLOB PRIMARY KEY, rows INTEGER, fixes INTEGER)",
        &[
            (Call::From(PHONE, 0), Said::Refused(StoreError::Failed)),
            (Call::From(PHONE, 6), Said::Refused(StoreError::Failed)),
            (Call::At(PHONE, 6), Said::Row(6, 9)),
            (Call::Last(PHONE), Said::Number(6)),
        ],
    ),
];

// Whether a keeper in memory answers so before rows left and then.
fn answers_then<S: InMemory>(alloc: Global, leave: &str, after: &[(Call, Said)]) -> bool {
    let Some(connection) = S::connection(alloc) else {
        return false;
    };
    let (wrong, mut connection) = wrong_over(alloc, connection, &BEFORE);
    wrong == None && ran(&mut connection, leave) && answers(alloc, connection, after)
}

#[test]
fn rows_that_left_are_not_passed_over(rt: HostRuntime) -> Result<(), Fail> {
    for (leave, after) in LEAVES {
        assert!(rt;
            answers_then::<MemStore>(rt.alloc(), leave, after),
            "{leave}"
        );
    }
    Ok(())
}
