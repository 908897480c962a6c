use crate::stopped_files::{Stopping, Stops, Story, files_of, new_files, open, play_stopped};
use jt_store::StoreError;
use jt_value::{Edition, Phone};
use sql_tests::connections::{InMemory, answers, made, number, ran, wrong_over};
use sqlite::{Alter, Connection, Files, MemStore};
use sqlite_disk::{Fuse, Memory};
use std::alloc::Global;
use std::test::Fail;
use store_tests::keeper_calls::{Call, Said};

const PHONE: Phone = Phone {
    edition: Edition::E2019,
    digits: [0, 0, 0, 0, 0x01, 0x39, 0x12, 0x34, 0x56, 0x78],
};

const OTHER: Phone = Phone {
    edition: Edition::E2013,
    digits: [0, 0, 0, 0, 0x01, 0x39, 0x12, 0x34, 0x56, 0x79],
};

const TABLES: &str = "CREATE TABLE meta (version INTEGER); \
     INSERT INTO meta (version) VALUES (1); \
     CREATE TABLE registered (phone BLOB PRIMARY KEY, plate BLOB UNIQUE, terminal BLOB UNIQUE); \
     CREATE TABLE rows808 (phone BLOB, number INTEGER, id INTEGER, body BLOB, PRIMARY KEY (phone, number))";

// Phones of 2013 (with the octet 0) and of 2019 (with the octet 1) with the same digits, and one of 2013 with others. The row 3
// of both editions has the same id and body.
const SAME: &str = "INSERT INTO registered VALUES (x'0000000000013912345678', x'5031', x'5431'); \
     INSERT INTO registered VALUES (x'0100000000013912345678', x'5132', x'5432'); \
     INSERT INTO rows808 VALUES (x'0000000000013912345678', 2, 512, x'07'); \
     INSERT INTO rows808 VALUES (x'0000000000013912345678', 3, 512, x'08'); \
     INSERT INTO rows808 VALUES (x'0100000000013912345678', 3, 512, x'08'); \
     INSERT INTO rows808 VALUES (x'0100000000013912345678', 4, 512, x'09'); \
     INSERT INTO rows808 VALUES (x'0000000000013912345679', 5, 512, x'06')";

const SAME_MOVED: [(Call, Said); 8] = [
    (Call::From(PHONE, 0), Said::Row(2, 7)),
    (Call::From(PHONE, 3), Said::Row(3, 8)),
    (Call::From(PHONE, 4), Said::Row(4, 9)),
    (Call::From(PHONE, 5), Said::Nothing),
    (Call::Registered(PHONE), Said::Names(b'Q', b'T')),
    (Call::PlateOwner(b"PA"), Said::Nothing),
    (Call::Last(OTHER), Said::Number(5)),
    (Call::Registered(OTHER), Said::Nothing),
];

// The row 3 of both editions has another body, so the rows of 2019 are numbered anew.
const DIFFERENT: &str = "INSERT INTO rows808 VALUES (x'0000000000013912345678', 2, 512, x'07'); \
     INSERT INTO rows808 VALUES (x'0000000000013912345678', 3, 512, x'08'); \
     INSERT INTO rows808 VALUES (x'0100000000013912345678', 3, 512, x'05'); \
     INSERT INTO rows808 VALUES (x'0100000000013912345678', 4, 512, x'09')";

const DIFFERENT_MOVED: [(Call, Said); 5] = [
    (Call::From(PHONE, 0), Said::Row(2, 7)),
    (Call::From(PHONE, 3), Said::Row(3, 8)),
    (Call::From(PHONE, 4), Said::Row(65_539, 5)),
    (Call::From(PHONE, 65_540), Said::Row(65_540, 9)),
    (Call::From(PHONE, 65_541), Said::Nothing),
];

// Rows that no keeper would have put one behind another: a number below the last one's place, a first number of a later lap, and
// phones that are none.
const BROKEN: [&str; 4] = [
    "INSERT INTO rows808 VALUES (x'0000000000013912345678', 65536, 512, x'07')",
    "INSERT INTO rows808 VALUES (x'0000000000013912345678', 2, 512, x'07'); \
     INSERT INTO rows808 VALUES (x'0000000000013912345678', 131074, 512, x'07')",
    "INSERT INTO rows808 VALUES (x'0200000000013912345678', 2, 512, x'07')",
    "INSERT INTO rows808 VALUES (x'00013912345678', 2, 512, x'07')",
];

// Whether the rows of a file of version 1 are moved to these, and are there once it is opened anew.
fn is_moved<S: InMemory>(alloc: Global, old: &str, moved: &[(Call, Said)]) -> bool {
    let Some(connection) = made::<S>(alloc, &[TABLES, old]) else {
        return false;
    };
    let (wrong, connection) = wrong_over(alloc, connection, moved);
    wrong == None && answers(alloc, connection, moved)
}

#[test]
fn a_file_of_version_1_is_migrated(rt: HostRuntime) -> Result<(), Fail> {
    assert!(rt; is_moved::<MemStore>(rt.alloc(), SAME, &SAME_MOVED));
    assert!(rt; is_moved::<MemStore>(rt.alloc(), DIFFERENT, &DIFFERENT_MOVED));
    Ok(())
}

// Whether a keeper over these rows of version 1 fails, and leaves the version.
fn is_refused<S: InMemory>(alloc: Global, rows: &str) -> bool {
    let failed = [(Call::Last(PHONE), Said::Refused(StoreError::Failed))];
    let Some(connection) = made::<S>(alloc, &[TABLES, rows]) else {
        return false;
    };
    let (wrong, mut connection) = wrong_over(alloc, connection, &failed);
    wrong == None && number(&mut connection, "SELECT version FROM meta") == Some(1)
}

#[test]
fn a_file_of_version_1_that_no_keeper_wrote_is_refused_and_stays(
    rt: HostRuntime,
) -> Result<(), Fail> {
    for rows in BROKEN {
        assert!(rt; is_refused::<MemStore>(rt.alloc(), rows));
    }
    Ok(())
}

/// The calls of a keeper over files of version 1 that have the rows of both editions. They are answered all or not at all, and
/// however many were, the rows are there, moved.
struct Moving;

impl Story for Moving {
    fn calls() -> usize {
        SAME_MOVED.len()
    }

    fn files<D: Stopping>(alloc: Global) -> Files<D> {
        match open(alloc, new_files(alloc, u64::MAX, u64::MAX)) {
            Ok(mut connection) => {
                let _ = ran(&mut connection, TABLES) && ran(&mut connection, SAME);
                files_of(connection)
            }
            Err(left) => left,
        }
    }

    fn play<S: Alter + Drop>(alloc: Global, connection: Connection<S>) -> (usize, Connection<S>) {
        let (wrong, connection) = wrong_over(alloc, connection, &SAME_MOVED);
        (wrong.unwrap_or(SAME_MOVED.len()), connection)
    }

    fn leaves<S: Alter + Drop>(alloc: Global, connection: Connection<S>, _done: usize) -> bool {
        answers(alloc, connection, &SAME_MOVED)
    }
}

/// What stops of a migration leave, on files in memory.
fn stops_of_migration(rt: &HostRuntime, in_log: bool, from: u64, to: u64) -> Stops {
    play_stopped::<Moving, Fuse<Memory>>(rt.alloc(), in_log, from, to)
}

#[test]
fn a_migration_stopped_early_in_its_log_loses_nothing(rt: HostRuntime) -> Result<(), Fail> {
    assert!(rt; stops_of_migration(&rt, true, 0, 15) == Stops::Whole);
    Ok(())
}

#[test]
fn a_migration_stopped_late_in_its_log_loses_nothing(rt: HostRuntime) -> Result<(), Fail> {
    assert!(rt; stops_of_migration(&rt, true, 15, 200) == Stops::Ended);
    Ok(())
}

#[test]
fn a_migration_stopped_in_its_database_loses_nothing(rt: HostRuntime) -> Result<(), Fail> {
    assert!(rt; stops_of_migration(&rt, false, 0, 200) == Stops::Ended);
    Ok(())
}
