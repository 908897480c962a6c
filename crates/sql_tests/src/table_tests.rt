use crate::connections::{InMemory, filled, made};
use crate::files::{make_folder, remove_folder};
use crate::vault_tests::lives_in_file;
use jt_sql::{AdoptedVault, SqlVault};
use jt_store::{StoreError, Unit, Vault};
use jt_value::Octets;
use jt_value::ids::{BATCH, POSITION};
use jt_value::limits::BODY_LIMIT;
use sqlite::{Alter, Connection, MemStore};
use std::alloc::Global;
use std::fs;
use std::test::Fail;
use store_tests::vault_calls::{Call, Said, answer, said_of};

// A vault's file with three fixes.
const TABLES: &str = "CREATE TABLE meta (version INTEGER); \
     INSERT INTO meta (version) VALUES (1); \
     CREATE TABLE fix (place INTEGER PRIMARY KEY, body BLOB); \
     INSERT INTO fix VALUES (0, x'00000000000000030000000006bc3e40000000000000240101000000'); \
     INSERT INTO fix VALUES (1, x'00000000000000030000000106bc3e40000000000000240101000000'); \
     INSERT INTO fix VALUES (2, x'00000000000000030000000206bc3e40000000000000240101000000'); \
     CREATE TABLE unit (place INTEGER PRIMARY KEY, serial INTEGER, id INTEGER, body BLOB, fixes INTEGER); \
     CREATE TABLE state (one INTEGER PRIMARY KEY, units_accepted INTEGER, fixes_accepted INTEGER, mark INTEGER, next INTEGER, code BLOB)";

const FAILED: Said = Said::Refused(StoreError::Failed);

// Two units are accepted, and one is not.
const ALL: &str =
    "INSERT INTO unit VALUES (0, 2, 512, x'07', 1), (1, 3, 512, x'08', 1), (2, 4, 512, x'09', 1); \
     INSERT INTO state VALUES (1, 2, 2, 3, 5, NULL)";

// The same without the second unit.
const NO_SECOND: &str = "INSERT INTO unit VALUES (0, 2, 512, x'07', 1), (2, 4, 512, x'09', 1); \
     INSERT INTO state VALUES (1, 2, 2, 3, 5, NULL)";

// A unit of two fixes and one of one are accepted, and counted as one fix each.
const MISCOUNTED: &str =
    "INSERT INTO unit VALUES (0, 2, 1796, x'000201', 2), (1, 3, 512, x'09', 1); \
     INSERT INTO state VALUES (1, 2, 2, 3, 4, NULL)";

// What the other tables have, and how it is loaded. The second unit stands at place 1, and the state is one row.
const LOADED: [(&str, Said); 4] = [
    (
        "INSERT INTO unit VALUES (0, 2, 512, x'07', 1), (1, 3, 512, x'08', 1); \
         INSERT INTO state VALUES (1, 1, 1, 2, 4, NULL)",
        Said::Held(1, 1, 2, 4, 3, 1),
    ),
    (ALL, Said::Held(0, 1, 3, 5, 3, 2)),
    // A unit of two fixes and one of one are accepted, and as many fixes.
    (
        "INSERT INTO unit VALUES (0, 2, 1796, x'000201', 2), (1, 3, 512, x'09', 1); \
         INSERT INTO state VALUES (1, 2, 3, 3, 4, NULL)",
        Said::Held(0, 0, 3, 4, 3, 3),
    ),
    // A unit of two fixes waits, and counts two.
    (
        "INSERT INTO unit VALUES (0, 2, 512, x'07', 1), (1, 3, 1796, x'000201', 2); \
         INSERT INTO state VALUES (1, 1, 1, 2, 4, NULL)",
        Said::Held(0, 1, 2, 4, 3, 1),
    ),
];

// What they have in a file that is refused: of the first rows, a unit or a state is missing or one too many.
const REFUSED: [&str; 17] = [
    "INSERT INTO unit VALUES (0, 2, 512, x'07', 1), (2, 3, 512, x'08', 1); \
     INSERT INTO state VALUES (1, 1, 1, 2, 4, NULL)",
    "INSERT INTO unit VALUES (1, 2, 512, x'07', 1), (2, 3, 512, x'08', 1); \
     INSERT INTO state VALUES (1, 0, 0, 65535, 4, NULL)",
    "INSERT INTO unit VALUES (0, 2, 512, x'07', 1), (1, 3, 512, x'08', 1); \
     INSERT INTO state VALUES (1, 3, 1, 2, 4, NULL)",
    "INSERT INTO unit VALUES (0, 2, 512, x'07', 1), (1, 3, 512, x'08', 1); \
     INSERT INTO state VALUES (1, 1, 1, 2, 4, NULL), (2, 1, 1, 2, 4, NULL)",
    "INSERT INTO unit VALUES (0, 2, 512, x'07', 1), (1, 3, 512, x'08', 1)",
    "INSERT INTO unit VALUES (0, 2, 512, x'07', 1), (1, 3, 512, x'08', 3); \
     INSERT INTO state VALUES (1, 1, 1, 2, 4, NULL)",
    // All of them without the first unit, without the second, and with one in front of all.
    "INSERT INTO unit VALUES (1, 3, 512, x'08', 1), (2, 4, 512, x'09', 1); \
     INSERT INTO state VALUES (1, 2, 2, 3, 5, NULL)",
    NO_SECOND,
    "INSERT INTO unit VALUES (-1, 1, 512, x'06', 1), (0, 2, 512, x'07', 1), (1, 3, 512, x'08', 1), (2, 4, 512, x'09', 1); \
     INSERT INTO state VALUES (1, 2, 2, 3, 5, NULL)",
    // The same with an accepted fix missing, and with a fix in front of all.
    "INSERT INTO unit VALUES (0, 2, 512, x'07', 1), (1, 3, 512, x'08', 1), (2, 4, 512, x'09', 1); \
     DELETE FROM fix WHERE place = 0; \
     INSERT INTO state VALUES (1, 2, 2, 3, 5, NULL)",
    "INSERT INTO unit VALUES (0, 2, 512, x'07', 1), (1, 3, 512, x'08', 1), (2, 4, 512, x'09', 1); \
     INSERT INTO fix VALUES (-1, x'00000000000000030000000306bc3e40000000000000240101000000'); \
     INSERT INTO state VALUES (1, 2, 2, 3, 5, NULL)",
    // As many units as there are places, two of them at one place, in a table whose places are no keys.
    "DROP TABLE unit; \
     CREATE TABLE unit (place INTEGER, serial INTEGER, id INTEGER, body BLOB, fixes INTEGER); \
     INSERT INTO unit VALUES (0, 2, 512, x'07', 1), (0, 3, 512, x'08', 1), (2, 4, 512, x'09', 1); \
     INSERT INTO state VALUES (1, 2, 2, 3, 5, NULL)",
    // A unit of two fixes and one of one are accepted, and one fix less; and two units of one, and one fix more.
    MISCOUNTED,
    "INSERT INTO unit VALUES (0, 2, 512, x'07', 1), (1, 3, 512, x'08', 1); \
     INSERT INTO state VALUES (1, 2, 3, 3, 4, NULL)",
    // A unit of two fixes waits, and counts one and three; and a position that counts two.
    "INSERT INTO unit VALUES (0, 2, 512, x'07', 1), (1, 3, 1796, x'000201', 1); \
     INSERT INTO state VALUES (1, 1, 1, 2, 4, NULL)",
    "INSERT INTO unit VALUES (0, 2, 1796, x'000201', 3); \
     INSERT INTO state VALUES (1, 0, 0, 65535, 3, NULL)",
    "INSERT INTO unit VALUES (0, 2, 512, x'07', 1), (1, 3, 512, x'08', 2); \
     INSERT INTO state VALUES (1, 1, 1, 2, 4, NULL)",
];

// What a vault loads, which is then let go of.
fn loads_once<V: Vault + Drop>(alloc: Global, mut vault: V) -> Said {
    let said = answer(alloc, &mut vault, Call::Load);
    drop(vault);
    said
}

// What a vault loads over the tables in memory with these rows. None where they can't be made.
fn loads<S: InMemory>(alloc: Global, rows: &str) -> Option<Said> {
    let connection = made::<S>(alloc, &[TABLES, rows])?;
    Some(loads_once(alloc, SqlVault::over(connection)))
}

#[test]
fn what_no_vault_would_have_written_is_refused(rt: HostRuntime) -> Result<(), Fail> {
    for (rows, said) in LOADED {
        assert!(rt; loads::<MemStore>(rt.alloc(), rows) == Some(said), "{rows}");
    }
    for rows in REFUSED {
        assert!(rt;
            loads::<MemStore>(rt.alloc(), rows) == Some(FAILED),
            "{rows}"
        );
    }
    Ok(())
}

// Fixes that are in no unit, three.
const NONE: &str = "INSERT INTO state VALUES (1, 0, 0, 65535, 0, NULL)";

// A unit's id and body, how many fixes it counts, and what is said of forming it and of a load behind it.
const COUNTS: [(u16, &[u8], u32, Said, Said); 6] = [
    (
        POSITION,
        b"\x07",
        1,
        Said::Done,
        Said::Held(2, 1, 65_535, 1, 3, 0),
    ),
    (POSITION, b"\x07", 2, FAILED, UNFORMED),
    (
        BATCH,
        b"\x00\x02\x01",
        2,
        Said::Done,
        Said::Held(1, 1, 65_535, 1, 3, 0),
    ),
    (BATCH, b"\x00\x02\x01", 1, FAILED, UNFORMED),
    (BATCH, b"\x00\x02\x01", 3, FAILED, UNFORMED),
    (BATCH, b"\x00", 1, FAILED, UNFORMED),
];

const UNFORMED: Said = Said::Held(3, 0, 65_535, 0, 3, 0);

// Forms a unit that counts so many fixes.
fn form<S: Alter>(
    alloc: Global,
    vault: &mut AdoptedVault<Connection<S>>,
    id: u16,
    body: &[u8],
    count: u32,
) -> Result<bool, StoreError> {
    let unit = Unit {
        serial: 0,
        id,
        body: Octets::from_vec(Vec::from_slice(alloc, body)?),
        count,
    };
    if (id != POSITION && id != BATCH) || body.len() > BODY_LIMIT || count == 0 {
        return Ok(false);
    }
    vault.form(alloc, &unit)?;
    Ok(true)
}

// What is said of forming a unit over the tables in memory, and of a load behind it. None where they can't be made.
fn forms<S: InMemory>(alloc: Global, id: u16, body: &[u8], count: u32) -> Option<(Said, Said)> {
    let connection = made::<S>(alloc, &[TABLES, NONE])?;
    let mut vault = SqlVault::over(connection);
    let formed = said_of(form(alloc, &mut vault, id, body, count));
    Some((formed, loads_once(alloc, vault)))
}

#[test]
fn a_unit_that_counts_others_than_its_body_says_is_not_formed(rt: HostRuntime) -> Result<(), Fail> {
    for (id, body, count, formed, loaded) in COUNTS {
        assert!(rt; forms::<MemStore>(rt.alloc(), id, body, count) == Some((formed, loaded)));
    }
    Ok(())
}

// Whether a vault's file with these rows was made.
fn is_made(rt: &HostRuntime, path: &str, rows: &str) -> bool {
    match Connection::open(rt, path) {
        Ok(connection) => filled(connection, &[TABLES, rows]),
        Err(_) => false,
    }
}

#[test]
fn a_file_that_is_refused_stays_as_it_was(rt: HostRuntime) -> Result<(), Fail> {
    make_folder(&rt, "table_test")?;
    assert!(rt; is_made(&rt, "table_test/a.db", ALL));
    assert!(rt;
        lives_in_file(
            &rt,
            "table_test/a.db",
            &[(Call::Load, Said::Held(0, 1, 3, 5, 3, 2))]
        )
    );
    for rows in [NO_SECOND, MISCOUNTED] {
        make_folder(&rt, "table_test")?;
        assert!(rt; is_made(&rt, "table_test/b.db", rows));
        let before = fs::read(&rt, "table_test/b.db")?;
        assert!(rt; lives_in_file(&rt, "table_test/b.db", &[(Call::Load, FAILED)]));
        let after = fs::read(&rt, "table_test/b.db")?;
        assert!(rt; before.as_slice() == after.as_slice());
    }
    remove_folder(&rt, "table_test")?;
    Ok(())
}
