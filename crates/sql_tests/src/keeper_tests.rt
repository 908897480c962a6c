use crate::connections::{InMemory, wrong_over};
use crate::files::{make_folder, remove_folder};
use jt_sql::SqlKeeper;
use jt_store::{Keeper, MemKeeper, StoreError};
use jt_value::{Edition, Memory, Phone, Seq};
use sqlite::MemStore;
use std::alloc::Global;
use std::test::Fail;
use store_tests::keeper_calls::{Call, Said, first_wrong};

const EARLIER: Phone = Phone {
    edition: Edition::E2013,
    digits: [0, 0, 0, 0, 0x01, 0x39, 0x12, 0x34, 0x56, 0x78],
};

const LATER: Phone = Phone {
    edition: Edition::E2019,
    digits: [0, 0, 0, 0, 0x01, 0x39, 0x12, 0x34, 0x56, 0x78],
};

const OTHER: Phone = Phone {
    edition: Edition::E2013,
    digits: [0, 0, 0, 0, 0x01, 0x39, 0x12, 0x34, 0x56, 0x79],
};

/// Calls of one life of a keeper, which is opened anew for the next life, and their answers.
type Life = &'static [(Call, Said)];

const LIVES: [Life; 4] = [
    // A registration, units, a repeat, a unit of a terminal that began anew, and a deregistration.
    &[
        (Call::Last(EARLIER), Said::Nothing),
        (Call::From(EARLIER, 0), Said::Nothing),
        (Call::Registered(EARLIER), Said::Nothing),
        (Call::PlateOwner(b"PA"), Said::Nothing),
        (Call::Register(EARLIER, b"PA", b"TA"), Said::Done),
        (Call::Registered(LATER), Said::Names(b'P', b'T')),
        (Call::PlateOwner(b"PA"), Said::Owner(0x78)),
        (Call::TerminalOwner(b"TA"), Said::Owner(0x78)),
        (Call::TerminalOwner(b"PA"), Said::Nothing),
        (Call::Register(OTHER, b"PA", b"TB"), Said::Taken),
        (Call::Register(OTHER, b"Q2", b"TB"), Said::Done),
        (Call::Register(EARLIER, b"Q3", b"TA"), Said::Done),
        (Call::PlateOwner(b"PA"), Said::Nothing),
        (
            Call::Append(EARLIER, 65_536, 1),
            Said::Refused(StoreError::Failed),
        ),
        (Call::Append(EARLIER, 2, 7), Said::Done),
        (Call::Append(LATER, 5, 8), Said::Done),
        (Call::Append(LATER, 5, 8), Said::Refused(StoreError::Failed)),
        (Call::Append(EARLIER, 65_541, 9), Said::Done),
        (Call::Append(OTHER, 0, 6), Said::Done),
        (Call::Last(EARLIER), Said::Number(65_541)),
        (Call::At(LATER, 5), Said::Row(5, 8)),
        (Call::At(EARLIER, 3), Said::Nothing),
        (Call::From(EARLIER, 0), Said::Row(2, 7)),
        (Call::From(EARLIER, 6), Said::Row(65_541, 9)),
        (Call::From(EARLIER, 65_542), Said::Nothing),
        (Call::At(EARLIER, u64::MAX), Said::Nothing),
        (Call::Unregister(EARLIER), Said::Done),
        (Call::Unregister(EARLIER), Said::Done),
        (Call::Registered(EARLIER), Said::Nothing),
        (Call::TerminalOwner(b"TA"), Said::Nothing),
    ],
    // What is kept once the store is opened again.
    &[
        (Call::Registered(EARLIER), Said::Nothing),
        (Call::Registered(OTHER), Said::Names(b'Q', b'T')),
        (Call::Last(LATER), Said::Number(65_541)),
        (Call::From(LATER, 0), Said::Row(2, 7)),
        (Call::From(LATER, 3), Said::Row(5, 8)),
        (Call::From(LATER, 6), Said::Row(65_541, 9)),
        (Call::From(LATER, 65_542), Said::Nothing),
        (Call::Last(OTHER), Said::Number(0)),
        (Call::PlateOwner(b"Q2"), Said::Owner(0x79)),
    ],
    // Phones that register anew: with another terminal id, whose old one is then free; and with two other names.
    &[
        (Call::Register(OTHER, b"Q2", b"UC"), Said::Done),
        (Call::Registered(OTHER), Said::Names(b'Q', b'U')),
        (Call::TerminalOwner(b"TB"), Said::Nothing),
        (Call::TerminalOwner(b"UC"), Said::Owner(0x79)),
        (Call::PlateOwner(b"Q2"), Said::Owner(0x79)),
        (Call::Register(EARLIER, b"RD", b"UC"), Said::Taken),
        (Call::Register(EARLIER, b"RD", b"TB"), Said::Done),
        (Call::TerminalOwner(b"TB"), Said::Owner(0x78)),
        (Call::Register(LATER, b"S5", b"VD"), Said::Done),
        (Call::PlateOwner(b"RD"), Said::Nothing),
        (Call::TerminalOwner(b"TB"), Said::Nothing),
        (Call::Register(OTHER, b"RD", b"TB"), Said::Done),
    ],
    // Who has which names then.
    &[
        (Call::Registered(OTHER), Said::Names(b'R', b'T')),
        (Call::Registered(EARLIER), Said::Names(b'S', b'V')),
        (Call::PlateOwner(b"RD"), Said::Owner(0x79)),
        (Call::TerminalOwner(b"TB"), Said::Owner(0x79)),
        (Call::PlateOwner(b"S5"), Said::Owner(0x78)),
        (Call::TerminalOwner(b"VD"), Said::Owner(0x78)),
        (Call::PlateOwner(b"Q2"), Said::Nothing),
        (Call::TerminalOwner(b"UC"), Said::Nothing),
    ],
];

// Whether one keeper answers so in all lives.
fn lives_all<K: Keeper + Drop>(alloc: Global, mut keeper: K) -> bool {
    for life in LIVES {
        if first_wrong(alloc, &mut keeper, life).is_some() {
            return false;
        }
    }
    true
}

#[test]
fn a_keeper_in_memory_answers_so(rt: HostRuntime) -> Result<(), Fail> {
    let keeper = MemKeeper::new(rt.alloc(), 1_000_000_000, Seq::new(rt.alloc()));
    assert!(rt; lives_all(rt.alloc(), keeper));
    Ok(())
}

// Whether a keeper answers so in one life. It is then let go of.
fn lives<K: Keeper + Drop>(alloc: Global, mut keeper: K, life: &[(Call, Said)]) -> bool {
    first_wrong(alloc, &mut keeper, life) == None
}

fn keeper_at(rt: &HostRuntime, path: &str) -> Result<SqlKeeper<HostRuntime>, Memory> {
    SqlKeeper::at(rt.clone()?, path)
}

// Whether a keeper over a file answers so.
fn lives_in_file(rt: &HostRuntime, path: &str, life: &[(Call, Said)]) -> bool {
    match keeper_at(rt, path) {
        Ok(keeper) => lives(rt.alloc(), keeper, life),
        Err(_) => false,
    }
}

// Each life opens the file anew.
#[test]
fn a_keeper_in_a_file_answers_the_same(rt: HostRuntime) -> Result<(), Fail> {
    make_folder(&rt, "keeper_test")?;
    for life in LIVES {
        assert!(rt; lives_in_file(&rt, "keeper_test/a.db", life));
    }
    remove_folder(&rt, "keeper_test")?;
    Ok(())
}

// Whether a keeper over a connection in memory answers so in all lives, each of which takes the connection anew.
fn lives_over<S: InMemory>(alloc: Global) -> bool {
    let Some(mut connection) = S::connection(alloc) else {
        return false;
    };
    for life in LIVES {
        let (wrong, left) = wrong_over(alloc, connection, life);
        if wrong.is_some() {
            return false;
        }
        connection = left;
    }
    true
}

#[test]
fn a_keeper_over_a_connection_answers_the_same(rt: HostRuntime) -> Result<(), Fail> {
    assert!(rt; lives_over::<MemStore>(rt.alloc()));
    Ok(())
}
