use crate::stopped_files::{Stopping, Stops, Story, new_files, play_stopped};
use jt_sql::{SqlKeeper, SqlVault};
use jt_store::{Keeper, MemKeeper, MemVault, Vault};
use jt_value::{Edition, Phone, Seq};
use sqlite::{Alter, Connection, Files};
use sqlite_disk::{Fuse, Memory};
use std::alloc::Global;
use std::test::Fail;
use store_tests::keeper_calls::{self, Call as KeeperCall};
use store_tests::vault_calls::{self, Call as VaultCall};

const PHONE: Phone = Phone {
    edition: Edition::E2013,
    digits: [0, 0, 0, 0, 0x01, 0x39, 0x12, 0x34, 0x56, 0x78],
};

// A registration, an authentication and a unit, and behind a restart an authentication and the unit again. A registration asks
// who has the plate and the terminal id, and a row that is appended for the last one.
const KEPT: [KeeperCall; 10] = [
    KeeperCall::Registered(PHONE),
    KeeperCall::PlateOwner(b"PA"),
    KeeperCall::TerminalOwner(b"TA"),
    KeeperCall::Register(PHONE, b"PA", b"TA"),
    KeeperCall::Registered(PHONE),
    KeeperCall::Last(PHONE),
    KeeperCall::Append(PHONE, 2, 7),
    KeeperCall::Registered(PHONE),
    KeeperCall::Last(PHONE),
    KeeperCall::At(PHONE, 2),
];

const KEPT_LOOKS: [KeeperCall; 5] = [
    KeeperCall::Registered(PHONE),
    KeeperCall::PlateOwner(b"PA"),
    KeeperCall::TerminalOwner(b"TA"),
    KeeperCall::From(PHONE, 0),
    KeeperCall::From(PHONE, 3),
];

// What a terminal begins with, fixes, the code, a unit of three fixes and one of one fix, each with its acceptance.
const HELD: [VaultCall; 10] = [
    VaultCall::Load,
    VaultCall::Code(Some(b'C')),
    VaultCall::Note(1),
    VaultCall::Note(2),
    VaultCall::Note(3),
    VaultCall::Note(4),
    VaultCall::Form(3),
    VaultCall::Accept,
    VaultCall::Form(1),
    VaultCall::Accept,
];

const HELD_LOOKS: [VaultCall; 3] = [VaultCall::Load, VaultCall::Oldest, VaultCall::Next];

// Makes the calls up to the first that is refused, and counts those before it.
fn keep<K: Keeper>(alloc: Global, keeper: &mut K) -> usize {
    for (done, call) in KEPT.iter().enumerate() {
        if let keeper_calls::Said::Refused(_) = keeper_calls::answer(alloc, keeper, *call) {
            return done;
        }
    }
    KEPT.len()
}

fn hold<V: Vault>(alloc: Global, vault: &mut V) -> usize {
    for (done, call) in HELD.iter().enumerate() {
        if let vault_calls::Said::Refused(_) = vault_calls::answer(alloc, vault, *call) {
            return done;
        }
    }
    HELD.len()
}

// A keeper in memory after so many of the calls.
fn kept(alloc: Global, count: usize) -> MemKeeper {
    let mut keeper = MemKeeper::new(alloc, 1_000_000_000, Seq::new(alloc));
    for call in KEPT.iter().take(count) {
        keeper_calls::answer(alloc, &mut keeper, *call);
    }
    keeper
}

fn held(alloc: Global, count: usize) -> MemVault {
    let mut vault = MemVault::new(alloc, 100_000, Seq::new(alloc));
    for call in HELD.iter().take(count) {
        vault_calls::answer(alloc, &mut vault, *call);
    }
    vault
}

// Whether the keeper has what so many of the calls leave.
fn keeps<K: Keeper>(alloc: Global, keeper: &mut K, count: usize) -> bool {
    let mut wanted = kept(alloc, count);
    let is_same = keep_the_same(alloc, keeper, &mut wanted);
    drop(wanted);
    is_same
}

// Whether two keepers answer the same.
fn keep_the_same<K: Keeper, L: Keeper>(alloc: Global, keeper: &mut K, wanted: &mut L) -> bool {
    for call in KEPT_LOOKS {
        if keeper_calls::answer(alloc, keeper, call) != keeper_calls::answer(alloc, wanted, call) {
            return false;
        }
    }
    true
}

fn holds<V: Vault>(alloc: Global, vault: &mut V, count: usize) -> bool {
    let mut wanted = held(alloc, count);
    let is_same = hold_the_same(alloc, vault, &mut wanted);
    drop(wanted);
    is_same
}

// Whether two vaults answer the same.
fn hold_the_same<V: Vault, W: Vault>(alloc: Global, vault: &mut V, wanted: &mut W) -> bool {
    for call in HELD_LOOKS {
        if vault_calls::answer(alloc, vault, call) != vault_calls::answer(alloc, wanted, call) {
            return false;
        }
    }
    true
}

/// A keeper's calls over new files.
struct Keeping;

impl Story for Keeping {
    fn calls() -> usize {
        KEPT.len()
    }

    fn files<D: Stopping>(alloc: Global) -> Files<D> {
        new_files(alloc, u64::MAX, u64::MAX)
    }

    fn play<S: Alter + Drop>(alloc: Global, connection: Connection<S>) -> (usize, Connection<S>) {
        let mut keeper = SqlKeeper::over(connection);
        let done = keep(alloc, &mut keeper);
        (done, keeper.into_connection())
    }

    fn leaves<S: Alter + Drop>(alloc: Global, connection: Connection<S>, done: usize) -> bool {
        let mut keeper = SqlKeeper::over(connection);
        keeps(alloc, &mut keeper, done) || keeps(alloc, &mut keeper, done.saturating_add(1))
    }
}

/// A vault's calls over new files.
struct Holding;

impl Story for Holding {
    fn calls() -> usize {
        HELD.len()
    }

    fn files<D: Stopping>(alloc: Global) -> Files<D> {
        new_files(alloc, u64::MAX, u64::MAX)
    }

    fn play<S: Alter + Drop>(alloc: Global, connection: Connection<S>) -> (usize, Connection<S>) {
        let mut vault = SqlVault::over(connection);
        let done = hold(alloc, &mut vault);
        (done, vault.into_connection())
    }

    fn leaves<S: Alter + Drop>(alloc: Global, connection: Connection<S>, done: usize) -> bool {
        let mut vault = SqlVault::over(connection);
        holds(alloc, &mut vault, done) || holds(alloc, &mut vault, done.saturating_add(1))
    }
}

/// What stops of a story leave, on files in memory.
fn stops_of<T: Story>(rt: &HostRuntime, in_log: bool, from: u64, to: u64) -> Stops {
    play_stopped::<T, Fuse<Memory>>(rt.alloc(), in_log, from, to)
}

#[test]
fn a_keeper_stopped_early_in_its_log_has_whole_calls(rt: HostRuntime) -> Result<(), Fail> {
    assert!(rt; stops_of::<Keeping>(&rt, true, 0, 20) == Stops::Whole);
    Ok(())
}

#[test]
fn a_keeper_stopped_late_in_its_log_has_whole_calls(rt: HostRuntime) -> Result<(), Fail> {
    assert!(rt; stops_of::<Keeping>(&rt, true, 20, 400) == Stops::Ended);
    Ok(())
}

#[test]
fn a_keeper_stopped_in_its_database_has_whole_calls(rt: HostRuntime) -> Result<(), Fail> {
    assert!(rt; stops_of::<Keeping>(&rt, false, 0, 400) == Stops::Ended);
    Ok(())
}

#[test]
fn a_vault_stopped_early_in_its_log_has_whole_calls(rt: HostRuntime) -> Result<(), Fail> {
    assert!(rt; stops_of::<Holding>(&rt, true, 0, 20) == Stops::Whole);
    Ok(())
}

#[test]
fn a_vault_stopped_late_in_its_log_has_whole_calls(rt: HostRuntime) -> Result<(), Fail> {
    assert!(rt; stops_of::<Holding>(&rt, true, 20, 400) == Stops::Ended);
    Ok(())
}

#[test]
fn a_vault_stopped_in_its_database_has_whole_calls(rt: HostRuntime) -> Result<(), Fail> {
    assert!(rt; stops_of::<Holding>(&rt, false, 0, 400) == Stops::Ended);
    Ok(())
}
