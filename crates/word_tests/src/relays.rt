//! Runs of `relay`. The texts follow from the rows that were put.

ghost use Rattle.std.specs.Prelude.{◌≤◌};
ghost use Rattle.jt_value.specs.declared.limits.TheConstants.{FIX_LIMIT};

use crate::rows::{PHONE, Put, put_row, put_rows};
use crate::scene::{InMemory, in_memory, one, ran, words_of};
use jt_cli::Status;
use jt_position::Fix;
use jt_store::{MemKeeper, MemVault, Vault};
use std::alloc::Global;
use std::process::Abort;

// Row 2 of one fix, and row 3 of two.
const THREE_FIXES: &[Put] = &[
    Put {
        number: 2,
        id: 0x0200,
        positions: &[0],
    },
    Put {
        number: 3,
        id: 0x0704,
        positions: &[1, 0],
    },
];

// A row of another message, a batch of none, a row of one fix, and one whose second fix has 28 + 4 * 256 octets.
const A_LONG_FIX: &[Put] = &[
    Put {
        number: 2,
        id: 0x0100,
        positions: &[],
    },
    Put {
        number: 3,
        id: 0x0704,
        positions: &[],
    },
    Put {
        number: 4,
        id: 0x0200,
        positions: &[0],
    },
    Put {
        number: 5,
        id: 0x0704,
        positions: &[0, 4],
    },
];

// A keeper of these rows, whose call of this number fails.
fn keeper(rt: &impl Abort, alloc: Global, rows: &[Put], failing: u64) -> MemKeeper {
    let failing = one(rt, alloc, failing);
    let mut keeper = MemKeeper::new(alloc, 9, failing);
    put_rows(alloc, &mut keeper, rows).expect(rt, "rows");
    keeper
}

// Such a keeper, and an empty vault with this limit. The calls of these numbers fail, and none where a number is 0.
fn stores(rt: &impl Abort, alloc: Global, rows: &[Put], limit: u64, failing: (u64, u64)) -> InMemory
    requires { limit ≤ FIX_LIMIT }
{
    let (of_keeper, of_vault) = failing;
    let keeper = keeper(rt, alloc, rows, of_keeper);
    let failing = one(rt, alloc, of_vault);
    let vault = MemVault::new(alloc, limit, failing);
    in_memory(rt, alloc, b"", (0, 0), keeper, vault)
}

// A relay, which ends so.
fn relayed(rt: &impl Abort, alloc: Global, outside: InMemory, status: Status) -> InMemory {
    let words = words_of(rt, alloc, &["relay", "--phone", "013912345678"]);
    let (ended, outside) = ran(alloc, &words, outside);
    drop(words);
    assert!(rt; ended == status);
    outside
}

/// How many fixes the vault has recorded.
pub(crate) fn recorded(rt: &impl Abort, alloc: Global, vault: &mut MemVault) -> u64 {
    let loaded = vault.load(alloc).expect(rt, "what is loaded");
    let recorded = loaded.recorded;
    drop(loaded);
    recorded
}

// All that was written is this text, and so many fixes are recorded.
fn expect_told(rt: &impl Abort, alloc: Global, outside: InMemory, text: &str, fixes: u64) {
    let mut outside = outside;
    assert!(rt; outside.sink.octets() == text.as_bytes());
    assert!(rt; recorded(rt, alloc, &mut outside.vault) == fixes);
    drop(outside);
}

#[test]
fn all_fixes_and_then_none(rt: HostRuntime) {
    let alloc = rt.alloc();
    let first = stores(&rt, alloc, THREE_FIXES, 9, (0, 0));
    let first = relayed(&rt, alloc, first, Status::Done);
    assert!(rt; first.sink.octets() == b"relayed=3 of 3\n".as_slice());
    let second = relayed(&rt, alloc, first, Status::Done);
    let text = "relayed=3 of 3\nrelayed=0 of 3\n";
    expect_told(&rt, alloc, second, text, 3);
}

fn note(rt: &impl Abort, alloc: Global, vault: &mut MemVault) {
    let fix = Fix::at(alloc, 5).expect(rt, "a fix");
    assert!(rt; vault.note_fix(alloc, &fix) == Ok(()));
    drop(fix);
}

#[test]
fn a_vault_with_more_fixes_than_the_rows(rt: HostRuntime) {
    let alloc = rt.alloc();
    let mut outside = stores(&rt, alloc, &[], 9, (0, 0));
    note(&rt, alloc, &mut outside.vault);
    let outside = relayed(&rt, alloc, outside, Status::Refused);
    expect_told(&rt, alloc, outside, "behind 1 0\n", 1);
}

// Of these rows a relay into an empty vault of this limit writes this text, and records so many fixes.
fn expect_relay(
    rt: &impl Abort,
    alloc: Global,
    rows: &[Put],
    limit: u64,
    failing: (u64, u64),
    ends: (Status, &str, u64),
)
    requires { limit ≤ FIX_LIMIT }
{
    let (status, text, fixes) = ends;
    let outside = stores(rt, alloc, rows, limit, failing);
    let outside = relayed(rt, alloc, outside, status);
    expect_told(rt, alloc, outside, text, fixes);
}

#[test]
fn a_full_vault(rt: HostRuntime) {
    let ends = (Status::StoreFault, "vault full at 2\n", 2);
    expect_relay(&rt, rt.alloc(), THREE_FIXES, 2, (0, 0), ends);
}

// The vault is full at that fix too, and then it is told that the fix is too long.
#[test]
fn a_long_fix(rt: HostRuntime) {
    let ends = (Status::Refused, "long at 5\n", 2);
    expect_relay(&rt, rt.alloc(), A_LONG_FIX, 2, (0, 0), ends);
}

// The keeper's call that fails, or the vault's, and how many fixes are recorded then. The keeper's first four calls put the rows;
// the relay asks it for a row three times. The vault's first call loads it, and the next ones record.
const FAULTS: &[(u64, u64, u64)] = &[
    (5, 0, 0),
    (6, 0, 1),
    (7, 0, 3),
    (0, 1, 0),
    (0, 2, 0),
    (0, 3, 1),
    (0, 4, 2),
];

#[test]
fn each_call_fails_in_turn(rt: HostRuntime) {
    for &(keeper, vault, fixes) in FAULTS {
        let ends = (Status::StoreFault, "store fault\n", fixes);
        expect_relay(&rt, rt.alloc(), THREE_FIXES, 9, (keeper, vault), ends);
    }
}

// What was recorded before a fault is not recorded again.
#[test]
fn a_relay_goes_on_behind_a_fault(rt: HostRuntime) {
    let alloc = rt.alloc();
    let first = stores(&rt, alloc, THREE_FIXES, 9, (0, 3));
    let first = relayed(&rt, alloc, first, Status::StoreFault);
    assert!(rt; first.sink.octets() == b"store fault\n".as_slice());
    let second = relayed(&rt, alloc, first, Status::Done);
    expect_told(&rt, alloc, second, "store fault\nrelayed=2 of 3\n", 3);
}

// A batch that says two positions and has one.
const CUT_BATCH: &[u8] =
    b"\x00\x02\x01\x00\x1c\x00\x00\x00\x00\x00\x00\x00\x03\x00\x00\x00\x00\x00\x00\x00\x00\x00\x00\x00\x00\x00\x00\x24\x01\x01\x00\x00\x00";

// Behind the three fixes a row whose body is no batch, and behind that a row of one fix. The row that can't be read has no fix, and
// what stands behind it is passed on.
#[test]
fn a_stored_batch_that_cannot_be_read(rt: HostRuntime) {
    let alloc = rt.alloc();
    let mut outside = stores(&rt, alloc, THREE_FIXES, 9, (0, 0));
    put_two(&rt, alloc, &mut outside.keeper);
    let outside = relayed(&rt, alloc, outside, Status::Done);
    expect_told(&rt, alloc, outside, "relayed=4 of 4\n", 4);
}

fn put_two(rt: &impl Abort, alloc: Global, keeper: &mut MemKeeper) {
    let cut = CUT_BATCH.to_vec(alloc).expect(rt, "a batch");
    put_row(alloc, keeper, &PHONE, 4, 0x0704, cut).expect(rt, "a row");
    let one = CUT_BATCH[5..].to_vec(alloc).expect(rt, "a position");
    put_row(alloc, keeper, &PHONE, 5, 0x0200, one).expect(rt, "a row");
}
