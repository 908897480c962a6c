ghost use Rattle.std.specs.Prelude.{◌≡◌};
ghost use Rattle.jt_terminal_rule.specs.Messages.{AreSettings};

use crate::said::said_by;
use crate::scene::started;
use crate::starting::settings;
use crate::talking::{Row, beat, wrong_row};
use jt_position::Fix;
use jt_store::{MemVault, StoreError, Vault};
use jt_terminal::{Settings, Terminal};
use jt_value::{Edition, Seq};
use std::alloc::Global;
use std::process::Abort;

// Records a fix. Whether it was recorded, how many are recorded and accepted then, and whether all is done.
fn recorded(alloc: Global, terminal: &mut Terminal<MemVault>) -> (bool, (u64, u64), bool) {
    let Ok(fix) = Fix::at(alloc, 1) else {
        return (false, (9, 9), false);
    };
    let taken = terminal.note_fix(alloc, &fix).is_ok();
    (taken, terminal.counts(), terminal.done())
}

// Asks for so many heartbeats. How many were sent, and whether the last one is this.
fn beats(alloc: Global, terminal: &mut Terminal<MemVault>, count: u32, frame: &[u8]) -> (u32, bool)
    ensures { terminal.new.state.time ≡ terminal.old.state.time }
{
    let mut sent = 0;
    let mut is_last = false;
    for _ in 0..count {
        if let Ok(octets) = beat(alloc, terminal) {
            if !octets.is_empty() {
                sent += 1;
            }
            is_last = octets.as_slice() == frame;
        }
    }
    (sent, is_last)
}

fn is_counted(alloc: Global, terminal: &mut Terminal<MemVault>) -> bool {
    terminal.counts() == (0, 0)
        && terminal.done()
        && recorded(alloc, terminal) == (true, (1, 0), false)
}

fn loaded_counts(alloc: Global, vault: &mut MemVault) -> Option<(u64, u64)> {
    match vault.load(alloc) {
        Ok(loaded) => Some((loaded.recorded, loaded.accepted)),
        Err(_) => None,
    }
}

// Whether a terminal counts a fix, and the counts that its vault has then.
fn counted(alloc: Global) -> Option<(bool, Option<(u64, u64)>)> {
    let mut terminal = started(alloc, Edition::E2013, Seq::new(alloc))?;
    let is_counted = is_counted(alloc, &mut terminal);
    let mut vault = terminal.into_vault();
    Some((is_counted, loaded_counts(alloc, &mut vault)))
}

#[test]
fn counts_of_fixes(rt: HostRuntime) {
    assert!(rt; counted(rt.alloc()) == Some((true, Some((1, 0)))));
}

// Some rows, 40,000 heartbeats of which the last one is this, and more rows. The first wrong row of each, or their numbers, and
// between them what the heartbeats gave.
fn talk(
    alloc: Global,
    terminal: &mut Terminal<MemVault>,
    edition: Edition,
    begin: &[Row],
    heartbeat: &[u8],
    last: &[Row],
) -> (usize, (u32, bool), usize)
    requires { terminal.old.state.time ≡ 0 }
{
    let mut time = 0;
    let first = wrong_row(alloc, terminal, &mut time, edition, begin);
    let sent = beats(alloc, terminal, 40_000, heartbeat);
    let second = wrong_row(alloc, terminal, &mut time, edition, last);
    (first, sent, second)
}

// The same of a terminal that begins.
fn talked(
    alloc: Global,
    edition: Edition,
    begin: &[Row],
    heartbeat: &[u8],
    last: &[Row],
) -> Option<(usize, (u32, bool), usize)> {
    let mut terminal = started(alloc, edition, Seq::new(alloc))?;
    Some(talk(alloc, &mut terminal, edition, begin, heartbeat, last))
}

// Whether in this edition 40,000 heartbeats leave the last serial to a unit.
fn is_left_to_a_unit(rt: &impl Abort, alloc: Global, edition: Edition) -> bool {
    let begin: &[Row] = &[
        (b'O', 0, 0, 0, b"", "registration_0"),
        (b'R', 0, 0, 0, b"AB", "authentication_1"),
        (b'A', 1, 0x0102, 0, b"", "-"),
    ];
    let last: &[Row] = &[
        (b'F', 1, 0, 0, b"", "-"),
        (b'T', 0, 0, 0, b"", "unit_last"),
        (b'F', 2, 0, 0, b"", "-"),
        (b'T', 0, 0, 0, b"", "-"),
    ];
    let heartbeat = said_by(alloc, edition, "heartbeat_last").expect(rt, "a frame");
    talked(alloc, edition, begin, heartbeat.as_slice(), last) == Some((3, (40_000, true), 4))
}

#[test]
fn heartbeats_leave_the_last_serial_to_a_unit_in_2013(rt: HostRuntime) {
    assert!(rt; is_left_to_a_unit(&rt, rt.alloc(), Edition::E2013));
}

#[test]
fn heartbeats_leave_the_last_serial_to_a_unit_in_2019(rt: HostRuntime) {
    assert!(rt; is_left_to_a_unit(&rt, rt.alloc(), Edition::E2019));
}

fn holds_nothing(alloc: Global, vault: &mut MemVault) -> bool {
    match vault.load(alloc) {
        Ok(loaded) => loaded.recorded == 0 && loaded.mark == 65_535 && loaded.next == 0,
        Err(_) => false,
    }
}

// Why a vault did not load, and whether the one that was handed back holds nothing.
fn refused(alloc: Global, vault: MemVault, settings: Settings) -> Option<(StoreError, bool)>
    requires { AreSettings settings }
{
    match Terminal::start(alloc, vault, settings) {
        Ok(_terminal) => None,
        Err(refused) => {
            let (mut vault, error) = refused;
            Some((error, holds_nothing(alloc, &mut vault)))
        }
    }
}

#[test]
fn a_vault_that_does_not_load_is_handed_back(rt: HostRuntime) {
    let alloc = rt.alloc();
    let failing = Seq::from_vec(Vec::from_slice(alloc, &[1]).expect(&rt, "a list"));
    let settings = settings(alloc, Edition::E2013).expect(&rt, "settings");
    let vault = MemVault::new(alloc, 9, failing);
    assert!(rt; refused(alloc, vault, settings) == Some((StoreError::Failed, true)));
}
