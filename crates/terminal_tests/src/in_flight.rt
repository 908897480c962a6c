//! Units in flight, sixteen at most, and those that stand behind them.

ghost use Rattle.std.specs.Prelude.{◌≡◌, IfSome};

use crate::starting::settings;
use crate::talking::{Row, first_wrong, wrong_row};
use jt_position::{Fix, law_fixes};
use jt_store::{MemVault, StoreError, Unit, Vault};
use jt_terminal::Terminal;
use jt_value::ids::POSITION;
use jt_value::{Edition, Octets, Seq, gap};
use std::alloc::Global;

// The greatest gap of a unit that is formed.
const NEAR: u16 = 32_766;

// Forms a unit of the oldest fix that waits. False where none waits.
fn form_next(alloc: Global, vault: &mut MemVault) -> Result<bool, StoreError> {
    let loaded = vault.load(alloc)?;
    if gap(loaded.mark, loaded.next) > NEAR {
        return Ok(false);
    }
    let Some(fix) = loaded.fixes.get(0) else {
        return Ok(false);
    };
    let unit = Unit {
        serial: loaded.next,
        id: POSITION,
        body: Octets::from_vec(Vec::from_slice(alloc, fix.as_slice())?),
        count: 1,
    };
    law_fixes();
    vault.form(alloc, &unit)?;
    Ok(true)
}

// Records the fix at this latitude, and forms a unit of it. Whether it did.
fn form_one(alloc: Global, vault: &mut MemVault, lat: u32) -> Result<bool, StoreError> {
    let fix = Fix::at(alloc, lat)?;
    vault.note_fix(alloc, &fix)?;
    form_next(alloc, vault)
}

// A vault with so many units that are not accepted, of a fix at each latitude from 1 on.
fn pending(alloc: Global, count: u32) -> Option<MemVault> {
    let mut vault = MemVault::new(alloc, 100, Seq::new(alloc));
    for before in 0..count {
        match form_one(alloc, &mut vault, before % 1_000 + 1) {
            Ok(true) => {}
            Ok(false) | Err(_) => return None,
        }
    }
    Some(vault)
}

// A terminal over that vault.
fn opened(alloc: Global, count: u32) -> Option<Terminal<MemVault>>
    ensures { IfSome result (λ terminal. terminal.state.time ≡ 0) }
{
    let settings = settings(alloc, Edition::E2013)?;
    match Terminal::start(alloc, pending(alloc, count)?, settings) {
        Ok(terminal) => Some(terminal),
        Err(_) => None,
    }
}

// The first wrong row of a terminal over that vault, or their number, and how many fixes are recorded and accepted then.
fn followed(alloc: Global, count: u32, rows: &[Row]) -> Option<(usize, (u64, u64))> {
    let mut terminal = opened(alloc, count)?;
    let mut time = 0;
    let place = wrong_row(alloc, &mut terminal, &mut time, Edition::E2013, rows);
    Some((place, terminal.counts()))
}

#[test]
fn twenty_units_that_were_pending_are_sent_in_order(rt: HostRuntime) {
    let rows: &[Row] = &[
        (b'O', 0, 0x0000, 0, b"", "pending_registration"),
        (b'R', 20, 0x0000, 0, b"AB", "pending_authentication"),
        (b'A', 21, 0x0102, 0, b"", "pending_first_sixteen"),
        (b'A', 0, 0x0200, 0, b"", "pending_next_0"),
        (b'A', 1, 0x0200, 0, b"", "pending_next_1"),
        (b'A', 2, 0x0200, 0, b"", "pending_next_2"),
        (b'A', 3, 0x0200, 0, b"", "pending_next_3"),
        (b'A', 4, 0x0200, 0, b"", "told"),
        (b'A', 5, 0x0200, 0, b"", "told"),
        (b'A', 6, 0x0200, 0, b"", "told"),
        (b'A', 7, 0x0200, 0, b"", "told"),
        (b'A', 8, 0x0200, 0, b"", "told"),
        (b'A', 9, 0x0200, 0, b"", "told"),
        (b'A', 10, 0x0200, 0, b"", "told"),
        (b'A', 11, 0x0200, 0, b"", "told"),
        (b'A', 12, 0x0200, 0, b"", "told"),
        (b'A', 13, 0x0200, 0, b"", "told"),
        (b'A', 14, 0x0200, 0, b"", "told"),
        (b'A', 15, 0x0200, 0, b"", "told"),
        (b'A', 16, 0x0200, 0, b"", "told"),
        (b'A', 17, 0x0200, 0, b"", "told"),
        (b'A', 18, 0x0200, 0, b"", "told"),
        (b'A', 19, 0x0200, 0, b"", "told"),
    ];
    assert!(rt; followed(rt.alloc(), 20, rows) == Some((23, (20, 20))));
}

#[test]
fn sixteen_units_in_flight_are_accepted_in_order(rt: HostRuntime) {
    let rows: &[Row] = &[
        (b'O', 0, 0x0000, 0, b"", "registration_0"),
        (b'R', 0, 0x0000, 0, b"AB", "authentication_1"),
        (b'A', 1, 0x0102, 0, b"", "-"),
        (b'F', 1, 0x0000, 0, b"", "-"),
        (b'T', 0, 0x0000, 0, b"", "unit_2"),
        (b'F', 2, 0x0000, 0, b"", "-"),
        (b'T', 0, 0x0000, 0, b"", "unit_3"),
        (b'F', 3, 0x0000, 0, b"", "-"),
        (b'T', 0, 0x0000, 0, b"", "unit_4"),
        (b'F', 4, 0x0000, 0, b"", "-"),
        (b'T', 0, 0x0000, 0, b"", "unit_5"),
        (b'F', 5, 0x0000, 0, b"", "-"),
        (b'T', 0, 0x0000, 0, b"", "unit_6"),
        (b'F', 6, 0x0000, 0, b"", "-"),
        (b'T', 0, 0x0000, 0, b"", "unit_7"),
        (b'F', 7, 0x0000, 0, b"", "-"),
        (b'T', 0, 0x0000, 0, b"", "unit_8"),
        (b'F', 8, 0x0000, 0, b"", "-"),
        (b'T', 0, 0x0000, 0, b"", "unit_9"),
        (b'F', 9, 0x0000, 0, b"", "-"),
        (b'T', 0, 0x0000, 0, b"", "unit_10"),
        (b'F', 10, 0x0000, 0, b"", "-"),
        (b'T', 0, 0x0000, 0, b"", "unit_11"),
        (b'F', 11, 0x0000, 0, b"", "-"),
        (b'T', 0, 0x0000, 0, b"", "unit_12"),
        (b'F', 12, 0x0000, 0, b"", "-"),
        (b'T', 0, 0x0000, 0, b"", "unit_13"),
        (b'F', 13, 0x0000, 0, b"", "-"),
        (b'T', 0, 0x0000, 0, b"", "unit_14"),
        (b'F', 14, 0x0000, 0, b"", "-"),
        (b'T', 0, 0x0000, 0, b"", "unit_15"),
        (b'F', 15, 0x0000, 0, b"", "-"),
        (b'T', 0, 0x0000, 0, b"", "unit_16"),
        (b'F', 16, 0x0000, 0, b"", "-"),
        (b'T', 0, 0x0000, 0, b"", "unit_17"),
        (b'A', 2, 0x0200, 0, b"", "told"),
        (b'A', 3, 0x0200, 0, b"", "told"),
        (b'A', 4, 0x0200, 0, b"", "told"),
        (b'A', 5, 0x0200, 0, b"", "told"),
        (b'A', 6, 0x0200, 0, b"", "told"),
        (b'A', 7, 0x0200, 0, b"", "told"),
        (b'A', 8, 0x0200, 0, b"", "told"),
        (b'A', 9, 0x0200, 0, b"", "told"),
        (b'A', 10, 0x0200, 0, b"", "told"),
        (b'A', 11, 0x0200, 0, b"", "told"),
        (b'A', 12, 0x0200, 0, b"", "told"),
        (b'A', 13, 0x0200, 0, b"", "told"),
        (b'A', 14, 0x0200, 0, b"", "told"),
        (b'A', 15, 0x0200, 0, b"", "told"),
        (b'A', 16, 0x0200, 0, b"", "told"),
        (b'A', 17, 0x0200, 0, b"", "told"),
        (b'F', 17, 0x0000, 0, b"", "-"),
        (b'T', 0, 0x0000, 0, b"", "unit_18"),
    ];
    let failing: [u64; 0] = [];
    assert!(rt; first_wrong(rt.alloc(), Edition::E2013, &failing, rows) == 53);
}
