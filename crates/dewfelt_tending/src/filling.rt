//! What the board shows of a store.

use dewfelt_board::{Board, Vehicle};
use dewfelt_keeper::Registry;
use jt_store::{Keeper, Registered, Registrations, StoreError};
use jt_value::{Edition, Phone};
use std::alloc::Global;
use std::sync::{Mutex, Wait};

// So many phones are looked at while the registry is held (this project's own).
const PAGE: usize = 64;

// The phone of a vehicle. (registrations are kept by digits alone)
fn phone_of(vehicle: &Vehicle) -> Phone {
    let digits = vehicle.digits;
    Phone {
        edition: Edition::E2019,
        digits,
    }
}

// Shows the row of a phone, where it has a greater number than the one that is shown.
fn show_row<R: Wait, K: Keeper>(
    rt: &R,
    alloc: Global,
    keeper: &mut K,
    board: &Mutex<Board>,
    phone: &Phone,
) -> Result<(), StoreError> {
    let Some(number) = keeper.last(alloc, phone)? else {
        return Ok(());
    };
    if let Some(shown) = board.lock(rt).last_of(phone) {
        if shown >= number {
            return Ok(());
        }
    }
    if let Some(row) = keeper.row_at(alloc, phone, number)? {
        board
            .lock(rt)
            .row(phone, number, row.id, row.body.as_slice());
    }
    Ok(())
}

// Shows a phone that is registered so, and its last row.
fn show<R: Wait, K: Registrations>(
    rt: &R,
    alloc: Global,
    registry: &mut Registry<K>,
    board: &Mutex<Board>,
    phone: &Phone,
    registered: &Registered,
) -> Result<(), StoreError> {
    let stays = registry.fleet().bound(phone).is_some();
    let plate = registered.plate.as_slice();
    let terminal = registered.terminal.as_slice();
    board.lock(rt).seat(phone, plate, terminal);
    board.lock(rt).bind(phone, stays);
    show_row(rt, alloc, registry.keeper(), board, phone)
}

// Shows some of the phones that are registered, those behind a phone. Gives the last one; None where none is behind it.
fn show_page<R: Wait, K: Registrations + Drop>(
    rt: &R,
    alloc: Global,
    registry: &Mutex<Registry<K>>,
    board: &Mutex<Board>,
    after: Option<Phone>,
) -> Result<Option<Phone>, StoreError> {
    let mut guard = registry.lock(rt);
    let page = guard.page(alloc, after.as_ref(), PAGE)?;
    let mut last = None;
    for (phone, registered) in page.as_slice() {
        show(rt, alloc, &mut *guard, board, phone, registered)?;
        last = Some(*phone);
    }
    Ok(last)
}

// Takes the phones that are registered no more off the board, of these.
fn leave_out<R: Wait, K: Registrations + Drop>(
    rt: &R,
    alloc: Global,
    registry: &Mutex<Registry<K>>,
    board: &Mutex<Board>,
    vehicles: &[Vehicle],
) -> Result<(), StoreError> {
    let mut guard = registry.lock(rt);
    for vehicle in vehicles {
        let phone = phone_of(vehicle);
        if guard.registered(alloc, &phone)?.is_none() {
            board.lock(rt).unseat(&phone);
        }
    }
    Ok(())
}

// Takes the phones that are registered no more off the board.
fn leave_out_all<R: Wait, K: Registrations + Drop>(
    rt: &R,
    alloc: Global,
    registry: &Mutex<Registry<K>>,
    board: &Mutex<Board>,
) -> Result<(), StoreError> {
    let mut after = None;
    for _ in 0..u64::MAX {
        let vehicles = board.lock(rt).vehicles_behind(alloc, after, PAGE)?;
        let Some(last) = vehicles.last() else {
            break;
        };
        let digits = last.digits;
        after = Some(digits);
        leave_out(rt, alloc, registry, board, vehicles.as_slice())?;
    }
    Ok(())
}

/// Has the board show the phones that are registered, each with its last row and whether the fleet binds it, and no others. The
/// registry is held for 64 phones at a time, and the board within it for one.
pub(crate) fn fill<R: Wait, K: Registrations + Drop>(
    rt: &R,
    alloc: Global,
    registry: &Mutex<Registry<K>>,
    board: &Mutex<Board>,
) -> Result<(), StoreError> {
    leave_out_all(rt, alloc, registry, board)?;
    let mut after = None;
    for _ in 0..u64::MAX {
        after = show_page(rt, alloc, registry, board, after)?;
        if after.is_none() {
            break;
        }
    }
    Ok(())
}
