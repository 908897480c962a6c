//! The last fix of a row.

ghost use Rattle.std.specs.Prelude.{◌≡◌, IfSome};
ghost use Rattle.jt_layout.specs.Layout.{Fills};
ghost use Rattle.jt_position.specs.declared.position.Position.{Position as Told};
ghost use Rattle.jt_position.specs.Positions.{position};
ghost use Rattle.jt_value.specs.declared.ids.TheConstants.{POSITION};

use jt_position::{Fixed, ItemView, PositionView, Positions, view_batch, view_position};
use jt_value::ids;
use std::alloc::{AllocError, Global};

/// A fix that a row has.
#[derive(Clone, Copy)]
pub struct LastFix {
    /// The number of the row.
    pub number: u64,
    /// The fix's place in the row, from 0 on.
    pub at: u16,
    pub fixed: Fixed,
    /// The mileage in tenths of a kilometre, where the fix has one.
    pub mileage: Option<u32>,
}

/// What a row has: its last fix, and how many fixes.
#[derive(Clone, Copy)]
pub struct Found {
    pub fix: LastFix,
    pub count: u16,
}

// The mileage among a position's items: the first that there is.
fn mileage_of(view: PositionView<'_>) -> Option<u32> {
    for item in view.items {
        if let ItemView::Mileage(tenths) = item {
            return Some(tenths);
        }
    }
    None
}

fn take_fix(number: u64, at: u16, view: PositionView<'_>) -> Found
    ensures fixed { result.fix.fixed ≡ view.entry.fixed }
    ensures number { result.fix.number ≡ number }
{
    let fixed = view.fixed;
    Found {
        fix: LastFix {
            number,
            at,
            fixed,
            mileage: mileage_of(view),
        },
        count: at.saturating_add(1),
    }
}

// The last fix of a batch.
fn last_of(number: u64, fixes: Positions<'_>) -> Option<Found>
    ensures { IfSome result (λ found. found.fix.number ≡ number) }
{
    let mut last = None;
    let mut at: u16 = 0;
    for view in fixes {
        last = Some(take_fix(number, at, view));
        at = at.saturating_add(1);
    }
    last
}

/// The last fix of a row of this number, id and body. None where the body has no fix, or does not read as one of its id.
pub fn last_fix(number: u64, id: u16, body: &[u8]) -> Option<Found>
    ensures number { IfSome result (λ found. found.fix.number ≡ number) }
    // What is shown of a position is what the row says.
    ensures position { id ≡ POSITION → IfSome result (λ found. (p : Told)
        × Fills position body.now 0 p × (found.fix.fixed ≡ p.fixed)) }
{
    match id {
        ids::POSITION => Some(take_fix(number, 0, view_position(body).ok()?)),
        ids::BATCH => last_of(number, view_batch(body).ok()?.fixes),
        _ => None,
    }
}

// The fixes of a batch.
fn fixes_of(
    alloc: Global,
    number: u64,
    positions: Positions<'_>,
) -> Result<Vec<LastFix>, AllocError> {
    let mut fixes = Vec::new(alloc);
    let mut at: u16 = 0;
    for view in positions {
        fixes.push(take_fix(number, at, view).fix)?;
        at = at.saturating_add(1);
    }
    Ok(fixes)
}

// The fix of a position.
fn fix_of(alloc: Global, number: u64, view: PositionView<'_>) -> Result<Vec<LastFix>, AllocError> {
    let mut fixes = Vec::new(alloc);
    fixes.push(take_fix(number, 0, view).fix)?;
    Ok(fixes)
}

/// The fixes of a row of this number, id and body, in order: none where the body does not read as one of its id.
pub fn row_fixes(
    alloc: Global,
    number: u64,
    id: u16,
    body: &[u8],
) -> Result<Vec<LastFix>, AllocError> {
    match id {
        ids::POSITION => match view_position(body) {
            Ok(view) => fix_of(alloc, number, view),
            Err(_) => Ok(Vec::new(alloc)),
        },
        ids::BATCH => match view_batch(body) {
            Ok(batch) => fixes_of(alloc, number, batch.fixes),
            Err(_) => Ok(Vec::new(alloc)),
        },
        _ => Ok(Vec::new(alloc)),
    }
}
