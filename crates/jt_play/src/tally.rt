//! How many rows the entries of hubs added, and how many fixes stand in them.

ghost use Rattle.std.specs.Prelude.{◌≡◌, [], ◌∷◌, length, ℕ};
ghost use Rattle.std.specs.List.{flat_map};
ghost use Rattle.jt_position.specs.Fixes.{fixes_of};
ghost use Rattle.jt_value.specs.Sameness.{key_of};
ghost use Rattle.jt_value.specs.declared.ids.TheConstants.{BATCH, POSITION};
ghost use Rattle.jt_play.specs.Holding.{row_by, rows_in, tally_of, tally_sum};

use crate::rows::row_by;
use jt_platform::Entry;
use jt_position::{law_fixes, view_batch, view_position};
use jt_value::ids::{BATCH, POSITION};
use jt_value::{Phone, Seq};

/// Rows, and the fixes in them. Each count stays at 2^64 - 1.
#[derive(Clone, Copy)]
pub(crate) struct Tally {
    pub(crate) rows: u64,
    pub(crate) fixes: u64,
}

const NO_ROW: Tally = Tally { rows: 0, fixes: 0 };

// How many fixes the body of a position has: none where it is refused.
fn position_count(body: &[u8]) -> u16
    ensures { result ≡ length (fixes_of (POSITION, body.now)) }
{
    law_fixes();
    match view_position(body) {
        Ok(_) => 1,
        Err(_) => 0,
    }
}

// How many fixes the body of a batch has: none where it is refused.
fn batch_count(body: &[u8]) -> u16
    ensures { result ≡ length (fixes_of (BATCH, body.now)) }
{
    law_fixes();
    match view_batch(body) {
        Ok(view) => view.fixes.left(),
        Err(_) => 0,
    }
}

/// How many fixes a message has: none where its id is of no message of positions.
pub(crate) fn fix_count(id: u16, body: &[u8]) -> u16
    ensures { result ≡ length (fixes_of (id, body.now)) }
{
    law_fixes();
    match id {
        POSITION => position_count(body),
        BATCH => batch_count(body),
        _ => 0,
    }
}

// One row of this unit, whatever its number.
#[tactic(auto, using(crate::proofs::Tallies::tally_one))]
fn of_unit(id: u16, body: &[u8]) -> Tally
    ensures { (number : ℕ) → result
        ≡ tally_of (record { number = number; id = id; body = body.now } ∷ []) }
{
    let fixes = fix_count(id, body);
    Tally {
        rows: 1,
        fixes: u64::from(fixes),
    }
}

// The row that an entry added for a phone, if it added one.
fn of_entry(entry: &Entry, phone: &Phone) -> Tally
    ensures { result ≡ tally_of (row_by (key_of phone.now) entry.now) }
{
    match row_by(entry, phone) {
        Some((_, id, body)) => of_unit(id, body.as_slice()),
        None => NO_ROW,
    }
}

impl Tally {
    /// Both together.
    pub(crate) fn plus(self, more: Tally) -> Tally
        ensures { result ≡ tally_sum self more }
    {
        Tally {
            rows: self.rows.saturating_add(more.rows),
            fixes: self.fixes.saturating_add(more.fixes),
        }
    }
}

/// The rows that the entries of a hub added for a phone.
#[tactic(auto, using(crate::proofs::Tallies::tally_push))]
pub(crate) fn tally_entries(entries: &[Entry], phone: &Phone) -> Tally
    ensures { result ≡ tally_of (rows_in (key_of phone.now) entries.now) }
{
    let mut tally = NO_ROW;
    for entry in entries {
        tally = tally.plus(of_entry(entry, phone));
    }
    tally
}

/// The rows that the entries of some hubs added for a phone.
#[tactic(auto, using(crate::proofs::Tallies::tally_history))]
pub(crate) fn tally_all(histories: &[Seq<Entry>], phone: &Phone) -> Tally
    ensures { result ≡ tally_of
        (rows_in (key_of phone.now) (flat_map (λ history. history) histories.now)) }
{
    let mut tally = NO_ROW;
    for history in histories {
        tally = tally.plus(tally_entries(history.as_slice(), phone));
    }
    tally
}
