//! Where a unit goes: the serial rule over a keeper.

ghost use Rattle.std.specs.Prelude.{◌≡◌, ◌↔◌, IsTrue};
ghost use Rattle.jt_value.specs.Sameness.{key_of};
ghost use Rattle.jt_store.specs.Tables.{WhereKnown, MayAppend, Reads, HasCause, IsSteady, last_of};
ghost use Rattle.jt_platform.specs.Calls.{reply_to, StoreDone, UnitDone, IsThere};
ghost use Rattle.jt_platform.specs.Hub.{HasReason};

use crate::request::Reply;
use jt_store::{Keeper, Row, StoreError};
use jt_value::{Octets, Phone, Place, place};
use std::alloc::Global;
use std::mem::replace;

pub(crate) fn trouble(error: StoreError) -> Reply
    ensures { result ≡ reply_to error }
{
    match error {
        StoreError::Failed => Reply::StoreFault,
        StoreError::Full(limit) => Reply::ListFull(limit),
        StoreError::Memory => Reply::Memory,
    }
}

fn is_same_row(row: &Row, id: u16, body: &[u8]) -> bool
    ensures { IsTrue result ↔ ((row.now.id ≡ id) × (row.now.body ≡ body.now)) }
{
    row.id == id && row.body.as_slice() == body
}

fn append<P: Keeper>(alloc: Global, keeper: &mut P, phone: &Phone, row: &Row, anew: bool) -> Reply
    requires may { WhereKnown (P.tables keeper.old) (λ t.
        MayAppend (last_of (t.rows (key_of phone.now))) row.now.number) }
    ensures done { StoreDone (P.tables keeper.old) (P.tables keeper.new) (P.limit keeper.old)
        (key_of phone.now) row.now anew result }
    ensures limit { P.limit keeper.new ≡ P.limit keeper.old }
    ensures reason { HasReason (P.faults keeper.old) (P.faults keeper.new)
        (P.may_fail keeper.old) (P.may_fail keeper.new) result }
{
    match keeper.append(alloc, phone, row) {
        Ok(()) => if anew {
            Reply::Renumbered(row.number)
        } else {
            Reply::Stored(row.number)
        },
        Err(error) => trouble(error),
    }
}

// Appends the row of a new number. The row has the body for as long as the call takes, which saves a copy.
fn store<P: Keeper>(
    alloc: Global,
    keeper: &mut P,
    phone: &Phone,
    number: u64,
    id: u16,
    body: &mut Octets,
    anew: bool,
) -> Reply
    requires may { WhereKnown (P.tables keeper.old) (λ t.
        MayAppend (last_of (t.rows (key_of phone.now))) number) }
    ensures done { StoreDone (P.tables keeper.old) (P.tables keeper.new) (P.limit keeper.old)
        (key_of phone.now) (record { number = number; id = id; body = body.old }) anew result }
    ensures body { body.new ≡ body.old }
    ensures limit { P.limit keeper.new ≡ P.limit keeper.old }
    ensures reason { HasReason (P.faults keeper.old) (P.faults keeper.new)
        (P.may_fail keeper.old) (P.may_fail keeper.new) result }
{
    let row = Row {
        number,
        id,
        body: replace(body, Octets::new(alloc)),
    };
    let reply = append(alloc, keeper, phone, &row, anew);
    let Row {
        number: _,
        id: _,
        body: lent,
    } = row;
    *body = lent;
    reply
}

// The candidate, where a row stands there with this id and body.
fn repeated<P: Keeper>(
    alloc: Global,
    keeper: &mut P,
    phone: &Phone,
    at: Option<u64>,
    id: u16,
    body: &[u8],
) -> Result<Option<u64>, StoreError>
    ensures answer { Reads (P.tables keeper.old) (P.tables keeper.new)
        (λ t there. IsThere (t.rows (key_of phone.now)) at id body.now there) result }
    ensures limit { P.limit keeper.new ≡ P.limit keeper.old }
    ensures cause { HasCause (P.faults keeper.old) (P.faults keeper.new) result }
    ensures steady { IsSteady (P.may_fail keeper.old) (P.may_fail keeper.new) result }
{
    match at {
        None => Ok(None),
        Some(number) => match keeper.row_at(alloc, phone, number) {
            Ok(None) => Ok(None),
            Ok(Some(row)) => {
                let same = is_same_row(&row, id, body);
                Ok(if same { Some(number) } else { None })
            }
            Err(error) => Err(error),
        },
    }
}

// The answer to a unit of the holder's live session.
pub(crate) fn unit<P: Keeper>(
    alloc: Global,
    keeper: &mut P,
    phone: &Phone,
    serial: u16,
    id: u16,
    body: &mut Octets,
) -> Reply
    ensures done { UnitDone (P.tables keeper.old) (P.tables keeper.new) (P.limit keeper.old)
        (key_of phone.now) serial id body.old result }
    ensures body { body.new ≡ body.old }
    ensures limit { P.limit keeper.new ≡ P.limit keeper.old }
    ensures reason { HasReason (P.faults keeper.old) (P.faults keeper.new)
        (P.may_fail keeper.old) (P.may_fail keeper.new) result }
{
    let last = match keeper.last(alloc, phone) {
        Ok(last) => last,
        Err(error) => return trouble(error),
    };
    match place(last, serial) {
        Place::First(number) | Place::New(number) => {
            store(alloc, keeper, phone, number, id, body, false)
        }
        Place::Back { candidate, anew } => {
            match repeated(alloc, keeper, phone, candidate, id, body.as_slice()) {
                Err(error) => trouble(error),
                Ok(Some(number)) => Reply::Repeat(number),
                Ok(None) => store(alloc, keeper, phone, anew, id, body, true),
            }
        }
    }
}
