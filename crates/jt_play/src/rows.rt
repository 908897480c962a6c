//! The row that an entry of a hub added.

ghost use Rattle.std.specs.Prelude.{◌≡◌, [], ◌∷◌, true, is_none, IfSome};
ghost use Rattle.jt_value.specs.Sameness.{key_of};
ghost use Rattle.jt_play.specs.Holding.{row_by, row_number};

use jt_platform::{Entry, Reply, Request};
use jt_value::{Octets, Phone};

// The number of the row that a reply says was added.
fn row_number(reply: &Reply) -> Option<u64>
    ensures { result ≡ row_number reply.now }
{
    match reply {
        Reply::Stored(number) | Reply::Renumbered(number) => Some(*number),
        Reply::Registered(_)
        | Reply::Denied(_)
        | Reply::Accepted
        | Reply::Repeat(_)
        | Reply::NotLive
        | Reply::Fenced(_)
        | Reply::ListFull(_)
        | Reply::StoreFault
        | Reply::Memory => None,
    }
}

/// The number, the id and the body of the row that an entry added for a phone, if it added one.
#[tactic(auto, using(crate::proofs::KeeperRows::row_of_unit, crate::proofs::KeeperRows::no_row_of_unit, crate::proofs::KeeperRows::no_row))]
pub(crate) fn row_by<'e>(entry: &'e Entry, phone: &Phone) -> Option<(u64, u16, &'e Octets)>
    ensures some { IfSome result (λ row. row_by (key_of phone.now) entry.now
        ≡ record { number = row.0; id = row.1; body = row.2.now } ∷ []) }
    ensures none { is_none result ≡ true → row_by (key_of phone.now) entry.now ≡ [] }
{
    let number = row_number(&entry.reply)?;
    match &entry.request {
        Request::Unit {
            phone: owner,
            serial: _,
            id,
            body,
        } => {
            if owner.same(phone) {
                Some((number, *id, body))
            } else {
                None
            }
        }
        Request::Register { .. }
        | Request::Auth { .. }
        | Request::Deregister { .. }
        | Request::Other { .. }
        | Request::Close => None,
    }
}
