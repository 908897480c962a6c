//! A book that is told of responses.

ghost use Rattle.std.specs.Prelude.{◌≡◌, ◌≢◌, ℕ, Some, Err, OnErr, OnOk};
ghost use Rattle.jt_store.specs.declared.error.StoreError.TheVariants.{Full};
ghost use Rattle.jt_store.specs.Tables.{HasCause, IsSteady, WhereKnown};
ghost use Rattle.jt_order.specs.Books.{IsSound, IsStateOf};
ghost use Rattle.jt_order.specs.Books as books;
ghost use Rattle.jt_order_session.specs.Sessions as sessions;
ghost use Rattle.jt_order_session.specs.Sessions.{told_of};

use crate::response::Response;
use jt_order::{BookState, OrderBook, serial_of};
use jt_store::StoreError;
use std::alloc::Global;

// Whether a response names the oldest order that is not answered, where the order of this number was sent last.
fn names_oldest(state: &BookState, sent: Option<u64>, response: Response) -> bool
    ensures { (book : books.Book) → IsStateOf book state.now →
        result ≡ sessions.names_oldest sent book response }
{
    match &state.oldest {
        Some(order) => {
            sent == Some(state.answered)
                && response.reply == serial_of(state.answered)
                && response.id == order.id()
        }
        None => false,
    }
}

/// Tells a book of a response that was accepted, on a session on which the order of this number was sent last: where it names
/// the oldest order that is not answered, which was sent last, this is answered. After an error the book is as before.
pub(crate) fn tell<B: OrderBook>(
    alloc: Global,
    book: &mut B,
    sent: Option<u64>,
    response: Response,
) -> Result<(), StoreError>
    ensures ok { OnOk result (B.holds book.new ≡ told_of sent (Some response) (B.holds book.old)) }
    ensures err { OnErr result (B.holds book.new ≡ B.holds book.old) }
    ensures cause { HasCause (B.faults book.old) (B.faults book.new) result }
    ensures steady { IsSteady (B.may_fail book.old) (B.may_fail book.new) result }
    ensures never_full { (limit : ℕ) → result ≢ Err (Full limit) }
{
    let state = book.load(alloc)?;
    if !names_oldest(&state, sent, response) {
        return Ok(());
    }
    book.answer(alloc, response.result)
}
