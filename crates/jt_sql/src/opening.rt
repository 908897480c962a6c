//! Transactions over a connection.

ghost use Rattle.std.specs.Prelude.{◌≡◌, Ok, IfOk};

use crate::refused::Refused;
use sqlite::{Alter, Connection, Transaction};

/// Begins a transaction, which changes nothing unless it is committed. A connection that was handed in with a transaction
/// of its own is refused.
pub(crate) fn begun<S: Alter>(
    connection: &mut Connection<S>,
) -> Result<Transaction<'_, S>, Refused> {
    if !connection.is_autocommit() {
        return Err(Refused::Failed);
    }
    Ok(connection.transaction())
}

/// Commits a transaction whose calls were answered, and undoes another one.
pub(crate) fn settled<S: Alter, T: Drop>(
    work: Transaction<'_, S>,
    answer: Result<T, Refused>,
) -> Result<T, Refused>
    ensures { IfOk result (λ found. answer ≡ Ok found) }
{
    let found = answer?;
    work.commit()?;
    Ok(found)
}
