//! A keeper in a SQLite file.

ghost use Rattle.std.specs.Prelude.{◌≡◌, IfOk};

use crate::adopted_keeper::AdoptedKeeper;
use crate::opens::InFile;
use jt_value::Memory;
use sqlite::{Alter, Connection};

/// Keeps registrations and rows in a SQLite file, and does not tell them. A phone may have 1,000,000,000 rows.
///
/// Each call is at most one transaction. Want of memory in it is Memory; whatever else the database refuses raises the count of
/// faults and is Failed. A file of another version and one that is no database make each call Failed, and so does what no keeper
/// would have written, where the call reads it: rows that are missing are not seen. A file of version 1, in which phones had their
/// edition before their digits, is moved to version 2 in the transaction of the first call. A file that a fault of the disk has
/// shut is opened anew by the call after the next one. Dropped, it copies its log into the file, which then has all rows alone.
pub type SqlKeeper<R> = AdoptedKeeper<InFile<R>>;

impl AdoptedKeeper<InFile<HostRuntime>> {
    /// A keeper with no fault so far, which keeps the runtime and the path. The file is opened, or made, by the first call.
    pub fn at(rt: HostRuntime, path: &str) -> Result<SqlKeeper<HostRuntime>, Memory>
        ensures { IfOk result (λ keeper. keeper ≡ 0) }
    {
        let path = String::from_str(rt.alloc(), path)?;
        Ok(AdoptedKeeper::new(InFile::new(rt, path)))
    }

    /// A keeper over an open connection, with no fault so far.
    pub fn over<S: Alter>(connection: Connection<S>) -> AdoptedKeeper<Connection<S>>
        ensures { result ≡ 0 }
    {
        AdoptedKeeper::new(connection)
    }
}

fn may_move<T: Send + Drop>(_value: T) {}

/// Compiles only because a keeper may be moved to another thread.
pub fn crosses(keeper: SqlKeeper<HostRuntime>) {
    may_move(keeper);
}
