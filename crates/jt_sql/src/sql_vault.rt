//! A vault in a SQLite file.

ghost use Rattle.std.specs.Prelude.{◌≡◌, IfOk};

use crate::adopted_vault::AdoptedVault;
use crate::opens::InFile;
use jt_value::Memory;
use sqlite::{Alter, Connection};

/// Keeps fixes and units in a SQLite file, and does not tell them. At most 100,000 fixes may be recorded and not accepted.
///
/// Each call is at most one transaction. Want of memory in it is Memory; whatever else the database refuses raises the count of
/// faults and is Failed. A file of another version and one that is no database make each call Failed, and so does what no vault
/// would have written, where the call reads it. `load` reads what is not accepted, that fixes and units stand at the places
/// 0, 1, 2 and so on, with none missing before the last, and that as many fixes are accepted as the accepted units carry. A file
/// that a fault of the disk has shut is opened anew by the call after the next one. Dropped, it copies its log into the file, which
/// then has all alone.
pub type SqlVault<R> = AdoptedVault<InFile<R>>;

impl AdoptedVault<InFile<HostRuntime>> {
    /// A vault with no fault so far, which keeps the runtime and the path. The file is opened, or made, by the first call.
    pub fn at(rt: HostRuntime, path: &str) -> Result<SqlVault<HostRuntime>, Memory>
        ensures { IfOk result (λ vault. vault ≡ 0) }
    {
        let path = String::from_str(rt.alloc(), path)?;
        Ok(AdoptedVault::new(InFile::new(rt, path)))
    }

    /// A vault over an open connection, with no fault so far.
    pub fn over<S: Alter>(connection: Connection<S>) -> AdoptedVault<Connection<S>>
        ensures { result ≡ 0 }
    {
        AdoptedVault::new(connection)
    }
}
