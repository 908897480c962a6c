//! What gives a store its connection: an open one, or a file that is opened by the first call.

use crate::refused::Refused;
use sqlite::{Alter, Connection, File, FileStore};

/// What gives a store its connection.
pub trait Opens {
    /// The store of the connection.
    type Store: Alter;

    /// The connection, which is opened, or made, where it is not open yet.
    fn opened(&mut self) -> Result<&mut Connection<Self::Store>, Refused>;

    /// Lets go of a connection that a fault of the disk has shut, so that the next call opens the file anew.
    fn let_go(&mut self);
}

impl<S: Alter> Opens for Connection<S> {
    type Store = S;

    fn opened(&mut self) -> Result<&mut Connection<S>, Refused> {
        Ok(self)
    }

    // (one that was handed in stays shut)
    fn let_go(&mut self) {}
}

/// A file that is opened by the first call. Dropped, it copies its log into the file, which then has all rows alone.
pub struct InFile<R> {
    rt: R,
    path: String,
    connection: Option<Connection<FileStore<File>>>,
}

impl<R> InFile<R> {
    pub(crate) fn new(rt: R, path: String) -> InFile<R> {
        InFile {
            rt,
            path,
            connection: None,
        }
    }
}

impl<R: Drop> Drop for InFile<R> {
    fn drop(self) {
        let InFile {
            rt: _,
            path: _,
            connection,
        } = self;
        if let Some(connection) = connection {
            let _closed = connection.close();
        }
    }
}

impl Opens for InFile<HostRuntime> {
    type Store = FileStore<File>;

    fn opened(&mut self) -> Result<&mut Connection<FileStore<File>>, Refused> {
        if self.connection.is_none() {
            let opened = Connection::open(&self.rt, &self.path)?;
            drop(self.connection.replace(opened));
        }
        match &mut self.connection {
            Some(connection) => Ok(connection),
            None => Err(Refused::Failed),
        }
    }

    fn let_go(&mut self) {
        drop(self.connection.take());
    }
}

/// Whether a connection was found to be shut.
pub(crate) fn is_shut<T>(answer: &Result<T, Refused>) -> bool {
    matches!(answer, Err(Refused::Shut))
}
