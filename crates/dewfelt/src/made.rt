//! Stores whose keepers somebody makes.

use dewfelt_commands::Stores;
use jt_store::Registrations;
use jt_value::Memory;
use std::marker::PhantomData;

/// Who makes the keepers of files. (a trait of the keeper's type, since no bound can be stated yet on one as large as that of a file)
pub(crate) trait MakesKeeper<K> {
    /// A keeper of the file at this path, which it opens at its first call. Dropped, it copies its log into the file.
    fn make(&self, path: &str) -> Result<K, Memory>;
}

/// The stores whose keepers are made so.
#[derive(Drop)]
pub(crate) struct Made<K, M> {
    maker: M,
    of: PhantomData<K>,
}

impl<K, M> Made<K, M> {
    /// The stores whose keepers this one makes.
    pub(crate) fn by(maker: M) -> Made<K, M> {
        Made {
            maker,
            of: PhantomData,
        }
    }
}

impl<K: Registrations + Drop, M: MakesKeeper<K>> Stores for Made<K, M> {
    type Keeper = K;

    fn at(&self, path: &str) -> Result<K, Memory> {
        self.maker.make(path)
    }
}
