//! The rows of a store, while a service runs over it.

use dewfelt_http::HasRows;
use dewfelt_tending::Present;
use jt_store::{Registrations, Row, StoreError};
use jt_value::Phone;
use std::alloc::Global;
use std::sync::{Arc, Mutex, Wait};

/// The rows of the present store. It is held for one call at a time.
#[derive(Drop)]
pub struct KeptRows<W, K> {
    rt: W,
    present: Arc<Mutex<Present<K>>>,
}

impl<W, K> KeptRows<W, K> {
    /// The rows of this store.
    pub(crate) fn of(rt: W, present: Arc<Mutex<Present<K>>>) -> KeptRows<W, K> {
        KeptRows { rt, present }
    }
}

impl<W: Wait, K: Registrations + Drop> HasRows for KeptRows<W, K> {
    fn rows_from(
        &self,
        alloc: Global,
        phone: &Phone,
        from: u64,
        limit: usize,
    ) -> Result<Vec<Row>, StoreError> {
        let present = self.present.lock(&self.rt);
        match present.registry() {
            Some(registry) => registry.lock(&self.rt).rows_from(alloc, phone, from, limit),
            None => Err(StoreError::Failed),
        }
    }
}
