//! Orders that were performed.

ghost use Rattle.std.specs.Prelude.{◌≡◌};

use crate::order::Order;
use std::alloc::AllocError;

/// An order that a terminal performed.
#[derive(Drop)]
pub struct Performed {
    pub order: Order,
    /// 0 success, 1 failure, 3 not supported.
    pub result: u8,
}

impl Clone for Performed {
    ghost is_clone = { λ performed clone. clone ≡ performed };

    fn clone(&self) -> Result<Performed, AllocError> {
        Ok(Performed {
            order: self.order.clone()?,
            result: self.result,
        })
    }
}
