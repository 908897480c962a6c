//! Orders.

ghost use Rattle.std.specs.Prelude.{◌≡◌};
ghost use Rattle.jt_order.specs.Orders.{is_order_id, IsOrder};
ghost use Rattle.jt_order.specs.Reading.{ReadsOrder};

use jt_codec::read_body;
use jt_value::ids::{CONTROL, SET_PARAMS, TEXT};
use jt_value::limits::BODY_LIMIT;
use jt_value::{CodecError, Edition, Octets, Refusal};
use std::alloc::{AllocError, AllocFailed, Global};
use std::marker::Model;

/// A message that a platform wants to be performed: its id is an order's, and its body has at most 1,023 octets.
#[derive(Drop)]
pub struct Order {
    id: u16,
    body: Octets,
}

impl Model for Order {
    ghost use Rattle.jt_order.specs.Orders.{IsOrder, OrderOf};

    ghost Value = { OrderOf };

    ghost view = { λ order. record { id = order.id; body = order.body } };

    ghost invariant = { λ order. IsOrder (record { id = order.id; body = order.body }) };
}

/// Why something is no order. The first that applies is answered.
#[derive(Clone, Copy, Debug, PartialEq, Eq)]
pub enum OrderError {
    /// The id, which is no order's.
    NotOrder(u16),
    /// The number of octets, which is above 1,023.
    Long(u64),
    /// The body is refused.
    Refused(Refusal),
    /// Memory was wanted and refused.
    Memory,
}

impl From<AllocError> for OrderError {
    ghost use Rattle.jt_order.specs.declared.order.OrderError.TheVariants.{Memory};

    ghost from_gives = { λ _ error. error ≡ Memory };

    fn from(_error: AllocError) -> OrderError {
        OrderError::Memory
    }
}

impl<T: Drop> From<AllocFailed<T>> for OrderError {
    ghost use Rattle.jt_order.specs.declared.order.OrderError.TheVariants.{Memory};

    ghost from_gives = { λ _ error. error ≡ Memory };

    fn from(_error: AllocFailed<T>) -> OrderError {
        OrderError::Memory
    }
}

/// Whether a message of this id is an order: 0x8103, 0x8105, 0x8300, and 0x8600 to 0x8607.
pub fn is_order(id: u16) -> bool
    ensures { result ≡ is_order_id id }
{
    id == SET_PARAMS || id == CONTROL || id == TEXT || (id >= 0x8600 && id <= 0x8607)
}

impl Order {
    /// The order of this id and body, which the edition's table of bodies reads. NotOrder comes exactly where the id is no
    /// order's; then Long exactly where the body has more than 1,023 octets; then Refused exactly where the body is refused,
    /// unless memory is wanted.
    pub fn read(alloc: Global, edition: Edition, id: u16, body: &[u8]) -> Result<Order, OrderError>
        ensures { ReadsOrder edition id body.now result }
    {
        if !is_order(id) {
            return Err(OrderError::NotOrder(id));
        }
        if body.len() > BODY_LIMIT {
            return Err(OrderError::Long(body.len() as u64));
        }
        match read_body(alloc, edition, id, body) {
            Ok(_message) => Ok(Order {
                id,
                body: Octets::from_vec(Vec::from_slice(alloc, body)?),
            }),
            Err(CodecError::Refused(refusal)) => Err(OrderError::Refused(refusal)),
            Err(CodecError::Memory) => Err(OrderError::Memory),
        }
    }

    /// The id of its message.
    pub fn id(&self) -> u16
        ensures id { result ≡ self.now.id }
        ensures order { IsOrder self.now }
    {
        self.id
    }

    /// The body of its message.
    pub fn body(&self) -> &[u8]
        ensures body { result.now ≡ self.now.body }
        ensures order { IsOrder self.now }
    {
        self.body.as_slice()
    }
}

impl Clone for Order {
    ghost is_clone = { λ order clone. clone ≡ order };

    fn clone(&self) -> Result<Order, AllocError> {
        Ok(Order {
            id: self.id,
            body: self.body.clone()?,
        })
    }
}
