//! Orders and calls that several tests make.

use jt_order::{Order, OrderError};
use jt_value::{Edition, Memory, Seq};
use std::alloc::Global;

/// The order of this id and body in the edition of 2013.
pub fn order(alloc: Global, id: u16, body: &[u8]) -> Result<Order, OrderError> {
    Order::read(alloc, Edition::E2013, id, body)
}

/// Whether it is this order.
pub fn is(order: &Order, id: u16, body: &[u8]) -> bool {
    order.id() == id && order.body() == body
}

/// The list of one call that fails.
pub fn failing(alloc: Global, call: u64) -> Result<Seq<u64>, Memory> {
    let mut calls = Seq::new(alloc);
    calls.push(call)?;
    Ok(calls)
}
