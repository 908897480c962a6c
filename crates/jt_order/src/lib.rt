//! Orders to terminals: what an order is, the rules by which a terminal answers one, and the stores of both ends.
#![tactic(auto)]

mod book;
mod log;
mod mem_book;
mod mem_log;
mod order;
mod performed;
mod rules;

pub use book::{BookState, ORDER_LIMIT, OrderBook};
pub use log::OrderLog;
pub use mem_book::MemBook;
pub use mem_log::MemLog;
pub use order::{Order, OrderError, is_order};
pub use performed::Performed;
pub use rules::{Ruling, rule, serial_of};
