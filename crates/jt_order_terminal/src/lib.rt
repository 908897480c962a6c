//! The terminal that performs orders.
#![tactic(auto)]

mod fault;
mod hearing;
mod ledger;
mod obeying;
mod order_terminal;
mod saying;

pub use fault::OrderFault;
pub use order_terminal::OrderTerminal;
