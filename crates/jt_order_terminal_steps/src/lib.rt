//! What an order terminal does, as steps of the world of orders over octets: the law of what its calls say. Nothing here runs.
#![tactic(auto)]

mod calls;
mod laws;

pub use laws::law_order_terminal;
