//! One terminal that performs orders, one platform that issues them, and the lines between them, as a script plays them.
#![tactic(auto)]

mod error;
mod event;
mod line;
mod stage;
mod world;

pub use error::OrderWorldError;
pub use event::OrderEvent;
pub use world::{OrderTotals, OrderWorld};
