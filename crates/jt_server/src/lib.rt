//! A thread for each connection.
#![tactic(auto)]

mod held;
mod passes;
mod served;
mod threads;
mod work;

pub use served::{ServeEnd, Served};
pub use threads::serve;
