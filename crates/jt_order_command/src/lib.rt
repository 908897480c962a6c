//! The command `orders`: a script of orders, heard line by line.
#![tactic(auto)]

mod command;
mod hearing;
mod reading;
mod texts;

pub use command::orders;
pub use reading::{OrderLine, order_line};
