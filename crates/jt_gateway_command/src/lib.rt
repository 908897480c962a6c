//! The command `gateway`: a script of a gateway, played line by line, and what is printed of it.
#![tactic(auto)]

mod command;
mod hearing;
mod reading;
mod texts;

pub use command::gateway;
pub use reading::{GatewayLine, gateway_line};
