//! The session of the platform that sends orders and takes their answers.
#![tactic(auto)]

mod laws;
mod offering;
mod order_session;
mod response;
mod telling;

pub use laws::law_of_responses;
pub use order_session::OrderSession;
