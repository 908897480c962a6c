//! Registration and authentication of terminals.
#![tactic(auto)]

mod auth;
mod register;
mod reply;

pub use auth::{Auth, AuthTail, law_auths, read_auth, write_auth};
pub use register::{Register, law_registrations, read_register, write_register};
pub use reply::{RegisterReply, law_register_replies, read_register_reply, write_register_reply};
