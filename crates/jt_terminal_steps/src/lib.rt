//! What a terminal does over its vault: the messages of the platform, time, and the window.
#![tactic(auto)]

mod copying;
mod error;
mod hearing;
mod ticking;
mod window;

pub use error::TerminalError;
pub use hearing::{ask_if_live, is_acceptance, names, on_message, refuse_if_live};
pub use ticking::{on_beat, on_tick};
