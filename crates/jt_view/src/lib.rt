//! What `view` and `check` tell of an input: frames and refusals, as lines or counted.
#![tactic(auto)]

mod closing;
mod command;
mod hex_laws;
mod hex_reader;
mod judged;
mod lines;
mod reporter;
mod running;
mod tally;
mod telling;
mod viewing;

pub use closing::Closing;
pub use command::{Command, Encoding, Report};
pub use hex_laws::{law_octets_of_front, law_wrong_stays};
pub use jt_input::Status;
pub use reporter::Question;
pub use running::report;
