//! What is told of a service, as lines, and the thread that writes them.
#![tactic(auto)]

mod naming;
mod saying;
mod seen;
mod told;
mod writing;

pub use saying::{
    FleetTaken, Opened, VERSION, say_bad_fleet, say_fleet, say_http, say_listening, say_opened,
    say_start, say_unopened,
};
pub use told::Told;
pub use writing::write_lines;
