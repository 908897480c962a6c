//! Headers of contents: read, refused and written.
#![tactic(auto)]

mod attributes;
mod header;
mod reading;
mod writing;

pub use header::{Header, Packet};
pub use reading::{law_of_contents, read_header};
pub use writing::write_header;
