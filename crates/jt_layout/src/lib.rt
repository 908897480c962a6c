//! Layouts of message bodies: what every body is made of, read and written.
#![tactic(auto)]

mod element;
mod reader;
mod writer;

pub use element::{Element, all_fit, octets_fit};
pub use reader::Reader;
pub use writer::Writer;
