//! Framing: check octets, escapes, frames, and the contents of a stream.
#![tactic(auto)]

mod framing;
mod laws;
mod splitter;

pub use framing::{ESCAPE, ESCAPE_CODE, FLAG, FLAG_CODE, check, escape_into};
pub use laws::{
    law_first_frame, law_frames, law_front, law_octets, law_one_end, law_one_list, law_one_octet,
};
pub use splitter::{Split, Splitter};
