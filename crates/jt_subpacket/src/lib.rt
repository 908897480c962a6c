//! Messages in packets: split, and joined again.
#![tactic(auto)]

mod assembler;
mod key;
mod laws;
mod partial;
mod splitting;
mod taken;

pub use assembler::Assembler;
pub use key::{PartKey, joined_header};
pub use laws::law_of_packets;
pub use splitting::{SplitError, split};
pub use taken::{Fate, Taken};
