//! The messages and refusals of a stream that comes in pieces, in any cut.
#![tactic(auto)]

mod laws;
mod stream;

pub use laws::{law_all_items, law_frames, law_front, law_items, law_one_list, law_one_octet};
pub use stream::{Stream, StreamItem, refusal_in_frame};
