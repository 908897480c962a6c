//! What a session does at one item, and what a terminal sees of an order's frame, as events of the world of orders: laws alone. Nothing
//! here runs.
#![tactic(auto)]

mod laws;

pub use laws::{law_frames, law_turns};
