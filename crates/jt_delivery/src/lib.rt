//! Kept delivery over whole messages: definitions and laws alone. One terminal and one platform over any number of lines; what each
//! of them may do; and what holds of every world to which that leads. Nothing here runs.
#![tactic(auto)]

mod laws;

pub use laws::{law_events, law_kept_delivery, law_parts, law_replies, law_some_delivery};
