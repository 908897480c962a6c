//! Printed texts: the lines of frames and refusals, with the fields of every body.
#![tactic(auto)]

mod fields;
mod frame;
mod laws;
mod line;
mod refusal;
mod times;
mod values;
mod views;

pub use frame::{push_message_line, view_line};
pub use laws::law_of_times;
pub use line::Line;
pub use refusal::{push_refusal_line, push_refusal_line_with, refusal_line};
pub use views::push_message_view_line;
