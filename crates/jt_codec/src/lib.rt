//! Messages: bodies of any id, read and written, and whole frames.
#![tactic(auto)]

mod ack;
mod body;
mod empty;
mod frame;
mod judging;
mod laws;
mod message;
mod position_reply;
mod regions;
mod resend;
mod rows;
mod text;
mod track;
mod viewing;

pub use body::{read_body, write_body};
pub use frame::{frame_into, parse_frame, read_message};
pub use judging::judge_message;
pub use laws::{law_of_acks, law_of_bodies, law_of_frames};
pub use message::Message;
pub use resend::Resend;
pub use viewing::{MessageView, view_message};
