//! What a service says while it runs: a line for each event, in logfmt, and the room in which lines wait to be written.
#![tactic(auto)]

mod gbk;
mod gbk_characters;
mod line;
mod outbox;
mod rate;
mod time;
mod value;

pub use gbk::{gbk_octets, in_gbk};
pub use line::Line;
pub use outbox::{Outbox, ROOM, empty_room};
pub use rate::Rate;
pub use time::time_text;
