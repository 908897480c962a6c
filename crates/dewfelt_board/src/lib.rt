//! What a service shows of its vehicles, in memory: the last fix, the link and the names of each registered phone, the terminals
//! that were turned away, the sessions, and counts.
#![tactic(auto)]

mod board;
mod change;
mod changes;
mod counters;
mod cursor;
mod digits;
mod ending;
mod fixes;
mod fleet_line;
mod name;
mod order;
mod sessions;
mod stranger;
mod strangers;
mod teller;
mod vehicle;

pub use board::Board;
pub use change::Change;
pub use changes::Changes;
pub use counters::{Counters, RegistrationResult, UnitReply};
pub use cursor::Cursor;
pub use digits::{digits_of, phone_text};
pub use ending::Ending;
pub use fixes::{Found, LastFix, last_fix, row_fixes};
pub use fleet_line::vehicle_line;
pub use name::{NAME_ROOM, Name};
pub use order::{Order, Page, law_pages};
pub use sessions::{ENDED_LIMIT, EndedSession, OPEN_LIMIT, OpenSession, Sessions};
pub use stranger::Stranger;
pub use strangers::{STRANGERS_LIMIT, STRANGERS_OF_ADDRESS, Strangers};
pub use teller::Teller;
pub use vehicle::{LastEnd, Vehicle};
