//! The terminal's rule: what a terminal keeps, what it does at each event, and the units, waits and messages of which that is
//! made, over no vault.
#![tactic(auto)]

mod laws;
mod plain_settings;
mod queue;
mod saying;
mod settings;
mod state;
mod units;
mod waits;
mod window;

pub use laws::{law_examples, law_forming, law_rule, law_unsaid, law_waits};
pub use plain_settings::settings_for;
pub use queue::Queue;
pub use saying::{
    frame, header, heartbeat_if_silent, lose, now_in, on_open, repeat_sending, say_auth,
    say_heartbeat, say_unit,
};
pub use settings::Settings;
pub use state::{Acknowledgement, AnswerKind, Event, GiveUp, Phase, State, Timing, Wait};
pub use units::unit_of;
pub use waits::{after_packets, first_wait, has_passed, has_serial};
pub use window::{WINDOW, Window};
