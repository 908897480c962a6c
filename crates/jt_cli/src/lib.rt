//! The command line: what each list of words does to the source and the sink.
#![tactic(auto)]

mod acting;
mod alone;
mod asked;
mod bare;
mod outside;
mod playing;
mod relaying;
mod reporting;
mod task;
mod top;
mod usage;

pub use alone::run_alone;
pub use asked::Asked;
pub use bare::{run_alone_bare, run_bare};
pub use jt_input::Status;
pub use jt_text::{refusal_line, view_line};
pub use jt_view::{
    Closing, Command, Encoding, Report, law_octets_of_front, law_wrong_stays, report,
};
pub use outside::{Ended, Outside};
pub use playing::{play, play_made};
pub use task::Task;
pub use top::run;
