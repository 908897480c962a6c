//! A terminal's attempts to report over links.
#![tactic(auto)]

mod ending;
mod moving;
mod reporting;
mod running;

pub use ending::{AttemptEnd, Attempted};
pub use reporting::{Outcome, report_all};
pub use running::{attempt, attempt_within};
