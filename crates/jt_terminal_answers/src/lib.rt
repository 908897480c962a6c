//! What a terminal answers to the platform while it is Live, over no vault.
#![tactic(auto)]

mod answering;
mod changes;
mod params;
mod performing;
mod position;
mod regions;
mod saying;

pub use answering::{answer, answer_lack, answer_refused};
pub use params::first_params;
pub use performing::perform;
