//! Commands beside a service: what they ask of it by files in its folder, what it answers, and what they do themselves where no
//! service runs.
#![tactic(auto)]

mod answer;
mod asking;
mod clerk;
mod commands;
mod copying;
mod failed;
mod listing;
mod locking;
mod names;
mod office;
mod outcome;
mod request;
mod stores;

pub use answer::Answer;
pub use clerk::Clerk;
pub use commands::{copy, forget, registrations, stop};
pub use copying::copy_store;
pub use failed::Failed;
pub use listing::{phone_text, registration_line};
pub use locking::{Locked, try_lock};
pub use office::{Forgot, Lists, Office};
pub use outcome::Outcome;
pub use request::Request;
pub use stores::{Kept, Stores};
