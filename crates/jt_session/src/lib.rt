//! A connection's session of the platform: what it asks of the hub, and what it answers.
#![tactic(auto)]

mod counts;
mod end;
mod feeding;
mod framing;
mod hearing;
mod kept;
mod laws;
mod reading;
mod report;
mod request;
mod serving;
mod session;
mod step;

pub use counts::Counts;
pub use end::{End, Fed};
pub use laws::{
    law_of_acceptances, law_of_answers, law_of_feeds, law_of_requests, law_of_talks, law_of_turns,
};
pub use report::Report;
pub use serving::{serve_link, serve_link_within};
pub use session::Session;
pub use step::Step;
