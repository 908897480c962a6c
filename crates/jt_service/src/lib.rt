//! A platform that runs on: so many links at once at most, one after another, for as long as they come.
#![tactic(auto)]

mod bench;
mod door;
mod hall;
mod root;
mod service_end;
mod service_listen;
mod serving;
mod telling;
mod watch;
mod watched_link;
mod witnessed;

pub use door::{Arrived, Door};
pub use jt_seats::{Away, Counts, Cut, Limits};
pub use service_end::ServiceEnd;
pub use service_listen::ServiceListen;
pub use serving::serve_on;
pub use telling::{Ended, Tell};
pub use watch::Watch;
pub use watched_link::{Warden, WatchedLink};
pub use witnessed::Witnessed;
