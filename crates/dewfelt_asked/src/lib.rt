//! What is read of a request: who asks, for which route, with which words, and why it is refused.
#![tactic(auto)]

mod gate;
mod hosts;
mod problem;
mod query;
mod route;
mod times;
mod token;

pub use gate::{Access, Admitted, Gate};
pub use problem::{Problem, Refused, read_rows};
pub use query::{Form, Place, Query, Word};
pub use route::{Open, Route};
pub use times::seconds_of;
pub use token::{TOKEN_DIGITS, make_token};
