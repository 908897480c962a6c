//! The service's interface over HTTP: what a board shows, as JSON, GeoJSON and metrics, and the operator's page.
#![tactic(auto)]

mod answering;
mod conversing;
mod line;
mod metrics;
mod problem_text;
mod requests;
mod sending;
mod sending_rows;
mod server_json;
mod serving;
mod site;

pub use answering::Desk;
pub use dewfelt_asked::{
    Access, Admitted, Gate, Open, Problem, Refused, Route, TOKEN_DIGITS, make_token,
};
pub use dewfelt_shown::{HasRows, Shared, Sight, Sizes};
pub use requests::{CLASSES, Requests};
pub use serving::{CONNECTIONS, HttpEnd, serve_http};
pub use site::{Base, Site};
