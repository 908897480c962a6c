//! What an order session does, as steps of the world of orders: definitions and laws alone, over the public contracts of its calls. Nothing
//! here runs.
#![tactic(auto)]

mod laws;

pub use laws::{law_session_closes, law_session_feeds, law_session_offers, law_session_stands};
