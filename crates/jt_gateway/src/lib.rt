//! The gateway: a terminal reports to an operator's platform, and what that stored is reported on to an authority's platform of
//! 2019. Its laws speak of two worlds of octets; the gateway that runs is two worlds that scripts play.
#![tactic(auto)]

mod event;
mod gateway;
mod laws;

pub use event::GatewayEvent;
pub use gateway::Gateway;
pub use laws::{law_gateway, law_relay};
