//! Orders over octets: definitions and laws alone. One terminal that performs orders, one platform that issues them, and the lines
//! between them, octet by octet; what may come next; and what holds of every world to which that leads. Nothing here runs.
#![tactic(auto)]

mod laws;

pub use laws::law_order_world;
