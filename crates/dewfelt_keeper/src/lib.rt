//! The keeper of a service: registrations under the rules of a fleet that may change while a hub goes on.
#![tactic(auto)]

mod applying;
mod paging;
mod registry;
mod row_pages;
mod shared;

pub use registry::{Forgetting, NOBODY, Registry};
pub use row_pages::{law_row_pages, page_of_rows};
pub use shared::SharedKeeper;
