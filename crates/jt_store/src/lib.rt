//! Stores: what keeps a platform's registrations and rows, and what keeps a terminal's fixes and units.
#![tactic(auto)]

mod by_phone;
mod calls;
mod digits;
mod error;
mod keeper;
mod law;
mod mem_keeper;
mod mem_vault;
mod migrating;
mod names;
mod registry;
mod row;
mod rows;
mod unit;
mod vault;

pub use calls::Calls;
pub use digits::Digits;
pub use error::StoreError;
pub use keeper::{Keeper, Registrations};
pub use law::law_verdicts;
pub use mem_keeper::MemKeeper;
pub use mem_vault::MemVault;
pub use migrating::{NewPhone, OldPhone, migrate};
pub use registry::Registry as RegistrationTable;
pub use row::{Registered, Row};
pub use unit::{Loaded, Unit};
pub use vault::Vault;
