//! The service of `dewfelt` over a folder: its threads, hub after hub, and the interface over HTTP.
#![tactic(auto)]

mod announcing;
mod answering;
mod interface;
mod kept_rows;
mod opening;
mod over_folder;
mod page_line;
mod running;
mod serving;
mod tokens;

pub use dewfelt_folder::{
    Status, Trouble, check, clerk_of, lock, path_in, read_fleet_of, read_settings_of,
};
pub use dewfelt_tending::{Chores, Ground, HasGround, Living, Present, Root, Tended, Tending};
pub use dewfelt_told::Told;
pub use interface::{Interface, Web};
pub use kept_rows::KeptRows;
pub use over_folder::{OverFolder, serve_over};
pub use page_line::{page, page_of};
pub use serving::{Flags, Service, serve};
pub use tokens::{Tokens, tokens_of};
