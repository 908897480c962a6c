//! What is told of a phone's rows: pages of them, and their fixes between two moments as a track.
#![tactic(auto)]

mod rows;
mod track;
mod track_json;
mod track_page;
mod track_text;

pub use rows::{RowsPage, rows_page};
pub use track::{FIXES_LIMIT, Range, Track, track_of};
pub use track_json::Owner;
pub use track_page::TrackPage;
