//! What is shown of a board: how it is looked at, and its texts as JSON and GeoJSON.
#![tactic(auto)]

mod collections;
mod moments;
mod numbers;
mod plain;
mod positions;
mod sight;
mod vehicle_json;

pub use collections::{counts_text, ended_text, sessions_text, strangers_text};
pub use moments::{put_moment, put_position_time};
pub use numbers::{degrees_text, put_degrees, put_some, put_some_tenths, put_tenths, tenths_text};
pub use plain::{put_count, put_hex, put_printable, put_some_text, put_text, put_time, put_truth};
pub use positions::{positions_text, vehicles_text};
pub use sight::{HasRows, Shared, Sight, Sizes};
pub use vehicle_json::{
    SOUTH, WEST, changes_text, put_coordinates, put_phone_member, vehicle_text,
};
