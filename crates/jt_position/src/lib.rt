//! Positions and batches of positions.
#![tactic(auto)]

mod batch;
mod batch_view;
mod fix;
mod fixed;
mod item;
mod item_view;
mod moments;
mod position;
mod position_view;

pub use batch::{Batch, law_batches, read_batch, write_batch};
pub use batch_view::{BatchView, Positions, view_batch};
pub use fix::{Fix, FixError, law_fixes};
pub use fixed::Fixed;
pub use item::Item;
pub use item_view::ItemView;
pub use moments::moment;
pub use position::{Position, law_positions, read_position, write_position};
pub use position_view::{Items, PositionView, view_position};
