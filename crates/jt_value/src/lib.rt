//! Values that every layer names: editions and phones, refusals, want of memory, and lists.
#![tactic(auto)]

mod buffer;
pub mod ids;
pub mod limits;
mod memory;
mod phone;
mod placing;
mod refusal;
pub mod results;
mod seq;
mod serials;

pub use buffer::Buffer;
pub use memory::Memory;
pub use phone::{Edition, Phone};
pub use placing::Place;
pub use refusal::{CodecError, Refusal, Why};
pub use seq::{Octets, Seq};
pub use serials::{gap, law_serials, place};
