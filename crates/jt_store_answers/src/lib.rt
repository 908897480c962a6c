//! What a store answers that keeps its rows elsewhere, where no contract is told what stands there: its counts of faults, and the
//! bounds that every keeper and vault keeps.
#![tactic(auto)]

mod answers;
mod order;
mod refusal;

pub use answers::{Adding, added, answered, changed};
pub use order::{are_in_order, is_from, is_unit, may_form};
pub use refusal::Refusal;
