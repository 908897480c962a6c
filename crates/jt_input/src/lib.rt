//! Inputs: a text cut into lines, lines pulled from a source or heard one after the other, numbers in digits, and one run over a
//! source and a sink, whatever is told of the input.
#![tactic(auto)]

mod decimals;
mod early_end;
mod hearer;
mod laws;
mod line_cutter;
mod line_reader;
mod line_teller;
mod running;
mod status;
mod teller;

pub use decimals::number;
pub use early_end::{EarlyEnd, answer_early_end, write_reply};
pub use hearer::{Heard, Hearer};
pub use laws::law_lines;
pub use line_cutter::{Cut, LINE_LIMIT, LINES_LIMIT, LineCutter};
pub use line_reader::{LineReader, NextLine};
pub use line_teller::{LineTeller, push_bad_line};
pub use running::run_teller;
pub use status::Status;
pub use teller::Teller;
