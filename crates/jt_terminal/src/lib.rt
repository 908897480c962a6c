//! The terminal: what it does and when, over a vault.
#![tactic(auto)]

mod actions;
mod feeding;
mod laws;
mod line;
mod loading;
mod telling;
mod terminal;

pub use actions::Actions;
pub use jt_terminal_rule::{
    Acknowledgement, AnswerKind, Event, GiveUp, Phase, Queue, Settings, State, Timing, Wait,
    Window, law_examples, law_forming, law_rule, law_unsaid, law_waits,
};
pub use jt_terminal_steps::TerminalError;
pub use laws::law_steps;
pub use line::TerminalLine;
pub use terminal::Terminal;
