//! The command `report`: its words, its lines of fixes, each recorded by a terminal as it is read, and its run.
#![tactic(auto)]

mod bad_lines;
mod command;
mod laws;
mod line;
mod noting;
mod options;
mod printing;
mod readers;
mod report_words;
mod telling;

pub use bad_lines::push_bad_line_of;
pub use command::{ReportRun, report};
pub use laws::{
    law_of_accepting_scripts, law_of_answered_runs, law_of_answers, law_of_one_script,
    law_without_memory,
};
pub use line::{FixLine, fix_line};
pub use noting::{FixesError, note_fixes};
pub use printing::{push_outcome, status_of};
pub use report_words::ReportWords;
