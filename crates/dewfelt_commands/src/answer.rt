//! What a service answers to a command.

use crate::{Failed, Outcome};
use std::alloc::{AllocError, Global};

/// What a service answers: how the command ends, and what it prints; on standard error, where it is not done.
#[derive(Drop)]
pub struct Answer {
    pub outcome: Outcome,
    pub text: String,
}

/// The first line of an answer.
pub(crate) fn head(alloc: Global, outcome: Outcome) -> Result<String, AllocError> {
    let number = outcome.number();
    format!(in alloc; "status {number}\n")
}

impl Answer {
    /// The answer with this text: a line with its status, and what it prints.
    pub fn of(alloc: Global, text: &str) -> Result<Option<Answer>, AllocError> {
        let Some((line, rest)) = text.split_once("\n") else {
            return Ok(None);
        };
        let Some(outcome) = outcome_in(line) else {
            return Ok(None);
        };
        Ok(Some(Answer {
            outcome,
            text: String::from_str(alloc, rest)?,
        }))
    }

    /// The text of the answer.
    pub fn text(alloc: Global, outcome: Outcome, text: &str) -> Result<String, AllocError> {
        let mut whole = head(alloc, outcome)?;
        whole.push_str(text)?;
        Ok(whole)
    }

    /// What it prints, where the command is done.
    pub(crate) fn printed(self) -> Result<String, Failed> {
        let Answer { outcome, text } = self;
        match outcome {
            Outcome::Done => Ok(text),
            _ => Err(Failed { outcome, text }),
        }
    }
}

fn outcome_in(line: &str) -> Option<Outcome> {
    let number = line.strip_prefix("status ")?;
    Outcome::of_number(number.parse::<u8>().ok()?)
}
