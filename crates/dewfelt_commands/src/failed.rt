//! Commands that failed.

ghost use Rattle.std.specs.Prelude.{◌≡◌};

use crate::Outcome;
use std::alloc::{AllocError, Global};
use std::io;
use std::io::ErrorKind;

/// Whether a file is not there, or what should be its folder is none.
pub(crate) fn is_not_there(error: &io::Error) -> bool {
    matches!(error.kind(), ErrorKind::NotFound | ErrorKind::NotADirectory)
}

/// A command that failed: how it ends, and the line that says why, without its end. The line is empty where memory was refused for
/// it: the outcome has words of its own.
#[derive(Drop)]
pub struct Failed {
    pub outcome: Outcome,
    pub text: String,
}

impl Failed {
    /// What is always said of an outcome.
    pub fn of(alloc: Global, outcome: Outcome) -> Failed
        ensures { result.outcome ≡ outcome }
    {
        Failed::saying(alloc, outcome, String::from_str(alloc, outcome.text()))
    }

    /// Memory was wanted and refused.
    pub fn memory(alloc: Global) -> Failed
        ensures { result.outcome ≡ Outcome.Memory }
    {
        Failed {
            outcome: Outcome::Memory,
            text: String::new(alloc),
        }
    }

    /// What is said of this file or folder.
    pub fn of_path(alloc: Global, outcome: Outcome, path: &str, said: &str) -> Failed
        ensures { result.outcome ≡ outcome }
    {
        Failed::saying(alloc, outcome, format!(in alloc; "{path}: {said}"))
    }

    /// What the system says of this file or folder.
    pub fn of_error(alloc: Global, outcome: Outcome, path: &str, error: &io::Error) -> Failed
        ensures { result.outcome ≡ outcome }
    {
        Failed::saying(alloc, outcome, format!(in alloc; "{path}: {error}"))
    }

    // Says nothing where memory was refused for the text.
    fn saying(alloc: Global, outcome: Outcome, text: Result<String, AllocError>) -> Failed
        ensures { result.outcome ≡ outcome }
    {
        let text = match text {
            Ok(text) => text,
            Err(_) => String::new(alloc),
        };
        Failed { outcome, text }
    }
}
