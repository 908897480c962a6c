//! The words of a task.

ghost use Rattle.std.specs.Prelude.{◌≡◌, ◌∷◌, map, string_bytes};
ghost use Rattle.jt_cli.specs.Words.{count_in, task_named, task_of, task_valued, telling as task_telling};

use jt_script::number_up_to;
use jt_view::{Command, Encoding, Report};

/// What the program is told to do.
#[derive(Clone, Copy, Debug, PartialEq, Eq)]
pub enum Task {
    /// Tells of a stream of octets.
    Tell(Command),
    /// Rehearses a script: the word is `rehearse`.
    Rehearse,
    /// Makes a script of so many fixes, from 1 to 20,000, and rehearses it: the word is `make`.
    Make(u32),
    /// Says which alarms a track raises: the word is `fence`.
    Fence,
    /// Plays the script of a gateway: the word is `gateway`.
    Gateway,
    /// Plays a script of orders: the word is `orders`.
    Orders,
}

// The most fixes of a script that is made.
const MAKE_MOST: u32 = 20_000;

// The number of fixes that a word writes.
#[tactic(auto, unfolding(crate::specs::Words::count_in))]
fn count_of(word: &str) -> Option<u32>
    ensures { result ≡ count_in word.now }
{
    match number_up_to(MAKE_MOST, word.as_bytes()) {
        Some(count) => if count == 0 { None } else { Some(count) },
        None => None,
    }
}

// The task that a word asks of octets or of digits.
#[tactic(auto, unfolding(crate::specs::Words::telling))]
fn telling(encoding: Encoding, word: &str) -> Option<Task>
    ensures { result ≡ task_telling encoding word.now }
{
    if word == "view" {
        let report = Report::View;
        return Some(Task::Tell(Command { report, encoding }));
    }
    if word == "check" {
        let report = Report::Check;
        return Some(Task::Tell(Command { report, encoding }));
    }
    None
}

// The task that one word asks.
#[tactic(auto, unfolding(crate::specs::Words::task_named))]
fn named(word: &str) -> Option<Task>
    ensures { result ≡ task_named word.now }
{
    if word == "rehearse" {
        return Some(Task::Rehearse);
    }
    if word == "fence" {
        return Some(Task::Fence);
    }
    if word == "gateway" {
        return Some(Task::Gateway);
    }
    if word == "orders" {
        return Some(Task::Orders);
    }
    telling(Encoding::Octets, word)
}

// The task that a word and its value ask.
#[tactic(auto, unfolding(crate::specs::Words::task_valued))]
fn valued(word: &str, value: &str) -> Option<Task>
    ensures { result ≡ task_valued word.now value.now }
{
    if word == "make" {
        return match count_of(value) {
            Some(count) => Some(Task::Make(count)),
            None => None,
        };
    }
    if value == "--hex" {
        return telling(Encoding::Hex, word);
    }
    None
}

// The task that a word asks, before others.
fn task_in(word: &str, others: &[String]) -> Option<Task>
    ensures { result ≡ task_of (word.now ∷ map string_bytes others.now) }
{
    match others.split_first() {
        Some((value, more)) => if more.is_empty() {
            valued(word, value.as_str())
        } else {
            None
        },
        None => named(word),
    }
}

impl Task {
    /// Reads the words after the program's name. None means that they are those of no task.
    pub fn from_words(words: &[String]) -> Option<Task>
        ensures { result ≡ task_of (map string_bytes words.now) }
    {
        match words.split_first() {
            Some((word, others)) => task_in(word.as_str(), others),
            None => None,
        }
    }
}
