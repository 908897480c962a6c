//! What is wrong with words or with a file of settings.

ghost use Rattle.std.specs.Prelude.{◌≡◌};

use crate::{Form, Key};
use std::alloc::Global;
use std::fmt;

/// Why words or a file are refused.
#[derive(Clone, Copy)]
pub enum Cause {
    /// No word says what to do.
    NoCommand,
    /// The first word is no command.
    Command,
    /// No folder is named behind the command, or its name is empty.
    NoFolder,
    /// A word is neither an option nor the one folder.
    SecondFolder,
    /// A word begins with `-` and is no option.
    Option,
    /// The option of a setting is the last word, with no value behind it.
    NoValue(Key),
    /// The option of a setting is given a second time.
    Twice(Key),
    /// The option without a value is given a second time.
    FlagTwice,
    /// The value that an option gives a setting is not as it has to be.
    OptionValue(Key),
    /// An option stands behind a command beside a service, which has none.
    NotOption(Form),
    /// A word too many stands behind a command beside a service.
    WordMore(Form),
    /// Too few words stand behind a command beside a service, or one is empty.
    WordLess(Form),
    /// A word is no phone.
    Phone,
    /// A key of the file is no setting's.
    Key,
    /// The value that the file gives a setting is not as it has to be.
    KeyValue(Key),
    /// The file is no TOML, from this line on, which counts from 1.
    NotToml(usize),
    /// Memory was wanted and refused.
    Memory,
}

/// What is wrong: the cause, and the word, the key or the parser's words that it is about.
#[derive(Drop)]
pub struct Wrong {
    pub cause: Cause,
    pub about: String,
}

impl Wrong {
    /// What is wrong about this text. Where memory is refused the text is left out.
    pub fn new(alloc: Global, cause: Cause, about: &str) -> Wrong
        ensures { result.cause ≡ cause }
    {
        let about = match String::from_str(alloc, about) {
            Ok(about) => about,
            Err(_) => String::new(alloc),
        };
        Wrong { cause, about }
    }
}

const COMMANDS: &str =
    "serve DIR, check DIR, page DIR, registrations DIR, forget DIR PHONE, copy DIR FILE, stop DIR, \
     --help or --version";

const OPTIONS: &str =
    "--listen, --links, --quiet, --strangers, --strangers-of-address, --http, --http-name or \
     --until-input-ends";

const KEYS: &str = "listen, links, quiet, strangers, strangers_of_address, http or http_name";

impl fmt::Display for Wrong {
    fn fmt<W: fmt::Write>(&self, f: &mut fmt::Formatter<W>) -> fmt::Result {
        let about = self.about.as_str();
        match self.cause {
            Cause::NoCommand => write!(f, "no command: expected {COMMANDS}"),
            Cause::Command => write!(f, "unknown command {about:?}: expected {COMMANDS}"),
            Cause::NoFolder => write!(f, "no folder: expected {about} DIR"),
            Cause::SecondFolder => write!(f, "a second folder {about:?}: expected one"),
            Cause::Option => write!(f, "unknown option {about:?}: expected {OPTIONS}"),
            Cause::NoValue(key) => no_value(f, key),
            Cause::Twice(key) => twice(f, key),
            Cause::FlagTwice => write!(f, "{about} is given twice: expected once"),
            Cause::OptionValue(key) => option_value(f, key, about),
            Cause::NotOption(form) => not_option(f, form, about),
            Cause::WordMore(form) => word_more(f, form, about),
            Cause::WordLess(form) => word_less(f, form),
            Cause::Phone => write!(f, "{about:?} is no phone: expected 1 to 20 digits"),
            Cause::Key => write!(f, "unknown key {about:?}: expected {KEYS}"),
            Cause::KeyValue(key) => key_value(f, key, about),
            Cause::NotToml(line) => write!(f, "line {line} is no TOML: {about}"),
            Cause::Memory => write!(f, "no memory"),
        }
    }
}

fn no_value<W: fmt::Write>(f: &mut fmt::Formatter<W>, key: Key) -> fmt::Result {
    let option = key.option();
    let expected = key.expected();
    write!(f, "--{option} has no value: expected {expected}")
}

fn twice<W: fmt::Write>(f: &mut fmt::Formatter<W>, key: Key) -> fmt::Result {
    let option = key.option();
    write!(f, "--{option} is given twice: expected once")
}

fn not_option<W: fmt::Write>(f: &mut fmt::Formatter<W>, form: Form, about: &str) -> fmt::Result {
    let usage = form.usage();
    write!(f, "unknown option {about:?}: expected {usage}")
}

fn word_more<W: fmt::Write>(f: &mut fmt::Formatter<W>, form: Form, about: &str) -> fmt::Result {
    let usage = form.usage();
    write!(f, "a word too many {about:?}: expected {usage}")
}

fn word_less<W: fmt::Write>(f: &mut fmt::Formatter<W>, form: Form) -> fmt::Result {
    let usage = form.usage();
    write!(f, "too few words: expected {usage}")
}

fn option_value<W: fmt::Write>(f: &mut fmt::Formatter<W>, key: Key, about: &str) -> fmt::Result {
    let option = key.option();
    let expected = key.expected();
    write!(f, "--{option} {about:?}: expected {expected}")
}

fn key_value<W: fmt::Write>(f: &mut fmt::Formatter<W>, key: Key, about: &str) -> fmt::Result {
    let name = key.name();
    let expected = key.expected();
    write!(f, "{name} is a wrong {about}: expected {expected}")
}
