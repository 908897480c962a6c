//! The words of the command line.

ghost use Rattle.std.specs.Prelude.{◌≡◌, ◌≢◌, ◌≤◌, true, [], length, IfOk, IfErr, IsErr, IsErrAnd};
ghost use Rattle.dewfelt_settings.specs.Causes.{is_of_words};
ghost use Rattle.dewfelt_settings.specs.Choosing.{has_choice};
ghost use Rattle.dewfelt_settings.specs.Keys.{option_of};
ghost use Rattle.dewfelt_settings.specs.declared.key.Key.{Key as OneKey};
ghost use Rattle.dewfelt_settings.specs.declared.wrong.Cause.TheVariants as causes;

use crate::{Cause, Choices, Form, Key, Wrong, phone_of};
use jt_value::Phone;
use std::alloc::Global;

/// What the program is to do.
#[derive(Clone, Copy)]
pub enum Command<'w> {
    /// Serve the fleet of a folder.
    Serve(&'w str, Choices),
    /// Say what is wrong with the files of a folder.
    Check(&'w str, Choices),
    /// Say where the page of a folder is.
    Page(&'w str, Choices),
    /// Say what is registered over a folder.
    Registrations(&'w str),
    /// Remove the registration of a phone over a folder.
    Forget(&'w str, Phone),
    /// Copy the rows and registrations of a folder into a file.
    Copy(&'w str, &'w str),
    /// Stop the service over a folder.
    Stop(&'w str),
    /// Say how the program is called.
    Help,
    /// Say the program's version.
    Version,
}

// What was told so far.
#[derive(Clone, Copy)]
struct Told<'w> {
    folder: Option<&'w str>,
    choices: Choices,
}

// The choices, with this value of an option, which is a number or a text.
fn with_value(choices: Choices, key: Key, value: &str) -> Option<Choices> {
    match key {
        Key::Listen | Key::Http | Key::HttpName => choices.with_text(key, value),
        _ => choices.with_number(key, value.parse::<u32>().ok()?),
    }
}

// What was told, with this value of an option.
fn take_value<'w>(alloc: Global, told: Told<'w>, key: Key, value: &str) -> Result<Told<'w>, Wrong>
    ensures cause { IfErr result (λ wrong. is_of_words wrong.cause ≡ true) }
    ensures twice { has_choice told.entry.choices key ≡ true →
        IsErrAnd result (λ wrong. wrong.cause ≡ causes.Twice key) }
{
    if told.choices.has(key) {
        return Err(Wrong::new(alloc, Cause::Twice(key), value));
    }
    match with_value(told.choices, key, value) {
        Some(choices) => Ok(Told {
            folder: told.folder,
            choices,
        }),
        None => Err(Wrong::new(alloc, Cause::OptionValue(key), value)),
    }
}

fn take_flag<'w>(alloc: Global, told: Told<'w>, word: &str) -> Result<Told<'w>, Wrong>
    ensures cause { IfErr result (λ wrong. is_of_words wrong.cause ≡ true) }
    ensures twice { told.entry.choices.until_input_ends ≡ true →
        IsErrAnd result (λ wrong. wrong.cause ≡ causes.FlagTwice) }
    ensures chosen { IfOk result (λ told. told.choices.until_input_ends ≡ true) }
{
    if told.choices.until_input_ends {
        return Err(Wrong::new(alloc, Cause::FlagTwice, word));
    }
    let mut choices = told.choices;
    choices.until_input_ends = true;
    Ok(Told {
        folder: told.folder,
        choices,
    })
}

// What was told, with the folder of the command.
fn take_folder<'w>(
    alloc: Global,
    told: Told<'w>,
    command: &str,
    word: &'w str,
) -> Result<Told<'w>, Wrong>
    ensures cause { IfErr result (λ wrong. is_of_words wrong.cause ≡ true) }
    ensures empty { word.now ≡ [] → IsErrAnd result (λ wrong. wrong.cause ≡ causes.NoFolder) }
{
    if word.is_empty() {
        return Err(Wrong::new(alloc, Cause::NoFolder, command));
    }
    if word.starts_with("-") {
        return Err(Wrong::new(alloc, Cause::Option, word));
    }
    if told.folder.is_some() {
        return Err(Wrong::new(alloc, Cause::SecondFolder, word));
    }
    let choices = told.choices;
    Ok(Told {
        folder: Some(word),
        choices,
    })
}

// What was told, with this value of the option of this name.
fn take_named<'w>(
    alloc: Global,
    told: Told<'w>,
    word: &str,
    name: &str,
    value: &str,
) -> Result<Told<'w>, Wrong>
    ensures cause { IfErr result (λ wrong. is_of_words wrong.cause ≡ true) }
    ensures unknown { ((key : OneKey) → option_of key ≢ name.now) →
        IsErrAnd result (λ wrong. wrong.cause ≡ causes.Option) }
{
    match Key::of_option(name.as_bytes()) {
        Some(key) => take_value(alloc, told, key, value),
        None => Err(Wrong::new(alloc, Cause::Option, word)),
    }
}

// An option behind which no word stands.
fn last_option(alloc: Global, word: &str, name: &str) -> Wrong
    ensures { is_of_words result.cause ≡ true }
{
    match Key::of_option(name.as_bytes()) {
        Some(key) => Wrong::new(alloc, Cause::NoValue(key), word),
        None => Wrong::new(alloc, Cause::Option, word),
    }
}

// What was taken, and the words that are left.
fn with_rest<'w>(
    taken: Result<Told<'w>, Wrong>,
    rest: &'w [String],
) -> Result<(Told<'w>, &'w [String]), Wrong>
    requires { IfErr taken (λ wrong. is_of_words wrong.cause ≡ true) }
    ensures cause { IfErr result (λ wrong. is_of_words wrong.cause ≡ true) }
    ensures rest { IfOk result (λ told. length told.1.now ≤ length rest.now) }
{
    match taken {
        Ok(told) => Ok((told, rest)),
        Err(wrong) => Err(wrong),
    }
}

// What was told, with an option of this name, or of this name and value; and the words behind it.
fn take_option<'w>(
    alloc: Global,
    told: Told<'w>,
    word: &'w str,
    option: &'w str,
    others: &'w [String],
) -> Result<(Told<'w>, &'w [String]), Wrong>
    ensures cause { IfErr result (λ wrong. is_of_words wrong.cause ≡ true) }
    ensures rest { IfOk result (λ told. length told.1.now ≤ length others.now) }
{
    if let Some((name, value)) = option.split_once("=") {
        return with_rest(take_named(alloc, told, word, name, value), others);
    }
    match others.split_first() {
        Some((value, rest)) => {
            with_rest(take_named(alloc, told, word, option, value.as_str()), rest)
        }
        None => Err(last_option(alloc, word, option)),
    }
}

// What was told, with the first of the words, and the words behind it and its value.
fn take_word<'w>(
    alloc: Global,
    told: Told<'w>,
    command: &str,
    word: &'w str,
    others: &'w [String],
) -> Result<(Told<'w>, &'w [String]), Wrong>
    ensures cause { IfErr result (λ wrong. is_of_words wrong.cause ≡ true) }
    ensures rest { IfOk result (λ told. length told.1.now ≤ length others.now) }
{
    if word == "--until-input-ends" {
        return with_rest(take_flag(alloc, told, word), others);
    }
    match word.strip_prefix("--") {
        Some(option) => take_option(alloc, told, word, option, others),
        None => with_rest(take_folder(alloc, told, command, word), others),
    }
}

fn is_help(word: &str) -> bool {
    word == "--help" || word == "-h"
}

// The folder and the choices that the words behind `serve`, `check` or `page` tell; None where they ask for help.
fn told_by<'w>(
    alloc: Global,
    command: &str,
    words: &'w [String],
) -> Result<Option<(&'w str, Choices)>, Wrong>
    ensures { IfErr result (λ wrong. is_of_words wrong.cause ≡ true) }
{
    let mut told = Told {
        folder: None,
        choices: Choices::none(),
    };
    let mut rest = words;
    while let Some((word, others)) = rest.split_first() {
        if is_help(word.as_str()) {
            return Ok(None);
        }
        let (next, behind) = take_word(alloc, told, command, word.as_str(), others)?;
        told = next;
        rest = behind;
    }
    match told.folder {
        Some(folder) => Ok(Some((folder, told.choices))),
        None => Err(Wrong::new(alloc, Cause::NoFolder, command)),
    }
}

// The first word that is an option.
fn first_option<'w>(words: &'w [String]) -> Option<&'w str> {
    words
        .iter()
        .map(String::as_str)
        .find(|word| word.starts_with("-"))
}

// The words behind a command of this form, of which the second is empty where the form has one. None where they ask for help.
fn words_of<'w>(
    alloc: Global,
    form: Form,
    words: &'w [String],
) -> Result<Option<(&'w str, &'w str)>, Wrong>
    ensures { IfErr result (λ wrong. is_of_words wrong.cause ≡ true) }
{
    if words.iter().any(|word| is_help(word.as_str())) {
        return Ok(None);
    }
    if let Some(word) = first_option(words) {
        return Err(Wrong::new(alloc, Cause::NotOption(form), word));
    }
    if let Some(word) = words.get(form.words()) {
        return Err(Wrong::new(alloc, Cause::WordMore(form), word.as_str()));
    }
    if words.len() < form.words() || words.iter().any(|word| word.is_empty()) {
        return Err(Wrong::new(alloc, Cause::WordLess(form), ""));
    }
    let folder = words.first().map_or("", String::as_str);
    let second = words.get(1).map_or("", String::as_str);
    Ok(Some((folder, second)))
}

// A command beside a service, by the words behind it.
fn read_form<'w>(alloc: Global, form: Form, words: &'w [String]) -> Result<Command<'w>, Wrong>
    ensures { IfErr result (λ wrong. is_of_words wrong.cause ≡ true) }
{
    let Some((folder, second)) = words_of(alloc, form, words)? else {
        return Ok(Command::Help);
    };
    match form {
        Form::Registrations => Ok(Command::Registrations(folder)),
        Form::Forget => match phone_of(alloc, second.as_bytes()) {
            Ok(Some(phone)) => Ok(Command::Forget(folder, phone)),
            Ok(None) => Err(Wrong::new(alloc, Cause::Phone, second)),
            Err(_) => Err(Wrong::new(alloc, Cause::Memory, "")),
        },
        Form::Copy => Ok(Command::Copy(folder, second)),
        Form::Stop => Ok(Command::Stop(folder)),
    }
}

/// Reads the words behind the program's name.
pub fn read_command<'w>(alloc: Global, words: &'w [String]) -> Result<Command<'w>, Wrong>
    ensures none { words.now ≡ [] → IsErr result }
    ensures cause { IfErr result (λ wrong. is_of_words wrong.cause ≡ true) }
{
    let Some((command, others)) = words.split_first() else {
        return Err(Wrong::new(alloc, Cause::NoCommand, ""));
    };
    match command.as_str() {
        "serve" => match told_by(alloc, "serve", others)? {
            Some((folder, choices)) => Ok(Command::Serve(folder, choices)),
            None => Ok(Command::Help),
        },
        "check" => match told_by(alloc, "check", others)? {
            Some((folder, choices)) => Ok(Command::Check(folder, choices)),
            None => Ok(Command::Help),
        },
        "page" => match told_by(alloc, "page", others)? {
            Some((folder, choices)) => Ok(Command::Page(folder, choices)),
            None => Ok(Command::Help),
        },
        "registrations" => read_form(alloc, Form::Registrations, others),
        "forget" => read_form(alloc, Form::Forget, others),
        "copy" => read_form(alloc, Form::Copy, others),
        "stop" => read_form(alloc, Form::Stop, others),
        "--help" | "-h" | "help" => Ok(Command::Help),
        "--version" | "-V" => Ok(Command::Version),
        other => Err(Wrong::new(alloc, Cause::Command, other)),
    }
}
