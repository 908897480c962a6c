//! The text of dewfelt.toml.

ghost use Rattle.std.specs.Prelude.{◌≡◌, ◌≢◌, true, IfOk, IfErr, IsErrAnd, IsSome, IsUtf8};
ghost use Rattle.toml.specs.Parse.{parse_document};
ghost use Rattle.dewfelt_settings.specs.Causes.{is_of_file};
ghost use Rattle.dewfelt_settings.specs.Keys.{name_of};
ghost use Rattle.dewfelt_settings.specs.declared.key.Key.{Key as OneKey};
ghost use Rattle.dewfelt_settings.specs.declared.wrong.Cause.TheVariants as causes;

use crate::{Cause, Choices, Key, Wrong};
use std::alloc::Global;
use toml::{Table, Value};

// The choices, with this value of a setting, which is a number or a text.
fn with_value(choices: Choices, key: Key, value: &Value) -> Option<Choices> {
    match value {
        Value::Integer(number) => choices.with_number(key, u32::try_from(*number).ok()?),
        Value::String(text) => choices.with_text(key, text.as_str()),
        _ => None,
    }
}

// The choices, with what an entry of the table chooses.
fn take_entry(alloc: Global, choices: Choices, name: &str, value: &Value) -> Result<Choices, Wrong>
    ensures cause { IfErr result (λ wrong. is_of_file wrong.cause ≡ true) }
    ensures unknown { ((key : OneKey) → name_of key ≢ name.now) →
        IsErrAnd result (λ wrong. wrong.cause ≡ causes.Key) }
{
    let Some(key) = Key::named(name.as_bytes()) else {
        return Err(Wrong::new(alloc, Cause::Key, name));
    };
    match with_value(choices, key, value) {
        Some(choices) => Ok(choices),
        None => Err(Wrong::new(alloc, Cause::KeyValue(key), value.type_str())),
    }
}

fn choices_in(alloc: Global, table: &Table) -> Result<Choices, Wrong>
    ensures { IfErr result (λ wrong. is_of_file wrong.cause ≡ true) }
{
    let mut choices = Choices::none();
    for (name, value) in table.iter() {
        choices = take_entry(alloc, choices, name.as_str(), value)?;
    }
    Ok(choices)
}

// The number of the line, from 1, in which this octet of the text stands.
fn line_of(text: &[u8], place: usize) -> usize {
    let before = if place < text.len() {
        &text[..place]
    } else {
        text
    };
    let mut line = 1usize;
    for octet in before {
        if *octet == b'\n' {
            line = line.saturating_add(1);
        }
    }
    line
}

/// Reads the text of dewfelt.toml.
pub fn read_file(alloc: Global, text: &[u8]) -> Result<Choices, Wrong>
    ensures toml { IfOk result (λ _. IsUtf8 text.now × IsSome (parse_document text.now)) }
    ensures cause { IfErr result (λ wrong. is_of_file wrong.cause ≡ true) }
{
    match toml::table_from_slice(alloc, text) {
        Ok(table) => choices_in(alloc, &table),
        Err(error) => match error.span() {
            Some(span) => {
                let line = line_of(text, span.start);
                Err(Wrong::new(alloc, Cause::NotToml(line), error.message()))
            }
            None => Err(Wrong::new(alloc, Cause::Memory, "")),
        },
    }
}
