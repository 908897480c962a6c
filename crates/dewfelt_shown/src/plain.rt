//! Members of objects, in JSON.

ghost use Rattle.std.specs.Prelude.{[], ◌∷◌, OnOk, decimal};
ghost use Rattle.json.specs.Token.{boolean, key, number, string};
ghost use Rattle.dewfelt_shown.specs.Puts.{Puts, some_text};

use crate::moments::put_moment;
use json::Writer;
use std::alloc::{AllocError, Global};

/// Puts a member that is a text.
pub fn put_text(writer: &mut Writer, name: &str, text: &str) -> Result<(), AllocError>
    ensures { OnOk result (Puts writer.old writer.new (key name.now ∷ string text.now ∷ [])) }
{
    writer.key(name)?;
    writer.string(text)
}

/// Puts a member that is a text, or null.
pub fn put_some_text(writer: &mut Writer, name: &str, text: Option<&str>) -> Result<(), AllocError>
    ensures { OnOk result (Puts writer.old writer.new (key name.now ∷ some_text text.entry ∷ [])) }
{
    writer.key(name)?;
    match text {
        Some(text) => writer.string(text),
        None => writer.null(),
    }
}

/// Puts a member that is a number.
pub fn put_count(writer: &mut Writer, name: &str, count: u64) -> Result<(), AllocError>
    ensures { OnOk result (Puts writer.old writer.new (key name.now ∷ number (decimal count) ∷ [])) }
{
    writer.key(name)?;
    writer.u64(count)
}

/// Puts a member that is a truth.
pub fn put_truth(writer: &mut Writer, name: &str, is_true: bool) -> Result<(), AllocError>
    ensures { OnOk result (Puts writer.old writer.new (key name.now ∷ boolean is_true ∷ [])) }
{
    writer.key(name)?;
    writer.boolean(is_true)
}

/// Puts a member that is a moment, in seconds since 1970, or null.
pub fn put_time(writer: &mut Writer, key: &str, seconds: Option<u64>) -> Result<(), AllocError> {
    writer.key(key)?;
    put_moment(writer, seconds)
}

/// Puts octets as hexadecimal digits.
pub fn put_hex(alloc: Global, writer: &mut Writer, octets: &[u8]) -> Result<(), AllocError> {
    let text = hex::encode(alloc, octets)?;
    writer.string(text.as_str())
}

/// Puts octets as text where they are printable ASCII, else null.
pub fn put_printable(writer: &mut Writer, octets: &[u8]) -> Result<(), AllocError> {
    let is_printable = octets.iter().all(|octet| *octet >= 0x20 && *octet < 0x7f);
    match std::str::from_utf8(octets) {
        Ok(text) if is_printable => writer.string(text),
        _ => writer.null(),
    }
}
