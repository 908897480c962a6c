//! Numbers as JSON.

use json::{Writer, is_number};
use std::alloc::{AllocError, Global};

const MILLION: u32 = 1_000_000;

// Puts a text as a number; null where it is none.
fn put_number(writer: &mut Writer, text: &str) -> Result<(), AllocError> {
    if is_number(text) {
        writer.number(text)
    } else {
        writer.null()
    }
}

/// Millionths of a degree as degrees with six decimals.
pub fn degrees_text(alloc: Global, millionths: u32, is_below: bool) -> Result<String, AllocError> {
    let sign = if is_below && millionths > 0 { "-" } else { "" };
    let whole = millionths / MILLION;
    let part = millionths % MILLION;
    format!(in alloc; "{sign}{whole}.{part:06}")
}

/// Tenths with one decimal.
pub fn tenths_text(alloc: Global, tenths: u32) -> Result<String, AllocError> {
    let whole = tenths / 10;
    let part = tenths % 10;
    format!(in alloc; "{whole}.{part}")
}

/// Puts millionths of a degree as degrees with six decimals.
pub fn put_degrees(
    alloc: Global,
    writer: &mut Writer,
    millionths: u32,
    is_below: bool,
) -> Result<(), AllocError> {
    let text = degrees_text(alloc, millionths, is_below)?;
    put_number(writer, text.as_str())
}

/// Puts tenths with one decimal.
pub fn put_tenths(alloc: Global, writer: &mut Writer, tenths: u32) -> Result<(), AllocError> {
    let text = tenths_text(alloc, tenths)?;
    put_number(writer, text.as_str())
}

/// Puts tenths with one decimal, or null.
pub fn put_some_tenths(
    alloc: Global,
    writer: &mut Writer,
    tenths: Option<u32>,
) -> Result<(), AllocError> {
    match tenths {
        Some(tenths) => put_tenths(alloc, writer, tenths),
        None => writer.null(),
    }
}

/// Puts a number, or null.
pub fn put_some(writer: &mut Writer, number: Option<u64>) -> Result<(), AllocError> {
    match number {
        Some(number) => writer.u64(number),
        None => writer.null(),
    }
}
