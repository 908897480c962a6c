//! Registrations as lines.

use crate::Lists;
use crate::request::put_digits;
use dewfelt_log::in_gbk;
use jt_store::{Registered, StoreError};
use jt_value::Phone;
use std::alloc::{AllocError, Global};

// How many digits of a phone are left out where they are zeros: the digits are then those of a phone of 2013.
const LEADING: &str = "00000000";

// How many registrations are listed at a time (this project's own).
const PAGE: usize = 256;

/// The digits of a phone, twelve where those before them are zeros, and else twenty.
pub fn phone_text(alloc: Global, phone: &Phone) -> Result<String, AllocError> {
    let mut digits = String::new(alloc);
    put_digits(&mut digits, phone)?;
    match digits.as_str().strip_prefix(LEADING) {
        Some(rest) => String::from_str(alloc, rest),
        None => Ok(digits),
    }
}

/// A registration as a line: the phone, the plate and the terminal id, with a tab between two.
pub fn registration_line(
    alloc: Global,
    phone: &Phone,
    registered: &Registered,
) -> Result<String, AllocError> {
    let digits = phone_text(alloc, phone)?;
    let plate = in_gbk(alloc, registered.plate.as_slice())?;
    let terminal = in_gbk(alloc, registered.terminal.as_slice())?;
    format!(in alloc; "{digits}\t{plate}\t{terminal}\n")
}

// Puts the line of the next registration. Gives its phone.
fn put_next<O: Lists>(
    alloc: Global,
    lists: &mut O,
    after: Option<&Phone>,
    page: &mut String,
) -> Result<Option<Phone>, StoreError> {
    let Some((phone, registered)) = lists.next_registered(alloc, after)? else {
        return Ok(None);
    };
    let line = registration_line(alloc, &phone, &registered)?;
    page.push_str(line.as_str())?;
    Ok(Some(phone))
}

/// Puts the lines of some registrations, those behind a phone. Gives the last phone; None where no more are behind it.
pub(crate) fn put_page<O: Lists>(
    alloc: Global,
    lists: &mut O,
    after: Option<Phone>,
    page: &mut String,
) -> Result<Option<Phone>, StoreError> {
    let mut last = after;
    for _ in 0..PAGE {
        match put_next(alloc, lists, last.as_ref(), page)? {
            Some(phone) => last = Some(phone),
            None => return Ok(None),
        }
    }
    Ok(last)
}

/// The lines of all registrations.
pub(crate) fn all_lines<O: Lists>(alloc: Global, lists: &mut O) -> Result<String, StoreError> {
    let mut lines = String::new(alloc);
    let mut last = None;
    for _ in 0..u64::MAX {
        last = put_page(alloc, lists, last, &mut lines)?;
        if last.is_none() {
            break;
        }
    }
    Ok(lines)
}
