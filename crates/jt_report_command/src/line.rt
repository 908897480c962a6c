//! The lines of fixes.

ghost use Rattle.std.specs.Prelude.{◌≡◌, IfOk};
ghost use Rattle.jt_input.specs.Spelling.{is_passed as is_passed_over};
ghost use Rattle.jt_report_command.specs.FixLines.{Says, SaysOfOctets};

use hex::FromHexError;
use jt_position::{Fix, FixError};
use jt_value::{Memory, Refusal};
use std::alloc::Global;

/// What a line of fixes says (this project's own form).
#[derive(Drop)]
pub enum FixLine {
    /// Nothing: it is empty, or a comment.
    Passed,
    /// A fix, of at most 1,023 octets.
    Fix(Fix),
    /// It is not an even number of hexadecimal digits alone.
    BadHex,
    /// It is more than 1,023 octets.
    Long,
    /// It is at most 1,023 octets that are no position, and the reason. Its place counts from the first of the octets.
    Refused(Refusal),
}

fn is_passed(line: &[u8]) -> bool
    ensures { result ≡ is_passed_over line.now }
{
    match line.first() {
        None => true,
        Some(first) => *first == b'#',
    }
}

// What octets say as a fix.
fn fix_of(alloc: Global, octets: &[u8]) -> Result<FixLine, Memory>
    ensures { IfOk result (λ said. SaysOfOctets octets.now said) }
{
    match Fix::read(alloc, octets) {
        Ok(fix) => Ok(FixLine::Fix(fix)),
        Err(FixError::Long(_)) => Ok(FixLine::Long),
        Err(FixError::Refused(refusal)) => Ok(FixLine::Refused(refusal)),
        Err(FixError::Memory) => Err(Memory),
    }
}

/// Reads a line of fixes, without its line feed.
pub fn fix_line(alloc: Global, line: &[u8]) -> Result<FixLine, Memory>
    ensures { IfOk result (λ said. Says line.now said) }
{
    if is_passed(line) {
        return Ok(FixLine::Passed);
    }
    match hex::decode(alloc, line) {
        Ok(octets) => fix_of(alloc, octets.as_slice()),
        Err(FromHexError::OutOfMemory) => Err(Memory),
        Err(_) => Ok(FixLine::BadHex),
    }
}
