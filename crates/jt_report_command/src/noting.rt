//! The fixes of a source's lines, each recorded as it is read.

ghost use Rattle.std.specs.Prelude.{◌≡◌, ◌≤◌, ℕ, List, false, IsErrOf};
ghost use Rattle.jt_value.specs.Counts.{Rose};
ghost use Rattle.jt_report_command.specs.FixLines.{Says};
ghost use Rattle.jt_report_command.specs.declared.line.FixLine.TheVariants.{Fix as FixOf};
ghost use Rattle.jt_report_command.specs.Noting.{noting};
ghost use Rattle.jt_report_command.specs.Reading.{NotesFixes};
ghost use Rattle.jt_report_command.specs.NotingSteps.{Beside, NotesLine};
ghost use Rattle.jt_report_command.specs.declared.noting.FixesError.TheVariants as told;

use crate::{FixLine, fix_line};
use jt_input::{LineReader, NextLine, law_lines};
use jt_outside::Source;
use jt_position::Fix;
use jt_store::{StoreError, Vault};
use jt_terminal::Terminal;
use jt_value::Memory;
use std::alloc::Global;

/// Why not all lines of a source were recorded.
#[derive(Drop)]
pub enum FixesError {
    /// The line of this number, from 1, is bad: what it says.
    BadLine(u64, FixLine),
    /// The line of this number is beyond the limits: it has more than 4,096 octets, or comes after the 10,000,000th.
    BeyondLimits(u64),
    /// As many fixes as the vault's limit, which this is, are not accepted, and the next line says one more.
    VaultFull(u64),
    /// The vault failed: its count of faults rose.
    VaultFailed,
    /// A read of the source failed.
    ReadFailed,
    /// Memory was wanted and refused.
    Memory,
}

// Records a fix.
fn note_fix<V: Vault>(
    alloc: Global,
    terminal: &mut Terminal<V>,
    fix: &Fix,
) -> Result<(), FixesError>
    ensures line { (number : ℕ) (line : List ℕ) → Says line (FixOf fix.now) →
        NotesLine result (V.limit terminal.old.vault) number line
        (noting terminal.old.state (V.holds terminal.old.vault))
        (noting terminal.new.state (V.holds terminal.new.vault)) }
    ensures beside { Beside terminal.old.state terminal.new.state (V.faults terminal.old.vault)
        (V.faults terminal.new.vault) (V.limit terminal.old.vault) (V.limit terminal.new.vault)
        (V.may_fail terminal.old.vault) (V.may_fail terminal.new.vault) result }
{
    match terminal.note_fix(alloc, fix) {
        Ok(()) => Ok(()),
        Err(StoreError::Full(limit)) => Err(FixesError::VaultFull(limit)),
        Err(StoreError::Failed) => Err(FixesError::VaultFailed),
        Err(StoreError::Memory) => Err(FixesError::Memory),
    }
}

// Records what a line of this number says, if that is a fix.
fn note_said<V: Vault>(
    alloc: Global,
    terminal: &mut Terminal<V>,
    number: u64,
    said: FixLine,
) -> Result<(), FixesError>
    ensures line { (line : List ℕ) → Says line said → NotesLine result (V.limit terminal.old.vault)
        number line (noting terminal.old.state (V.holds terminal.old.vault))
        (noting terminal.new.state (V.holds terminal.new.vault)) }
    ensures beside { Beside terminal.old.state terminal.new.state (V.faults terminal.old.vault)
        (V.faults terminal.new.vault) (V.limit terminal.old.vault) (V.limit terminal.new.vault)
        (V.may_fail terminal.old.vault) (V.may_fail terminal.new.vault) result }
{
    match said {
        FixLine::Passed => Ok(()),
        FixLine::Fix(fix) => note_fix(alloc, terminal, &fix),
        FixLine::BadHex => Err(FixesError::BadLine(number, FixLine::BadHex)),
        FixLine::Long => Err(FixesError::BadLine(number, FixLine::Long)),
        FixLine::Refused(refusal) => Err(FixesError::BadLine(number, FixLine::Refused(refusal))),
    }
}

// Records the fix of a line of this number, if it says one.
fn note_line<V: Vault>(
    alloc: Global,
    terminal: &mut Terminal<V>,
    number: u64,
    line: &[u8],
) -> Result<(), FixesError>
    ensures line { NotesLine result (V.limit terminal.old.vault) number line.now
        (noting terminal.old.state (V.holds terminal.old.vault))
        (noting terminal.new.state (V.holds terminal.new.vault)) }
    ensures beside { Beside terminal.old.state terminal.new.state (V.faults terminal.old.vault)
        (V.faults terminal.new.vault) (V.limit terminal.old.vault) (V.limit terminal.new.vault)
        (V.may_fail terminal.old.vault) (V.may_fail terminal.new.vault) result }
{
    match fix_line(alloc, line) {
        Ok(said) => note_said(alloc, terminal, number, said),
        Err(Memory) => Err(FixesError::Memory),
    }
}

/// Reads the lines of a source, each of which is the hexadecimal digits of a fix or passed over, and has the terminal record
/// each fix as it is read. It ends at the first line that is bad or whose fix is not recorded: the fixes of the lines before
/// it are recorded, and no other.
pub fn note_fixes<S: Source, V: Vault>(
    alloc: Global,
    source: &mut S,
    terminal: &mut Terminal<V>,
) -> Result<(), FixesError>
    ensures notes { NotesFixes result (V.limit terminal.old.vault) (S.left source.old)
        (S.left source.new) (noting terminal.old.state (V.holds terminal.old.vault))
        (noting terminal.new.state (V.holds terminal.new.vault)) }
    ensures read_failed { IsErrOf result told.ReadFailed →
        Rose (S.faults source.old) (S.faults source.new) }
    ensures vault_failed { IsErrOf result told.VaultFailed →
        Rose (V.faults terminal.old.vault) (V.faults terminal.new.vault) }
    // Every other answer, so Memory too, comes only where the counts of faults stood still.
    ensures read_still { ¬ IsErrOf result told.ReadFailed →
        S.faults source.new ≡ S.faults source.old }
    ensures vault_still { ¬ IsErrOf result told.VaultFailed →
        V.faults terminal.new.vault ≡ V.faults terminal.old.vault }
    // The terminal has a line where it had one, and it is as late as it was.
    ensures phase { terminal.new.state.phase ≡ terminal.old.state.phase }
    ensures time { terminal.new.state.time ≡ terminal.old.state.time }
    ensures sent { terminal.new.state.sent ≡ terminal.old.state.sent }
    // The limit stays, no count of faults falls, and a vault of which no call may fail does not fail.
    ensures limit { V.limit terminal.new.vault ≡ V.limit terminal.old.vault }
    ensures source { S.faults source.old ≤ S.faults source.new }
    ensures vault { V.faults terminal.old.vault ≤ V.faults terminal.new.vault }
    ensures steady { V.may_fail terminal.old.vault ≡ false →
        (V.may_fail terminal.new.vault ≡ false) × (IsErrOf result told.VaultFailed → ⊥) }
{
    law_lines();
    let mut lines = LineReader::new();
    let mut number = 1;
    loop {
        match lines.next(source) {
            NextLine::Line => match note_line(alloc, terminal, number, lines.line()) {
                Ok(()) => number += 1,
                Err(error) => return Err(error),
            },
            NextLine::Last => return note_line(alloc, terminal, number, lines.line()),
            NextLine::End => return Ok(()),
            NextLine::Bad(number) => return Err(FixesError::BeyondLimits(number)),
            NextLine::Failed => return Err(FixesError::ReadFailed),
        }
    }
}
