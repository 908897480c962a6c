//! A terminal over a vault in memory, and what it says.

ghost use Rattle.std.specs.Prelude.{◌≡◌, ◌≤◌, IfSome};

use crate::starting::{octets, settings};
use jt_position::Fix;
use jt_store::{MemVault, StoreError};
use jt_terminal::{Actions, Event, GiveUp, Terminal, TerminalError};
use jt_value::{Edition, Memory, Octets, Seq};
use std::alloc::Global;

/// A terminal with these settings over a vault of which these calls fail.
pub fn started(alloc: Global, edition: Edition, failing: Seq<u64>) -> Option<Terminal<MemVault>>
    ensures { IfSome result (λ terminal. terminal.state.time ≡ 0) }
{
    let settings = settings(alloc, edition)?;
    match Terminal::start(alloc, MemVault::new(alloc, 100_000, failing), settings) {
        Ok(terminal) => Some(terminal),
        Err(_) => None,
    }
}

/// The frames, the units that were told as accepted, and the end, or the error, as octets.
pub fn transcript(
    alloc: Global,
    answer: &Result<Actions, TerminalError>,
) -> Result<Octets, Memory> {
    let mut said = Vec::new(alloc);
    match answer {
        Ok(actions) => {
            for frame in actions.frames.as_slice() {
                said.extend_from_slice(frame.as_slice())?;
            }
            for older in actions.told.as_slice() {
                said.extend_from_slice(b"told ")?;
                said.extend_from_slice(&older.to_be_bytes())?;
            }
            write_end(&actions.end, &mut said)?;
        }
        Err(TerminalError::Store) => said.extend_from_slice(b"store")?,
        Err(TerminalError::Memory) => said.extend_from_slice(b"memory")?,
    }
    Ok(Octets::from_vec(said))
}

fn write_end(end: &Option<GiveUp>, said: &mut Vec<u8>) -> Result<(), Memory> {
    match end {
        None => {}
        Some(GiveUp::Denied(octets)) => {
            said.extend_from_slice(b"denied ")?;
            said.extend_from_slice(octets.as_slice())?;
        }
        Some(GiveUp::TimedOut { since, now }) => {
            said.extend_from_slice(b"timed out ")?;
            said.extend_from_slice(&since.to_be_bytes())?;
            said.extend_from_slice(&now.to_be_bytes())?;
        }
    }
    Ok(())
}

/// The fix is recorded.
pub fn note(alloc: Global, terminal: &mut Terminal<MemVault>, fix: &Fix) -> Result<Octets, Memory>
    ensures { terminal.new.state.time ≡ terminal.old.state.time }
{
    match terminal.note_fix(alloc, fix) {
        Ok(()) => octets(alloc, b""),
        Err(StoreError::Failed) => octets(alloc, b"failed"),
        Err(StoreError::Full(_)) => octets(alloc, b"full"),
        Err(StoreError::Memory) => octets(alloc, b"memory"),
    }
}

/// The fix at this latitude is recorded.
pub fn note_at(alloc: Global, terminal: &mut Terminal<MemVault>, lat: u32) -> Result<Octets, Memory>
    ensures { terminal.new.state.time ≡ terminal.old.state.time }
{
    let fix = Fix::at(alloc, lat)?;
    note(alloc, terminal, &fix)
}

/// A line is opened.
pub fn open(alloc: Global, terminal: &mut Terminal<MemVault>) -> Result<Octets, Memory>
    ensures { terminal.new.state.time ≡ terminal.old.state.time }
{
    let result = terminal.event(alloc, Event::Opened);
    transcript(alloc, &result)
}

/// It is this moment.
pub fn tick(alloc: Global, terminal: &mut Terminal<MemVault>, now: u64) -> Result<Octets, Memory>
    requires { terminal.old.state.time ≤ now }
    ensures { terminal.new.state.time ≡ now }
{
    let result = terminal.event(alloc, Event::Tick(now));
    transcript(alloc, &result)
}
