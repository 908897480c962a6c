//! A terminal over a vault in memory, links to it, and what attempts answer, as octets.

ghost use Rattle.std.specs.Prelude.{◌≡◌, IfOk, IfSome};
ghost use Rattle.jt_outside.specs.ScriptLink.{IsUntouched};
ghost use Rattle.jt_terminal_steps.specs.Running.{IsDown};

use jt_agent::{AttemptEnd, Attempted, Outcome};
use jt_outside::ScriptLink;
use jt_position::Fix;
use jt_store::MemVault;
use jt_terminal::Terminal;
use jt_value::{Edition, Memory, Octets, Seq};
use std::alloc::Global;
use terminal_tests::{frames_in, settings};

/// Frames, three words each: the letter by which tables name it (capitals are the terminal's), what it is, and its octets.
///
/// The terminal's registration, authentication and unit of one fix have the serials 0, 1 and 2, and on another line 1, 2 and 3. The
/// platform's reply to the registration gives the code 4142.
const FRAMES: &str = "
    R registration          7e0100002a0139123456780000000000000000000000000000000000000000000000000000000000000031323334353637014a54383038047e
    A authentication        7e0102000201391234567800014142337e
    U unit                  7e0200001c013912345678000200000000000000030000000106bc3e40000000000000240101000000ce7e
    S second_registration   7e0100002a0139123456780001000000000000000000000000000000000000000000000000000000000031323334353637014a54383038057e
    B second_authentication 7e0102000201391234567800024142307e
    V second_unit           7e0200001c013912345678000300000000000000030000000106bc3e40000000000000240101000000cf7e
    r registered            7e8100000501391234567800000000004142b77e
    a let_in                7e8001000501391234567800010001010200b77e
    u accepted              7e8001000501391234567800020002020000b67e
    s second_registered     7e8100000501391234567800000001004142b67e
    b second_let_in         7e8001000501391234567800010002010200b47e
    v second_accepted       7e8001000501391234567800020003020000b77e
    x not_registered        7e810000030139123456780000000001b37e
    y not_let_in            7e8001000501391234567800010001010201b67e
    z not_accepted          7e8001000501391234567800020002020001b77e";

/// The octets of these letters' frames, one behind the other.
pub fn frames(alloc: Global, letters: &[u8]) -> Result<Vec<u8>, Memory> {
    frames_in(alloc, FRAMES, letters)
}

/// A link that gives the frames of these letters, and whose call of this number fails.
pub fn link(alloc: Global, letters: &[u8], failing: u64) -> Result<ScriptLink, Memory>
    ensures { IfOk result (λ link. IsUntouched link) }
{
    let given = Octets::from_vec(frames(alloc, letters)?);
    let mut calls = Seq::new(alloc);
    calls.push(failing)?;
    ScriptLink::new(alloc, given, 65_536, calls)
}

fn started(alloc: Global, failing: u64) -> Option<Terminal<MemVault>>
    ensures { IfSome result (λ terminal. IsDown terminal.state × (terminal.state.time ≡ 0)) }
{
    let settings = settings(alloc, Edition::E2013)?;
    let mut calls = Seq::new(alloc);
    let Ok(()) = calls.push(failing) else {
        return None;
    };
    match Terminal::start(alloc, MemVault::new(alloc, 100_000, calls), settings) {
        Ok(terminal) => Some(terminal),
        Err(_) => None,
    }
}

/// A terminal that recorded a fix, or none, over a vault whose call of this number fails; the first one loads it.
pub fn ready(alloc: Global, has_fix: bool, failing: u64) -> Option<Terminal<MemVault>>
    ensures { IfSome result (λ terminal. IsDown terminal.state × (terminal.state.time ≡ 0)) }
{
    let mut terminal = started(alloc, failing)?;
    if !has_fix {
        return Some(terminal);
    }
    let Ok(fix) = Fix::at(alloc, 1) else {
        return None;
    };
    match terminal.note_fix(alloc, &fix) {
        Ok(()) => Some(terminal),
        Err(_) => None,
    }
}

fn write_end(end: &AttemptEnd, said: &mut Vec<u8>) -> Result<(), Memory> {
    match end {
        AttemptEnd::Dial => said.extend_from_slice(b"dial ")?,
        AttemptEnd::Link => said.extend_from_slice(b"link ")?,
        AttemptEnd::End => said.extend_from_slice(b"end ")?,
        AttemptEnd::Denied(reply) => {
            said.extend_from_slice(b"denied ")?;
            said.extend_from_slice(reply.as_slice())?;
        }
        AttemptEnd::TimedOut { since, now } => {
            said.extend_from_slice(b"timed out ")?;
            said.extend_from_slice(&since.to_be_bytes())?;
            said.extend_from_slice(&now.to_be_bytes())?;
        }
        AttemptEnd::Idle => said.extend_from_slice(b"idle ")?,
        AttemptEnd::Spent => said.extend_from_slice(b"spent ")?,
    }
    Ok(())
}

/// An answer as octets.
pub fn told(alloc: Global, attempted: &Attempted) -> Result<Vec<u8>, Memory> {
    let mut said = Vec::new(alloc);
    match attempted {
        Attempted::Done => said.extend_from_slice(b"done")?,
        Attempted::Ended(end) => write_end(end, &mut said)?,
        Attempted::StoreFault => said.extend_from_slice(b"store fault")?,
        Attempted::Memory => said.extend_from_slice(b"memory")?,
    }
    Ok(said)
}

fn write_ends(ends: &[AttemptEnd], said: &mut Vec<u8>) -> Result<(), Memory> {
    for end in ends {
        write_end(end, said)?;
    }
    Ok(())
}

/// The ends of attempts and what they came to, as octets.
pub fn told_all(alloc: Global, outcome: &Outcome) -> Result<Vec<u8>, Memory> {
    let mut said = Vec::new(alloc);
    match outcome {
        Outcome::Done(ends) => {
            write_ends(ends.as_slice(), &mut said)?;
            said.extend_from_slice(b"done")?;
        }
        Outcome::Unsent(ends) => {
            write_ends(ends.as_slice(), &mut said)?;
            said.extend_from_slice(b"unsent")?;
        }
        Outcome::StoreFault(ends) => {
            write_ends(ends.as_slice(), &mut said)?;
            said.extend_from_slice(b"store fault")?;
        }
        Outcome::Memory => said.extend_from_slice(b"memory")?,
    }
    Ok(said)
}
