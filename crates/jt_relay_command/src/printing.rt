//! The printed lines of `relay`, each put at the end of a text.

ghost use Rattle.std.specs.Prelude.{◌≡◌, ◌++◌, string_bytes, OnOk};
ghost use Rattle.jt_relay_command.specs.Replies.{behind_line, long_line, relay_reply, relayed_line};

use jt_input::{EarlyEnd, Status};
use jt_relay::{RelayError, Relayed};
use std::alloc::AllocError;
use std::fmt::Write;

#[tactic(auto, unfolding(crate::specs::Replies::relayed_line))]
fn push_relayed(text: &mut String, relayed: Relayed) -> Result<(), AllocError>
    ensures { OnOk result (string_bytes text.new
        ≡ string_bytes text.old ++ relayed_line relayed.added relayed.fixes) }
{
    let Relayed { added, fixes } = relayed;
    write!(text, "relayed={added} of {fixes}\n")
}

#[tactic(auto, unfolding(crate::specs::Replies::behind_line))]
fn push_behind(text: &mut String, recorded: u64, fixes: u64) -> Result<(), AllocError>
    ensures { OnOk result
        (string_bytes text.new ≡ string_bytes text.old ++ behind_line recorded fixes) }
{
    write!(text, "behind {recorded} {fixes}\n")
}

#[tactic(auto, unfolding(crate::specs::Replies::long_line))]
fn push_long(text: &mut String, number: u64) -> Result<(), AllocError>
    ensures { OnOk result (string_bytes text.new ≡ string_bytes text.old ++ long_line number) }
{
    write!(text, "long at {number}\n")
}

/// What a relay came to: `relayed=N of M` for all of M fixes, of which N were new, `behind R M` for a vault with R fixes
/// over rows with M, `long at NUMBER` for the row with a fix of more than 1,023 octets, `vault full at L`, or `store fault`.
/// Of want of memory nothing is put.
pub fn push_outcome(
    text: &mut String,
    outcome: &Result<Relayed, RelayError>,
) -> Result<(), AllocError>
    ensures { OnOk result (string_bytes text.new
        ≡ string_bytes text.old ++ (relay_reply outcome.now).text) }
{
    match *outcome {
        Ok(relayed) => push_relayed(text, relayed),
        Err(RelayError::Behind { recorded, fixes }) => push_behind(text, recorded, fixes),
        Err(RelayError::Long { number }) => push_long(text, number),
        Err(RelayError::Full(limit)) => EarlyEnd::VaultFull(limit).push(text),
        Err(RelayError::Keeper) | Err(RelayError::Vault) => EarlyEnd::StoreFault.push(text),
        Err(RelayError::Memory) => Ok(()),
    }
}

/// The status that goes with what a relay came to.
pub fn status_of(outcome: &Result<Relayed, RelayError>) -> Status
    ensures { result ≡ (relay_reply outcome.now).status }
{
    match outcome {
        Ok(_) => Status::Done,
        Err(RelayError::Behind { .. }) | Err(RelayError::Long { .. }) => Status::Refused,
        Err(RelayError::Full(_)) | Err(RelayError::Keeper) | Err(RelayError::Vault) => {
            Status::StoreFault
        }
        Err(RelayError::Memory) => Status::Memory,
    }
}
