//! The lines of a fleet.

ghost use Rattle.std.specs.Prelude.{◌≡◌, ◌↔◌, [], ◌∷◌, IfOk, IsTrue};
ghost use Rattle.jt_input.specs.Spelling.{is_passed as is_passed_over};
ghost use Rattle.jt_platform_command.specs.FleetLines.{octets_in, secret_in, said_by};

use hex::FromHexError;
use jt_value::{Memory, Octets, Seq};
use std::alloc::Global;

/// What a line of a fleet says.
#[derive(Drop)]
pub enum FleetLine {
    /// Nothing: it is empty, or a comment.
    Passed,
    /// The secret that codes are made of.
    Secret(Octets),
    /// The plate of a vehicle.
    Plate(Octets),
    /// The id of a terminal.
    Terminal(Octets),
    /// It is outside all forms.
    Bad,
}

// The octets that pairs of hexadecimal digits write, one pair or more.
fn octets(alloc: Global, digits: &[u8]) -> Result<Option<Octets>, Memory>
    ensures { IfOk result (λ octets. octets ≡ octets_in digits.now) }
{
    if digits.is_empty() {
        return Ok(None);
    }
    match hex::decode(alloc, digits) {
        Ok(octets) => Ok(Some(Seq::from_vec(octets))),
        Err(FromHexError::OutOfMemory) => Err(Memory),
        Err(_) => Ok(None),
    }
}

#[tactic(auto, unfolding(crate::specs::FleetLines::secret_in))]
fn secret(alloc: Global, word: &[u8]) -> Result<Option<Octets>, Memory>
    ensures { IfOk result (λ secret. secret ≡ secret_in word.now) }
{
    if word == b"-".as_slice() {
        return Ok(Some(Seq::new(alloc)));
    }
    octets(alloc, word)
}

fn is_passed(line: &[u8]) -> bool
    ensures { result ≡ is_passed_over line.now }
{
    match line.first() {
        None => true,
        Some(first) => *first == b'#',
    }
}

/// Reads a line of a fleet, without its line feed.
#[tactic(auto, unfolding(crate::specs::FleetLines::said_by))]
pub fn fleet_line(alloc: Global, line: &[u8]) -> Result<FleetLine, Memory>
    ensures { IfOk result (λ said. said ≡ said_by line.now) }
{
    if is_passed(line) {
        return Ok(FleetLine::Passed);
    }
    if let Some(word) = line.strip_prefix(b"secret ".as_slice()) {
        let secret = secret(alloc, word)?;
        return Ok(secret.map_or(FleetLine::Bad, FleetLine::Secret));
    }
    if let Some(digits) = line.strip_prefix(b"plate ".as_slice()) {
        let plate = octets(alloc, digits)?;
        return Ok(plate.map_or(FleetLine::Bad, FleetLine::Plate));
    }
    if let Some(digits) = line.strip_prefix(b"terminal ".as_slice()) {
        let terminal = octets(alloc, digits)?;
        return Ok(terminal.map_or(FleetLine::Bad, FleetLine::Terminal));
    }
    Ok(FleetLine::Bad)
}
