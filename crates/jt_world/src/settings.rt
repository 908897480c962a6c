//! Who the terminal of a rehearsal is, and which vehicles its platform knows.

ghost use Rattle.std.specs.Prelude.{◌≡◌, [], ◌∷◌, IfOk};
ghost use Rattle.jt_header.specs.Content.{IsPhone};
ghost use Rattle.jt_terminal_rule.specs.Messages.{AreSettings};
ghost use Rattle.jt_world.specs.Rehearsal.{the_identity, the_phone, the_plate, the_secret, the_setting, the_settings, the_terminal};

use jt_platform::Fleet;
use jt_play::Identity;
use jt_terminal_rule::{Settings, settings_for};
use jt_value::{Edition, Memory, Octets, Phone, Seq};
use std::alloc::Global;

// The phone 013912345678. Both editions have its twenty digits.
fn phone(edition: Edition) -> Phone
    ensures is { result ≡ the_phone edition }
    ensures good { IsPhone result }
{
    Phone {
        edition,
        digits: [0, 0, 0, 0, 0x01, 0x39, 0x12, 0x34, 0x56, 0x78],
    }
}

fn plate(alloc: Global) -> Result<Octets, Memory>
    ensures { IfOk result (λ octets. octets ≡ the_plate) }
{
    Ok(Octets::from_vec(Vec::from_slice(alloc, b"JT808")?))
}

fn terminal(alloc: Global) -> Result<Octets, Memory>
    ensures { IfOk result (λ octets. octets ≡ the_terminal) }
{
    Ok(Octets::from_vec(Vec::from_slice(alloc, b"1234567")?))
}

/// The secret of each hub.
pub fn secret(alloc: Global) -> Result<Octets, Memory>
    ensures { IfOk result (λ octets. octets ≡ the_secret) }
{
    Ok(Octets::from_vec(Vec::from_slice(alloc, b"12")?))
}

fn alone(alloc: Global, octets: Octets) -> Result<Seq<Octets>, Memory>
    ensures { IfOk result (λ list. list ≡ octets ∷ []) }
{
    let mut list = Seq::new(alloc);
    list.push(octets)?;
    Ok(list)
}

/// The fleet of each hub: the plate and the terminal id of the terminal.
pub fn fleet(alloc: Global) -> Result<Fleet, Memory>
    ensures { IfOk result (λ fleet. fleet ≡ the_setting.fleet) }
{
    Ok(Fleet {
        plates: alone(alloc, plate(alloc)?)?,
        terminals: alone(alloc, terminal(alloc)?)?,
    })
}

fn settings(alloc: Global, edition: Edition) -> Result<Settings, Memory>
    ensures are { IfOk result (λ settings. settings ≡ the_settings edition) }
    ensures good { IfOk result AreSettings }
{
    settings_for(alloc, phone(edition), plate(alloc)?, terminal(alloc)?)
}

/// The terminal in both editions.
pub fn identity(alloc: Global) -> Result<Identity, Memory>
    ensures is { IfOk result (λ identity. identity ≡ the_identity) }
    ensures first { IfOk result (λ identity. AreSettings identity.e2013) }
    ensures second { IfOk result (λ identity. AreSettings identity.e2019) }
{
    Ok(Identity {
        e2013: settings(alloc, Edition::E2013)?,
        e2019: settings(alloc, Edition::E2019)?,
    })
}
