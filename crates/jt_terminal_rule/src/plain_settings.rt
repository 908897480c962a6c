//! The settings of a terminal of which a phone, a plate and a terminal id are known.

ghost use Rattle.std.specs.Prelude.{◌≡◌, ◌≤◌, length, IfOk};
ghost use Rattle.jt_value.specs.declared.limits.TheConstants.{PLATE_LIMIT};
ghost use Rattle.jt_header.specs.Content.{IsPhone};
ghost use Rattle.jt_register.specs.Registration.{maker_len, model_len, register, terminal_len};
ghost use Rattle.jt_value.specs.Octets.{AreOctets};
ghost use Rattle.jt_terminal_rule.specs.Messages.{AreSettings};
ghost use Rattle.jt_terminal_rule.specs.PlainSettings.{zero_filled, register_of, settings_of, tail_of, zeros as zero_octets};
ghost use Rattle.jt_terminal_rule.specs.Tails.{IsTail};

use crate::settings::Settings;
use jt_layout::octets_fit;
use jt_register::{AuthTail, Register};
use jt_value::{Edition, Memory, Octets, Phone};
use std::alloc::Global;

// How many octets the ids of a registration have in an edition.
#[derive(Clone, Copy)]
struct IdLengths {
    maker: usize,
    model: usize,
    terminal: usize,
}

fn lengths_in(edition: Edition) -> IdLengths
    ensures { result ≡ record {
      maker = maker_len edition;
      model = model_len edition;
      terminal = terminal_len edition;
    } }
{
    match edition {
        Edition::E2013 => IdLengths {
            maker: 5,
            model: 20,
            terminal: 7,
        },
        Edition::E2019 => IdLengths {
            maker: 11,
            model: 30,
            terminal: 30,
        },
    }
}

fn zeros(alloc: Global, count: usize) -> Result<Octets, Memory>
    ensures are { IfOk result (λ octets. octets ≡ zero_octets count) }
    ensures fit { IfOk result (λ octets. AreOctets octets × (length octets ≡ count)) }
{
    let octets = vec![in alloc; 0; count]?;
    let _fit = octets_fit(&octets, count);
    Ok(Octets::from_vec(octets))
}

// These octets, filled with zero octets up to so many.
fn fill(alloc: Global, octets: Octets, count: usize) -> Result<Octets, Memory>
    requires { length octets ≤ count }
    ensures are { IfOk result (λ full. full ≡ zero_filled count octets) }
    ensures fit { IfOk result (λ full. AreOctets full × (length full ≡ count)) }
{
    let missing = count.saturating_sub(octets.len());
    let mut full = octets.into_vec();
    let zeros = vec![in alloc; 0; missing]?;
    full.extend_from_slice(&zeros)?;
    let _fit = octets_fit(&full, count);
    Ok(Octets::from_vec(full))
}

#[tactic(auto, unfolding(jt_register::specs::Registration::register, jt_layout::specs::Layout::number, jt_layout::specs::Layout::octets_of, jt_layout::specs::Layout::rest))]
fn register(
    alloc: Global,
    edition: Edition,
    plate: Octets,
    terminal: Octets,
) -> Result<Register, Memory>
    requires { length terminal ≤ terminal_len edition }
    ensures are { IfOk result (λ register. register ≡ register_of edition plate terminal) }
    ensures fits { IfOk result (register edition).Fits }
{
    let _fit = octets_fit(plate.as_slice(), plate.len());
    let lengths = lengths_in(edition);
    Ok(Register {
        province: 0,
        city: 0,
        maker: zeros(alloc, lengths.maker)?,
        model: zeros(alloc, lengths.model)?,
        terminal: fill(alloc, terminal, lengths.terminal)?,
        colour: 1,
        plate,
    })
}

#[tactic(auto, unfolding(jt_register::specs::Registration::auth_tail, jt_layout::specs::Layout::octets_of))]
fn tail(edition: Edition) -> Option<AuthTail>
    ensures are { result ≡ tail_of edition }
    ensures is { IsTail edition result }
{
    match edition {
        Edition::E2013 => None,
        Edition::E2019 => Some(AuthTail {
            imei: [0; 15],
            software: [0; 20],
        }),
    }
}

/// The settings of a phone, a plate of at most 255 octets and a terminal id of at most as many octets as an id of the phone's edition
/// has (this project's own). Memory comes where memory is refused.
pub fn settings_for(
    alloc: Global,
    phone: Phone,
    plate: Octets,
    terminal: Octets,
) -> Result<Settings, Memory>
    requires phone { IsPhone phone }
    requires plate { length plate ≤ PLATE_LIMIT }
    requires terminal { length terminal ≤ terminal_len phone.edition }
    ensures are { IfOk result (λ settings. settings ≡ settings_of phone plate terminal) }
    ensures good { IfOk result AreSettings }
{
    Ok(Settings {
        phone,
        register: register(alloc, phone.edition, plate, terminal)?,
        tail: tail(phone.edition),
        heartbeat: 60,
        answer: 10,
        repeats: 3,
    })
}
