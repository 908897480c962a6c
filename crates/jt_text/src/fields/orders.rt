//! The fields of tracks, texts and orders.

ghost use Rattle.std.specs.Prelude.{◌≡◌, ◌++◌, string_bytes, codes, OnOk};
ghost use Rattle.std.specs.Io.{StartsWith};
ghost use Rattle.jt_text.specs.OrderFields.{control_fields, kind_text, number_text, text_fields, track_fields};

use crate::line::Line;
use crate::values::{push_number, push_octets};
use std::alloc::AllocError;

fn push_validity(text: &mut String, validity: Option<u32>) -> Result<(), AllocError>
    ensures text { OnOk result (string_bytes text.new
        ≡ string_bytes text.old ++ (codes " validity=" ++ number_text validity)) }
    ensures kept { StartsWith (string_bytes text.new) (string_bytes text.old) }
{
    match validity {
        None => text.push_str(" validity=-"),
        Some(validity) => push_number(text, " validity=", validity as u64),
    }
}

#[tactic(auto, using(std::proofs::Common::append_assoc), unfolding(crate::specs::OrderFields::track_fields))]
pub(crate) fn push_track(
    text: &mut String,
    interval: u16,
    validity: Option<u32>,
) -> Result<(), AllocError>
    ensures text { OnOk result
        (string_bytes text.new ≡ string_bytes text.old ++ track_fields interval validity) }
    ensures kept { StartsWith (string_bytes text.new) (string_bytes text.old) }
{
    push_number(text, " interval=", interval as u64)?;
    push_validity(text, validity)
}

// The kind, which 2013 has not.
fn push_kind(text: &mut String, kind: Option<u8>) -> Result<(), AllocError>
    ensures text { OnOk result (string_bytes text.new ≡ string_bytes text.old ++ kind_text kind) }
    ensures kept { StartsWith (string_bytes text.new) (string_bytes text.old) }
{
    match kind {
        None => Ok(()),
        Some(kind) => push_number(text, " kind=", kind as u64),
    }
}

#[tactic(auto, using(std::proofs::Common::append_assoc), unfolding(crate::specs::OrderFields::text_fields))]
pub(crate) fn push_text(
    text: &mut String,
    line: &mut Line,
    flag: u8,
    kind: Option<u8>,
    octets: &[u8],
) -> Result<(), AllocError>
    ensures text { OnOk result
        (string_bytes text.new ≡ string_bytes text.old ++ text_fields flag kind octets.now) }
    ensures kept { StartsWith (string_bytes text.new) (string_bytes text.old) }
{
    push_number(text, " flag=", flag as u64)?;
    push_kind(text, kind)?;
    push_octets(text, line, " text=", octets)
}

#[tactic(auto, using(std::proofs::Common::append_assoc), unfolding(crate::specs::OrderFields::control_fields))]
pub(crate) fn push_control(
    text: &mut String,
    line: &mut Line,
    command: u8,
    octets: &[u8],
) -> Result<(), AllocError>
    ensures text { OnOk result
        (string_bytes text.new ≡ string_bytes text.old ++ control_fields command octets.now) }
    ensures kept { StartsWith (string_bytes text.new) (string_bytes text.old) }
{
    push_number(text, " command=", command as u64)?;
    push_octets(text, line, " text=", octets)
}
