//! Texts and orders.

ghost use Rattle.std.specs.Prelude.{◌≡◌, ◌++◌, IfOk, MatchResult};
ghost use Rattle.jt_layout.specs.Answer.{Answers};
ghost use Rattle.jt_layout.specs.Layout.{Fills};
ghost use Rattle.jt_layout.specs.Reading.{Finds, Gives};
ghost use Rattle.jt_codec.specs.Bodies.{Fits, body_octets};
ghost use Rattle.jt_codec.specs.Layouts.{flag_kind_and_text, octet_and_text};
ghost use Rattle.jt_codec.specs.declared.message.Message.TheVariants as message;

use jt_layout::{Reader, Writer};
use jt_value::{CodecError, Edition, Memory, Octets, Refusal};
use std::alloc::Global;

#[tactic(auto, unfolding(crate::specs::Layouts::octet_and_text, jt_layout::specs::Layout::rest))]
fn octet_and_slice<'a>(octets: &'a [u8]) -> Result<(u8, &'a [u8]), Refusal>
    ensures { Finds (λ fields. (fields.0, fields.1.now)) result (octet_and_text.read octets.now 0) }
{
    let mut reader = Reader::new(octets);
    let octet = reader.byte()?;
    Ok((octet, &octets[reader.place()..]))
}

// A flag or a command, and the text behind it, in place.
pub(crate) fn view_octet_and_text<'a>(octets: &'a [u8]) -> Result<(u8, &'a [u8]), Refusal>
    ensures { MatchResult result
        (λ fields. Fills octet_and_text octets.now 0 (fields.0, fields.1.now))
        (λ refusal. octet_and_text.Refuses octets.now 0 refusal) }
{
    octet_and_slice(octets)
}

#[tactic(auto, unfolding(crate::specs::Layouts::flag_kind_and_text, jt_layout::specs::Layout::rest))]
fn flag_kind_and_slice<'a>(octets: &'a [u8]) -> Result<(u8, u8, &'a [u8]), Refusal>
    ensures { Finds (λ fields. (fields.0, fields.1, fields.2.now)) result
        (flag_kind_and_text.read octets.now 0) }
{
    let mut reader = Reader::new(octets);
    let flag = reader.byte()?;
    let kind = reader.byte()?;
    Ok((flag, kind, &octets[reader.place()..]))
}

// A flag, a kind and the text behind them, in place.
pub(crate) fn view_flag_kind_and_text<'a>(octets: &'a [u8]) -> Result<(u8, u8, &'a [u8]), Refusal>
    ensures { MatchResult result
        (λ fields. Fills flag_kind_and_text octets.now 0 (fields.0, fields.1, fields.2.now))
        (λ refusal. flag_kind_and_text.Refuses octets.now 0 refusal) }
{
    flag_kind_and_slice(octets)
}

#[tactic(auto, unfolding(crate::specs::Layouts::octet_and_text))]
fn octet_and_text_in(alloc: Global, octets: &[u8]) -> Result<(u8, Octets), CodecError>
    ensures { Gives (λ fields. fields) result (octet_and_text.read octets.now 0) }
{
    let mut reader = Reader::new(octets);
    let octet = reader.byte()?;
    let text = reader.rest(alloc)?;
    Ok((octet, text))
}

// A flag or a command, and the text behind it.
pub(crate) fn read_octet_and_text(alloc: Global, octets: &[u8]) -> Result<(u8, Octets), CodecError>
    ensures { Answers octet_and_text octets.now result }
{
    octet_and_text_in(alloc, octets)
}

#[tactic(auto, using(std::proofs::Common::append_assoc), unfolding(crate::specs::Layouts::octet_and_text, jt_layout::specs::Layout::rest))]
pub(crate) fn write_octet_and_text(
    alloc: Global,
    octet: u8,
    text: &Octets,
) -> Result<Octets, Memory>
    ensures { IfOk result (λ octets. octets ≡ octet_and_text.spell (octet, text.now)) }
{
    let mut writer = Writer::new(alloc);
    writer.byte(octet)?;
    writer.octets(text.as_slice())?;
    Ok(writer.finish())
}

#[tactic(auto, unfolding(crate::specs::Layouts::flag_kind_and_text))]
fn flag_kind_and_text_in(alloc: Global, octets: &[u8]) -> Result<(u8, u8, Octets), CodecError>
    ensures { Gives (λ fields. fields) result (flag_kind_and_text.read octets.now 0) }
{
    let mut reader = Reader::new(octets);
    let flag = reader.byte()?;
    let kind = reader.byte()?;
    let text = reader.rest(alloc)?;
    Ok((flag, kind, text))
}

// A flag, a kind and the text behind them.
pub(crate) fn read_flag_kind_and_text(
    alloc: Global,
    octets: &[u8],
) -> Result<(u8, u8, Octets), CodecError>
    ensures { Answers flag_kind_and_text octets.now result }
{
    flag_kind_and_text_in(alloc, octets)
}

#[tactic(auto, using(std::proofs::Common::append_assoc), unfolding(crate::specs::Layouts::flag_kind_and_text, jt_layout::specs::Layout::rest))]
fn write_flag_kind_and_text(
    alloc: Global,
    flag: u8,
    kind: u8,
    text: &Octets,
) -> Result<Octets, Memory>
    ensures { IfOk result (λ octets. octets ≡ flag_kind_and_text.spell (flag, kind, text.now)) }
{
    let mut writer = Writer::new(alloc);
    writer.byte(flag)?;
    writer.byte(kind)?;
    writer.octets(text.as_slice())?;
    Ok(writer.finish())
}

// The body of a text, which has a kind exactly in 2019.
#[tactic(auto, unfolding(crate::specs::Bodies::body))]
pub(crate) fn write_text(
    alloc: Global,
    edition: Edition,
    flag: u8,
    kind: Option<u8>,
    text: &Octets,
) -> Result<Octets, Memory>
    requires { Fits edition (message.Text flag kind text.now) }
    ensures { IfOk result (λ octets.
        octets ≡ body_octets edition (message.Text flag kind text.now)) }
{
    match (edition, kind) {
        (Edition::E2019, Some(kind)) => write_flag_kind_and_text(alloc, flag, kind, text),
        _ => write_octet_and_text(alloc, flag, text),
    }
}
