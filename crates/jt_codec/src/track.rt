//! Orders to report positions one after the other.

ghost use Rattle.std.specs.Prelude.{◌≡◌, ◌++◌, ◌==◌, true, IfOk, MatchResult, OnOk};
ghost use Rattle.jt_layout.specs.Answer.{Answers};
ghost use Rattle.jt_layout.specs.Layout.{if_body, may_end, ended, only_if, dword, spell_option, Fills};
ghost use Rattle.jt_layout.specs.Reading.{Finds};
ghost use Rattle.jt_codec.specs.Layouts.{track};

use jt_layout::{Reader, Writer};
use jt_value::{CodecError, Memory, Octets, Refusal};
use std::alloc::Global;

// The validity, which may be missing where the interval is 0.
#[tactic(auto, unfolding(jt_layout::specs::Layout::only_if))]
fn validity_in(reader: &mut Reader<'_>, interval: u16) -> Result<Option<u32>, Refusal>
    ensures { Finds (λ validity. validity) result ((if_body (interval == 0) (may_end dword)
        (ended (only_if true dword))).read reader.old.octets reader.old.place) }
{
    if interval == 0 && reader.is_at_end() {
        return Ok(None);
    }
    let validity = reader.dword()?;
    reader.end()?;
    Ok(Some(validity))
}

#[tactic(auto, unfolding(crate::specs::Layouts::track))]
fn track_in(octets: &[u8]) -> Result<(u16, Option<u32>), Refusal>
    ensures { Finds (λ fields. fields) result (track.read octets.now 0) }
{
    let mut reader = Reader::new(octets);
    let interval = reader.word()?;
    let validity = validity_in(&mut reader, interval)?;
    Ok((interval, validity))
}

// The interval and the validity, both in seconds.
pub(crate) fn view_track(octets: &[u8]) -> Result<(u16, Option<u32>), Refusal>
    ensures { MatchResult result (Fills track octets.now 0)
        (λ refusal. track.Refuses octets.now 0 refusal) }
{
    track_in(octets)
}

// The same beside readers that may want memory.
pub(crate) fn read_track(octets: &[u8]) -> Result<(u16, Option<u32>), CodecError>
    ensures { Answers track octets.now result }
{
    Ok(view_track(octets)?)
}

// A validity, if there is one.
fn write_validity(writer: &mut Writer, validity: Option<u32>) -> Result<(), Memory>
    ensures { OnOk result (writer.new ≡ writer.old ++ spell_option dword validity) }
{
    match validity {
        Some(validity) => writer.dword(validity),
        None => Ok(()),
    }
}

#[tactic(auto, using(crate::proofs::BodyLaws::spell_track))]
pub(crate) fn write_track(
    alloc: Global,
    interval: u16,
    validity: Option<u32>,
) -> Result<Octets, Memory>
    ensures { IfOk result (λ octets. octets ≡ track.spell (interval, validity)) }
{
    let mut writer = Writer::new(alloc);
    writer.word(interval)?;
    write_validity(&mut writer, validity)?;
    Ok(writer.finish())
}
