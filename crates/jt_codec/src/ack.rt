//! General responses.

ghost use Rattle.std.specs.Prelude.{◌≡◌, ◌++◌, IfOk, MatchResult};
ghost use Rattle.jt_layout.specs.Answer.{Answers};
ghost use Rattle.jt_layout.specs.Layout.{Fills};
ghost use Rattle.jt_layout.specs.Reading.{Finds};
ghost use Rattle.jt_codec.specs.Layouts.{ack};

use jt_layout::{Reader, Writer};
use jt_value::{CodecError, Memory, Octets, Refusal};
use std::alloc::Global;

#[inline(always)]
#[tactic(auto, unfolding(crate::specs::Layouts::ack))]
fn fields_in(octets: &[u8]) -> Result<(u16, u16, u8), Refusal>
    ensures { Finds (λ fields. fields) result (ack.read octets.now 0) }
{
    let mut reader = Reader::new(octets);
    let reply = reader.word()?;
    let id = reader.word()?;
    let answer = reader.byte()?;
    reader.end()?;
    Ok((reply, id, answer))
}

// The serial and the id that are answered, and the result.
#[inline(always)]
pub(crate) fn view_ack(octets: &[u8]) -> Result<(u16, u16, u8), Refusal>
    ensures { MatchResult result (Fills ack octets.now 0)
        (λ refusal. ack.Refuses octets.now 0 refusal) }
{
    fields_in(octets)
}

// The same beside readers that may want memory.
pub(crate) fn read_ack(octets: &[u8]) -> Result<(u16, u16, u8), CodecError>
    ensures { Answers ack octets.now result }
{
    Ok(view_ack(octets)?)
}

#[tactic(auto, using(std::proofs::Common::append_assoc), unfolding(crate::specs::Layouts::ack))]
pub(crate) fn write_ack(alloc: Global, reply: u16, id: u16, answer: u8) -> Result<Octets, Memory>
    ensures { IfOk result (λ octets. octets ≡ ack.spell (reply, id, answer)) }
{
    let mut writer = Writer::new(alloc);
    writer.word(reply)?;
    writer.word(id)?;
    writer.byte(answer)?;
    Ok(writer.finish())
}
