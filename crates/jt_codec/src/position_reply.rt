//! Positions that answer a query.

ghost use Rattle.std.specs.Prelude.{◌≡◌, ◌++◌, IfOk};
ghost use Rattle.jt_layout.specs.Answer.{Answers};
ghost use Rattle.jt_layout.specs.Reading.{Gives};
ghost use Rattle.jt_position.specs.Positions as layouts;
ghost use Rattle.jt_codec.specs.Layouts.{position_reply};

use jt_layout::{Reader, Writer};
use jt_position::Position;
use jt_value::{CodecError, Memory, Octets};
use std::alloc::Global;

#[tactic(auto, unfolding(crate::specs::Layouts::position_reply))]
fn position_reply_in(alloc: Global, octets: &[u8]) -> Result<(u16, Position), CodecError>
    ensures { Gives (λ fields. fields) result (position_reply.read octets.now 0) }
{
    let mut reader = Reader::new(octets);
    let reply = reader.word()?;
    let position = Position::read_from(alloc, &mut reader)?;
    Ok((reply, position))
}

// The serial of the query, and the position.
pub(crate) fn read_position_reply(
    alloc: Global,
    octets: &[u8],
) -> Result<(u16, Position), CodecError>
    ensures { Answers position_reply octets.now result }
{
    position_reply_in(alloc, octets)
}

#[tactic(auto, unfolding(crate::specs::Layouts::position_reply))]
pub(crate) fn write_position_reply(
    alloc: Global,
    reply: u16,
    position: &Position,
) -> Result<Octets, Memory>
    requires { layouts.position.Fits position.now }
    ensures { IfOk result (λ octets. octets ≡ position_reply.spell (reply, position.now)) }
{
    let mut writer = Writer::new(alloc);
    writer.word(reply)?;
    position.write_to(alloc, &mut writer)?;
    Ok(writer.finish())
}
