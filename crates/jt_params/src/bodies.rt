//! Bodies that carry parameters, or ask for them.

ghost use Rattle.std.specs.Prelude.{◌≡◌, ◌↔◌, IsTrue, IfOk};
ghost use Rattle.jt_layout.specs.Answer.{Answers, IsOneToOne};
ghost use Rattle.jt_layout.specs.Reading.{Gives, Judges};
ghost use Rattle.jt_params.specs.Params as layouts;

use crate::param::Param;
use jt_layout::{Reader, Writer, all_fit};
use jt_value::{CodecError, Memory, Octets, Seq};
use std::alloc::Global;

#[tactic(auto, unfolding(crate::specs::Params::params))]
fn params_in(alloc: Global, octets: &[u8]) -> Result<Seq<Param>, CodecError>
    ensures { Gives (λ params. params) result (layouts.params.read octets.now 0) }
{
    let mut reader = Reader::new(octets);
    let count = reader.byte()?;
    let params = reader.list(alloc, count as usize)?;
    reader.end()?;
    Ok(params)
}

/// Reads a count octet and that many parameters, up to the end. Refused is Truncated at the first field that passes the end,
/// or Trailing where octets are left after the last parameter.
pub fn read_params(alloc: Global, octets: &[u8]) -> Result<Seq<Param>, CodecError>
    ensures { Answers layouts.params octets.now result }
{
    params_in(alloc, octets)
}

/// Judges a count octet and that many parameters, up to the end: the refusal is that of `read_params`, and no list is made.
#[tactic(auto, unfolding(crate::specs::Params::params))]
pub fn judge_params(alloc: Global, octets: &[u8]) -> Result<(), CodecError>
    ensures { Judges result (layouts.params.read octets.now 0) }
{
    let mut reader = Reader::new(octets);
    let count = reader.byte()?;
    reader.pass::<Param>(alloc, count as usize)?;
    Ok(reader.end()?)
}

/// Whether there are at most 255 parameters, each of which has octets.
#[tactic(auto, unfolding(crate::specs::Params::params, jt_layout::specs::Layout::number))]
pub fn params_fit(params: &Seq<Param>) -> bool
    ensures { IsTrue result ↔ layouts.params.Fits params.now }
{
    params.len() < 256 && all_fit(params.as_slice())
}

/// A count octet and the parameters, at most 255, each of which has octets.
#[tactic(auto, using(std::proofs::Common::append_assoc), unfolding(crate::specs::Params::params, jt_layout::specs::Layout::number))]
pub fn write_params(alloc: Global, params: &Seq<Param>) -> Result<Octets, Memory>
    requires { layouts.params.Fits params.now }
    ensures { IfOk result (λ octets. octets ≡ layouts.params.spell params.now) }
{
    let mut writer = Writer::new(alloc);
    writer.byte(params.len() as u8)?;
    writer.list(alloc, params.as_slice())?;
    Ok(writer.finish())
}

#[tactic(auto, unfolding(crate::specs::Params::params_reply))]
fn params_reply_in(alloc: Global, octets: &[u8]) -> Result<(u16, Seq<Param>), CodecError>
    ensures { Gives (λ reply. reply) result (layouts.params_reply.read octets.now 0) }
{
    let mut reader = Reader::new(octets);
    let reply = reader.word()?;
    let count = reader.byte()?;
    let params = reader.list(alloc, count as usize)?;
    reader.end()?;
    Ok((reply, params))
}

/// Reads the answer to a question for parameters: the question's serial, then a count octet and that many parameters, up to
/// the end. Refused as `read_params` says.
pub fn read_params_reply(alloc: Global, octets: &[u8]) -> Result<(u16, Seq<Param>), CodecError>
    ensures { Answers layouts.params_reply octets.now result }
{
    params_reply_in(alloc, octets)
}

/// Judges the answer to a question for parameters: the refusal is that of `read_params_reply`, and no list is made.
#[tactic(auto, unfolding(crate::specs::Params::params_reply))]
pub fn judge_params_reply(alloc: Global, octets: &[u8]) -> Result<(), CodecError>
    ensures { Judges result (layouts.params_reply.read octets.now 0) }
{
    let mut reader = Reader::new(octets);
    reader.word()?;
    let count = reader.byte()?;
    reader.pass::<Param>(alloc, count as usize)?;
    Ok(reader.end()?)
}

/// Whether there are at most 255 parameters, each of which has octets.
#[tactic(auto, unfolding(crate::specs::Params::params_reply, jt_layout::specs::Layout::number))]
pub fn params_reply_fits(reply: u16, params: &Seq<Param>) -> bool
    ensures { IsTrue result ↔ layouts.params_reply.Fits (reply, params.now) }
{
    params.len() < 256 && all_fit(params.as_slice())
}

/// The answer to the question with this serial: the parameters, at most 255, each of which has octets.
#[tactic(auto, using(std::proofs::Common::append_assoc), unfolding(crate::specs::Params::params_reply, jt_layout::specs::Layout::number))]
pub fn write_params_reply(alloc: Global, reply: u16, params: &Seq<Param>) -> Result<Octets, Memory>
    requires { layouts.params_reply.Fits (reply, params.now) }
    ensures { IfOk result (λ octets. octets ≡ layouts.params_reply.spell (reply, params.now)) }
{
    let mut writer = Writer::new(alloc);
    writer.word(reply)?;
    writer.byte(params.len() as u8)?;
    writer.list(alloc, params.as_slice())?;
    Ok(writer.finish())
}

#[tactic(auto, unfolding(crate::specs::Params::query_some))]
fn query_some_in(alloc: Global, octets: &[u8]) -> Result<Seq<u32>, CodecError>
    ensures { Gives (λ ids. ids) result (layouts.query_some.read octets.now 0) }
{
    let mut reader = Reader::new(octets);
    let count = reader.byte()?;
    let ids = reader.list(alloc, count as usize)?;
    reader.end()?;
    Ok(ids)
}

/// Reads a question for some parameters: a count octet and that many ids, up to the end. Refused as `read_params` says.
pub fn read_query_some(alloc: Global, octets: &[u8]) -> Result<Seq<u32>, CodecError>
    ensures { Answers layouts.query_some octets.now result }
{
    query_some_in(alloc, octets)
}

/// Judges a question for some parameters: the refusal is that of `read_query_some`, and no list is made.
#[tactic(auto, unfolding(crate::specs::Params::query_some))]
pub fn judge_query_some(alloc: Global, octets: &[u8]) -> Result<(), CodecError>
    ensures { Judges result (layouts.query_some.read octets.now 0) }
{
    let mut reader = Reader::new(octets);
    let count = reader.byte()?;
    reader.pass::<u32>(alloc, count as usize)?;
    Ok(reader.end()?)
}

/// Whether there are at most 255 ids.
#[tactic(auto, unfolding(crate::specs::Params::query_some, jt_layout::specs::Layout::number))]
pub fn query_some_fits(ids: &Seq<u32>) -> bool
    ensures { IsTrue result ↔ layouts.query_some.Fits ids.now }
{
    ids.len() < 256 && all_fit(ids.as_slice())
}

/// A question for the parameters of these ids, at most 255.
#[tactic(auto, using(std::proofs::Common::append_assoc), unfolding(crate::specs::Params::query_some, jt_layout::specs::Layout::number))]
pub fn write_query_some(alloc: Global, ids: &Seq<u32>) -> Result<Octets, Memory>
    requires { layouts.query_some.Fits ids.now }
    ensures { IfOk result (λ octets. octets ≡ layouts.query_some.spell ids.now) }
{
    let mut writer = Writer::new(alloc);
    writer.byte(ids.len() as u8)?;
    writer.list(alloc, ids.as_slice())?;
    Ok(writer.finish())
}

/// The laws of these bodies: octets have exactly one value or exactly one reason.
pub fn law_param_bodies()
    ensures params { IsOneToOne layouts.params }
    ensures reply { IsOneToOne layouts.params_reply }
    ensures query { IsOneToOne layouts.query_some }
{}
