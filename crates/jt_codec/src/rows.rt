//! Rows of the body table. Each has a function of its own, since a function makes room for all that its branches may hold.

ghost use Rattle.std.specs.Prelude.{◌≡◌, None, Some};
ghost use Rattle.jt_layout.specs.Answer.{Answers};
ghost use Rattle.jt_layout.specs.Layout.{body_case, rest};
ghost use Rattle.jt_params.specs.Params.{params, params_reply, query_some};
ghost use Rattle.jt_position.specs.Positions.{position, batch};
ghost use Rattle.jt_region_bodies.specs.Regions.{circles, rectangles, polygon, route};
ghost use Rattle.jt_register.specs.Registration.{register, register_reply, auth};
ghost use Rattle.jt_codec.specs.Kinds.{terminal_resend_of, resend_of, register_of, register_reply_of, auth_of, set_params_of, query_some_of, params_of, position_of, position_reply_of, batch_of, track_of, text_of, kind_text_of, control_of, opaque_of, circles_of, rectangles_of, polygon_of, route_of};
ghost use Rattle.jt_codec.specs.Layouts.{position_reply, track, octet_and_text, flag_kind_and_text};
ghost use Rattle.jt_codec.specs.Resend.{resend};
ghost use Rattle.jt_codec.specs.declared.message.Message.TheVariants as message;

use crate::message::Message;
use crate::position_reply::read_position_reply;
use crate::resend::read_resend;
use crate::text::{read_flag_kind_and_text, read_octet_and_text};
use crate::track::read_track;
use jt_params::{read_params, read_params_reply, read_query_some};
use jt_position::{read_batch, read_position};
use jt_region_bodies::{read_circles, read_polygon, read_rectangles, read_route};
use jt_register::{read_auth, read_register, read_register_reply};
use jt_value::{CodecError, Edition, Octets};
use std::alloc::Global;

#[inline(never)]
#[tactic(auto, using(jt_layout::proofs::Answering::answers_case))]
pub(crate) fn terminal_resend_row(
    alloc: Global,
    edition: Edition,
    octets: &[u8],
) -> Result<Message, CodecError>
    ensures { Answers (body_case (resend edition) message.TerminalResend terminal_resend_of)
        octets.now result }
{
    Ok(Message::TerminalResend(read_resend(alloc, edition, octets)?))
}

#[inline(never)]
#[tactic(auto, using(jt_layout::proofs::Answering::answers_case))]
pub(crate) fn resend_row(
    alloc: Global,
    edition: Edition,
    octets: &[u8],
) -> Result<Message, CodecError>
    ensures { Answers (body_case (resend edition) message.Resend resend_of) octets.now result }
{
    Ok(Message::Resend(read_resend(alloc, edition, octets)?))
}

#[inline(never)]
#[tactic(auto, using(jt_layout::proofs::Answering::answers_case))]
pub(crate) fn register_row(
    alloc: Global,
    edition: Edition,
    octets: &[u8],
) -> Result<Message, CodecError>
    ensures { Answers (body_case (register edition) message.Register register_of)
        octets.now result }
{
    Ok(Message::Register(read_register(alloc, edition, octets)?))
}

#[inline(never)]
#[tactic(auto, using(jt_layout::proofs::Answering::answers_case))]
pub(crate) fn register_reply_row(alloc: Global, octets: &[u8]) -> Result<Message, CodecError>
    ensures { Answers (body_case register_reply message.RegisterReply register_reply_of)
        octets.now result }
{
    Ok(Message::RegisterReply(read_register_reply(alloc, octets)?))
}

#[inline(never)]
#[tactic(auto, using(jt_layout::proofs::Answering::answers_case))]
pub(crate) fn auth_row(
    alloc: Global,
    edition: Edition,
    octets: &[u8],
) -> Result<Message, CodecError>
    ensures { Answers (body_case (auth edition) message.Auth auth_of) octets.now result }
{
    Ok(Message::Auth(read_auth(alloc, edition, octets)?))
}

#[inline(never)]
#[tactic(auto, using(jt_layout::proofs::Answering::answers_case))]
pub(crate) fn set_params_row(alloc: Global, octets: &[u8]) -> Result<Message, CodecError>
    ensures { Answers (body_case params message.SetParams set_params_of) octets.now result }
{
    Ok(Message::SetParams(read_params(alloc, octets)?))
}

#[inline(never)]
#[tactic(auto, using(jt_layout::proofs::Answering::answers_case))]
pub(crate) fn query_some_row(alloc: Global, octets: &[u8]) -> Result<Message, CodecError>
    ensures { Answers (body_case query_some message.QuerySome query_some_of) octets.now result }
{
    Ok(Message::QuerySome(read_query_some(alloc, octets)?))
}

#[inline(never)]
#[tactic(auto, using(jt_layout::proofs::Answering::answers_case))]
pub(crate) fn params_row(alloc: Global, octets: &[u8]) -> Result<Message, CodecError>
    ensures { Answers (body_case params_reply (λ x. message.Params x.0 x.1) params_of)
        octets.now result }
{
    let (reply, params) = read_params_reply(alloc, octets)?;
    Ok(Message::Params { reply, params })
}

#[inline(never)]
#[tactic(auto, using(jt_layout::proofs::Answering::answers_case))]
pub(crate) fn position_row(alloc: Global, octets: &[u8]) -> Result<Message, CodecError>
    ensures { Answers (body_case position message.Position position_of) octets.now result }
{
    Ok(Message::Position(read_position(alloc, octets)?))
}

#[inline(never)]
#[tactic(auto, using(jt_layout::proofs::Answering::answers_case))]
pub(crate) fn position_reply_row(alloc: Global, octets: &[u8]) -> Result<Message, CodecError>
    ensures { Answers (body_case position_reply (λ x. message.PositionReply x.0 x.1)
        position_reply_of) octets.now result }
{
    let (reply, position) = read_position_reply(alloc, octets)?;
    Ok(Message::PositionReply { reply, position })
}

#[tactic(auto, using(jt_layout::proofs::Answering::answers_case))]
pub(crate) fn track_row(octets: &[u8]) -> Result<Message, CodecError>
    ensures { Answers (body_case track (λ x. message.Track x.0 x.1) track_of) octets.now result }
{
    let (interval, validity) = read_track(octets)?;
    Ok(Message::Track { interval, validity })
}

#[inline(never)]
#[tactic(auto, using(jt_layout::proofs::Answering::answers_case))]
pub(crate) fn batch_row(alloc: Global, octets: &[u8]) -> Result<Message, CodecError>
    ensures { Answers (body_case batch message.Batch batch_of) octets.now result }
{
    Ok(Message::Batch(read_batch(alloc, octets)?))
}

// A text of 2013, which has no kind.
#[inline(never)]
#[tactic(auto, using(jt_layout::proofs::Answering::answers_case))]
pub(crate) fn text_row(alloc: Global, octets: &[u8]) -> Result<Message, CodecError>
    ensures { Answers (body_case octet_and_text (λ x. message.Text x.0 None x.1) text_of)
        octets.now result }
{
    let (flag, text) = read_octet_and_text(alloc, octets)?;
    let kind = None;
    Ok(Message::Text { flag, kind, text })
}

// A text of 2019, which has a kind.
#[inline(never)]
#[tactic(auto, using(jt_layout::proofs::Answering::answers_case))]
pub(crate) fn kind_text_row(alloc: Global, octets: &[u8]) -> Result<Message, CodecError>
    ensures { Answers (body_case flag_kind_and_text (λ x. message.Text x.0 (Some x.1) x.2)
        kind_text_of) octets.now result }
{
    let (flag, kind, text) = read_flag_kind_and_text(alloc, octets)?;
    let kind = Some(kind);
    Ok(Message::Text { flag, kind, text })
}

#[inline(never)]
#[tactic(auto, using(jt_layout::proofs::Answering::answers_case))]
pub(crate) fn control_row(alloc: Global, octets: &[u8]) -> Result<Message, CodecError>
    ensures { Answers (body_case octet_and_text (λ x. message.Control x.0 x.1) control_of)
        octets.now result }
{
    let (command, text) = read_octet_and_text(alloc, octets)?;
    Ok(Message::Control { command, text })
}

#[inline(never)]
#[tactic(auto, using(jt_layout::proofs::Answering::answers_case))]
pub(crate) fn circles_row(alloc: Global, octets: &[u8]) -> Result<Message, CodecError>
    ensures { Answers (body_case circles (λ x. message.Circles x.0 x.1) circles_of)
        octets.now result }
{
    let (setting, list) = read_circles(alloc, octets)?;
    Ok(Message::Circles { setting, list })
}

#[inline(never)]
#[tactic(auto, using(jt_layout::proofs::Answering::answers_case))]
pub(crate) fn rectangles_row(alloc: Global, octets: &[u8]) -> Result<Message, CodecError>
    ensures { Answers (body_case rectangles (λ x. message.Rectangles x.0 x.1) rectangles_of)
        octets.now result }
{
    let (setting, list) = read_rectangles(alloc, octets)?;
    Ok(Message::Rectangles { setting, list })
}

#[inline(never)]
#[tactic(auto, using(jt_layout::proofs::Answering::answers_case))]
pub(crate) fn polygon_row(alloc: Global, octets: &[u8]) -> Result<Message, CodecError>
    ensures { Answers (body_case polygon message.Polygon polygon_of) octets.now result }
{
    Ok(Message::Polygon(read_polygon(alloc, octets)?))
}

#[inline(never)]
#[tactic(auto, using(jt_layout::proofs::Answering::answers_case))]
pub(crate) fn route_row(alloc: Global, octets: &[u8]) -> Result<Message, CodecError>
    ensures { Answers (body_case route message.Route route_of) octets.now result }
{
    Ok(Message::Route(read_route(alloc, octets)?))
}

// Octets that are not read further.
#[inline(never)]
#[tactic(auto, unfolding(jt_layout::specs::Layout::rest), using(jt_layout::proofs::Answering::answers_case))]
pub(crate) fn opaque_row(alloc: Global, id: u16, octets: &[u8]) -> Result<Message, CodecError>
    ensures { Answers (body_case rest (message.Opaque id) (opaque_of id)) octets.now result }
{
    Ok(Message::Opaque {
        id,
        body: Octets::from_vec(Vec::from_slice(alloc, octets)?),
    })
}
