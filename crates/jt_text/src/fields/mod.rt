//! The fields of messages.

mod lists;
mod orders;
mod params;
mod position;
mod regions;
mod registration;
mod resend;

ghost use Rattle.std.specs.Prelude.{◌≡◌, ◌+◌, ◌≤◌, ◌++◌, length, string_bytes, OnOk};
ghost use Rattle.std.specs.Io.{StartsWith};
ghost use Rattle.jt_text.specs.Fields.{ack_fields, fields_of};
ghost use Rattle.jt_codec.specs.declared.message.Message.TheVariants as message;

use crate::line::Line;
use crate::values::{push_number, push_octets};
use jt_codec::Message;
use jt_params::Param;
use jt_position::Position;
pub(crate) use orders::{push_control, push_text, push_track};
use params::{push_params, push_query_some};
pub(crate) use position::{push_item_views, push_position_views, put_fixed};
use position::{push_batch, push_position};
use regions::{push_circles, push_deletion, push_polygon, push_rectangles, push_route};
use registration::{push_auth, push_register, push_register_reply};
use resend::push_resend;
use std::alloc::AllocError;

/// The fields of a general response, in front of a line.
#[tactic(auto, using(std::proofs::Common::append_assoc), unfolding(crate::specs::Fields::ack_fields))]
#[inline(always)]
pub(crate) fn put_ack(line: &mut Line, reply: u16, id: u16, answer: u8)
    requires { length line.old ≤ 400 }
    ensures text { line.new ≡ ack_fields reply id answer ++ line.old }
    ensures room { length line.new ≤ length line.old + 65 }
{
    line.put_named_number(" result=", answer as u64);
    line.put_named_digits(" id=0x", id.to_be_bytes().as_slice());
    line.put_named_number(" reply=", reply as u64);
}

fn push_ack(
    text: &mut String,
    line: &mut Line,
    reply: u16,
    id: u16,
    answer: u8,
) -> Result<(), AllocError>
    ensures text { OnOk result
        (string_bytes text.new ≡ string_bytes text.old ++ ack_fields reply id answer) }
    ensures kept { StartsWith (string_bytes text.new) (string_bytes text.old) }
{
    line.clear();
    put_ack(line, reply, id, answer);
    line.push_to(text)
}

#[tactic(auto, using(std::proofs::Common::append_assoc))]
fn push_position_reply(
    text: &mut String,
    line: &mut Line,
    reply: u16,
    position: &Position,
) -> Result<(), AllocError>
    ensures text { OnOk result (string_bytes text.new
        ≡ string_bytes text.old ++ fields_of (message.PositionReply reply position.now)) }
    ensures kept { StartsWith (string_bytes text.new) (string_bytes text.old) }
{
    push_number(text, " reply=", reply as u64)?;
    push_position(text, line, position)
}

#[tactic(auto, using(std::proofs::Common::append_assoc))]
fn push_params_reply(
    text: &mut String,
    line: &mut Line,
    reply: u16,
    params: &[Param],
) -> Result<(), AllocError>
    ensures text { OnOk result (string_bytes text.new
        ≡ string_bytes text.old ++ fields_of (message.Params reply params.now)) }
    ensures kept { StartsWith (string_bytes text.new) (string_bytes text.old) }
{
    push_number(text, " reply=", reply as u64)?;
    push_params(text, line, params)
}

/// Puts the fields of a message at the end of a text, in the order of its layout, each behind a blank. `line` is room that is
/// used again.
pub(crate) fn push_fields(
    text: &mut String,
    line: &mut Line,
    message: &Message,
) -> Result<(), AllocError>
    ensures text { OnOk result
        (string_bytes text.new ≡ string_bytes text.old ++ fields_of message.now) }
    ensures kept { StartsWith (string_bytes text.new) (string_bytes text.old) }
{
    match message {
        Message::TerminalAck { reply, id, result } | Message::PlatformAck { reply, id, result } => {
            push_ack(text, line, *reply, *id, *result)
        }
        Message::Heartbeat | Message::Deregister | Message::QueryParams | Message::QueryPosition =>
            Ok(()),
        Message::TerminalResend(resend) | Message::Resend(resend) => {
            push_resend(text, line, resend)
        }
        Message::Register(register) => push_register(text, line, register),
        Message::RegisterReply(reply) => push_register_reply(text, line, reply),
        Message::Auth(auth) => push_auth(text, line, auth),
        Message::SetParams(params) => push_params(text, line, params.as_slice()),
        Message::QuerySome(ids) => push_query_some(text, line, ids.as_slice()),
        Message::Params { reply, params } => {
            push_params_reply(text, line, *reply, params.as_slice())
        }
        Message::Position(position) => push_position(text, line, position),
        Message::PositionReply { reply, position } => push_position_reply(
            text, line, *reply, position,
        ),
        Message::Track { interval, validity } => push_track(text, *interval, *validity),
        Message::Batch(batch) => push_batch(text, line, batch),
        Message::Text {
            flag,
            kind,
            text: octets,
        } => push_text(text, line, *flag, *kind, octets.as_slice()),
        Message::Control {
            command,
            text: octets,
        } => push_control(text, line, *command, octets.as_slice()),
        Message::Circles { setting, list } => push_circles(text, line, *setting, list.as_slice()),
        Message::Rectangles { setting, list } => {
            push_rectangles(text, line, *setting, list.as_slice())
        }
        Message::Polygon(polygon) => push_polygon(text, line, polygon),
        Message::Route(route) => push_route(text, line, route),
        Message::Delete { ids, .. } => push_deletion(text, line, ids.as_slice()),
        Message::Opaque { body, .. } => push_octets(text, line, " body-octets=", body.as_slice()),
        Message::Part(octets) => push_octets(text, line, " part=", octets.as_slice()),
    }
}
