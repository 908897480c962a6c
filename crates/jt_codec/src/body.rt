//! Bodies of any id.

ghost use Rattle.std.specs.Prelude.{◌≡◌, Some, None, Ok, Err, IfOk, IfErr, IsSomeAnd};
ghost use Rattle.jt_value.specs.declared.refusal.Refusal.{Refusal};
ghost use Rattle.jt_layout.specs.Answer.{Answers};
ghost use Rattle.jt_codec.specs.Answer.{IsUnlessMemory};
ghost use Rattle.jt_codec.specs.Bodies.{Fits, HasBody, IsInside, body, body_octets, id_of};
ghost use Rattle.jt_codec.specs.declared.message.Message.{Message};
ghost use Rattle.jt_codec.specs.declared.message.Message.TheVariants as message;

use crate::ack::{read_ack, write_ack};
use crate::empty::read_empty;
use crate::message::Message;
use crate::position_reply::write_position_reply;
use crate::regions::write_region_ids;
use crate::resend::write_resend;
use crate::rows::{
    auth_row, batch_row, circles_row, control_row, kind_text_row, opaque_row, params_row,
    polygon_row, position_reply_row, position_row, query_some_row, rectangles_row,
    register_reply_row, register_row, resend_row, route_row, set_params_row, terminal_resend_row,
    text_row, track_row,
};
use crate::text::{write_octet_and_text, write_text};
use crate::track::write_track;
use jt_params::{write_params, write_params_reply, write_query_some};
use jt_position::{write_batch, write_position};
use jt_region_bodies::{
    Deletion, RegionKind, read_deletion, write_circles, write_polygon, write_rectangles,
    write_route,
};
use jt_register::{write_auth, write_register, write_register_reply};
use jt_value::ids::{
    AUTH, BATCH, CIRCLES, CONTROL, DELETE_CIRCLES, DELETE_POLYGONS, DELETE_RECTANGLES,
    DELETE_ROUTES, DEREGISTER, HEARTBEAT, PARAMS, PLATFORM_ACK, POLYGON, POSITION, POSITION_REPLY,
    QUERY_PARAMS, QUERY_POSITION, QUERY_SOME, RECTANGLES, REGISTER, REGISTER_REPLY, RESEND, ROUTE,
    SET_PARAMS, TERMINAL_ACK, TERMINAL_RESEND, TEXT, TRACK,
};
use jt_value::{CodecError, Edition, Memory, Octets};
use std::alloc::Global;

fn delete_message(kind: RegionKind, deletion: Deletion) -> Message
    ensures { result ≡ message.Delete kind deletion.ids }
{
    let ids = deletion.ids;
    Message::Delete { kind, ids }
}

// A body under any id, by the row of the id. An id without a row of the edition is opaque.
#[tactic(auto, unfolding(crate::specs::Bodies::body, jt_layout::specs::Layout::rest), using(jt_layout::proofs::Answering::answers_case))]
fn read_row(alloc: Global, edition: Edition, id: u16, octets: &[u8]) -> Result<Message, CodecError>
    ensures { Answers (body edition id) octets.now result }
{
    match id {
        TERMINAL_ACK => {
            let (reply, id, result) = read_ack(octets)?;
            Ok(Message::TerminalAck { reply, id, result })
        }
        PLATFORM_ACK => {
            let (reply, id, result) = read_ack(octets)?;
            Ok(Message::PlatformAck { reply, id, result })
        }
        HEARTBEAT => {
            read_empty(octets)?;
            Ok(Message::Heartbeat)
        }
        DEREGISTER => {
            read_empty(octets)?;
            Ok(Message::Deregister)
        }
        TERMINAL_RESEND => match edition {
            Edition::E2013 => opaque_row(alloc, id, octets),
            Edition::E2019 => terminal_resend_row(alloc, edition, octets),
        },
        RESEND => resend_row(alloc, edition, octets),
        REGISTER => register_row(alloc, edition, octets),
        REGISTER_REPLY => register_reply_row(alloc, octets),
        AUTH => auth_row(alloc, edition, octets),
        SET_PARAMS => set_params_row(alloc, octets),
        QUERY_PARAMS => {
            read_empty(octets)?;
            Ok(Message::QueryParams)
        }
        QUERY_SOME => query_some_row(alloc, octets),
        PARAMS => params_row(alloc, octets),
        POSITION => position_row(alloc, octets),
        POSITION_REPLY => position_reply_row(alloc, octets),
        QUERY_POSITION => {
            read_empty(octets)?;
            Ok(Message::QueryPosition)
        }
        TRACK => track_row(octets),
        BATCH => batch_row(alloc, octets),
        TEXT => match edition {
            Edition::E2013 => text_row(alloc, octets),
            Edition::E2019 => kind_text_row(alloc, octets),
        },
        CONTROL => control_row(alloc, octets),
        CIRCLES => match edition {
            Edition::E2013 => circles_row(alloc, octets),
            Edition::E2019 => opaque_row(alloc, id, octets),
        },
        RECTANGLES => match edition {
            Edition::E2013 => rectangles_row(alloc, octets),
            Edition::E2019 => opaque_row(alloc, id, octets),
        },
        POLYGON => match edition {
            Edition::E2013 => polygon_row(alloc, octets),
            Edition::E2019 => opaque_row(alloc, id, octets),
        },
        ROUTE => match edition {
            Edition::E2013 => route_row(alloc, octets),
            Edition::E2019 => opaque_row(alloc, id, octets),
        },
        DELETE_CIRCLES => Ok(delete_message(RegionKind::Circle, read_deletion(alloc, octets)?)),
        DELETE_RECTANGLES => Ok(delete_message(
            RegionKind::Rectangle,
            read_deletion(alloc, octets)?,
        )),
        DELETE_POLYGONS => Ok(delete_message(RegionKind::Polygon, read_deletion(alloc, octets)?)),
        DELETE_ROUTES => Ok(delete_message(RegionKind::Route, read_deletion(alloc, octets)?)),
        _ => opaque_row(alloc, id, octets),
    }
}

/// Reads the body of a message with this id, of any length. The refusals are Truncated at a field that passes the end,
/// Trailing at the first octet after the last field, and BadCount at the count of a request to send packets again that is not
/// that of its numbers, with `inside` counted in the body and `at` 0; the first counts. Under an id that has no row of the
/// edition, every body is opaque.
pub fn read_body(
    alloc: Global,
    edition: Edition,
    id: u16,
    octets: &[u8],
) -> Result<Message, CodecError>
    // The message that the octets are, or the reason against them.
    ensures answer { Answers (body edition id) octets.now result }
    // Each message is read back from its octets, unless memory is wanted.
    ensures every_body { (message : Message) → HasBody edition id message octets.now
        → IsUnlessMemory result (Ok message) }
    ensures every_refusal { (refusal : Refusal) → (body edition id).Refuses octets.now 0 refusal
        → IsUnlessMemory result (Err refusal) }
    // What was read is written back to the same octets.
    ensures fits { IfOk result (λ message. Fits edition message) }
    ensures writes_back { IfOk result (λ message. body_octets edition message ≡ octets.now) }
    ensures id { IfOk result (λ message. id_of message ≡ Some id) }
    ensures inside { IfErr result (IsInside octets.now) }
{
    read_row(alloc, edition, id, octets)
}

// The octets of an opaque message.
fn write_opaque(alloc: Global, edition: Edition, id: u16, body: &Octets) -> Result<Octets, Memory>
    requires { Fits edition (message.Opaque id body.now) }
    ensures { IfOk result (λ octets. octets ≡ body_octets edition (message.Opaque id body.now)) }
{
    Ok(body.copy(alloc)?)
}

// The octets of the row of a message.
#[tactic(auto, unfolding(crate::specs::Bodies::body, crate::specs::Layouts::position_reply, jt_layout::specs::Layout::rest))]
fn write_row(alloc: Global, edition: Edition, message: &Message) -> Result<Octets, Memory>
    requires { Fits edition message.now }
    ensures { IfOk result (λ octets. octets ≡ body_octets edition message.now) }
{
    match message {
        Message::TerminalAck { reply, id, result } | Message::PlatformAck { reply, id, result } => {
            write_ack(alloc, *reply, *id, *result)
        }
        Message::Heartbeat | Message::Deregister | Message::QueryParams | Message::QueryPosition =>
            Ok(Octets::new(alloc)),
        Message::TerminalResend(resend) | Message::Resend(resend) => write_resend(
            alloc, edition, resend,
        ),
        Message::Register(register) => write_register(alloc, edition, register),
        Message::RegisterReply(reply) => write_register_reply(alloc, reply),
        Message::Auth(auth) => write_auth(alloc, edition, auth),
        Message::SetParams(params) => write_params(alloc, params),
        Message::QuerySome(ids) => write_query_some(alloc, ids),
        Message::Params { reply, params } => write_params_reply(alloc, *reply, params),
        Message::Position(position) => write_position(alloc, position),
        Message::PositionReply { reply, position } => write_position_reply(alloc, *reply, position),
        Message::Track { interval, validity } => write_track(alloc, *interval, *validity),
        Message::Batch(batch) => write_batch(alloc, batch),
        Message::Text { flag, kind, text } => write_text(alloc, edition, *flag, *kind, text),
        Message::Control { command, text } => write_octet_and_text(alloc, *command, text),
        Message::Circles { setting, list } => write_circles(alloc, *setting, list),
        Message::Rectangles { setting, list } => write_rectangles(alloc, *setting, list),
        Message::Polygon(polygon) => write_polygon(alloc, polygon),
        Message::Route(route) => write_route(alloc, route),
        Message::Delete { kind, ids } => write_region_ids(alloc, edition, *kind, ids),
        Message::Opaque { id, body } => write_opaque(alloc, edition, *id, body),
        Message::Part(body) => body.copy(alloc),
    }
}

/// The body of a message that fits the edition, as the body table has it.
pub fn write_body(alloc: Global, edition: Edition, message: &Message) -> Result<Octets, Memory>
    requires { Fits edition message.now }
    ensures octets { IfOk result (λ octets. octets ≡ body_octets edition message.now) }
    // `read_body` reads the message back under its id.
    ensures reads_back { IfOk result (λ octets. IsSomeAnd (id_of message.now)
        (λ id. HasBody edition id message.now octets)) }
{
    write_row(alloc, edition, message)
}
