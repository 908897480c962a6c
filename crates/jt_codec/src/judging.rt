//! Bodies judged.

ghost use Rattle.std.specs.Prelude.{◌≡◌, ◌<◌, ◌^◌, length, IfOk, IfSome, IsNone, IsOk};
ghost use Rattle.std.specs.Result.{result_err};
ghost use Rattle.jt_layout.specs.Reading.{Judges};
ghost use Rattle.jt_codec.specs.Bodies.{body};
ghost use Rattle.jt_codec.specs.Parsing.{message_read};
ghost use Rattle.jt_codec.specs.Viewing.{IsViewed};

use crate::frame::{in_content, read_message, start_of_body};
use crate::resend::judge_resend;
use crate::viewing::view_message;
use jt_header::Header;
use jt_params::{judge_params, judge_params_reply, judge_query_some};
use jt_region_bodies::{
    judge_circles, judge_deletion, judge_polygon, judge_rectangles, judge_route,
};
use jt_value::ids::{
    CIRCLES, DELETE_CIRCLES, DELETE_POLYGONS, DELETE_RECTANGLES, DELETE_ROUTES, PARAMS, POLYGON,
    QUERY_SOME, RECTANGLES, RESEND, ROUTE, SET_PARAMS, TERMINAL_RESEND,
};
use jt_value::{CodecError, Edition, Memory, Refusal};
use std::alloc::Global;

// Judges a body that is no packet's and whose row is a list, with no list made: None where its id has another row.
#[tactic(auto, unfolding(crate::specs::Bodies::body), using(jt_layout::proofs::Answering::judges_case))]
fn judge_list(
    alloc: Global,
    edition: Edition,
    id: u16,
    octets: &[u8],
) -> Option<Result<(), CodecError>>
    ensures { IfSome result (λ answer. Judges answer ((body edition id).read octets.now 0)) }
{
    match id {
        RESEND => Some(judge_resend(alloc, edition, octets)),
        SET_PARAMS => Some(judge_params(alloc, octets)),
        QUERY_SOME => Some(judge_query_some(alloc, octets)),
        PARAMS => Some(judge_params_reply(alloc, octets)),
        DELETE_CIRCLES | DELETE_RECTANGLES | DELETE_POLYGONS | DELETE_ROUTES => {
            Some(judge_deletion(alloc, octets))
        }
        TERMINAL_RESEND => match edition {
            Edition::E2013 => None,
            Edition::E2019 => Some(judge_resend(alloc, edition, octets)),
        },
        CIRCLES | RECTANGLES | POLYGON | ROUTE => match edition {
            Edition::E2013 => judge_region(alloc, id, octets),
            Edition::E2019 => None,
        },
        _ => None,
    }
}

// Judges a body of 2013 that sets regions: None where its id has another row.
#[tactic(auto, unfolding(crate::specs::Bodies::body), using(jt_layout::proofs::Answering::judges_case))]
fn judge_region(alloc: Global, id: u16, octets: &[u8]) -> Option<Result<(), CodecError>>
    ensures { IfSome result (λ answer. Judges answer ((body Edition.E2013 id).read octets.now 0)) }
{
    match id {
        CIRCLES => Some(judge_circles(alloc, octets)),
        RECTANGLES => Some(judge_rectangles(alloc, octets)),
        POLYGON => Some(judge_polygon(alloc, octets)),
        ROUTE => Some(judge_route(alloc, octets)),
        _ => None,
    }
}

// Judges a body of which a message is made. A message takes room, so it is kept out of those that call.
#[inline(never)]
fn judge_made(alloc: Global, header: &Header, body: &[u8]) -> Result<Option<Refusal>, Memory>
    requires { length body.now < 2 ^ 10 }
    ensures { IfOk result (λ refusal. refusal
        ≡ result_err (message_read header.now.packet header.now.edition header.now.id body.now)) }
{
    match read_message(alloc, header, body) {
        Ok(_) => Ok(None),
        Err(CodecError::Refused(refusal)) => Ok(Some(refusal)),
        Err(CodecError::Memory) => Err(Memory),
    }
}

// The refusal of a body that was judged, with its place counted in the content.
fn refusal_of(
    header: &Header,
    octets: &[u8],
    answer: Result<(), CodecError>,
) -> Result<Option<Refusal>, Memory>
    requires short { length octets.now < 2 ^ 10 }
    requires whole { IsNone header.now.packet }
    requires judged { Judges answer ((body header.now.edition header.now.id).read octets.now 0) }
    ensures { IfOk result (λ refusal. refusal
        ≡ result_err (message_read header.now.packet header.now.edition header.now.id octets.now)) }
{
    match answer {
        Ok(()) => Ok(None),
        Err(CodecError::Refused(refusal)) => {
            Ok(Some(in_content(start_of_body(header.edition), refusal)))
        }
        Err(CodecError::Memory) => Err(Memory),
    }
}

// Judges a body that is not viewed: no list is made of one that is a list, and of every other a message.
#[inline(never)]
fn judge_unseen(alloc: Global, header: &Header, body: &[u8]) -> Result<Option<Refusal>, Memory>
    requires { length body.now < 2 ^ 10 }
    ensures { IfOk result (λ refusal. refusal
        ≡ result_err (message_read header.now.packet header.now.edition header.now.id body.now)) }
{
    if header.packet.is_some() {
        return judge_made(alloc, header, body);
    }
    match judge_list(alloc, header.edition, header.id, body) {
        None => judge_made(alloc, header, body),
        Some(answer) => refusal_of(header, body, answer),
    }
}

/// The first reason against the body behind this header, of at most 1,023 octets, with its offset in the content and `at`
/// 0, or None where `read_message` has a message of it. What `view_message` views is judged in place and takes no memory; of
/// a body that is a list no list is made, and of every other body a message is made and dropped.
#[inline(always)]
pub fn judge_message(alloc: Global, header: &Header, body: &[u8]) -> Result<Option<Refusal>, Memory>
    requires { length body.now < 2 ^ 10 }
    ensures refusal { IfOk result (λ refusal. refusal
        ≡ result_err (message_read header.now.packet header.now.edition header.now.id body.now)) }
    ensures no_memory { IsViewed header.now.packet header.now.edition header.now.id body.now →
        IsOk result }
{
    match view_message(header, body) {
        Some(Ok(_)) => Ok(None),
        Some(Err(refusal)) => Ok(Some(refusal)),
        None => judge_unseen(alloc, header, body),
    }
}
