//! What messages ask.

ghost use Rattle.std.specs.Prelude.{◌≡◌, None, Some, IfOk};
ghost use Rattle.jt_codec.specs.Viewing.{message_in_view};
ghost use Rattle.jt_session.specs.Talk.{asked_by};
ghost use Rattle.jt_session.specs.Talk as talk;
ghost use Rattle.jt_platform.specs.declared.request.Request.TheVariants as ask;

use jt_codec::{Message, MessageView, law_of_bodies, read_body, view_message};
use jt_header::Header;
use jt_platform::Request;
use jt_register::Auth;
use jt_value::limits::BODY_LIMIT;
use jt_value::{CodecError, Memory, Octets};
use std::alloc::Global;

/// The most octets of a body in one piece (the standard's header).
const MOST_IN_ONE_PIECE: usize = BODY_LIMIT;

fn unit(alloc: Global, header: &Header, body: &[u8]) -> Result<Request, Memory>
    ensures { IfOk result (λ request.
        request ≡ ask.Unit header.now.phone header.now.serial header.now.id body.now) }
{
    Ok(Request::Unit {
        phone: header.phone,
        serial: header.serial,
        id: header.id,
        body: Octets::from_vec(Vec::from_slice(alloc, body)?),
    })
}

fn other(header: &Header) -> Request
    ensures { result ≡ ask.Other header.now.phone header.now.id }
{
    Request::Other {
        phone: header.phone,
        id: header.id,
    }
}

fn entrance(header: &Header, auth: Auth) -> Request
    ensures { result ≡ ask.Auth header.now.phone auth.code }
{
    let Auth { code, tail: _ } = auth;
    Request::Auth {
        phone: header.phone,
        code,
    }
}

// What a message asks that was read. The message is given up.
fn request_asked(
    alloc: Global,
    header: &Header,
    body: &[u8],
    message: Message,
) -> Result<Request, Memory>
    ensures { IfOk result (λ request. request ≡ talk.request_of header.now body.now message) }
{
    match message {
        Message::Register(register) => Ok(Request::Register {
            phone: header.phone,
            register,
        }),
        Message::Auth(auth) => Ok(entrance(header, auth)),
        Message::Position(_) | Message::Batch(_) => unit(alloc, header, body),
        Message::Deregister => Ok(Request::Deregister {
            phone: header.phone,
        }),
        _other => Ok(other(header)),
    }
}

// What a message asks of which a value is made, or None where its body is refused.
#[inline(never)]
fn request_when_read(alloc: Global, header: &Header, body: &[u8]) -> Result<Option<Request>, Memory>
    ensures { IfOk result (λ request. request ≡ asked_by (Some (header.now, body.now))) }
{
    law_of_bodies();
    match read_body(alloc, header.edition, header.id, body) {
        Ok(message) => {
            let request = request_asked(alloc, header, body, message)?;
            Ok(Some(request))
        }
        Err(CodecError::Refused(_)) => Ok(None),
        Err(CodecError::Memory) => Err(Memory),
    }
}

// What a message asks that is viewed in place.
fn request_in_view(
    alloc: Global,
    header: &Header,
    body: &[u8],
    view: MessageView,
) -> Result<Request, Memory>
    ensures { IfOk result (λ request.
        request ≡ talk.request_of header.now body.now (message_in_view view.entry)) }
{
    match view {
        MessageView::Position(_) | MessageView::Batch(_) => unit(alloc, header, body),
        MessageView::Deregister => Ok(Request::Deregister {
            phone: header.phone,
        }),
        _other => Ok(other(header)),
    }
}

/// The request that a whole message makes, or None where its body is refused. A unit in one piece is copied into its request
/// alone.
pub(crate) fn request_of(
    alloc: Global,
    header: &Header,
    body: &[u8],
) -> Result<Option<Request>, Memory>
    requires { header.now.packet ≡ None }
    ensures { IfOk result (λ request. request ≡ asked_by (Some (header.now, body.now))) }
{
    if body.len() > MOST_IN_ONE_PIECE {
        return request_when_read(alloc, header, body);
    }
    match view_message(header, body) {
        Some(Ok(view)) => {
            let request = request_in_view(alloc, header, body, view)?;
            Ok(Some(request))
        }
        Some(Err(_)) => Ok(None),
        None => request_when_read(alloc, header, body),
    }
}
