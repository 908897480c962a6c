//! Messages that are read in place.

ghost use Rattle.std.specs.Prelude.{◌≡◌, ◌<◌, ◌^◌, ◌↔◌, Ok, Err, length, IsSome, IfSome, MatchResult};
ghost use Rattle.jt_layout.specs.Layout.{Fills};
ghost use Rattle.jt_codec.specs.Bodies.{body};
ghost use Rattle.jt_codec.specs.Parsing.{message_read};
ghost use Rattle.jt_codec.specs.Viewing.{IsReadInPlace, IsViewed, message_in_view};

use crate::ack::view_ack;
use crate::empty::view_empty;
use crate::frame::{in_content, start_of_body};
use crate::message::is_opaque;
use crate::text::{view_flag_kind_and_text, view_octet_and_text};
use crate::track::view_track;
use jt_header::Header;
use jt_position::{BatchView, PositionView, view_batch, view_position};
use jt_value::ids::{
    BATCH, CONTROL, DEREGISTER, HEARTBEAT, PLATFORM_ACK, POSITION, QUERY_PARAMS, QUERY_POSITION,
    TERMINAL_ACK, TEXT, TRACK,
};
use jt_value::{Edition, Refusal};

/// A message that is read in place: one without fields, a general response, an order to track, a text, an order, a position or
/// a batch; or octets that are kept unread.
#[derive(Drop)]
pub enum MessageView<'a> {
    /// A heartbeat, which has no fields.
    Heartbeat,
    /// A terminal's general response: the serial and the id that it answers, and the result.
    TerminalAck {
        reply: u16,
        id: u16,
        result: u8,
    },
    /// The platform's general response, with the same fields.
    PlatformAck {
        reply: u16,
        id: u16,
        result: u8,
    },
    /// The terminal asks to be registered no longer.
    Deregister,
    /// The platform asks for all parameters.
    QueryParams,
    /// The platform asks for the position.
    QueryPosition,
    /// An order to report positions: the interval and the validity, in seconds.
    Track {
        interval: u16,
        validity: Option<u32>,
    },
    /// A text, which has a kind exactly in 2019, and whose octets stand in the body.
    Text {
        flag: u8,
        kind: Option<u8>,
        text: &'a [u8],
    },
    /// An order, whose text stands in the body.
    Control {
        command: u8,
        text: &'a [u8],
    },
    /// A position, whose items stand in the body.
    Position(PositionView<'a>),
    /// A batch, whose positions stand in the body.
    Batch(BatchView<'a>),
    /// A body under an id that has no row of the edition.
    Opaque {
        id: u16,
        body: &'a [u8],
    },
    /// The body of a packet.
    Part(&'a [u8]),
}

// The view of a text, which has a kind exactly in 2019.
#[tactic(auto, unfolding(crate::specs::Bodies::body), using(jt_layout::proofs::Answering::answers_case))]
fn view_text<'a>(edition: Edition, octets: &'a [u8]) -> Result<MessageView<'a>, Refusal>
    ensures { MatchResult result
        (λ view. Fills (body edition 0x8300) octets.now 0 (message_in_view view))
        (λ refusal. (body edition 0x8300).Refuses octets.now 0 refusal) }
{
    match edition {
        Edition::E2013 => {
            let (flag, text) = view_octet_and_text(octets)?;
            let kind = None;
            Ok(MessageView::Text { flag, kind, text })
        }
        Edition::E2019 => {
            let (flag, kind, text) = view_flag_kind_and_text(octets)?;
            let kind = Some(kind);
            Ok(MessageView::Text { flag, kind, text })
        }
    }
}

// The view of a body that is no packet's, by the row of its id, or the row's reason against it. Each arm matches, since
// `map` would copy the view of a position.
#[inline(always)]
#[tactic(auto, unfolding(crate::specs::Bodies::body, jt_layout::specs::Layout::rest), using(jt_layout::proofs::Answering::answers_case))]
fn view_row<'a>(
    edition: Edition,
    id: u16,
    octets: &'a [u8],
) -> Option<Result<MessageView<'a>, Refusal>>
    ensures some { IsSome result ↔ IsReadInPlace edition id octets.now }
    ensures answer { IfSome result (λ answer. MatchResult answer
        (λ view. Fills (body edition id) octets.now 0 (message_in_view view))
        (λ refusal. (body edition id).Refuses octets.now 0 refusal)) }
{
    match id {
        HEARTBEAT => match view_empty(octets) {
            Ok(()) => Some(Ok(MessageView::Heartbeat)),
            Err(refusal) => Some(Err(refusal)),
        },
        POSITION => match view_position(octets) {
            Ok(view) => Some(Ok(MessageView::Position(view))),
            Err(refusal) => Some(Err(refusal)),
        },
        TERMINAL_ACK => match view_ack(octets) {
            Ok((reply, id, result)) => Some(Ok(MessageView::TerminalAck { reply, id, result })),
            Err(refusal) => Some(Err(refusal)),
        },
        PLATFORM_ACK => match view_ack(octets) {
            Ok((reply, id, result)) => Some(Ok(MessageView::PlatformAck { reply, id, result })),
            Err(refusal) => Some(Err(refusal)),
        },
        DEREGISTER => match view_empty(octets) {
            Ok(()) => Some(Ok(MessageView::Deregister)),
            Err(refusal) => Some(Err(refusal)),
        },
        QUERY_PARAMS => match view_empty(octets) {
            Ok(()) => Some(Ok(MessageView::QueryParams)),
            Err(refusal) => Some(Err(refusal)),
        },
        QUERY_POSITION => match view_empty(octets) {
            Ok(()) => Some(Ok(MessageView::QueryPosition)),
            Err(refusal) => Some(Err(refusal)),
        },
        TRACK => match view_track(octets) {
            Ok((interval, validity)) => Some(Ok(MessageView::Track { interval, validity })),
            Err(refusal) => Some(Err(refusal)),
        },
        TEXT => Some(view_text(edition, octets)),
        CONTROL => match view_octet_and_text(octets) {
            Ok((command, text)) => Some(Ok(MessageView::Control { command, text })),
            Err(refusal) => Some(Err(refusal)),
        },
        BATCH => match view_batch(octets) {
            Ok(view) => Some(Ok(MessageView::Batch(view))),
            Err(refusal) => Some(Err(refusal)),
        },
        _ if is_opaque(edition, id, octets) => Some(Ok(MessageView::Opaque { id, body: octets })),
        _ => None,
    }
}

/// The message of the body behind this header, of at most 1,023 octets, read in place, or the first reason against the body,
/// with its offset in the content and `at` 0: what `read_message` answers. It is there for packets, messages without fields,
/// general responses, orders to track, texts, orders, positions, batches and ids without a row, and None says that the header
/// is of another message. No memory is taken.
#[inline(always)]
pub fn view_message<'a>(header: &Header, body: &'a [u8]) -> Option<Result<MessageView<'a>, Refusal>>
    requires { length body.now < 2 ^ 10 }
    ensures some { IsSome result
        ↔ IsViewed header.now.packet header.now.edition header.now.id body.now }
    ensures answer { IfSome result (λ answer. MatchResult answer
        (λ view. message_read header.now.packet header.now.edition header.now.id body.now
        ≡ Ok (message_in_view view))
        (λ refusal. message_read header.now.packet header.now.edition header.now.id body.now
        ≡ Err refusal)) }
{
    if header.packet.is_some() {
        return Some(Ok(MessageView::Part(body)));
    }
    match view_row(header.edition, header.id, body) {
        Some(Ok(view)) => Some(Ok(view)),
        Some(Err(refusal)) => Some(Err(in_content(start_of_body(header.edition), refusal))),
        None => None,
    }
}
