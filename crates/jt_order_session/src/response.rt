//! General responses that frames are.

ghost use Rattle.std.specs.Prelude.{◌≡◌, ◌<◌, ◌^◌, length};
ghost use Rattle.jt_order_session.specs.Responses.{response_in};

use jt_codec::{MessageView, view_message};
use jt_header::Header;
use jt_value::ids::TERMINAL_ACK;

/// A general response of a terminal (the standard's).
#[derive(Clone, Copy)]
pub(crate) struct Response {
    /// The serial of the message that it answers.
    pub(crate) reply: u16,
    /// The id of that message.
    pub(crate) id: u16,
    /// 0 success, 1 failure, 2 message error, 3 not supported.
    pub(crate) result: u8,
}

/// The general response that a frame is, if it is one in one piece.
pub(crate) fn response_in(header: &Header, body: &[u8]) -> Option<Response>
    requires { length body.now < 2 ^ 10 }
    ensures { result ≡ response_in header.now body.now }
{
    if header.packet.is_some() || header.id != TERMINAL_ACK {
        return None;
    }
    match view_message(header, body) {
        Some(Ok(MessageView::TerminalAck { reply, id, result })) => {
            Some(Response { reply, id, result })
        }
        _ => None,
    }
}
