//! Messages of any id.

ghost use Rattle.std.specs.Prelude.{◌≡◌, ◌↔◌, IsTrue};
ghost use Rattle.jt_codec.specs.Bodies.{Fits, body, id_of};
ghost use Rattle.jt_codec.specs.Layouts.{octet_and_text, track};
ghost use Rattle.jt_codec.specs.declared.message.Message.TheVariants as message;

use crate::regions::{
    circles_fit, deletion_fits, deletion_id, polygon_fits, rectangles_fit, route_fits,
};
use crate::resend::Resend;
use jt_layout::octets_fit;
use jt_params::{Param, params_fit, params_reply_fits, query_some_fits};
use jt_position::{Batch, Position};
use jt_region_bodies::{Circle, Polygon, Rectangle, RegionKind, Route};
use jt_register::{Auth, Register, RegisterReply};
use jt_value::ids::{
    AUTH, BATCH, CIRCLES, CONTROL, DELETE_CIRCLES, DELETE_POLYGONS, DELETE_RECTANGLES,
    DELETE_ROUTES, DEREGISTER, HEARTBEAT, PARAMS, PLATFORM_ACK, POLYGON, POSITION, POSITION_REPLY,
    QUERY_PARAMS, QUERY_POSITION, QUERY_SOME, RECTANGLES, REGISTER, REGISTER_REPLY, RESEND, ROUTE,
    SET_PARAMS, TERMINAL_ACK, TERMINAL_RESEND, TEXT, TRACK,
};
use jt_value::{Edition, Octets, Seq};

/// What the body of a frame is (the standard's message bodies).
#[derive(Drop)]
pub enum Message {
    /// The terminal's general response: the serial and the id of what it answers, and the result: 0 success, 1 failure,
    /// 2 message error, 3 not supported. Every octet is accepted as a result.
    TerminalAck {
        reply: u16,
        id: u16,
        result: u8,
    },
    /// The platform's general response: as the terminal's, and 4 alarm handled.
    PlatformAck {
        reply: u16,
        id: u16,
        result: u8,
    },
    /// The terminal is there. No fields.
    Heartbeat,
    /// The terminal asks to be registered no longer. No fields.
    Deregister,
    /// The terminal asks the platform for packets again. 2019 alone.
    TerminalResend(Resend),
    /// The platform asks the terminal for packets again.
    Resend(Resend),
    /// The terminal asks to be registered.
    Register(Register),
    /// The platform's answer to a registration.
    RegisterReply(RegisterReply),
    /// The terminal authenticates itself.
    Auth(Auth),
    /// The platform sets parameters, at most 255.
    SetParams(Seq<Param>),
    /// The platform asks for all parameters. No fields.
    QueryParams,
    /// The platform asks for the parameters of these ids, at most 255.
    QuerySome(Seq<u32>),
    /// The terminal's answer to a query of parameters: the serial of the query, and the parameters, at most 255.
    Params {
        reply: u16,
        params: Seq<Param>,
    },
    /// The terminal reports a position.
    Position(Position),
    /// The terminal's answer to a query of its position: the serial of the query, and the position.
    PositionReply {
        reply: u16,
        position: Position,
    },
    /// The platform asks for the position. No fields.
    QueryPosition,
    /// The platform asks for positions one after the other: the seconds between two of them, and for how many seconds. With an
    /// interval of 0, which ends them, the validity may be missing, and is None exactly then.
    Track {
        interval: u16,
        validity: Option<u32>,
    },
    /// The terminal reports positions together.
    Batch(Batch),
    /// The platform shows or reads out a text, whose octets are not converted. The flag has a bit for each way. The kind is
    /// None in 2013 and Some in 2019. Every octet is accepted as a kind.
    Text {
        flag: u8,
        kind: Option<u8>,
        text: Octets,
    },
    /// The platform orders the terminal to do something, with the order's own octets.
    Control {
        command: u8,
        text: Octets,
    },
    /// The platform sets circles: with setting 0 they are the circles, with 1 they are added, with 2 they replace those of
    /// their ids. 2013 alone.
    Circles {
        setting: u8,
        list: Seq<Circle>,
    },
    /// The same for rectangles. 2013 alone.
    Rectangles {
        setting: u8,
        list: Seq<Rectangle>,
    },
    /// The platform sets a polygon. 2013 alone.
    Polygon(Polygon),
    /// The platform sets a route. 2013 alone.
    Route(Route),
    /// The platform deletes the regions of these ids, and all of the kind where there are none.
    Delete {
        kind: RegionKind,
        ids: Seq<u32>,
    },
    /// The octets under an id that has no row in the table of the edition.
    Opaque {
        id: u16,
        body: Octets,
    },
    /// The octets of a packet, which are kept and not read.
    Part(Octets),
}

impl Message {
    /// The id that the message stands under. A part has none of its own: its header has it.
    pub fn id(&self) -> Option<u16>
        ensures { result ≡ id_of self.now }
    {
        match self {
            Message::TerminalAck { .. } => Some(TERMINAL_ACK),
            Message::PlatformAck { .. } => Some(PLATFORM_ACK),
            Message::Heartbeat => Some(HEARTBEAT),
            Message::Deregister => Some(DEREGISTER),
            Message::TerminalResend(_) => Some(TERMINAL_RESEND),
            Message::Resend(_) => Some(RESEND),
            Message::Register(_) => Some(REGISTER),
            Message::RegisterReply(_) => Some(REGISTER_REPLY),
            Message::Auth(_) => Some(AUTH),
            Message::SetParams(_) => Some(SET_PARAMS),
            Message::QueryParams => Some(QUERY_PARAMS),
            Message::QuerySome(_) => Some(QUERY_SOME),
            Message::Params { .. } => Some(PARAMS),
            Message::Position(_) => Some(POSITION),
            Message::PositionReply { .. } => Some(POSITION_REPLY),
            Message::QueryPosition => Some(QUERY_POSITION),
            Message::Track { .. } => Some(TRACK),
            Message::Batch(_) => Some(BATCH),
            Message::Text { .. } => Some(TEXT),
            Message::Control { .. } => Some(CONTROL),
            Message::Circles { .. } => Some(CIRCLES),
            Message::Rectangles { .. } => Some(RECTANGLES),
            Message::Polygon(_) => Some(POLYGON),
            Message::Route(_) => Some(ROUTE),
            Message::Delete { kind, .. } => Some(deletion_id(*kind)),
            Message::Opaque { id, .. } => Some(*id),
            Message::Part(_) => None,
        }
    }

    /// Whether the body table has octets for the message. An opaque message under an id that has a row of the edition does
    /// not fit, nor does a message of an edition that is not this one, nor a part.
    #[tactic(auto, unfolding(crate::specs::Bodies::body, crate::specs::Layouts::ack, crate::specs::Layouts::position_reply, jt_layout::specs::Layout::number))]
    pub fn fits(&self, edition: Edition) -> bool
        ensures { IsTrue result ↔ Fits edition self.now }
    {
        match self {
            Message::TerminalAck { reply, id, result }
            | Message::PlatformAck { reply, id, result } => {
                // Numbers that are read are known to fit their fields.
                let _numbers = (*reply, *id, *result);
                true
            }
            Message::Heartbeat
            | Message::Deregister
            | Message::QueryParams
            | Message::QueryPosition => true,
            Message::TerminalResend(resend) => terminal_resend_fits(edition, resend),
            Message::Resend(resend) => resend.fits(edition),
            Message::Register(register) => register.fits(edition),
            Message::RegisterReply(reply) => reply.fits(),
            Message::Auth(auth) => auth.fits(edition),
            Message::SetParams(params) => params_fit(params),
            Message::QuerySome(ids) => query_some_fits(ids),
            Message::Params { reply, params } => params_reply_fits(*reply, params),
            Message::Position(position) => position.fits(),
            Message::PositionReply { reply, position } => {
                let _reply = *reply;
                position.fits()
            }
            Message::Track { interval, validity } => track_fits(*interval, *validity),
            Message::Batch(batch) => batch.fits(),
            Message::Text { flag, kind, text } => text_fits(edition, *flag, *kind, text),
            Message::Control { command, text } => control_fits(*command, text),
            Message::Circles { setting, list } => circles_fit(edition, *setting, list),
            Message::Rectangles { setting, list } => rectangles_fit(edition, *setting, list),
            Message::Polygon(polygon) => polygon_fits(edition, polygon),
            Message::Route(route) => route_fits(edition, route),
            Message::Delete { kind, ids } => deletion_fits(edition, *kind, ids),
            Message::Opaque { id, body } => is_opaque(edition, *id, body.as_slice()),
            Message::Part(_) => false,
        }
    }
}

// Whether the edition has a row for the terminal's request, and octets for it.
#[tactic(auto, unfolding(crate::specs::Bodies::body))]
fn terminal_resend_fits(edition: Edition, resend: &Resend) -> bool
    ensures { IsTrue result ↔ Fits edition (message.TerminalResend resend.now) }
{
    match edition {
        Edition::E2013 => false,
        Edition::E2019 => resend.fits(edition),
    }
}

// Whether the table has octets for the interval and the validity.
#[tactic(auto, unfolding(crate::specs::Bodies::body, crate::specs::Layouts::track, jt_layout::specs::Layout::number, jt_layout::specs::Layout::only_if))]
fn track_fits(interval: u16, validity: Option<u32>) -> bool
    ensures { IsTrue result ↔ track.Fits (interval, validity) }
{
    interval == 0 || validity.is_some()
}

// Whether the edition has a row for the text, and octets for it.
#[tactic(auto, unfolding(crate::specs::Bodies::body, crate::specs::Layouts::octet_and_text, crate::specs::Layouts::flag_kind_and_text, jt_layout::specs::Layout::number, jt_layout::specs::Layout::rest))]
fn text_fits(edition: Edition, flag: u8, kind: Option<u8>, text: &Octets) -> bool
    ensures { IsTrue result ↔ Fits edition (message.Text flag kind text.now) }
{
    match (edition, kind) {
        (Edition::E2013, None) => octets_fit(text.as_slice(), text.len()),
        (Edition::E2019, Some(kind)) => {
            let _kind = kind;
            octets_fit(text.as_slice(), text.len())
        }
        _ => false,
    }
}

// Whether the table has octets for the order.
#[tactic(auto, unfolding(crate::specs::Layouts::octet_and_text, jt_layout::specs::Layout::number, jt_layout::specs::Layout::rest))]
fn control_fits(command: u8, text: &Octets) -> bool
    ensures { IsTrue result ↔ octet_and_text.Fits (command, text.now) }
{
    octets_fit(text.as_slice(), text.len())
}

// Whether the table has no row of the edition for the id, so that these octets are opaque.
#[tactic(auto, unfolding(crate::specs::Bodies::body, jt_layout::specs::Layout::rest))]
pub(crate) fn is_opaque(edition: Edition, id: u16, octets: &[u8]) -> bool
    ensures { IsTrue result ↔ (body edition id).Fits (message.Opaque id octets.now) }
{
    match (edition, id) {
        (_, TERMINAL_ACK | PLATFORM_ACK | HEARTBEAT | DEREGISTER | REGISTER_REPLY) => false,
        (_, SET_PARAMS | QUERY_PARAMS | QUERY_SOME | PARAMS | TRACK | CONTROL) => false,
        (_, POSITION | POSITION_REPLY | QUERY_POSITION | BATCH) => false,
        (_, RESEND | REGISTER | AUTH | TEXT) => false,
        (Edition::E2019, TERMINAL_RESEND) => false,
        (_, DELETE_CIRCLES | DELETE_RECTANGLES | DELETE_POLYGONS | DELETE_ROUTES) => false,
        (Edition::E2013, CIRCLES | RECTANGLES | POLYGON | ROUTE) => false,
        _ => true,
    }
}
