ghost use Rattle.std.specs.Prelude.{◌<◌, ◌^◌, length};

use crate::values::{Fields, POSITION, header, header_2019, refused};
use jt_codec::{MessageView, view_message};
use jt_header::{Header, Packet};
use jt_position::ItemView;
use jt_value::{Refusal, Why};

// Why a body that is read in place is refused.
fn view_refusal(header: &Header, body: &[u8]) -> Option<Refusal>
    requires { length body.now < 2 ^ 10 }
{
    match &view_message(header, body) {
        Some(Err(refusal)) => Some(*refusal),
        Some(Ok(_)) | None => None,
    }
}

// Whether a body is not read in place.
fn is_unseen(header: &Header, body: &[u8]) -> bool
    requires { length body.now < 2 ^ 10 }
{
    view_message(header, body).is_none()
}

// Whether this body is a position with this latitude and one item, this mileage.
fn is_position(header: &Header, body: &[u8], lat: u32, mileage: u32) -> bool
    requires { length body.now < 2 ^ 10 }
{
    match view_message(header, body) {
        Some(Ok(MessageView::Position(view))) => {
            let mut items = view.items;
            let item = items.next() == Some(ItemView::Mileage(mileage));
            view.fixed.lat == lat && item && items.next().is_none()
        }
        _ => false,
    }
}

// Whether this body is a batch of this kind, with so many positions.
fn is_batch(header: &Header, body: &[u8], kind: u8, count: u16) -> bool
    requires { length body.now < 2 ^ 10 }
{
    match &view_message(header, body) {
        Some(Ok(MessageView::Batch(view))) => view.kind == kind && view.fixes.left() == count,
        _ => false,
    }
}

fn is_terminal_ack(view: &MessageView, wanted: (u16, u16, u8)) -> bool {
    matches!(view, MessageView::TerminalAck { reply, id, result } if (*reply, *id, *result) == wanted)
}

fn is_platform_ack(view: &MessageView, wanted: (u16, u16, u8)) -> bool {
    matches!(view, MessageView::PlatformAck { reply, id, result } if (*reply, *id, *result) == wanted)
}

fn is_track(view: &MessageView, seconds: u16, end: Option<u32>) -> bool {
    matches!(view, MessageView::Track { interval, validity } if *interval == seconds && *validity == end)
}

fn is_text(view: &MessageView, ways: u8, sort: Option<u8>, octets: &[u8]) -> bool {
    matches!(view, MessageView::Text { flag, kind, text } if *flag == ways && *kind == sort && *text == octets)
}

fn is_control(view: &MessageView, order: u8, octets: &[u8]) -> bool {
    matches!(view, MessageView::Control { command, text } if *command == order && *text == octets)
}

fn is_opaque(view: &MessageView, wanted: u16, octets: &[u8]) -> bool {
    matches!(view, MessageView::Opaque { id, body } if *id == wanted && *body == octets)
}

fn is_part(view: &MessageView, octets: &[u8]) -> bool {
    matches!(view, MessageView::Part(body) if *body == octets)
}

fn has_fields(view: &MessageView, fields: Fields) -> bool {
    match fields {
        Fields::Heartbeat => matches!(view, MessageView::Heartbeat),
        Fields::Deregister => matches!(view, MessageView::Deregister),
        Fields::QueryParams => matches!(view, MessageView::QueryParams),
        Fields::QueryPosition => matches!(view, MessageView::QueryPosition),
        Fields::TerminalAck(reply, id, result) => is_terminal_ack(view, (reply, id, result)),
        Fields::PlatformAck(reply, id, result) => is_platform_ack(view, (reply, id, result)),
        Fields::Track(interval, validity) => is_track(view, interval, validity),
        Fields::Text(flag, kind, text) => is_text(view, flag, kind, text),
        Fields::Control(command, text) => is_control(view, command, text),
        Fields::Opaque(id, body) => is_opaque(view, id, body),
        Fields::Part(body) => is_part(view, body),
        Fields::Plate(_) | Fields::Code(_) => false,
    }
}

// Whether this body is read in place, with these fields.
fn shows(header: &Header, body: &[u8], fields: Fields) -> bool
    requires { length body.now < 2 ^ 10 }
{
    match &view_message(header, body) {
        Some(Ok(view)) => has_fields(view, fields),
        _ => false,
    }
}

// The same of a message of 2013 that is no packet.
fn shows_2013(id: u16, body: &[u8], fields: Fields) -> bool {
    body.len() < 1024 && shows(&header(id, 0, None), body, fields)
}

#[test]
fn views(rt: HostRuntime) {
    assert!(rt; shows_2013(0x0002, b"", Fields::Heartbeat));
    assert!(rt; is_position(&header(0x0200, 0, None), &POSITION, 20_000_000, 10));
    assert!(rt; is_batch(&header(0x0704, 0, None), &[0, 0, 1], 1, 0));
    assert!(rt; is_unseen(&header(0x8106, 0, None), &[0]));
}

#[test]
fn refused_views(rt: HostRuntime) {
    let rows: &[(u16, &[u8], u64, Why)] = &[
        (0x0002, b"\x07", 12, Why::Trailing),
        (0x0003, b"\x07", 12, Why::Trailing),
        (0x8104, b"\x07", 12, Why::Trailing),
        (0x8201, b"\x07", 12, Why::Trailing),
        (0x0200, &POSITION[..27], 34, Why::Truncated),
        (0x0704, b"\0\0", 14, Why::Truncated),
        (0x8001, b"\0\x07\x02\0\0\0", 17, Why::Trailing),
        (0x8202, b"\0\x05\0\0\x02", 14, Why::Truncated),
        (0x8202, b"\0\0\0\0\0\x09\x01", 18, Why::Trailing),
        (0x8300, b"", 12, Why::Truncated),
        (0x8105, b"", 12, Why::Truncated),
    ];
    for &(id, body, inside, why) in rows {
        assert!(rt; body.len() < 1024);
        assert!(rt; view_refusal(&header(id, 0, None), body) == refused(inside, why));
    }
    assert!(rt; view_refusal(&header_2019(0x8300), b"\x01") == refused(18, Why::Truncated));
}

#[test]
fn views_without_fields(rt: HostRuntime) {
    let rows: &[(u16, Fields)] = &[
        (0x0003, Fields::Deregister),
        (0x8104, Fields::QueryParams),
        (0x8201, Fields::QueryPosition),
    ];
    for &(id, fields) in rows {
        assert!(rt; shows_2013(id, b"", fields));
    }
}

// A text of 2019 has a kind in place of the first octet that the text of 2013 has.
#[test]
fn views_of_tracks_texts_and_orders(rt: HostRuntime) {
    let rows: &[(u16, &[u8], Fields)] = &[
        (0x8202, b"\0\x05\0\0\x02\x58", Fields::Track(5, Some(600))),
        (0x8202, b"\0\0", Fields::Track(0, None)),
        (0x8300, b"\x01\x02A", Fields::Text(1, None, b"\x02A")),
        (0x8105, b"\x03\xD6\0", Fields::Control(3, b"\xD6\0")),
    ];
    for &(id, body, fields) in rows {
        assert!(rt; shows_2013(id, body, fields));
    }
    let text = Fields::Text(1, Some(2), b"A");
    assert!(rt; shows(&header_2019(0x8300), b"\x01\x02A", text));
}

#[test]
fn views_of_responses_and_octets(rt: HostRuntime) {
    let rows: &[(u16, &[u8], Fields)] = &[
        (
            0x0001,
            b"\0\x07\x81\x03\x01",
            Fields::TerminalAck(7, 0x8103, 1),
        ),
        (0x8001, b"\0\x07\x02\0\0", Fields::PlatformAck(7, 0x0200, 0)),
        (0x0900, b"A\x01", Fields::Opaque(0x0900, b"A\x01")),
    ];
    for &(id, body, fields) in rows {
        assert!(rt; shows_2013(id, body, fields));
    }
    let packet = Packet {
        total: 3,
        number: 2,
    };
    assert!(rt; shows(&header(0x0200, 0, Some(packet)), &[9], Fields::Part(&[9])));
}
