//! The lines of frames.

ghost use Rattle.std.specs.Prelude.{◌≡◌, ◌+◌, ◌≤◌, ◌++◌, length, string_bytes, codes, IfOk, OnOk};
ghost use Rattle.std.specs.Fmt.{decimal};
ghost use Rattle.std.specs.Io.{StartsWith};
ghost use Rattle.hex.specs.Hex.{encode_lower};
ghost use Rattle.jt_value.specs.Phone.{field_of};
ghost use Rattle.jt_text.specs.Frames.{bit15_text, frame_start, header_fields, packet_text, version_text, view_line, year};
ghost use Rattle.jt_text.specs.Names.{id_name, name_of, naming_id};

use crate::fields::push_fields;
use crate::line::Line;
use jt_codec::Message;
use jt_header::{Header, Packet};
use jt_value::ids::{
    AUTH, BATCH, CIRCLES, CONTROL, DELETE_CIRCLES, DELETE_POLYGONS, DELETE_RECTANGLES,
    DELETE_ROUTES, DEREGISTER, HEARTBEAT, PARAMS, PLATFORM_ACK, POLYGON, POSITION, POSITION_REPLY,
    QUERY_PARAMS, QUERY_POSITION, QUERY_SOME, RECTANGLES, REGISTER, REGISTER_REPLY, RESEND, ROUTE,
    SET_PARAMS, TERMINAL_ACK, TERMINAL_RESEND, TEXT, TRACK,
};
use jt_value::{Edition, Memory, Octets, Phone};
use std::alloc::{AllocError, Global};

// The name of a message id in an edition.
#[tactic(auto, unfolding(crate::specs::Names::id_name))]
pub(crate) fn id_name(edition: Edition, id: u16) -> &'static str
    ensures name { result.now ≡ id_name edition id }
    ensures short { length result.now ≤ 17 }
{
    match (edition, id) {
        (_, TERMINAL_ACK) => "terminal-ack",
        (_, PLATFORM_ACK) => "platform-ack",
        (_, HEARTBEAT) => "heartbeat",
        (_, DEREGISTER) => "deregister",
        (_, RESEND) => "resend",
        (_, REGISTER) => "register",
        (_, REGISTER_REPLY) => "register-reply",
        (_, AUTH) => "auth",
        (_, SET_PARAMS) => "set-params",
        (_, QUERY_PARAMS) => "query-params",
        (_, QUERY_SOME) => "query-some",
        (_, PARAMS) => "params",
        (_, POSITION) => "position",
        (_, POSITION_REPLY) => "position-reply",
        (_, QUERY_POSITION) => "query-position",
        (_, TRACK) => "track",
        (_, BATCH) => "batch",
        (_, TEXT) => "text",
        (_, CONTROL) => "control",
        (_, DELETE_CIRCLES) => "delete-circles",
        (_, DELETE_RECTANGLES) => "delete-rectangles",
        (_, DELETE_POLYGONS) => "delete-polygons",
        (_, DELETE_ROUTES) => "delete-routes",
        (Edition::E2019, TERMINAL_RESEND) => "terminal-resend",
        (Edition::E2013, CIRCLES) => "circles",
        (Edition::E2013, RECTANGLES) => "rectangles",
        (Edition::E2013, POLYGON) => "polygon",
        (Edition::E2013, ROUTE) => "route",
        _ => "opaque",
    }
}

// The id by which a message is named.
fn naming_id(header: &Header, message: &Message) -> Option<u16>
    ensures { result ≡ naming_id header.now message.now }
{
    match message {
        Message::Part(_) => Some(header.id),
        Message::Opaque { .. } => None,
        _ => message.id(),
    }
}

fn name(header: &Header, message: &Message) -> &'static str
    ensures name { result.now ≡ name_of header.now message.now }
    ensures short { length result.now ≤ 17 }
{
    match naming_id(header, message) {
        Some(id) => id_name(header.edition, id),
        None => "opaque",
    }
}

fn year(edition: Edition) -> &'static str
    ensures text { result.now ≡ year edition }
    ensures short { length result.now ≤ 4 }
{
    match edition {
        Edition::E2013 => "2013",
        Edition::E2019 => "2019",
    }
}

fn put_bit15(line: &mut Line, bit15: bool)
    requires { length line.old ≤ 400 }
    ensures text { line.new ≡ bit15_text bit15 ++ line.old }
    ensures room { length line.new ≤ length line.old + 6 }
{
    if bit15 {
        line.put_str(" bit15");
    }
}

#[tactic(auto, using(std::proofs::Common::append_assoc))]
fn put_version(line: &mut Line, header: &Header)
    requires { length line.old ≤ 400 }
    ensures text { line.new ≡ version_text header.now.edition header.now.version ++ line.old }
    ensures room { length line.new ≤ length line.old + 29 }
{
    match header.edition {
        Edition::E2013 => {}
        Edition::E2019 => line.put_named_number(" version=", header.version as u64),
    }
}

#[tactic(auto, using(std::proofs::Common::append_assoc))]
fn put_packet(line: &mut Line, packet: Option<Packet>)
    requires { length line.old ≤ 400 }
    ensures text { line.new ≡ packet_text packet ++ line.old }
    ensures room { length line.new ≤ length line.old + 49 }
{
    match packet {
        None => {}
        Some(Packet { total, number }) => {
            line.put_named_number("/", total as u64);
            line.put_named_number(" packet=", number as u64);
        }
    }
}

fn put_phone(line: &mut Line, phone: &Phone)
    requires { length line.old ≤ 400 }
    ensures text { line.new ≡ codes " phone="
        ++ (encode_lower (field_of phone.now.edition phone.now.digits) ++ line.old) }
    ensures room { length line.new ≤ length line.old + 27 }
{
    match phone.edition {
        Edition::E2013 => line.put_named_digits(" phone=", &phone.digits[4..]),
        Edition::E2019 => line.put_named_digits(" phone=", &phone.digits),
    }
}

// What stands behind the serial.
fn put_header_end(line: &mut Line, header: &Header, body_len: u16)
    requires { length line.old ≤ 230 }
    ensures text { line.new ≡ version_text header.now.edition header.now.version
        ++ (bit15_text header.now.bit15
        ++ (packet_text header.now.packet ++ (codes " body=" ++ (decimal body_len ++ line.old)))) }
    ensures room { length line.new ≤ length line.old + 110 }
{
    line.put_named_number(" body=", body_len as u64);
    put_packet(line, header.packet);
    put_bit15(line, header.bit15);
    put_version(line, header);
}

#[tactic(auto, using(std::proofs::Common::append_assoc), unfolding(crate::specs::Frames::header_fields))]
fn put_header_fields(line: &mut Line, header: &Header, body_len: u16)
    requires { length line.old ≤ 230 }
    ensures text { line.new ≡ header_fields header.now body_len ++ line.old }
    ensures room { length line.new ≤ length line.old + 165 }
{
    put_header_end(line, header, body_len);
    line.put_named_number(" serial=", header.serial as u64);
    put_phone(line, &header.phone);
}

#[tactic(auto, using(std::proofs::Common::append_assoc), unfolding(crate::specs::Frames::frame_start))]
#[inline(always)]
fn put_frame_start(line: &mut Line, place: u64, header: &Header, name: &str)
    requires line { length line.old ≤ 400 }
    requires name { length name.now ≤ 17 }
    ensures text { line.new ≡ frame_start place header.now name.now ++ line.old }
    ensures room { length line.new ≤ length line.old + 54 }
{
    line.put_copy(name);
    line.put_str(" ");
    line.put_named_digits(" 0x", header.id.to_be_bytes().as_slice());
    line.put_copy(year(header.edition));
    line.put_str(" ");
    line.put_number(place);
}

// What stands before the fields.
#[inline(always)]
pub(crate) fn put_front(line: &mut Line, place: u64, header: &Header, name: &str, body_len: u16)
    requires line { length line.old ≤ 230 }
    requires name { length name.now ≤ 17 }
    ensures text { line.new
        ≡ frame_start place header.now name.now ++ (header_fields header.now body_len ++ line.old) }
    ensures room { length line.new ≤ length line.old + 219 }
{
    put_header_fields(line, header, body_len);
    put_frame_start(line, place, header, name);
}

/// Puts the line of a frame at the end of a text, `place` being that of its opening flag and `body_len` the octets of its
/// body. `line` is room that is used again. Where memory is refused, the text still begins with what it held, and a part of
/// the line may stand behind it.
#[tactic(auto, using(std::proofs::Common::append_assoc), unfolding(crate::specs::Frames::view_line))]
pub fn push_message_line(
    text: &mut String,
    line: &mut Line,
    place: u64,
    header: &Header,
    message: &Message,
    body_len: u16,
) -> Result<(), AllocError>
    ensures text { OnOk result (string_bytes text.new
        ≡ string_bytes text.old ++ view_line place header.now message.now body_len) }
    ensures kept { StartsWith (string_bytes text.new) (string_bytes text.old) }
{
    line.clear();
    put_front(line, place, header, name(header, message), body_len);
    line.push_to(text)?;
    push_fields(text, line, message)?;
    text.push_str("\n")?;
    Ok(())
}

/// The line of a frame, as a text of its own.
pub fn view_line(
    alloc: Global,
    at: u64,
    header: &Header,
    message: &Message,
    body_len: u16,
) -> Result<Octets, Memory>
    ensures { IfOk result (λ line. line ≡ view_line at header.now message.now body_len) }
{
    let mut text = String::new(alloc);
    push_message_line(&mut text, &mut Line::new(), at, header, message, body_len)?;
    Ok(Octets::from_vec(text.into_bytes()))
}
