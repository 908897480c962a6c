//! The lines of frames whose messages are read in place.

ghost use Rattle.std.specs.Prelude.{◌≡◌, ℕ, ◌≤◌, ◌++◌, length, string_bytes, codes, OnOk};
ghost use Rattle.std.specs.Io.{StartsWith};
ghost use Rattle.jt_codec.specs.declared.message.Message.TheVariants as message;
ghost use Rattle.jt_codec.specs.Viewing.{message_in_view};
ghost use Rattle.jt_text.specs.Fields.{ack_fields};
ghost use Rattle.jt_text.specs.Frames.{frame_start, header_fields, view_line};

use crate::fields::{
    push_control, push_item_views, push_position_views, push_text, push_track, put_ack, put_fixed,
};
use crate::frame::{id_name, put_front};
use crate::line::Line;
use crate::values::push_octets;
use jt_codec::MessageView;
use jt_header::Header;
use jt_position::{BatchView, PositionView};
use std::alloc::AllocError;

// Pushes the front of a frame's line, and behind it what the line holds.
#[tactic(auto, using(std::proofs::Common::append_assoc))]
#[inline(always)]
fn push_behind_front(
    text: &mut String,
    line: &mut Line,
    place: u64,
    header: &Header,
    name: &str,
    body_len: u16,
) -> Result<(), AllocError>
    requires line { length line.old ≤ 230 }
    requires name { length name.now ≤ 17 }
    ensures text { OnOk result
        (string_bytes text.new ≡ string_bytes text.old ++ (frame_start place header.now name.now
        ++ (header_fields header.now body_len ++ line.old))) }
    ensures kept { StartsWith (string_bytes text.new) (string_bytes text.old) }
{
    put_front(line, place, header, name, body_len);
    line.push_to(text)
}

#[tactic(auto, using(std::proofs::Common::append_assoc), unfolding(crate::specs::Frames::view_line, crate::specs::Names::id_name))]
#[inline(always)]
fn push_heartbeat_line(
    text: &mut String,
    line: &mut Line,
    place: u64,
    header: &Header,
    body_len: u16,
) -> Result<(), AllocError>
    ensures text { OnOk result (string_bytes text.new
        ≡ string_bytes text.old ++ view_line place header.now message.Heartbeat body_len) }
    ensures kept { StartsWith (string_bytes text.new) (string_bytes text.old) }
{
    line.clear();
    line.put_str("\n");
    push_behind_front(text, line, place, header, "heartbeat", body_len)
}

// A message without fields, whose name this is.
#[tactic(auto, using(std::proofs::Common::append_assoc))]
#[inline(always)]
fn push_empty_line(
    text: &mut String,
    line: &mut Line,
    place: u64,
    header: &Header,
    name: &str,
    body_len: u16,
) -> Result<(), AllocError>
    requires name { length name.now ≤ 17 }
    ensures text { OnOk result
        (string_bytes text.new ≡ string_bytes text.old ++ (frame_start place header.now name.now
        ++ (header_fields header.now body_len ++ codes "\n"))) }
    ensures kept { StartsWith (string_bytes text.new) (string_bytes text.old) }
{
    line.clear();
    line.put_str("\n");
    push_behind_front(text, line, place, header, name, body_len)
}

#[tactic(auto, using(std::proofs::Common::append_assoc), unfolding(crate::specs::Frames::view_line, crate::specs::Names::id_name))]
fn push_track_line(
    text: &mut String,
    line: &mut Line,
    place: u64,
    header: &Header,
    interval: u16,
    validity: Option<u32>,
    body_len: u16,
) -> Result<(), AllocError>
    ensures text { OnOk result (string_bytes text.new ≡ string_bytes text.old
        ++ view_line place header.now (message.Track interval validity) body_len) }
    ensures kept { StartsWith (string_bytes text.new) (string_bytes text.old) }
{
    line.clear();
    push_behind_front(text, line, place, header, "track", body_len)?;
    push_track(text, interval, validity)?;
    text.push_str("\n")?;
    Ok(())
}

#[tactic(auto, using(std::proofs::Common::append_assoc), unfolding(crate::specs::Frames::view_line, crate::specs::Names::id_name))]
fn push_text_line(
    text: &mut String,
    line: &mut Line,
    place: u64,
    header: &Header,
    flag: u8,
    kind: Option<u8>,
    octets: &[u8],
    body_len: u16,
) -> Result<(), AllocError>
    ensures text { OnOk result (string_bytes text.new ≡ string_bytes text.old
        ++ view_line place header.now (message.Text flag kind octets.now) body_len) }
    ensures kept { StartsWith (string_bytes text.new) (string_bytes text.old) }
{
    line.clear();
    push_behind_front(text, line, place, header, "text", body_len)?;
    push_text(text, line, flag, kind, octets)?;
    text.push_str("\n")?;
    Ok(())
}

#[tactic(auto, using(std::proofs::Common::append_assoc), unfolding(crate::specs::Frames::view_line, crate::specs::Names::id_name))]
fn push_control_line(
    text: &mut String,
    line: &mut Line,
    place: u64,
    header: &Header,
    command: u8,
    octets: &[u8],
    body_len: u16,
) -> Result<(), AllocError>
    ensures text { OnOk result (string_bytes text.new ≡ string_bytes text.old
        ++ view_line place header.now (message.Control command octets.now) body_len) }
    ensures kept { StartsWith (string_bytes text.new) (string_bytes text.old) }
{
    line.clear();
    push_behind_front(text, line, place, header, "control", body_len)?;
    push_control(text, line, command, octets)?;
    text.push_str("\n")?;
    Ok(())
}

// Makes the line hold what a general response's has behind its front: the fields and the line's end.
#[inline(always)]
fn hold_response(line: &mut Line, reply: u16, id: u16, answer: u8)
    ensures text { line.new ≡ ack_fields reply id answer ++ codes "\n" }
    ensures room { length line.new ≤ 66 }
{
    line.clear();
    line.put_str("\n");
    put_ack(line, reply, id, answer);
}

#[tactic(auto, using(std::proofs::Common::append_assoc), unfolding(crate::specs::Frames::view_line, crate::specs::Names::id_name, crate::specs::PositionFields::position_fields))]
#[inline(always)]
fn push_position_line(
    text: &mut String,
    line: &mut Line,
    place: u64,
    header: &Header,
    view: PositionView<'_>,
    body_len: u16,
) -> Result<(), AllocError>
    ensures text { OnOk result
        (string_bytes text.new ≡ string_bytes text.old ++ view_line place header.now
        (message.Position (record { fixed = view.entry.fixed; items = view.entry.items }))
        body_len) }
    ensures kept { StartsWith (string_bytes text.new) (string_bytes text.old) }
{
    line.clear();
    put_fixed(line, &view.fixed);
    push_behind_front(text, line, place, header, "position", body_len)?;
    push_item_views(text, line, view.items)?;
    text.push_str("\n")?;
    Ok(())
}

#[tactic(auto, using(std::proofs::Common::append_assoc), unfolding(crate::specs::Frames::view_line, crate::specs::Names::id_name, crate::specs::PositionFields::batch_fields))]
fn push_batch_line(
    text: &mut String,
    line: &mut Line,
    place: u64,
    header: &Header,
    view: BatchView<'_>,
    body_len: u16,
) -> Result<(), AllocError>
    ensures text { OnOk result
        (string_bytes text.new ≡ string_bytes text.old ++ view_line place header.now
        (message.Batch (record { kind = view.entry.kind; fixes = view.entry.fixes })) body_len) }
    ensures kept { StartsWith (string_bytes text.new) (string_bytes text.old) }
{
    line.clear();
    line.put_named_number(" kind=", view.kind as u64);
    line.put_named_number(" count=", view.fixes.left() as u64);
    push_behind_front(text, line, place, header, "batch", body_len)?;
    push_position_views(text, line, view.fixes)?;
    text.push_str("\n")?;
    Ok(())
}

// Octets that are not read further, whatever their id.
#[tactic(auto, using(std::proofs::Common::append_assoc), unfolding(crate::specs::Frames::view_line))]
fn push_opaque_line(
    text: &mut String,
    line: &mut Line,
    place: u64,
    header: &Header,
    body: &[u8],
    body_len: u16,
) -> Result<(), AllocError>
    ensures text { (id : ℕ) → OnOk result (string_bytes text.new ≡ string_bytes text.old
        ++ view_line place header.now (message.Opaque id body.now) body_len) }
    ensures kept { StartsWith (string_bytes text.new) (string_bytes text.old) }
{
    line.clear();
    push_behind_front(text, line, place, header, "opaque", body_len)?;
    push_octets(text, line, " body-octets=", body)?;
    text.push_str("\n")?;
    Ok(())
}

// The body of a packet, which has the name of its id.
#[tactic(auto, using(std::proofs::Common::append_assoc), unfolding(crate::specs::Frames::view_line))]
fn push_part_line(
    text: &mut String,
    line: &mut Line,
    place: u64,
    header: &Header,
    part: &[u8],
    body_len: u16,
) -> Result<(), AllocError>
    ensures text { OnOk result (string_bytes text.new
        ≡ string_bytes text.old ++ view_line place header.now (message.Part part.now) body_len) }
    ensures kept { StartsWith (string_bytes text.new) (string_bytes text.old) }
{
    line.clear();
    push_behind_front(
        text,
        line,
        place,
        header,
        id_name(header.edition, header.id),
        body_len,
    )?;
    push_octets(text, line, " part=", part)?;
    text.push_str("\n")?;
    Ok(())
}

/// Puts the line of a frame whose message is read in place at the end of a text, `place` being that of its opening flag and
/// `body_len` the octets of its body, as `push_message_line` does. `line` is room that is used again.
#[inline(always)]
pub fn push_message_view_line(
    text: &mut String,
    line: &mut Line,
    place: u64,
    header: &Header,
    view: MessageView<'_>,
    body_len: u16,
) -> Result<(), AllocError>
    ensures text { OnOk result (string_bytes text.new ≡ string_bytes text.old
        ++ view_line place header.now (message_in_view view.entry) body_len) }
    ensures kept { StartsWith (string_bytes text.new) (string_bytes text.old) }
{
    match view {
        MessageView::Heartbeat => push_heartbeat_line(text, line, place, header, body_len),
        MessageView::TerminalAck { reply, id, result } => {
            hold_response(line, reply, id, result);
            push_behind_front(text, line, place, header, "terminal-ack", body_len)
        }
        MessageView::PlatformAck { reply, id, result } => {
            hold_response(line, reply, id, result);
            push_behind_front(text, line, place, header, "platform-ack", body_len)
        }
        MessageView::Deregister => {
            push_empty_line(text, line, place, header, "deregister", body_len)
        }
        MessageView::QueryParams => {
            push_empty_line(text, line, place, header, "query-params", body_len)
        }
        MessageView::QueryPosition => {
            push_empty_line(text, line, place, header, "query-position", body_len)
        }
        MessageView::Track { interval, validity } => {
            push_track_line(text, line, place, header, interval, validity, body_len)
        }
        MessageView::Text {
            flag,
            kind,
            text: octets,
        } => push_text_line(text, line, place, header, flag, kind, octets, body_len),
        MessageView::Control {
            command,
            text: octets,
        } => push_control_line(text, line, place, header, command, octets, body_len),
        MessageView::Position(view) => {
            push_position_line(text, line, place, header, view, body_len)
        }
        MessageView::Batch(view) => push_batch_line(text, line, place, header, view, body_len),
        MessageView::Opaque { body, .. } => {
            push_opaque_line(text, line, place, header, body, body_len)
        }
        MessageView::Part(part) => push_part_line(text, line, place, header, part, body_len),
    }
}
