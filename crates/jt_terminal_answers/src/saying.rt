//! Answers as frames.

ghost use Rattle.std.specs.Prelude.{◌≡◌, ℕ, ◌<◌, ◌^◌, ◌++◌, Some, length, map, slice_get, IfOk, OnErr, OnOk};
ghost use Rattle.jt_header.specs.Content.{IsHeader};
ghost use Rattle.jt_subpacket.specs.Parts.{Message as OnePacket};
ghost use Rattle.jt_codec.specs.Bodies.{body_octets};
ghost use Rattle.jt_codec.specs.declared.message.Message.TheVariants as message;
ghost use Rattle.jt_terminal_rule.specs.Messages.{AreSettings, BeginsWith, frame_of};
ghost use Rattle.jt_terminal_rule.specs.Answers as table;
ghost use Rattle.jt_terminal_rule.specs.Rule as rule;

use jt_codec::{Message, write_body};
use jt_header::Header;
use jt_subpacket::{SplitError, split};
use jt_terminal_rule::{AnswerKind, State, after_packets, frame, header};
use jt_value::ids::{PARAMS, POSITION_REPLY, TERMINAL_ACK, TERMINAL_RESEND};
use jt_value::{Edition, Memory, Octets, Seq};
use std::alloc::Global;

fn id_of(kind: AnswerKind) -> u16
    ensures { result ≡ table.id_of_answer kind }
{
    match kind {
        AnswerKind::General => TERMINAL_ACK,
        AnswerKind::Parameters => PARAMS,
        AnswerKind::Position => POSITION_REPLY,
        AnswerKind::Packets => TERMINAL_RESEND,
    }
}

// The packets of an answer. No answer is too large for them.
fn packets(
    alloc: Global,
    state: &State,
    kind: AnswerKind,
    body: &[u8],
) -> Result<Seq<(Header, Octets)>, Memory>
    ensures packets { IfOk result (λ packets.
        packets ≡ rule.answer_packets state.now kind body.now) }
    ensures serial { state.now.next < 65536 }
{
    let State { settings, next, .. } = state;
    let serial = *next;
    let header = header(&settings.phone, id_of(kind), serial);
    match split(alloc, &header, body) {
        Ok(packets) => Ok(packets),
        Err(SplitError::TooLarge(_)) => Ok(Seq::new(alloc)),
        Err(SplitError::Memory) => Err(Memory),
    }
}

// Puts the frames of packets behind the others.
fn say_packets(
    alloc: Global,
    packets: &[(Header, Octets)],
    out: &mut Seq<Octets>,
) -> Result<(), Memory>
    requires { (place : ℕ) (packet : OnePacket) → slice_get packets.now place ≡ Some packet →
        IsHeader packet.0 × (length packet.1 < 2 ^ 10) }
    ensures out { OnOk result (out.new
        ≡ out.old ++ map (λ (packet : OnePacket). frame_of packet.0 packet.1) packets.now) }
    ensures kept { BeginsWith out.new out.old }
{
    for packet in packets {
        let (header, body) = packet;
        out.push(frame(alloc, header, body.as_slice())?)?;
    }
    Ok(())
}

// Puts an answer behind the frames.
pub(crate) fn say_answer(
    alloc: Global,
    state: &mut State,
    kind: AnswerKind,
    body: &[u8],
    out: &mut Seq<Octets>,
) -> Result<(), Memory>
    requires { AreSettings state.old.settings }
    ensures state { OnOk result
        (state.new ≡ (rule.says_answer state.old (Some (kind, body.now))).state) }
    ensures out { OnOk result (out.new ≡ out.old ++ rule.sends state.old.settings
        (rule.says_answer state.old (Some (kind, body.now))).steps) }
    ensures err { OnErr result (state.new ≡ state.old) }
    ensures kept { BeginsWith out.new out.old }
{
    let packets = packets(alloc, state, kind, body)?;
    say_packets(alloc, packets.as_slice(), out)?;
    state.next = after_packets(state, packets.len());
    state.said = state.time;
    Ok(())
}

// The body of a general response.
#[tactic(auto, unfolding(jt_codec::specs::Bodies::body, jt_codec::specs::Layouts::ack, jt_layout::specs::Layout::number))]
fn response_body(
    alloc: Global,
    edition: Edition,
    header: &Header,
    outcome: u8,
) -> Result<Octets, Memory>
    ensures { IfOk result (λ octets. octets
        ≡ body_octets edition (message.TerminalAck header.now.serial header.now.id outcome)) }
{
    let Header { serial, id, .. } = header;
    let response = Message::TerminalAck {
        reply: *serial,
        id: *id,
        result: outcome,
    };
    write_body(alloc, edition, &response)
}

// The general response to the message with this header.
pub(crate) fn respond(
    alloc: Global,
    state: &mut State,
    header: &Header,
    outcome: u8,
    out: &mut Seq<Octets>,
) -> Result<(), Memory>
    requires { AreSettings state.old.settings }
    ensures state { OnOk result
        (state.new ≡ (rule.answers state.old (table.responds state.old header.now outcome)).state) }
    ensures out { OnOk result (out.new ≡ out.old ++ rule.sends state.old.settings
        (rule.answers state.old (table.responds state.old header.now outcome)).steps) }
    ensures err { OnErr result (state.new ≡ state.old) }
    ensures kept { BeginsWith out.new out.old }
{
    let body = response_body(alloc, state.settings.phone.edition, header, outcome)?;
    say_answer(alloc, state, AnswerKind::General, body.as_slice(), out)
}
