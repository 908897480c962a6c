//! What a session keeps between items, and what it writes.

ghost use Rattle.std.specs.Prelude.{◌≡◌, ◌≤◌, ◌<◌, ◌+◌, ◌-◌, ◌%◌, ◌^◌, [], ◌++◌, length, Some, None, ℕ, ◌⊎◌};
ghost use Rattle.jt_value.specs.declared.limits.TheConstants.{FRAME_LIMIT};
ghost use Rattle.jt_value.specs.declared.phone.Edition.{Edition};
ghost use Rattle.jt_escape.specs.Frame.{framed};
ghost use Rattle.jt_header.specs.Content.{IsHeader, content_of};
ghost use Rattle.jt_codec.specs.Bodies.{body_octets};
ghost use Rattle.jt_codec.specs.declared.message.Message.TheVariants as message;
ghost use Rattle.jt_session.specs.Talk.{ack, answer_to, frame_said, header_to, register_reply, saying, start};
ghost use Rattle.jt_session.specs.Talk as talk;
ghost use Rattle.jt_session.specs.Replies.{HasRoomFor};

use crate::framing::put_frame;
use arrayvec::ArrayVec;
use jt_codec::law_of_acks;
use jt_header::Header;
use jt_platform::Reply;
use jt_subpacket::Assembler;
use jt_value::ids::{
    AUTH, DEREGISTER, HEARTBEAT, PARAMS, PLATFORM_ACK, POSITION_REPLY, REGISTER, REGISTER_REPLY,
    TERMINAL_ACK,
};
use jt_value::limits::BODY_LIMIT;
use jt_value::results::{FAILURE, NOT_SUPPORTED, SUCCESS};
use jt_value::{Buffer, Phone};
use std::alloc::Global;
use std::marker::Model;

/// The octets of a general response's body (the standard's message body of it).
const ACK_LENGTH: usize = 5;

/// What a session keeps between items.
#[derive(Drop)]
pub(crate) struct Kept {
    /// The phone of the first frame.
    pub(crate) phone: Option<Phone>,
    pub(crate) assembler: Assembler,
    /// The serial of the next frame that is written.
    pub(crate) serial: u16,
    pub(crate) frames: u64,
    pub(crate) refused: u64,
    pub(crate) dropped: u64,
}

impl Model for Kept {
    ghost use Rattle.std.specs.Coded.{codes};
    ghost use Rattle.jt_subpacket.specs.Stored.{partial_code};
    ghost use Rattle.jt_session.specs.Talk.{State};

    ghost Value = { State };

    ghost coded = { Prim.hlevel (codes, partial_code) };

    ghost view = { λ k. record { phone = k.phone; partial = k.assembler; serial = k.serial; frames = k.frames; refused = k.refused; dropped = k.dropped } };
}

// The body of a general response that names the message.
fn ack_body(header: &Header, outcome: u8) -> ArrayVec<u8, ACK_LENGTH>
    ensures octets { result.items ≡ body_octets header.now.edition (ack header.now outcome) }
    ensures short { length result.items ≡ 5 }
{
    law_of_acks();
    let mut body = ArrayVec::new();
    body.try_extend_from_slice(&header.serial.to_be_bytes())
        .unwrap();
    body.try_extend_from_slice(&header.id.to_be_bytes())
        .unwrap();
    body.try_extend_from_slice(&outcome.to_be_bytes()).unwrap();
    body
}

// Whether the terminal answers with messages of the id.
fn is_answer(id: u16) -> bool
    ensures { result ≡ talk.is_answer id }
{
    id == TERMINAL_ACK || id == PARAMS || id == POSITION_REPLY
}

fn accepted_result(id: u16) -> u8
    ensures { result ≡ talk.accepted_result id }
{
    if id == AUTH || id == DEREGISTER || id == HEARTBEAT {
        SUCCESS
    } else {
        NOT_SUPPORTED
    }
}

// The body of a reply to the registration.
#[tactic(auto, using(std::proofs::Common::append_assoc, jt_layout::proofs::Laws::spell_rest_if), unfolding(jt_codec::specs::Bodies::body, jt_register::specs::Registration::register_reply, jt_layout::specs::Layout::number))]
fn register_body(header: &Header, outcome: u8, code: &[u8]) -> ArrayVec<u8, BODY_LIMIT>
    requires room { length code.now ≤ 1020 }
    requires code { (outcome ≡ 0) ⊎ (code.now ≡ []) }
    ensures octets { result.items
        ≡ body_octets header.now.edition (register_reply header.now outcome code.now) }
    ensures short { length result.items < 2 ^ 10 }
{
    let mut body = ArrayVec::new();
    body.try_extend_from_slice(&header.serial.to_be_bytes())
        .unwrap();
    body.try_extend_from_slice(&outcome.to_be_bytes()).unwrap();
    body.try_extend_from_slice(code).unwrap();
    body
}

impl Kept {
    pub(crate) fn new(alloc: Global) -> Kept
        ensures { result ≡ start }
    {
        Kept {
            phone: None,
            assembler: Assembler::new(alloc),
            serial: 0,
            frames: 0,
            refused: 0,
            dropped: 0,
        }
    }

    // Writes a message of this id and body in answer to the header's message.
    pub(crate) fn say(&mut self, header: &Header, id: u16, body: &[u8], out: &mut Buffer<u8>)
        requires header { IsHeader header.now }
        requires short { length body.now < 2 ^ 10 }
        requires room { FRAME_LIMIT ≤ out.old.spare }
        ensures state { self.new ≡ record self.old { serial = (self.old.serial + 1) % 65536 } }
        ensures out { out.new.items
            ≡ out.old.items ++ framed (content_of (header_to self.old header.now id) body.now) }
        ensures bound { length out.new.items ≤ length out.old.items + FRAME_LIMIT }
    {
        let answer = Header {
            edition: header.edition,
            id,
            bit15: false,
            version: header.version,
            phone: header.phone,
            serial: self.serial,
            packet: None,
        };
        put_frame(out, &answer, body);
        self.serial = self.serial.wrapping_add(1);
    }

    // Writes the general response with this result.
    pub(crate) fn acknowledge(&mut self, header: &Header, outcome: u8, out: &mut Buffer<u8>)
        requires header { IsHeader header.now }
        requires room { FRAME_LIMIT ≤ out.old.spare }
        ensures state { self.new
            ≡ (saying self.old header.now (Some (ack header.now outcome))).state }
        ensures out { out.new.items ≡ out.old.items
            ++ frame_said (saying self.old header.now (Some (ack header.now outcome))).says }
        ensures bound { length out.new.items ≤ length out.old.items + FRAME_LIMIT }
    {
        let body = ack_body(header, outcome);
        self.say(header, PLATFORM_ACK, body.as_slice(), out);
    }

    // Writes the reply to a registration.
    fn answer_registration(
        &mut self,
        header: &Header,
        outcome: u8,
        code: &[u8],
        out: &mut Buffer<u8>,
    )
        requires header { IsHeader header.now }
        requires room { FRAME_LIMIT ≤ out.old.spare }
        requires code { length code.now ≤ 1020 }
        requires outcome { (outcome ≡ 0) ⊎ (code.now ≡ []) }
        ensures state { self.new ≡ (saying self.old header.now
            (Some (register_reply header.now outcome code.now))).state }
        ensures out { out.new.items ≡ out.old.items ++ frame_said (saying self.old header.now
            (Some (register_reply header.now outcome code.now))).says }
        ensures bound { length out.new.items ≤ length out.old.items + FRAME_LIMIT }
    {
        let body = register_body(header, outcome, code);
        self.say(header, REGISTER_REPLY, body.as_slice(), out);
    }

    /// Writes what answers the message at this reply, if anything does.
    pub(crate) fn answer(&mut self, header: &Header, reply: &Reply, out: &mut Buffer<u8>)
        requires header { IsHeader header.now }
        requires room { FRAME_LIMIT ≤ out.old.spare }
        requires code { HasRoomFor reply.now }
        ensures state { self.new
            ≡ (saying self.old header.now (answer_to header.now reply.now)).state }
        ensures out { out.new.items ≡ out.old.items
            ++ frame_said (saying self.old header.now (answer_to header.now reply.now)).says }
        ensures bound { length out.new.items ≤ length out.old.items + FRAME_LIMIT }
    {
        match reply {
            Reply::Registered(code) => {
                self.answer_registration(header, SUCCESS, code.as_slice(), out)
            }
            Reply::Denied(outcome) => {
                if header.id == REGISTER {
                    self.answer_registration(header, *outcome, &[], out)
                } else {
                    self.acknowledge(header, FAILURE, out)
                }
            }
            Reply::Accepted => {
                if !is_answer(header.id) {
                    self.acknowledge(header, accepted_result(header.id), out)
                }
            }
            Reply::NotLive => {
                if !is_answer(header.id) {
                    self.acknowledge(header, FAILURE, out)
                }
            }
            Reply::Stored(_) | Reply::Repeat(_) | Reply::Renumbered(_) => {
                self.acknowledge(header, SUCCESS, out)
            }
            Reply::Fenced(_) => self.acknowledge(header, FAILURE, out),
            Reply::ListFull(_) | Reply::StoreFault | Reply::Memory => {}
        }
    }
}
