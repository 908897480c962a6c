//! Whole frames: contents parsed, and frames put together.

ghost use Rattle.std.specs.Prelude.{◌≡◌, ◌≤◌, ◌<◌, ◌+◌, ◌^◌, [], List, ℕ, false, Ok, Err, length, IsNone};
ghost use Rattle.jt_value.specs.declared.limits.TheConstants.{CONTENT_LIMIT};
ghost use Rattle.jt_value.specs.declared.refusal.Refusal.{Refusal};
ghost use Rattle.jt_escape.specs.Frame.{framed};
ghost use Rattle.jt_header.specs.Content.{IsHeader, content_of, header_len};
ghost use Rattle.jt_header.specs.declared.header.Header.{Header};
ghost use Rattle.jt_codec.specs.Answer.{IsUnlessMemory};
ghost use Rattle.jt_codec.specs.Frames as frames;
ghost use Rattle.jt_codec.specs.Frames.{Frame, FrameAnswers, IsRefused};
ghost use Rattle.jt_codec.specs.Parsing.{message_read, parse_of};
ghost use Rattle.jt_codec.specs.declared.message.Message.{Message};

use crate::body::read_body;
use crate::message::Message;
use arrayvec::ArrayVec;
use jt_escape::{check, escape_into};
use jt_header::{Header, law_of_contents, read_header, write_header};
use jt_value::limits::FRAME_LIMIT;
use jt_value::{CodecError, Edition, Octets, Refusal};
use std::alloc::Global;

// A refusal of a body that begins at this place of its content.
pub(crate) fn in_content(start: usize, refusal: Refusal) -> Refusal
    requires { start + refusal.inside < 2 ^ 64 }
    ensures { result ≡ frames.in_content start refusal }
{
    Refusal {
        at: 0,
        inside: start as u64 + refusal.inside,
        why: refusal.why,
    }
}

// Where the body begins in a content without packet fields.
#[inline(always)]
pub(crate) fn start_of_body(edition: Edition) -> usize
    ensures value { result ≡ header_len edition false }
    ensures small { result ≤ 17 }
{
    match edition {
        Edition::E2013 => 12,
        Edition::E2019 => 17,
    }
}

// The message of a body that begins at this place of its content. A packet is kept as a part.
fn message_at(
    alloc: Global,
    header: &Header,
    start: usize,
    body: &[u8],
) -> Result<Message, CodecError>
    requires start { IsNone header.now.packet → start ≡ header_len header.now.edition false }
    requires short { start + length body.now ≤ CONTENT_LIMIT }
    ensures { IsUnlessMemory result
        (message_read header.now.packet header.now.edition header.now.id body.now) }
{
    if header.packet.is_some() {
        return Ok(Message::Part(Octets::from_vec(Vec::from_slice(alloc, body)?)));
    }
    match read_body(alloc, header.edition, header.id, body) {
        Ok(message) => Ok(message),
        Err(CodecError::Refused(refusal)) => Err(CodecError::Refused(in_content(start, refusal))),
        Err(CodecError::Memory) => Err(CodecError::Memory),
    }
}

/// The message of the body behind this header, of at most 1,023 octets, or the first reason against the body, with its
/// offset in the content and `at` 0. A packet is kept as a part and not read.
pub fn read_message(alloc: Global, header: &Header, body: &[u8]) -> Result<Message, CodecError>
    requires { length body.now < 2 ^ 10 }
    ensures { IsUnlessMemory result
        (message_read header.now.packet header.now.edition header.now.id body.now) }
{
    message_at(alloc, header, start_of_body(header.edition), body)
}

// What `parse_frame` answers, as a function of the content.
#[tactic(auto, unfolding(crate::specs::Parsing::parse_of))]
fn parse(alloc: Global, content: &[u8]) -> Result<(Header, Message), CodecError>
    requires { length content.now ≤ CONTENT_LIMIT }
    ensures { IsUnlessMemory result (parse_of content.now) }
{
    let (header, body) = read_header(content)?;
    let start = content.len() - 1 - body.len();
    let message = message_at(alloc, &header, start, body)?;
    Ok((header, message))
}

/// The header and the message of a content of at most 1,045 octets, or the first reason against it: that of `read_header`,
/// and for a content with a header, that of `read_body`. `inside` is the offset in the content, and `at` is 0. The body of a
/// packet is a `Part` and not read (this project's own rule).
pub fn parse_frame(alloc: Global, content: &[u8]) -> Result<(Header, Message), CodecError>
    requires { length content.now ≤ CONTENT_LIMIT }
    // The header and the message that the content is, or the reason against it.
    ensures answer { FrameAnswers content.now result }
    // Each frame's content is parsed as what it is, unless memory is wanted.
    ensures every_frame { (h : Header) (octets : List ℕ) (message : Message) →
        Frame h octets message content.now → IsUnlessMemory result (Ok (h, message)) }
    ensures every_refusal { (refusal : Refusal) → IsRefused content.now refusal
        → IsUnlessMemory result (Err refusal) }
    // The same as a function of the content.
    ensures parsed { IsUnlessMemory result (parse_of content.now) }
{
    law_of_contents();
    parse(alloc, content)
}

/// The frame of a header and a body of at most 1,023 octets, put into an empty `out` (the standard's framing). The header is
/// one that is read: of either edition, with a phone of that edition, version 0 in 2013, and a packet number from 1 to the
/// total.
pub fn frame_into(header: &Header, body: &[u8], out: &mut ArrayVec<u8, FRAME_LIMIT>)
    requires header { IsHeader header.now }
    requires body { length body.now < 2 ^ 10 }
    requires empty { out.old.items ≡ [] }
    ensures { out.new.items ≡ framed (content_of header.now body.now) }
{
    let mut content = ArrayVec::new();
    write_header(header, body.len() as u16, &mut content);
    content.try_extend_from_slice(body).unwrap();
    content.push(check(content.as_slice()));
    escape_into(content.as_slice(), out);
}
