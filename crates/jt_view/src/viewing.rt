//! The lines of what a stream tells, each put at the end of a text.

ghost use Rattle.std.specs.Prelude.{◌≡◌, ◌<◌, ◌≤◌, ◌^◌, length, string_bytes, IfOk};
ghost use Rattle.jt_value.specs.declared.limits.TheConstants.{CONTENT_LIMIT};
ghost use Rattle.jt_escape.specs.Splitter.{lent};
ghost use Rattle.jt_stream.specs.Item.{Frame};
ghost use Rattle.jt_view.specs.Entry as entries;
ghost use Rattle.jt_view.specs.Entry.{entry_of};
ghost use Rattle.jt_view.specs.Reporting.{ViewsEntry, ViewsTold};

use crate::judged::Judged;
use jt_codec::{read_message, view_message};
use jt_escape::Split;
use jt_header::Header;
use jt_stream::{Stream, refusal_in_frame};
use jt_text::{Line, push_message_line, push_message_view_line, push_refusal_line_with};
use jt_value::{CodecError, Memory, Refusal};
use std::alloc::Global;

#[inline(never)]
fn view_refusal(text: &mut String, line: &mut Line, refusal: Refusal) -> Result<Judged, Memory>
    ensures { IfOk result (λ judgement. ViewsEntry (entries.Refused refusal) judgement
        (string_bytes text.old) (string_bytes text.new)) }
{
    push_refusal_line_with(text, line, &refusal)?;
    Ok(Judged::Refused(refusal))
}

// Puts the line of the frame that opens at this place, or of the refusal of its body, with a message made of it.
#[inline(never)]
fn view_made(
    alloc: Global,
    place: u64,
    header: &Header,
    body: &[u8],
    line: &mut Line,
    text: &mut String,
) -> Result<Judged, Memory>
    requires { length body.now < 2 ^ 10 }
    ensures { IfOk result (λ judgement. ViewsEntry (entry_of (Frame place header.now body.now))
        judgement (string_bytes text.old) (string_bytes text.new)) }
{
    match read_message(alloc, header, body) {
        Ok(message) => {
            push_message_line(text, line, place, header, &message, body.len() as u16)?;
            Ok(Judged::Frame)
        }
        Err(CodecError::Refused(refusal)) => view_refusal(
            text,
            line,
            refusal_in_frame(place, refusal),
        ),
        Err(CodecError::Memory) => Err(Memory),
    }
}

// The same, read in place where that can be. A message takes room, so it is kept out of this function.
#[inline(always)]
fn view_body(
    alloc: Global,
    place: u64,
    header: &Header,
    body: &[u8],
    line: &mut Line,
    text: &mut String,
) -> Result<Judged, Memory>
    requires { length body.now < 2 ^ 10 }
    ensures { IfOk result (λ judgement. ViewsEntry (entry_of (Frame place header.now body.now))
        judgement (string_bytes text.old) (string_bytes text.new)) }
{
    match view_message(header, body) {
        Some(Ok(view)) => {
            push_message_view_line(text, line, place, header, view, body.len() as u16)?;
            Ok(Judged::Frame)
        }
        Some(Err(refusal)) => view_refusal(text, line, refusal_in_frame(place, refusal)),
        None => view_made(alloc, place, header, body, line, text),
    }
}

// Puts the line of the frame that the stream just took, or of its refusal.
#[inline(always)]
fn view_frame(
    alloc: Global,
    stream: &Stream,
    taken: &[u8],
    line: &mut Line,
    text: &mut String,
) -> Result<Judged, Memory>
    requires { length (lent stream.now.splitter taken.now) ≤ CONTENT_LIMIT }
    ensures { IfOk result (λ judgement. ViewsTold Split.Content stream.now.splitter taken.now
        judgement (string_bytes text.old) (string_bytes text.new)) }
{
    match stream.frame_in(taken) {
        Ok((place, header, body)) => view_body(alloc, place, &header, body, line, text),
        Err(refusal) => view_refusal(text, line, refusal),
    }
}

/// Puts the line of the entry that the last `take_in_place` of the stream told, if it told one, at the end of a text: `taken`
/// are the octets that it took, and `split` is its answer. The answer is the entry, as far as counting asks. `line` is room
/// that is used again: what it held is dropped, and what it holds afterwards is not said.
#[inline(always)]
pub fn view_told(
    alloc: Global,
    stream: &Stream,
    taken: &[u8],
    split: Split,
    line: &mut Line,
    text: &mut String,
) -> Result<Judged, Memory>
    requires { split ≡ Split.Content → length (lent stream.now.splitter taken.now) ≤ CONTENT_LIMIT }
    ensures { IfOk result (λ judgement. ViewsTold split stream.now.splitter taken.now judgement
        (string_bytes text.old) (string_bytes text.new)) }
{
    match split {
        Split::Content => view_frame(alloc, stream, taken, line, text),
        Split::Refused(refusal) => view_refusal(text, line, refusal),
        Split::More => Ok(Judged::Nothing),
    }
}
