//! What counting asks of an entry, and all that a check asks.

ghost use Rattle.std.specs.Prelude.{◌≡◌, ◌<◌, ◌≤◌, ◌^◌, Some, length, IfOk};
ghost use Rattle.jt_value.specs.declared.limits.TheConstants.{CONTENT_LIMIT};
ghost use Rattle.jt_escape.specs.Splitter.{lent};
ghost use Rattle.jt_stream.specs.Item.{Frame};
ghost use Rattle.jt_view.specs.Entry.{entry_of};
ghost use Rattle.jt_view.specs.Reporting.{JudgesTold, judged};

use jt_codec::judge_message;
use jt_escape::Split;
use jt_header::Header;
use jt_stream::{Stream, refusal_in_frame};
use jt_value::{Memory, Refusal};
use std::alloc::Global;

/// What an entry is.
#[derive(Clone, Copy, Debug, PartialEq, Eq)]
pub enum Judged {
    /// There is no entry.
    Nothing,
    /// It is a frame.
    Frame,
    /// It is this refusal.
    Refused(Refusal),
}

// Whether the body behind this header is refused, in the frame that opens at this place.
#[inline(always)]
fn judge_body(alloc: Global, place: u64, header: &Header, body: &[u8]) -> Result<Judged, Memory>
    requires { length body.now < 2 ^ 10 }
    ensures { IfOk result (λ judgement.
        judgement ≡ judged (Some (entry_of (Frame place header.now body.now)))) }
{
    match judge_message(alloc, header, body)? {
        None => Ok(Judged::Frame),
        Some(refusal) => Ok(Judged::Refused(refusal_in_frame(place, refusal))),
    }
}

// Whether the frame that the stream just took is refused.
#[inline(always)]
fn judge_frame(alloc: Global, stream: &Stream, taken: &[u8]) -> Result<Judged, Memory>
    requires { length (lent stream.now.splitter taken.now) ≤ CONTENT_LIMIT }
    ensures { IfOk result (JudgesTold Split.Content stream.now.splitter taken.now) }
{
    match stream.frame_in(taken) {
        Ok((place, header, body)) => judge_body(alloc, place, &header, body),
        Err(refusal) => Ok(Judged::Refused(refusal)),
    }
}

/// The entry, as far as a check asks, of what the last `take_in_place` of the stream told: `taken` are the octets that it took,
/// and `split` is its answer.
#[inline(always)]
pub fn judge_told(
    alloc: Global,
    stream: &Stream,
    taken: &[u8],
    split: Split,
) -> Result<Judged, Memory>
    requires { split ≡ Split.Content → length (lent stream.now.splitter taken.now) ≤ CONTENT_LIMIT }
    ensures { IfOk result (JudgesTold split stream.now.splitter taken.now) }
{
    match split {
        Split::Content => judge_frame(alloc, stream, taken),
        Split::Refused(refusal) => Ok(Judged::Refused(refusal)),
        Split::More => Ok(Judged::Nothing),
    }
}
