//! Messages and refusals of a stream that comes in pieces.

ghost use Rattle.std.specs.Prelude.{◌≡◌, ◌<◌, ◌≤◌, ◌+◌, ◌^◌, [], ◌∷◌, ◌++◌, ◌↔◌, List, ℕ, false, length, take, Some, None, IsTrue, IsSome, IfSome, IfOk, IfErr};
ghost use Rattle.std.specs.Option.{ForSome};
ghost use Rattle.std.specs.Result.{ForOk};
ghost use Rattle.jt_value.specs.declared.limits.TheConstants.{CONTENT_LIMIT};
ghost use Rattle.jt_escape.specs.Span.{Ends, Whole};
ghost use Rattle.jt_escape.specs.Splitter.{StandsFor, Continues, lent, split_events_in_place};
ghost use Rattle.jt_header.specs.Content.{Content};
ghost use Rattle.jt_header.specs.Reason.{Reads};
ghost use Rattle.jt_stream.specs.Item.{Item, Frame, Refused, refusal_in_frame, AreItemsOf};
ghost use Rattle.jt_stream.specs.Message.{IsMessage, completed};
ghost use Rattle.jt_stream.specs.Stream.{Gains, GainsInPlace, IsSilent, IsSilentInPlace, stream_items};

use jt_escape::{Split, Splitter};
use jt_header::{Header, read_header};
use jt_value::Refusal;
use std::marker::Model;

/// What the octets that were taken complete.
#[derive(Clone, Copy, Debug, PartialEq, Eq)]
pub enum StreamItem {
    /// A frame with a message, which `frame` gives.
    Frame,
    /// A refusal at its place in the stream: of a frame's content at the opening flag with the offset in the content,
    /// otherwise at the octet itself with `inside` 0.
    Refused(Refusal),
    /// Nothing: the whole piece was taken.
    More,
}

/// The message of the content that the splitter holds.
#[derive(Clone, Copy)]
pub struct Message {
    header: Header,
    /// Where the body begins in the content. It ends before the check octet.
    start: usize,
}

/// Takes a stream in pieces, and finds the messages of its frames, and its refusals. Places count the stream's octets from
/// 0. It keeps one content, in a place of its own, and takes no memory.
#[derive(Drop)]
pub struct Stream {
    splitter: Splitter,
    message: Option<Message>,
}

impl Model for Stream {
    ghost use Rattle.std.specs.Prelude.{is_some};
    ghost use Rattle.std.specs.Option.{ForSome};
    ghost use Rattle.jt_stream.specs.Message.{IsMessage};
    ghost use Rattle.jt_stream.specs.Stream.{Held};

    ghost Value = { Held };

    ghost view = { λ stream. record { splitter = stream.splitter; found = is_some stream.message } };

    ghost invariant = { λ stream.
        ForSome stream.message (λ message. IsMessage message.header message.start stream.splitter.content) };
}

/// What is refused in the content of the frame that opens at this place, as it is refused in the stream.
pub fn refusal_in_frame(opened: u64, refusal: Refusal) -> Refusal
    ensures { result ≡ refusal_in_frame opened refusal }
{
    Refusal {
        at: opened,
        inside: refusal.inside,
        why: refusal.why,
    }
}

// Judges the content that was just completed.
fn judge(splitter: &Splitter) -> Result<Message, Refusal>
    ensures items { AreItemsOf (Whole splitter.now.opened splitter.now.content ∷ [])
        (completed (Some result) splitter.now) }
    ensures message { ForOk result (λ message.
        IsMessage message.header message.start splitter.now.content) }
{
    let content = splitter.content();
    match read_header(content) {
        Ok((header, body)) => Ok(Message {
            header,
            start: content.len() - 1 - body.len(),
        }),
        Err(refusal) => Err(refusal_in_frame(splitter.opened(), refusal)),
    }
}

// Takes octets up to the first that completes an item, or all.
fn take(splitter: &mut Splitter, piece: &[u8]) -> (usize, Option<Result<Message, Refusal>>)
    requires { splitter.old.place + length piece.now < 2 ^ 63 }
    ensures taken { result.0 ≤ length piece.now }
    ensures some { 0 < length piece.now → 0 < result.0 }
    ensures place { splitter.new.place ≡ splitter.old.place + result.0 }
    ensures items { Gains splitter.old splitter.new (take result.0 piece.now)
        (completed result.1 splitter.new) }
    ensures in_place { GainsInPlace splitter.old splitter.new (take result.0 piece.now)
        (completed result.1 splitter.new) }
    ensures more { result.1 ≡ None → result.0 ≡ length piece.now }
    ensures first { (count : ℕ) → count < result.0 → IsSilent splitter.old (take count piece.now) }
    ensures first_in_place { (count : ℕ) → count < result.0 →
        IsSilentInPlace splitter.old (take count piece.now) }
    ensures message { ForSome result.1 (λ judged. ForOk judged
        (λ message. IsMessage message.header message.start splitter.new.content)) }
{
    let (taken, split) = splitter.take(piece);
    match split {
        Split::More => (taken, None),
        Split::Refused(refusal) => (taken, Some(Err(refusal))),
        Split::Content => (taken, Some(judge(splitter))),
    }
}

impl Stream {
    /// The beginning of a stream.
    pub fn new() -> Stream
        ensures stream { StandsFor result.splitter [] }
        ensures in_place { Continues result.splitter [] }
        ensures place { result.splitter.place ≡ 0 }
        ensures found { result.found ≡ false }
    {
        Stream {
            splitter: Splitter::new(),
            message: None,
        }
    }

    /// Takes the stream's next octets, up to the first that completes an item. Answers how many were taken and the item, or
    /// `More` where all were taken and complete none. The octets taken so far and the piece are together fewer than 2^63.
    pub fn take(&mut self, piece: &[u8]) -> (usize, StreamItem)
        requires { self.old.splitter.place + length piece.now < 2 ^ 63 }
        ensures taken { result.0 ≤ length piece.now }
        ensures some { 0 < length piece.now → 0 < result.0 }
        ensures place { self.new.splitter.place ≡ self.old.splitter.place + result.0 }
        ensures items { Gains self.old.splitter self.new.splitter (take result.0 piece.now)
            (stream_items result.1 self.new.splitter) }
        // The same also holds after `take_in_place`.
        ensures in_place { GainsInPlace self.old.splitter self.new.splitter
            (take result.0 piece.now) (stream_items result.1 self.new.splitter) }
        ensures more { result.1 ≡ StreamItem.More → result.0 ≡ length piece.now }
        // No octet past the first that completes an item is taken.
        ensures first { (count : ℕ) → count < result.0 →
            IsSilent self.old.splitter (take count piece.now) }
        ensures first_in_place { (count : ℕ) → count < result.0 →
            IsSilentInPlace self.old.splitter (take count piece.now) }
        ensures found { IsTrue self.new.found ↔ (result.1 ≡ StreamItem.Frame) }
    {
        let (taken, judged) = take(&mut self.splitter, piece);
        self.message = None;
        match judged {
            None => (taken, StreamItem::More),
            Some(Ok(message)) => {
                self.message = Some(message);
                (taken, StreamItem::Frame)
            }
            Some(Err(refusal)) => (taken, StreamItem::Refused(refusal)),
        }
    }

    /// The frame that the last call that takes octets answered: the place of its opening flag, its header and its body. None
    /// where that call was no `take`, or answered no frame.
    pub fn frame(&self) -> Option<(u64, Header, &[u8])>
        ensures some { IsSome result ↔ IsTrue self.now.found }
        ensures place { IfSome result (λ frame. frame.0 ≡ self.now.splitter.opened) }
        ensures message { IfSome result (λ frame.
            Content frame.1 frame.2.now self.now.splitter.content) }
        // So the header and the body are those of the item that was told.
        ensures fields { IfSome result (λ frame.
            Reads self.now.splitter.content frame.1 frame.2.now) }
    {
        let message = self.message?;
        let content = self.splitter.content();
        let body = &content[message.start..content.len() - 1];
        Some((self.splitter.opened(), message.header, body))
    }

    /// Takes the stream's next octets as `take` does, and judges no content: where the answer is `Content`, `frame_in` gives
    /// its frame or the refusal. Answers how many octets were taken, and what they complete. The octets taken so far and the
    /// piece are together fewer than 2^63.
    #[inline(always)]
    pub fn take_in_place(&mut self, piece: &[u8]) -> (usize, Split)
        requires { self.old.splitter.place + length piece.now < 2 ^ 63 }
        ensures taken { result.0 ≤ length piece.now }
        ensures some { 0 < length piece.now → 0 < result.0 }
        ensures place { self.new.splitter.place ≡ self.old.splitter.place + result.0 }
        ensures continues { (stream : List ℕ) → Continues self.old.splitter stream →
            Continues self.new.splitter (stream ++ take result.0 piece.now) }
        // The items of a content are those of `frame_in`.
        ensures items { (items : List Item) →
            AreItemsOf (split_events_in_place result.1 self.new.splitter (take result.0 piece.now))
            items →
            GainsInPlace self.old.splitter self.new.splitter (take result.0 piece.now) items }
        ensures more { result.1 ≡ Split.More → result.0 ≡ length piece.now }
        // No octet past the first that completes an item is taken.
        ensures first { (count : ℕ) → count < result.0 →
            IsSilentInPlace self.old.splitter (take count piece.now) }
        ensures content { result.1 ≡ Split.Content →
            length (lent self.new.splitter (take result.0 piece.now)) ≤ CONTENT_LIMIT }
        ensures found { self.new.found ≡ false }
    {
        self.message = None;
        self.splitter.take_in_place(piece)
    }

    /// The frame of the content that the last `take_in_place` completed, `taken` being the octets that it took: the place of
    /// the opening flag, the header and the body, which stays where it stands. Or why it is refused, at the opening flag with
    /// the offset in the content.
    #[inline(always)]
    pub fn frame_in<'a>(&'a self, taken: &'a [u8]) -> Result<(u64, Header, &'a [u8]), Refusal>
        requires { length (lent self.now.splitter taken.now) ≤ CONTENT_LIMIT }
        ensures item { IfOk result (λ frame. AreItemsOf
            (Whole self.now.splitter.opened (lent self.now.splitter taken.now) ∷ [])
            (Frame frame.0 frame.1 frame.2.now ∷ [])) }
        ensures refused { IfErr result (λ refusal. AreItemsOf
            (Whole self.now.splitter.opened (lent self.now.splitter taken.now) ∷ [])
            (Refused refusal ∷ [])) }
        // So the place, the header and the body are these.
        ensures place { IfOk result (λ frame. frame.0 ≡ self.now.splitter.opened) }
        ensures message { IfOk result (λ frame.
            Content frame.1 frame.2.now (lent self.now.splitter taken.now)) }
        ensures fields { IfOk result (λ frame.
            Reads (lent self.now.splitter taken.now) frame.1 frame.2.now) }
    {
        let opened = self.splitter.opened();
        match read_header(self.splitter.content_in(taken)) {
            Ok((header, body)) => Ok((opened, header, body)),
            Err(refusal) => Err(refusal_in_frame(opened, refusal)),
        }
    }

    /// Judges the stream's end: `Truncated` at the stream's length where it ends inside a frame.
    pub fn finish(&self) -> Option<Refusal>
        ensures end { (stream : List ℕ) → StandsFor self.now.splitter stream → Ends stream result }
        // The same also holds after `take_in_place`.
        ensures in_place { (stream : List ℕ) → Continues self.now.splitter stream →
            Ends stream result }
    {
        self.splitter.finish()
    }
}
