//! The entries of a stream that comes in pieces, counted.

ghost use Rattle.std.specs.Prelude.{◌≡◌, ◌<◌, ◌≤◌, ◌+◌, ◌^◌, [], List, ℕ, Option, length, take, string_bytes, IfOk, option_to_list};
ghost use Rattle.jt_escape.specs.Scan.{end_of_stream};
ghost use Rattle.jt_view.specs.Entry.{Entry, first_refusal};
ghost use Rattle.jt_view.specs.Reporting.{CountsEntries, Views, Checks, IsCounted, judged};

use crate::judged::{Judged, judge_told};
use crate::viewing::view_told;
use jt_escape::law_one_end;
use jt_stream::{Stream, law_all_items};
use jt_text::Line;
use jt_value::{Memory, Refusal};
use std::alloc::Global;
use std::marker::Model;

/// A stream and the counts of its entries so far.
#[derive(Drop)]
pub struct Tally {
    stream: Stream,
    frames: u64,
    refused: u64,
}

impl Model for Tally {
    ghost use Rattle.std.specs.Prelude.{◌≤◌, ◌+◌};
    ghost use Rattle.jt_view.specs.Reporting as reporting;

    ghost Value = { reporting.Tally };

    ghost view = { λ tally. record { stream = tally.stream; frames = tally.frames; refused = tally.refused } };

    ghost invariant = { λ tally. tally.frames + tally.refused ≤ tally.stream.splitter.place };
}

impl Tally {
    /// Nothing was taken yet.
    pub fn new() -> Tally
        ensures { CountsEntries result [] }
    {
        law_all_items();
        Tally {
            stream: Stream::new(),
            frames: 0,
            refused: 0,
        }
    }

    /// Takes the stream's next octets up to the first that brings an entry, or all, and puts the entry's line at the end of
    /// a text: how many octets were taken. `line` is room that is used again.
    #[inline(always)]
    pub fn view(
        &mut self,
        alloc: Global,
        piece: &[u8],
        line: &mut Line,
        text: &mut String,
    ) -> Result<usize, Memory>
        requires some { 0 < length piece.now }
        requires place { self.old.stream.splitter.place + length piece.now < 2 ^ 63 }
        ensures some { IfOk result (λ count. (0 < count) × (count ≤ length piece.now)) }
        ensures place { IfOk result (λ count.
            self.new.stream.splitter.place ≡ self.old.stream.splitter.place + count) }
        ensures views { IfOk result (λ count. Views self.old self.new (take count piece.now)
            (string_bytes text.old) (string_bytes text.new)) }
    {
        law_all_items();
        let (count, split) = self.stream.take_in_place(piece);
        let judgement = view_told(alloc, &self.stream, &piece[..count], split, line, text)?;
        self.count(judgement);
        Ok(count)
    }

    /// The same where nothing is printed, and only a refusal is asked for: how many octets were taken, and the refusal, if
    /// the entry is one.
    #[inline(always)]
    pub fn judge(&mut self, alloc: Global, piece: &[u8]) -> Result<(usize, Option<Refusal>), Memory>
        requires some { 0 < length piece.now }
        requires place { self.old.stream.splitter.place + length piece.now < 2 ^ 63 }
        ensures some { IfOk result (λ x. (0 < x.0) × (x.0 ≤ length piece.now)) }
        ensures place { IfOk result (λ x.
            self.new.stream.splitter.place ≡ self.old.stream.splitter.place + x.0) }
        ensures checks { IfOk result (λ x. Checks self.old self.new (take x.0 piece.now) x.1) }
    {
        law_all_items();
        let (count, split) = self.stream.take_in_place(piece);
        let judgement = judge_told(alloc, &self.stream, &piece[..count], split)?;
        let refusal = self.count(judgement);
        Ok((count, refusal))
    }

    // Counts an entry, and answers the refusal, if it is one.
    #[inline(always)]
    fn count(&mut self, judgement: Judged) -> Option<Refusal>
        requires room { self.old.frames + self.old.refused < self.old.stream.splitter.place }
        requires place { self.old.stream.splitter.place < 2 ^ 64 }
        ensures counted { (entry : Option Entry) → judgement ≡ judged entry →
            IsCounted self.old self.new entry }
        ensures refusal { (entry : Option Entry) → judgement ≡ judged entry →
            result ≡ first_refusal (option_to_list entry) }
    {
        match judgement {
            Judged::Nothing => None,
            Judged::Frame => {
                self.frames += 1;
                None
            }
            Judged::Refused(refusal) => {
                self.refused += 1;
                Some(refusal)
            }
        }
    }

    /// The refusal of a stream that ends here, if it has one.
    pub fn finish(&self) -> Option<Refusal>
        ensures { (octets : List ℕ) → CountsEntries self.now octets →
            result ≡ end_of_stream octets }
    {
        law_one_end();
        self.stream.finish()
    }

    /// How many frames there were.
    pub fn frames(&self) -> u64
        ensures { result ≡ self.now.frames }
    {
        self.frames
    }

    /// How many refusals there were.
    pub fn refused(&self) -> u64
        ensures value { result ≡ self.now.refused }
        ensures bound { result ≤ self.now.stream.splitter.place }
    {
        self.refused
    }
}
