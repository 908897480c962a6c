//! The lines of a text that comes in pieces.

ghost use Rattle.std.specs.Prelude.{◌≡◌, ◌≤◌, ◌<◌, ◌+◌, ◌++◌, [], ◌∷◌, List, ℕ, length, take, true, false, IsTrue, IfSome, ◌==◌, position, option_to_list, option_copied};
ghost use Rattle.jt_input.specs.Text.{Cuts, lines_of, is_within};
ghost use Rattle.jt_input.specs.Cutter.{CutsOctets, IsBegun, IsBeyond, begun_of, room_of, cut_lines};

use arrayvec::ArrayVec;
use std::marker::Model;

/// How many octets a line may have, without its line feed (this project's limit).
pub const LINE_LIMIT: usize = 4096;

/// How many lines a text may have (this project's limit).
pub const LINES_LIMIT: u64 = 10_000_000;

const LINE_FEED: u8 = b'\n';

// The place of the first line feed.
fn end_of_line(octets: &[u8]) -> Option<usize>
    ensures { result ≡ position (λ octet. octet == 10) octets.now }
{
    octets.iter().position(|octet| *octet == LINE_FEED)
}

/// What the octets that were taken complete.
#[derive(Clone, Copy, Debug, PartialEq, Eq)]
pub enum Cut {
    /// Nothing: the whole piece was taken.
    More,
    /// A line, which `line` gives.
    Line,
    /// The next line is beyond the limits, whatever follows, and nothing was taken.
    Bad,
}

/// Cuts a text that comes in pieces into its lines, which are numbered from 1. A line ends in a line feed, and the last may
/// lack it. A line of more than 4,096 octets without its line feed, and one past the 10,000,000th, is beyond the limits. It
/// keeps one line, in a place of its own, and takes no memory.
#[derive(Drop)]
pub struct LineCutter {
    line: ArrayVec<u8, LINE_LIMIT>,
    // Whether the line feed of `line` came.
    is_whole: bool,
    number: u64,
}

impl Model for LineCutter {
    ghost use Rattle.std.specs.Prelude.{◌≡◌, ◌≤◌, ◌<◌, false, length};
    ghost use Rattle.jt_input.specs.Cutter.{Held};
    ghost use Rattle.jt_input.specs.declared.line_cutter.TheConstants.{LINES_LIMIT};

    ghost Value = { Held };

    ghost view = { λ cutter. record { line = cutter.line.items; whole = cutter.is_whole; number = cutter.number } };

    ghost invariant = { λ cutter.
        (cutter.number ≤ LINES_LIMIT) × (cutter.is_whole ≡ false → 0 < length cutter.line.items → cutter.number < LINES_LIMIT) };
}

impl LineCutter {
    /// A cutter at the beginning of a text.
    pub fn new() -> LineCutter
        ensures text { Cuts [] [] (begun_of result) }
        ensures number { result.number ≡ 0 }
        ensures begun { IsBegun result }
    {
        LineCutter {
            line: ArrayVec::new(),
            is_whole: false,
            number: 0,
        }
    }

    // Lets go of a line that was told.
    fn begin(&mut self)
        ensures line { self.new.line ≡ begun_of self.old }
        ensures whole { self.new.whole ≡ false }
        ensures number { self.new.number ≡ self.old.number }
    {
        if self.is_whole {
            self.line.clear();
            self.is_whole = false;
        }
    }

    // Keeps further octets of the line. False where they are too many, and then nothing is kept.
    fn keep(&mut self, part: &[u8]) -> bool
        requires number { self.old.number < LINES_LIMIT }
        requires whole { self.old.whole ≡ false }
        ensures kept { result ≡ true →
            self.new ≡ record self.old { line = self.old.line ++ part.now } }
        ensures within { result ≡ true → length self.new.line ≤ LINE_LIMIT }
        ensures too_many { result ≡ false → LINE_LIMIT < length self.old.line + length part.now }
        ensures same { result ≡ false → self.new ≡ self.old }
    {
        self.line.try_extend_from_slice(part).is_ok()
    }

    /// Takes the text's next octets, up to the first line feed. Answers how many were taken, and a line, or `More` where all
    /// were taken and end none, or `Bad` where the next line is beyond the limits; then none was taken.
    pub fn take(&mut self, piece: &[u8]) -> (usize, Cut)
        ensures taken { result.0 ≤ length piece.now }
        ensures takes { CutsOctets self.old self.new (take result.0 piece.now)
            (cut_lines result.1 self.new) }
        ensures more { result.1 ≡ Cut.More → result.0 ≡ length piece.now }
        ensures room { room_of self.new + result.0 ≤ room_of self.old }
        ensures line { result.1 ≡ Cut.Line →
            (0 < result.0) × IsTrue (is_within self.new.number self.new.line) }
        ensures bad { result.1 ≡ Cut.Bad → (result.0 ≡ 0) × IsBeyond self.old piece.now }
        // What is kept of a line that is not ended is within the limits so far.
        ensures begun { IsBegun self.old → IsBegun self.new }
    {
        self.begin();
        if piece.is_empty() {
            return (0, Cut::More);
        }
        if self.number == LINES_LIMIT {
            return (0, Cut::Bad);
        }
        match end_of_line(piece) {
            Some(end) => {
                if self.keep(&piece[..end]) {
                    self.is_whole = true;
                    self.number += 1;
                    (end + 1, Cut::Line)
                } else {
                    (0, Cut::Bad)
                }
            }
            None => {
                if self.keep(piece) {
                    (piece.len(), Cut::More)
                } else {
                    (0, Cut::Bad)
                }
            }
        }
    }

    /// The line that the last `take` answered, without its line feed, until the next `take`.
    pub fn line(&self) -> &[u8]
        ensures { result.now ≡ self.now.line }
    {
        self.line.as_slice()
    }

    /// How many lines were told. So it is the number of the last of them.
    pub fn number(&self) -> u64
        ensures number { result ≡ self.now.number }
        ensures within { result ≤ LINES_LIMIT }
    {
        self.number
    }

    /// The line that lacks its line feed, where the text ends here.
    pub fn last(&self) -> Option<&[u8]>
        // The lines of the text are those that were told and this one.
        ensures lines { (text : List ℕ) (lines : List (List ℕ)) →
            Cuts text lines (begun_of self.now) →
            lines_of text ≡ lines ++ option_to_list (option_copied result) }
        ensures within { IfSome result (λ line. IsTrue (is_within (self.now.number + 1) line.now)) }
        ensures line { IfSome result (λ line. line.now ≡ self.now.line) }
    {
        if self.is_whole {
            return None;
        }
        if self.line.is_empty() {
            None
        } else {
            Some(self.line.as_slice())
        }
    }
}
