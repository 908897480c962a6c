//! A reader of lines.

ghost use Rattle.std.specs.Prelude.{◌≡◌, ◌≢◌, ◌≤◌, ◌+◌, [], ℕ, List, drop, take, length};
ghost use Rattle.jt_value.specs.Counts.{Rose};
ghost use Rattle.jt_outside.specs.Source.{ReadHasCause};
ghost use Rattle.jt_input.specs.LineReading.{HasTold, Goes};
ghost use Rattle.jt_input.specs.Cutting.{CutsOn, Ends, PutsAhead};
ghost use Rattle.jt_input.specs.declared.line_reader.NextLine.TheVariants.{Failed};

use crate::{Cut, LineCutter};
use jt_outside::{Got, Source};
use jt_value::limits::READ_LIMIT;
use std::marker::Model;

/// What a call for the next line answers.
#[derive(Clone, Copy, Debug, PartialEq, Eq)]
pub enum NextLine {
    /// A line, which `line` gives.
    Line,
    /// The last line, which lacks its line feed, and which `line` gives. The text was read to its end.
    Last,
    /// No line is left. The text was read to its end.
    End,
    /// The next line, of this number from 1, is beyond the limits: it has more than 4,096 octets, or comes after the
    /// 10,000,000th.
    Bad(u64),
    /// A read of the source failed.
    Failed,
}

// The octets from one place to another.
fn part(octets: &[u8], from: usize, to: usize) -> &[u8]
    requires order { from ≤ to }
    requires within { to ≤ length octets.now }
    ensures { result.now ≡ drop from (take to octets.now) }
{
    &octets[from..to]
}

/// Reads the lines of a source one after the other. It keeps a line and a piece of the text, in places of its own, and takes
/// no memory.
#[derive(Drop)]
pub struct LineReader {
    cutter: LineCutter,
    piece: [u8; READ_LIMIT],
    // Where the octets that were read and not cut yet begin in the piece, and where they end.
    from: usize,
    to: usize,
}

impl Model for LineReader {
    ghost use Rattle.std.specs.Prelude.{◌≤◌, take, drop};
    ghost use Rattle.jt_input.specs.LineReading.{Reading};
    ghost use Rattle.jt_value.specs.declared.limits.TheConstants.{READ_LIMIT};

    ghost Value = { Reading };

    ghost view = { λ reader. record { held = reader.cutter; ahead = drop reader.from (take reader.to reader.piece) } };

    ghost invariant = { λ reader. (reader.from ≤ reader.to) × (reader.to ≤ READ_LIMIT) };
}

impl LineReader {
    /// A reader before its first line.
    pub fn new() -> LineReader
        ensures { HasTold result [] [] }
    {
        LineReader {
            cutter: LineCutter::new(),
            piece: [0; READ_LIMIT],
            from: 0,
            to: 0,
        }
    }

    // Cuts on in what was read.
    fn cut(&mut self) -> Cut
        ensures { CutsOn result self.old self.new }
    {
        let (count, cut) = self.cutter.take(part(&self.piece, self.from, self.to));
        self.from += count;
        cut
    }

    // Reads a piece.
    fn read<S: Source>(&mut self, source: &mut S) -> Got
        ensures held { self.new.held ≡ self.old.held }
        ensures ahead { PutsAhead result self.new (S.left source.old) (S.left source.new) }
        ensures cause { ReadHasCause (S.faults source.old) (S.faults source.new) result }
    {
        self.from = 0;
        self.to = 0;
        let got = source.read(&mut self.piece);
        if let Got::Bytes(count) = got {
            self.to = count;
        }
        got
    }

    // The last line, if one is begun.
    fn end(&self) -> NextLine
        ensures { Ends result self.now }
    {
        match self.cutter.last() {
            Some(_) => NextLine::Last,
            None => NextLine::End,
        }
    }

    /// The next line of the source. All calls are to be given one source. Where it answers `Line` or `Last`, `line` gives the
    /// line until the next call. `Failed` comes only where the source's count of faults rose, and the next call reads on; every other
    /// answer only where it stood still.
    pub fn next<S: Source>(&mut self, source: &mut S) -> NextLine
        ensures goes { (text : List ℕ) (lines : List (List ℕ)) → HasTold self.old text lines →
            Goes result self.new (S.left source.old) (S.left source.new) text lines }
        ensures cause { result ≡ Failed → Rose (S.faults source.old) (S.faults source.new) }
        ensures later { S.faults source.old ≤ S.faults source.new }
        ensures still { result ≢ Failed → S.faults source.new ≡ S.faults source.old }
    {
        loop {
            match self.cut() {
                Cut::Line => return NextLine::Line,
                Cut::Bad => return NextLine::Bad(self.cutter.number() + 1),
                Cut::More => {}
            }
            match self.read(source) {
                Got::Bytes(_) => {}
                Got::End => return self.end(),
                Got::Failed => return NextLine::Failed,
            }
        }
    }

    /// The line that the last `next` answered, without its line feed.
    pub fn line(&self) -> &[u8]
        ensures { result.now ≡ self.now.held.line }
    {
        self.cutter.line()
    }
}
