//! A text input that comes in pieces: its lines are heard as they come.

ghost use Rattle.std.specs.Prelude.{◌≡◌, ◌⊎◌, ◌<◌, ◌≤◌, ◌+◌, ◌++◌, ◌^◌, ℕ, List, [], Some, None, Option, length, string_bytes, IfOk, IfSome, OnOk};
ghost use Rattle.jt_input.specs.Cutter.{room_of};
ghost use Rattle.jt_input.specs.Answer.{EndsEarly};
ghost use Rattle.jt_input.specs.Telling.{TakesPiece, Ends};
ghost use Rattle.jt_input.specs.Lines.{answer_of, bad_line, HasHeard, HasClosed};
ghost use Rattle.jt_input.specs.LineSteps.{Steps};

use crate::hearer::{Heard, Hearer};
use crate::status::Status;
use crate::teller::Teller;
use crate::{Cut, LineCutter, law_lines};
use jt_value::Memory;
use std::alloc::{AllocError, Global};
use std::fmt::Write;

/// Puts the line of a bad line of this number.
#[tactic(auto, unfolding(crate::specs::Lines::bad_line))]
pub fn push_bad_line(text: &mut String, number: u64) -> Result<(), AllocError>
    ensures { OnOk result (string_bytes text.new ≡ string_bytes text.old ++ bad_line number) }
{
    write!(text, "line {number} refused\n")
}

/// What the next octets of a text input brought.
#[derive(Clone, Copy, Debug, PartialEq, Eq)]
pub enum Step {
    /// They end no line.
    More,
    /// So many of them end a line, which was heard.
    Heard(usize),
    /// The answer is settled.
    Settled(Status),
}

/// A text input as it comes: the hearer of its lines, the line that is begun, and the number of the bad line, if one came. A
/// line that is bad or beyond the limits is printed, and ends the input with Refused.
#[derive(Drop)]
pub struct LineTeller<H> {
    hearer: H,
    cutter: LineCutter,
    bad: Option<u64>,
}

impl<H: Hearer> LineTeller<H> {
    /// The beginning of an input, for this hearer.
    pub fn new(hearer: H) -> LineTeller<H>
        ensures hearer { result.hearer ≡ hearer }
        ensures begins { HasHeard H.outcome hearer result.hearer result.cutter result.bad [] [] }
    {
        LineTeller {
            hearer,
            cutter: LineCutter::new(),
            bad: None,
        }
    }

    /// The number of the bad line, if one came.
    pub fn bad(&self) -> Option<u64>
        ensures { result ≡ self.now.bad }
    {
        self.bad
    }

    // Puts the line of the bad line of this number, and keeps the number.
    fn refuse(&mut self, number: u64, text: &mut String) -> Result<(), Memory>
        ensures hearer { self.new.hearer ≡ self.old.hearer }
        ensures bad { OnOk result (self.new.bad ≡ Some number) }
        ensures text { OnOk result
            (string_bytes text.new ≡ string_bytes text.old ++ bad_line number) }
    {
        push_bad_line(text, number)?;
        self.bad = Some(number);
        Ok(())
    }

    // Takes the octets up to the end of a line, and hears that line.
    fn step(&mut self, alloc: Global, octets: &[u8], text: &mut String) -> Result<Step, Memory>
        requires can { H.can_hear self.old.hearer }
        ensures steps { IfOk result (λ step.
            Steps H.outcome step self.old.hearer self.new.hearer self.old.cutter self.new.cutter
            self.old.bad self.new.bad octets.now (string_bytes text.old) (string_bytes text.new)) }
        ensures can { IfOk result (λ _. H.can_hear self.new.hearer) }
        ensures some { IfOk result (λ step. (taken : ℕ) → step ≡ Step.Heard taken → 0 < taken) }
        ensures early { IfOk result (λ step.
            (status : Status) → step ≡ Step.Settled status → EndsEarly status) }
    {
        law_lines();
        let (taken, cut) = self.cutter.take(octets);
        match cut {
            Cut::More => Ok(Step::More),
            Cut::Line => {
                let number = self.cutter.number();
                match self.hearer.hear(alloc, number, self.cutter.line(), text)? {
                    Heard::Next => Ok(Step::Heard(taken)),
                    Heard::Bad => {
                        self.refuse(number, text)?;
                        Ok(Step::Settled(Status::Refused))
                    }
                    Heard::Settled(status) => Ok(Step::Settled(status)),
                }
            }
            Cut::Bad => {
                let number = self.cutter.number() + 1;
                self.refuse(number, text)?;
                Ok(Step::Settled(Status::Refused))
            }
        }
    }
}

impl<H: Hearer> Teller for LineTeller<H> {
    type Asked = H;

    ghost answer = { λ first input. answer_of H.outcome first input };

    ghost stands = { λ teller first seen printed. HasHeard H.outcome first teller.hearer teller.cutter teller.bad seen printed };

    ghost has_told = { λ teller first input. HasClosed H.outcome first teller.hearer teller.bad input × H.can_hear teller.hearer };

    ghost can_take = { λ teller. H.can_hear teller.hearer };

    ghost room = { λ teller. room_of teller.cutter };

    fn take(
        &mut self,
        alloc: Global,
        piece: &[u8],
        text: &mut String,
    ) -> Result<Option<Status>, Memory> {
        law_lines();
        let mut rest = piece;
        loop {
            match self.step(alloc, rest, text)? {
                Step::More => return Ok(None),
                Step::Heard(taken) => rest = &rest[taken..],
                Step::Settled(status) => return Ok(Some(status)),
            }
        }
    }

    fn end(&mut self, alloc: Global, text: &mut String) -> Result<Status, Memory> {
        law_lines();
        let number = self.cutter.number() + 1;
        match self.cutter.last() {
            None => self.hearer.close(alloc, text),
            Some(line) => match self.hearer.hear(alloc, number, line, text)? {
                Heard::Next => self.hearer.close(alloc, text),
                Heard::Bad => {
                    self.refuse(number, text)?;
                    Ok(Status::Refused)
                }
                Heard::Settled(status) => Ok(status),
            },
        }
    }
}
