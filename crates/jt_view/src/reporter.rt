//! The report of an input that comes in pieces.

ghost use Rattle.std.specs.Prelude.{◌≡◌, ◌⊎◌, IfSome, ◌<◌, ◌≤◌, ◌+◌, ◌-◌, ◌^◌, ℕ, List, [], None, length, string_bytes, IfOk};
ghost use Rattle.jt_value.specs.declared.limits.TheConstants.{INPUT_LIMIT};
ghost use Rattle.jt_view.specs.Report.{answer_of, closing_of};
ghost use Rattle.jt_view.specs.Taking.{Stands, StandsFor, TakesInput, EndsTooLong};

use crate::closing::Closing;
use crate::command::{Command, Encoding};
use crate::hex_laws::{law_octets_of_front, law_wrong_stays};
use crate::hex_reader::HexReader;
use crate::tally::Tally;
use crate::telling::{close, tell};
use jt_input::{Status, Teller};
use jt_stream::law_all_items;
use jt_value::Memory;
use std::alloc::Global;

/// What is asked of an input: a command, and how many of its octets may be read.
#[derive(Clone, Copy, Debug, PartialEq, Eq)]
pub struct Question {
    pub command: Command,
    pub most: u64,
}

/// What is kept of an input between its pieces.
#[derive(Drop)]
pub struct Reporter {
    command: Command,
    // How many octets of the input may be read.
    most: u64,
    reader: HexReader,
    // The octets of the last piece, where they are written as digits.
    octets: Vec<u8>,
    tally: Tally,
    // How many octets of the input were taken.
    taken: u64,
}

impl Reporter {
    /// The beginning of an input.
    pub fn new(alloc: Global, command: Command, most: u64) -> Reporter
        ensures command { result.command ≡ command }
        ensures most { result.most ≡ most }
        ensures stands { Stands result [] }
        ensures taken { result.taken ≡ 0 }
        ensures place { result.tally.stream.splitter.place ≤ result.taken }
    {
        Reporter {
            command,
            most,
            reader: HexReader::new(),
            octets: Vec::new(alloc),
            tally: Tally::new(),
            taken: 0,
        }
    }

    fn take_octets(
        &mut self,
        alloc: Global,
        piece: &[u8],
        text: &mut String,
    ) -> Result<Option<Status>, Memory>
        requires command { self.old.command.encoding ≡ Encoding.Octets }
        requires taken { self.old.taken + length piece.now < 2 ^ 63 }
        requires place { self.old.tally.stream.splitter.place ≤ self.old.taken }
        ensures command { self.new.command ≡ self.old.command }
        ensures most { self.new.most ≡ self.old.most }
        ensures taken { IfOk result (λ settled.
            settled ≡ None → self.new.taken ≡ self.old.taken + length piece.now) }
        ensures place { IfOk result (λ settled.
            settled ≡ None → self.new.tally.stream.splitter.place ≤ self.new.taken) }
        ensures place_of_any { IfOk result (λ _. self.new.tally.stream.splitter.place < 2 ^ 63) }
        ensures refused { IfOk result (λ settled.
            IfSome settled (λ status. status ≡ Status.Refused)) }
        ensures takes { IfOk result (λ settled. TakesInput settled self.old self.new piece.now
            (string_bytes text.old) (string_bytes text.new)) }
    {
        law_all_items();
        law_octets_of_front();
        self.taken += piece.len() as u64;
        if tell(alloc, self.command.report, &mut self.tally, piece, text)? {
            Ok(Some(Status::Refused))
        } else {
            Ok(None)
        }
    }

    fn take_digits(
        &mut self,
        alloc: Global,
        piece: &[u8],
        text: &mut String,
    ) -> Result<Option<Status>, Memory>
        requires command { self.old.command.encoding ≡ Encoding.Hex }
        requires taken { self.old.taken + length piece.now < 2 ^ 63 }
        requires place { self.old.tally.stream.splitter.place ≤ self.old.taken }
        ensures command { self.new.command ≡ self.old.command }
        ensures most { self.new.most ≡ self.old.most }
        ensures taken { IfOk result (λ settled.
            settled ≡ None → self.new.taken ≡ self.old.taken + length piece.now) }
        ensures place { IfOk result (λ settled.
            settled ≡ None → self.new.tally.stream.splitter.place ≤ self.new.taken) }
        ensures place_of_any { IfOk result (λ _. self.new.tally.stream.splitter.place < 2 ^ 63) }
        ensures refused { IfOk result (λ settled.
            IfSome settled (λ status. status ≡ Status.Refused)) }
        ensures takes { IfOk result (λ settled. TakesInput settled self.old self.new piece.now
            (string_bytes text.old) (string_bytes text.new)) }
    {
        law_all_items();
        law_octets_of_front();
        law_wrong_stays();
        self.octets.clear();
        let wrong = self.reader.read(piece, &mut self.octets)?;
        if tell(
            alloc,
            self.command.report,
            &mut self.tally,
            self.octets.as_slice(),
            text,
        )? {
            return Ok(Some(Status::Refused));
        }
        match wrong {
            Some(index) => {
                let closing = Closing::HexRefused(self.taken + index as u64);
                let status = close(self.command.report, closing, &self.tally, text)?;
                Ok(Some(status))
            }
            None => {
                self.taken += piece.len() as u64;
                Ok(None)
            }
        }
    }

    // Takes the input's next octets, none of which is past those that may be read.
    fn take_piece(
        &mut self,
        alloc: Global,
        piece: &[u8],
        text: &mut String,
    ) -> Result<Option<Status>, Memory>
        requires taken { self.old.taken + length piece.now < 2 ^ 63 }
        requires place { self.old.tally.stream.splitter.place ≤ self.old.taken }
        ensures command { self.new.command ≡ self.old.command }
        ensures most { self.new.most ≡ self.old.most }
        ensures taken { IfOk result (λ settled.
            settled ≡ None → self.new.taken ≡ self.old.taken + length piece.now) }
        ensures place { IfOk result (λ settled.
            settled ≡ None → self.new.tally.stream.splitter.place ≤ self.new.taken) }
        ensures place_of_any { IfOk result (λ _. self.new.tally.stream.splitter.place < 2 ^ 63) }
        ensures refused { IfOk result (λ settled.
            IfSome settled (λ status. status ≡ Status.Refused)) }
        ensures takes { IfOk result (λ settled. TakesInput settled self.old self.new piece.now
            (string_bytes text.old) (string_bytes text.new)) }
    {
        match self.command.encoding {
            Encoding::Octets => self.take_octets(alloc, piece, text),
            Encoding::Hex => self.take_digits(alloc, piece, text),
        }
    }

    // How an input that ends here closes.
    fn closing(&self) -> Closing
        ensures { (seen : List ℕ) → Stands self.now seen → (most : ℕ) → length seen ≤ most
            → closing_of self.now.command.encoding most seen ≡ result }
    {
        match self.command.encoding {
            Encoding::Hex if self.reader.is_waiting() => Closing::HexRefused(self.taken),
            Encoding::Hex | Encoding::Octets => Closing::Whole,
        }
    }

    // Puts what closes the report of an input that goes on, though no more of it may be read, and answers its status.
    fn end_too_long(&self, text: &mut String) -> Result<Status, Memory>
        requires place { self.now.tally.stream.splitter.place < 2 ^ 63 }
        ensures ends { IfOk result (λ status.
            EndsTooLong self.now (string_bytes text.old) (string_bytes text.new) status) }
        ensures refused { IfOk result (λ status. status ≡ Status.Refused) }
    {
        close(self.command.report, Closing::TooLong, &self.tally, text)
    }
}

impl Teller for Reporter {
    type Asked = Question;

    ghost answer = { λ asked input. answer_of asked.command asked.most input };

    ghost stands = { λ reporter asked seen printed. StandsFor reporter asked seen printed };

    ghost has_told = { λ _ _ _. Unit {0} };

    ghost can_take = { λ reporter. (reporter.most ≤ INPUT_LIMIT) × (reporter.taken ≤ reporter.most) × (reporter.tally.stream.splitter.place ≤ reporter.taken) };

    ghost room = { λ reporter. reporter.most - reporter.taken };

    fn take(
        &mut self,
        alloc: Global,
        piece: &[u8],
        text: &mut String,
    ) -> Result<Option<Status>, Memory> {
        law_all_items();
        law_octets_of_front();
        let room = self.most - self.taken;
        if piece.len() as u64 <= room {
            return self.take_piece(alloc, piece, text);
        }
        match self.take_piece(alloc, &piece[..room as usize], text)? {
            Some(status) => Ok(Some(status)),
            None => {
                let status = self.end_too_long(text)?;
                Ok(Some(status))
            }
        }
    }

    fn end(&mut self, _alloc: Global, text: &mut String) -> Result<Status, Memory> {
        close(self.command.report, self.closing(), &self.tally, text)
    }
}
