//! The fleet that the text of a source names.

ghost use Rattle.std.specs.Prelude.{◌≡◌, ◌≢◌, ◌≤◌, IfOk};
ghost use Rattle.jt_value.specs.Counts.{Rose};
ghost use Rattle.jt_platform_command.specs.FleetLines.{said_by};
ghost use Rattle.jt_platform_command.specs.FleetText.{nothing_named, at_end};
ghost use Rattle.jt_platform_command.specs.Naming.{IsNamed, Ends};
ghost use Rattle.jt_platform_command.specs.Reading.{ReadsFleet};
ghost use Rattle.jt_platform_command.specs.declared.line.FleetLine.TheVariants.{Secret, Plate, Terminal};
ghost use Rattle.jt_platform_command.specs.declared.fleet_reader.FleetRead.TheVariants as told;

use crate::line::{FleetLine, fleet_line};
use jt_input::{LineReader, NextLine, law_lines};
use jt_outside::Source;
use jt_platform::Fleet;
use jt_value::{Memory, Octets, Seq};
use std::alloc::Global;
use std::marker::Model;

/// What the reading of a fleet answers.
#[derive(Drop)]
pub enum FleetRead {
    /// The secret, and the plates and terminals. The text was read to its end.
    Fleet(Octets, Fleet),
    /// The line of this number, from 1, is bad.
    Bad(u64),
    /// A read of the source failed.
    Failed,
    /// Memory was wanted and refused.
    Memory,
}

// What was named so far.
#[derive(Drop)]
struct Naming {
    secret: Option<Octets>,
    plates: Seq<Octets>,
    terminals: Seq<Octets>,
}

impl Model for Naming {
    ghost use Rattle.jt_platform_command.specs.FleetText.{Named};

    ghost Value = { Named };

    ghost view = { λ naming. record { secret = naming.secret; fleet = record { plates = naming.plates; terminals = naming.terminals } } };
}

impl Naming {
    fn new(alloc: Global) -> Naming
        ensures { result ≡ nothing_named }
    {
        Naming {
            secret: None,
            plates: Seq::new(alloc),
            terminals: Seq::new(alloc),
        }
    }

    fn take_secret(&mut self, secret: Octets) -> bool
        ensures { IsNamed result self.old (Secret secret) self.new }
    {
        if self.secret.is_some() {
            return false;
        }
        self.secret = Some(secret);
        true
    }

    fn take_plate(&mut self, plate: Octets) -> Result<bool, Memory>
        ensures { IfOk result (λ good. IsNamed good self.old (Plate plate) self.new) }
    {
        if self.secret.is_none() {
            return Ok(false);
        }
        self.plates.push(plate)?;
        Ok(true)
    }

    fn take_terminal(&mut self, terminal: Octets) -> Result<bool, Memory>
        ensures { IfOk result (λ good. IsNamed good self.old (Terminal terminal) self.new) }
    {
        if self.secret.is_none() {
            return Ok(false);
        }
        self.terminals.push(terminal)?;
        Ok(true)
    }

    // Takes what a line says. False means that it is bad here.
    fn take(&mut self, line: FleetLine) -> Result<bool, Memory>
        ensures { IfOk result (λ good. IsNamed good self.old line self.new) }
    {
        match line {
            FleetLine::Passed => Ok(true),
            FleetLine::Secret(secret) => Ok(self.take_secret(secret)),
            FleetLine::Plate(plate) => self.take_plate(plate),
            FleetLine::Terminal(terminal) => self.take_terminal(terminal),
            FleetLine::Bad => Ok(false),
        }
    }

    // Takes a line. False means that it is bad here.
    fn hear(&mut self, alloc: Global, line: &[u8]) -> Result<bool, Memory>
        ensures { IfOk result (λ good. IsNamed good self.old (said_by line.now) self.new) }
    {
        let said = fleet_line(alloc, line)?;
        self.take(said)
    }

    // What the text names, where it ends before the line of this number.
    fn end(self, number: u64) -> FleetRead
        ensures { Ends result (at_end self.secret self.fleet number) }
    {
        let Naming {
            secret,
            plates,
            terminals,
        } = self;
        match secret {
            Some(secret) => FleetRead::Fleet(secret, Fleet { plates, terminals }),
            None => FleetRead::Bad(number),
        }
    }
}

/// Reads the fleet that the text of a source names, from `secret X` in its first line, but for lines that are passed over, and
/// `plate X` and `terminal X` in the others. It keeps all names in memory.
pub fn read_fleet<S: Source>(alloc: Global, source: &mut S) -> FleetRead
    ensures reads { ReadsFleet result (S.left source.old) (S.left source.new) }
    ensures failed { result ≡ told.Failed → Rose (S.faults source.old) (S.faults source.new) }
    ensures later { S.faults source.old ≤ S.faults source.new }
    // Every other answer, so Memory too, comes only where the count of faults stood still.
    ensures still { result ≢ told.Failed → S.faults source.new ≡ S.faults source.old }
{
    law_lines();
    let mut naming = Naming::new(alloc);
    let mut lines = LineReader::new();
    let mut number = 1;
    loop {
        match lines.next(source) {
            NextLine::Line => match naming.hear(alloc, lines.line()) {
                Ok(true) => number += 1,
                Ok(false) => return FleetRead::Bad(number),
                Err(Memory) => return FleetRead::Memory,
            },
            NextLine::Last => {
                return match naming.hear(alloc, lines.line()) {
                    Ok(true) => naming.end(number + 1),
                    Ok(false) => FleetRead::Bad(number),
                    Err(Memory) => FleetRead::Memory,
                };
            }
            NextLine::End => return naming.end(number),
            NextLine::Bad(number) => return FleetRead::Bad(number),
            NextLine::Failed => return FleetRead::Failed,
        }
    }
}
