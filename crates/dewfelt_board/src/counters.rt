//! What was counted since the start.

use crate::ending::Ending;

/// What became of a registration (this project's own).
#[derive(Clone, Copy, Debug, PartialEq, Eq)]
pub enum RegistrationResult {
    Registered,
    PlateOfAnother,
    NoSuchPlate,
    TerminalOfAnother,
    NoSuchTerminal,
    Closed,
}

impl RegistrationResult {
    /// How many there are.
    pub const COUNT: usize = 6;

    /// All of them.
    pub const ALL: [RegistrationResult; RegistrationResult::COUNT] = [
        RegistrationResult::Registered,
        RegistrationResult::PlateOfAnother,
        RegistrationResult::NoSuchPlate,
        RegistrationResult::TerminalOfAnother,
        RegistrationResult::NoSuchTerminal,
        RegistrationResult::Closed,
    ];

    /// Why a registration is denied, by the number that the standard gives the reason.
    pub fn denied(number: u8) -> RegistrationResult {
        match number {
            1 => RegistrationResult::PlateOfAnother,
            2 => RegistrationResult::NoSuchPlate,
            3 => RegistrationResult::TerminalOfAnother,
            _ => RegistrationResult::NoSuchTerminal,
        }
    }

    /// The word for it.
    pub fn word(self) -> &'static str {
        match self {
            RegistrationResult::Registered => "registered",
            RegistrationResult::PlateOfAnother => "plate-of-another",
            RegistrationResult::NoSuchPlate => "no-such-plate",
            RegistrationResult::TerminalOfAnother => "terminal-of-another",
            RegistrationResult::NoSuchTerminal => "no-such-terminal",
            RegistrationResult::Closed => "closed",
        }
    }
}

/// What became of a unit (this project's own).
#[derive(Clone, Copy, Debug, PartialEq, Eq)]
pub enum UnitReply {
    Stored,
    Repeat,
    Renumbered,
    Fenced,
    NotLive,
}

impl UnitReply {
    /// How many there are.
    pub const COUNT: usize = 5;

    /// All of them.
    pub const ALL: [UnitReply; UnitReply::COUNT] = [
        UnitReply::Stored,
        UnitReply::Repeat,
        UnitReply::Renumbered,
        UnitReply::Fenced,
        UnitReply::NotLive,
    ];

    /// The word for it.
    pub fn word(self) -> &'static str {
        match self {
            UnitReply::Stored => "stored",
            UnitReply::Repeat => "repeat",
            UnitReply::Renumbered => "renumbered",
            UnitReply::Fenced => "fenced",
            UnitReply::NotLive => "not_live",
        }
    }
}

/// What was counted since the start. A count stays at 2^64 - 1 once it is there.
#[derive(Clone, Copy)]
pub struct Counters {
    pub began: u64,
    pub ended: [u64; Ending::COUNT],
    pub registrations: [u64; RegistrationResult::COUNT],
    pub let_in: u64,
    pub denied: u64,
    pub units: [u64; UnitReply::COUNT],
    pub fixes: u64,
    pub read: u64,
    pub written: u64,
    pub frames: u64,
    pub refused: u64,
    pub dropped: u64,
    pub away: u64,
    pub accepts_failed: u64,
    /// What is not shown, since memory was refused for it.
    pub lost: u64,
}

/// One more.
pub(crate) fn raise(count: &mut u64) {
    *count = count.saturating_add(1);
}

/// So many more.
pub(crate) fn add(count: &mut u64, more: u64) {
    *count = count.saturating_add(more);
}

impl Counters {
    /// Nothing so far.
    pub fn new() -> Counters {
        Counters {
            began: 0,
            ended: [0; Ending::COUNT],
            registrations: [0; RegistrationResult::COUNT],
            let_in: 0,
            denied: 0,
            units: [0; UnitReply::COUNT],
            fixes: 0,
            read: 0,
            written: 0,
            frames: 0,
            refused: 0,
            dropped: 0,
            away: 0,
            accepts_failed: 0,
            lost: 0,
        }
    }

    pub(crate) fn count_end(&mut self, ending: Ending) {
        if let Some(count) = self.ended.get_mut(ending as usize) {
            raise(count);
        }
    }

    pub(crate) fn count_registration(&mut self, outcome: RegistrationResult) {
        if let Some(count) = self.registrations.get_mut(outcome as usize) {
            raise(count);
        }
    }

    pub(crate) fn count_unit(&mut self, reply: UnitReply) {
        if let Some(count) = self.units.get_mut(reply as usize) {
            raise(count);
        }
    }
}
