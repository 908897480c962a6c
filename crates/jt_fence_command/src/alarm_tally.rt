//! A watch that hears the lines of a track.

ghost use Rattle.std.specs.Prelude.{◌≡◌, ◌++◌, string_bytes, IfOk, OnOk, OnErr};
ghost use Rattle.jt_value.specs.declared.limits.TheConstants.{WORD_COUNT_LIMIT};
ghost use Rattle.jt_regions.specs.Tables.{AtMost};
ghost use Rattle.jt_fence_command.specs.Tally.{ChangesTally, alarms_behind, fix_behind, first_tally, outcome_of};
ghost use Rattle.jt_fence_command.specs.AlarmText.{alarm_lines};
ghost use Rattle.jt_fence_command.specs.Beyond.{beyond_is_bad};

use crate::alarm_text::{push_alarm_lines, push_totals_line};
use crate::line::{FenceLine, fence_line};
use jt_fence::Watch;
use jt_input::{Heard, Hearer, Status};
use jt_position::Fixed;
use jt_regions::{RegionChange, RegionError};
use jt_value::Memory;
use std::alloc::Global;

/// A watch over a track, and how many fixes and alarms there were. Both counts stand still at 2^64 - 1.
#[derive(Drop)]
pub struct AlarmTally {
    watch: Watch,
    fixes: u64,
    events: u64,
}

impl AlarmTally {
    /// Before the first line. It takes no memory.
    pub fn new(alloc: Global) -> AlarmTally
        ensures { result ≡ first_tally }
    {
        AlarmTally {
            watch: Watch::new(alloc),
            fixes: 0,
            events: 0,
        }
    }

    // Takes the next fix of the track, and puts a line for each alarm that it raises.
    fn take(&mut self, alloc: Global, fixed: &Fixed, text: &mut String) -> Result<(), Memory>
        ensures tally { OnOk result (self.new ≡ fix_behind self.old fixed.now) }
        ensures text { OnOk result (string_bytes text.new ≡ string_bytes text.old
            ++ alarm_lines self.new.fixes (alarms_behind self.old fixed.now)) }
    {
        let alarms = self.watch.take(alloc, fixed)?;
        self.fixes = self.fixes.saturating_add(1);
        self.events = self.events.saturating_add(alarms.len() as u64);
        push_alarm_lines(text, self.fixes, alarms.as_slice())?;
        Ok(())
    }

    // Changes the regions, unless the change is refused.
    fn change(&mut self, alloc: Global, change: &RegionChange) -> Result<Heard, Memory>
        requires { AtMost WORD_COUNT_LIMIT change.now }
        ensures { IfOk result (λ heard. ChangesTally heard self.old change.now self.new) }
    {
        match self.watch.change(alloc, change) {
            Ok(()) => Ok(Heard::Next),
            Err(RegionError::Memory) => Err(Memory),
            Err(RegionError::BadSetting(_) | RegionError::NoRegion(_) | RegionError::TooMany(_)) =>
                Ok(Heard::Bad),
        }
    }
}

impl Hearer for AlarmTally {
    ghost outcome = { outcome_of };

    ghost can_hear = { λ _. Unit {0} };

    fn hear(
        &mut self,
        alloc: Global,
        _number: u64,
        line: &[u8],
        text: &mut String,
    ) -> Result<Heard, Memory> {
        match fence_line(alloc, line)? {
            FenceLine::Passed => Ok(Heard::Next),
            FenceLine::Fix(fixed) => {
                self.take(alloc, &fixed, text)?;
                Ok(Heard::Next)
            }
            FenceLine::Change(change) => self.change(alloc, &change),
            FenceLine::Bad => Ok(Heard::Bad),
        }
    }

    fn close(&mut self, _alloc: Global, text: &mut String) -> Result<Status, Memory> {
        push_totals_line(text, self.fixes, self.events)?;
        Ok(Status::Done)
    }

    ghost beyond = { λ tally number line more e. beyond_is_bad tally number line more e };
}
