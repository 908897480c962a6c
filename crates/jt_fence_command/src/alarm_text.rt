//! The lines that alarms are printed as, each put at the end of a text.

ghost use Rattle.std.specs.Prelude.{◌≡◌, ◌++◌, codes, string_bytes, OnOk};
ghost use Rattle.jt_fence_command.specs.AlarmText.{alarm_line, alarm_lines, kind_word as word_of_kind, totals_line, what_word as word_of_what};

use jt_fence::{Alarm, What};
use jt_regions::RegionKind;
use std::alloc::AllocError;
use std::fmt::Write;

#[tactic(auto, unfolding(crate::specs::AlarmText::what_word))]
fn what_word(what: What) -> &'static str
    ensures { result.now ≡ word_of_what what }
{
    match what {
        What::Enter => "enter",
        What::Leave => "leave",
        What::Over => "over",
    }
}

#[tactic(auto, unfolding(crate::specs::AlarmText::kind_word))]
fn kind_word(kind: RegionKind) -> &'static str
    ensures { result.now ≡ word_of_kind kind }
{
    match kind {
        RegionKind::Circle => "circle",
        RegionKind::Rectangle => "rectangle",
        RegionKind::Polygon => "polygon",
        RegionKind::Route => "route",
    }
}

#[tactic(auto, unfolding(crate::specs::AlarmText::alarm_line))]
fn push_alarm_line(text: &mut String, number: u64, alarm: Alarm) -> Result<(), AllocError>
    ensures { OnOk result
        (string_bytes text.new ≡ string_bytes text.old ++ alarm_line number alarm) }
{
    let what = what_word(alarm.what);
    let kind = kind_word(alarm.kind);
    let id = alarm.id;
    write!(text, "fix {number} {what} {kind} {id}\n")
}

/// A line for each alarm of the fix of this number.
pub fn push_alarm_lines(text: &mut String, number: u64, alarms: &[Alarm]) -> Result<(), AllocError>
    ensures { OnOk result
        (string_bytes text.new ≡ string_bytes text.old ++ alarm_lines number alarms.now) }
{
    for alarm in alarms {
        push_alarm_line(text, number, *alarm)?;
    }
    Ok(())
}

/// The line at the end of a track: how many fixes and alarms there were.
#[tactic(auto, unfolding(crate::specs::AlarmText::totals_line))]
pub fn push_totals_line(text: &mut String, fixes: u64, events: u64) -> Result<(), AllocError>
    ensures { OnOk result
        (string_bytes text.new ≡ string_bytes text.old ++ totals_line fixes events) }
{
    write!(text, "fixes={fixes} events={events}\n")
}
