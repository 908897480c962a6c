//! What is printed of a gateway's script.

ghost use Rattle.std.specs.Prelude.{◌≡◌, ◌++◌, string_bytes, OnOk};
ghost use Rattle.jt_gateway_command.specs.Texts.{is_pump as is_pump_of, named_line, named_lines, pump_line, pump_text, three_counts, world_name as world_name_of};

use jt_event_lines::{is_told, push_entry_line};
use jt_gateway::GatewayEvent;
use jt_platform::Entry;
use std::alloc::AllocError;
use std::fmt::Write;

/// What stands before each line of the entries that an event makes.
#[tactic(auto, unfolding(crate::specs::Texts::world_name))]
pub(crate) fn world_name(event: &GatewayEvent) -> &'static str
    ensures { result.now ≡ world_name_of event.now }
{
    match event {
        GatewayEvent::A(_) => "a ",
        GatewayEvent::B(_) => "b ",
        GatewayEvent::Pump | GatewayEvent::RestartMiddle => "",
    }
}

/// Whether an event passes fixes on.
pub(crate) fn is_pump(event: &GatewayEvent) -> bool
    ensures { result ≡ is_pump_of event.now }
{
    matches!(event, GatewayEvent::Pump)
}

// The line of an entry behind a name, if one is printed of it.
#[tactic(auto, using(std::proofs::Common::append_assoc))]
fn push_named_line(text: &mut String, name: &str, entry: &Entry) -> Result<(), AllocError>
    ensures { OnOk result
        (string_bytes text.new ≡ string_bytes text.old ++ named_line name.now entry.now) }
{
    if is_told(entry) {
        text.push_str(name)?;
        push_entry_line(text, entry)
    } else {
        Ok(())
    }
}

// Puts the lines of entries, each behind a name.
fn push_named_lines(text: &mut String, name: &str, entries: &[Entry]) -> Result<(), AllocError>
    ensures { OnOk result
        (string_bytes text.new ≡ string_bytes text.old ++ named_lines name.now entries.now) }
{
    for entry in entries {
        push_named_line(text, name, entry)?;
    }
    Ok(())
}

#[tactic(auto, unfolding(crate::specs::Texts::pump_line))]
fn push_pump_line(text: &mut String, count: u64) -> Result<(), AllocError>
    ensures { OnOk result (string_bytes text.new ≡ string_bytes text.old ++ pump_line count) }
{
    write!(text, "pump {count}\n")
}

// Puts the line of a pump that passed so many fixes on, where it is a pump.
fn push_pump(text: &mut String, pumps: bool, count: u64) -> Result<(), AllocError>
    ensures { OnOk result
        (string_bytes text.new ≡ string_bytes text.old ++ pump_text pumps count) }
{
    if pumps {
        push_pump_line(text, count)
    } else {
        Ok(())
    }
}

/// Puts the line of a pump, where it is one, and the lines of entries, each behind a name. After an error the text is a part of that.
#[tactic(auto, using(std::proofs::Common::append_assoc))]
pub(crate) fn push_event(
    text: &mut String,
    name: &str,
    pumps: bool,
    count: u64,
    entries: &[Entry],
) -> Result<(), AllocError>
    ensures { OnOk result (string_bytes text.new ≡ string_bytes text.old
        ++ pump_text pumps count ++ named_lines name.now entries.now) }
{
    push_pump(text, pumps, count)?;
    push_named_lines(text, name, entries)
}

/// Puts the last line: the fixes that world a recorded, those that it stored, and those that world b stored.
#[tactic(auto, unfolding(crate::specs::Texts::three_counts))]
pub(crate) fn push_end(
    text: &mut String,
    recorded: u64,
    middle: u64,
    upstream: u64,
) -> Result<(), AllocError>
    ensures { OnOk result (string_bytes text.new
        ≡ string_bytes text.old ++ three_counts recorded middle upstream) }
{
    write!(
        text,
        "recorded={recorded} middle={middle} upstream={upstream}\n"
    )
}
