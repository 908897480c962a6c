//! What the words ask.

ghost use Rattle.std.specs.Prelude.{map, string_bytes};
ghost use Rattle.jt_cli.specs.Asking.{AreRead};
ghost use Rattle.jt_cli.specs.Words.{AreNoPlatform, AreNoRelay, AreNoTask};

use crate::task::Task;
use jt_relay_command::RelayWords;
use jt_report_command::ReportWords;
use jt_value::Memory;
use jt_words::PlatformWords;
use std::alloc::Global;

/// What the words after the program's name ask.
#[derive(Drop)]
pub enum Asked {
    /// A task over the source and the sink.
    Act(Task),
    /// To report fixes.
    Report(ReportWords),
    /// To serve links.
    Platform(PlatformWords),
    /// To pass the rows of a phone on.
    Relay(RelayWords),
    /// Nothing: they are the words of no command.
    Nothing,
    /// Memory was wanted before that was known, as it is of the words of `report` alone.
    Unread,
}

// What words ask that are those of no task, and neither those of `platform` nor those of `relay`.
fn report_in(alloc: Global, words: &[String]) -> Asked
    requires task { AreNoTask (map string_bytes words.now) }
    requires platform { AreNoPlatform (map string_bytes words.now) }
    requires relay { AreNoRelay (map string_bytes words.now) }
    ensures { AreRead result (map string_bytes words.now) }
{
    match ReportWords::from_words(alloc, words) {
        Ok(Some(told)) => Asked::Report(told),
        Ok(None) => Asked::Nothing,
        Err(Memory) => Asked::Unread,
    }
}

// What words ask that are those of no task and not those of `platform`.
fn relay_in(alloc: Global, words: &[String]) -> Asked
    requires task { AreNoTask (map string_bytes words.now) }
    requires platform { AreNoPlatform (map string_bytes words.now) }
    ensures { AreRead result (map string_bytes words.now) }
{
    match RelayWords::from_words(words) {
        Some(told) => Asked::Relay(told),
        None => report_in(alloc, words),
    }
}

impl Asked {
    /// Reads the words after the program's name.
    pub fn from_words(alloc: Global, words: &[String]) -> Asked
        ensures { AreRead result (map string_bytes words.now) }
    {
        match Task::from_words(words) {
            Some(task) => Asked::Act(task),
            None => match PlatformWords::from_words(words) {
                Some(told) => Asked::Platform(told),
                None => relay_in(alloc, words),
            },
        }
    }
}
