//! The printed lines of `platform`, each put at the end of a text.

ghost use Rattle.std.specs.Prelude.{◌≡◌, ◌<◌, ◌+◌, ◌^◌, ◌++◌, ◌||◌, string_bytes, OnOk, if◌then◌else◌};
ghost use Rattle.std.specs.List.{flat_map};
ghost use Rattle.jt_input.specs.declared.status.Status.TheVariants.{Memory};
ghost use Rattle.jt_platform_command.specs.Platform.{count_of, end_word, entries_line, is_renumbered, is_repeat, is_stored, session_counts, session_line, session_octets, totals_line};
ghost use Rattle.jt_platform_command.specs.Platform.{first_limit, is_memory, is_store_fault, last_reply, limit_in, or_limit, some_end, store_reply};

use jt_input::{EarlyEnd, Status};
use jt_platform::{Entry, Reply};
use jt_server::ServeEnd;
use jt_session::{End, Report};
use std::alloc::AllocError;
use std::fmt::Write;

fn push_end_word(text: &mut String, end: End) -> Result<(), AllocError>
    ensures { OnOk result (string_bytes text.new ≡ string_bytes text.old ++ end_word end) }
{
    text.push_str(match end {
        End::Ended => "ended",
        End::LinkFault => "link-fault",
        End::Idle => "idle",
        End::Spent => "spent",
        End::Fenced(_) => "fenced",
        End::StoreFault => "store-fault",
        End::ListFull(_) => "list-full",
        End::Memory => "memory",
    })
}

#[tactic(auto, unfolding(crate::specs::Platform::session_octets))]
fn push_session_octets(text: &mut String, read: u64, written: u64) -> Result<(), AllocError>
    ensures { OnOk result
        (string_bytes text.new ≡ string_bytes text.old ++ session_octets read written) }
{
    write!(text, " read={read} written={written}")
}

#[tactic(auto, unfolding(crate::specs::Platform::session_counts))]
fn push_session_counts(
    text: &mut String,
    frames: u64,
    refused: u64,
    dropped: u64,
) -> Result<(), AllocError>
    ensures { OnOk result
        (string_bytes text.new ≡ string_bytes text.old ++ session_counts frames refused dropped) }
{
    write!(
        text,
        " frames={frames} refused={refused} dropped={dropped}\n"
    )
}

#[tactic(auto, using(std::proofs::Common::append_assoc), unfolding(crate::specs::Platform::session_line))]
fn push_session_line(text: &mut String, report: &Report) -> Result<(), AllocError>
    ensures { OnOk result
        (string_bytes text.new ≡ string_bytes text.old ++ session_line report.now) }
{
    let session = report.session;
    write!(text, "session {session} ")?;
    push_end_word(text, report.end)?;
    push_session_octets(text, report.read, report.written)?;
    push_session_counts(text, report.frames, report.refused, report.dropped)
}

/// A line for each session: how it ended, and its counts.
pub(crate) fn push_session_lines(text: &mut String, reports: &[Report]) -> Result<(), AllocError>
    ensures { OnOk result
        (string_bytes text.new ≡ string_bytes text.old ++ flat_map session_line reports.now) }
{
    for report in reports {
        push_session_line(text, report)?;
    }
    Ok(())
}

// How many entries of each kind the history has.
#[derive(Clone, Copy)]
struct Totals {
    stored: u64,
    repeat: u64,
    renumbered: u64,
}

impl Totals {
    fn with(self, reply: &Reply) -> Totals
        requires stored { self.stored < 2 ^ 63 }
        requires repeat { self.repeat < 2 ^ 63 }
        requires renumbered { self.renumbered < 2 ^ 63 }
        ensures stored { result.stored ≡ self.stored + (if is_stored reply.now then 1 else 0) }
        ensures repeat { result.repeat ≡ self.repeat + (if is_repeat reply.now then 1 else 0) }
        ensures renumbered { result.renumbered
            ≡ self.renumbered + (if is_renumbered reply.now then 1 else 0) }
    {
        let mut totals = self;
        match reply {
            Reply::Stored(_) => totals.stored += 1,
            Reply::Repeat(_) => totals.repeat += 1,
            Reply::Renumbered(_) => totals.renumbered += 1,
            Reply::Registered(_)
            | Reply::Denied(_)
            | Reply::Accepted
            | Reply::NotLive
            | Reply::Fenced(_)
            | Reply::ListFull(_)
            | Reply::StoreFault
            | Reply::Memory => {}
        }
        totals
    }

    fn of(history: &[Entry]) -> Totals
        ensures stored { result.stored ≡ count_of is_stored history.now }
        ensures repeat { result.repeat ≡ count_of is_repeat history.now }
        ensures renumbered { result.renumbered ≡ count_of is_renumbered history.now }
    {
        let mut totals = Totals {
            stored: 0,
            repeat: 0,
            renumbered: 0,
        };
        for entry in history {
            totals = totals.with(&entry.reply);
        }
        totals
    }
}

#[tactic(auto, unfolding(crate::specs::Platform::totals_line))]
fn push_totals(text: &mut String, entries: usize, totals: Totals) -> Result<(), AllocError>
    ensures { OnOk result (string_bytes text.new ≡ string_bytes text.old
        ++ totals_line entries totals.stored totals.repeat totals.renumbered) }
{
    let Totals {
        stored,
        repeat,
        renumbered,
    } = totals;
    write!(
        text,
        "entries={entries} stored={stored} repeat={repeat} renumbered={renumbered}\n"
    )
}

/// The line of the totals of a history.
pub(crate) fn push_entries_line(text: &mut String, history: &[Entry]) -> Result<(), AllocError>
    ensures { OnOk result
        (string_bytes text.new ≡ string_bytes text.old ++ entries_line history.now) }
{
    push_totals(text, history.len(), Totals::of(history))
}

// How the sessions ended, as far as the last line and the status go by it.
#[derive(Clone, Copy)]
struct Ends {
    memory: bool,
    store_fault: bool,
    // The limit that the first session with a full list met.
    limit: Option<u64>,
}

impl Ends {
    fn with(self, end: End) -> Ends
        ensures memory { result.memory ≡ (self.memory || is_memory end) }
        ensures store_fault { result.store_fault ≡ (self.store_fault || is_store_fault end) }
        ensures limit { result.limit ≡ or_limit self.limit (limit_in end) }
    {
        let mut ends = self;
        match end {
            End::Memory => ends.memory = true,
            End::StoreFault => ends.store_fault = true,
            End::ListFull(limit) => ends.limit = ends.limit.or(Some(limit)),
            End::Ended | End::LinkFault | End::Idle | End::Spent | End::Fenced(_) => {}
        }
        ends
    }

    fn of(reports: &[Report]) -> Ends
        ensures memory { result.memory ≡ some_end is_memory reports.now }
        ensures store_fault { result.store_fault ≡ some_end is_store_fault reports.now }
        ensures limit { result.limit ≡ first_limit reports.now }
    {
        let mut ends = Ends {
            memory: false,
            store_fault: false,
            limit: None,
        };
        for report in reports {
            ends = ends.with(report.end);
        }
        ends
    }
}

fn push_store_line(
    text: &mut String,
    store_fault: bool,
    limit: Option<u64>,
) -> Result<(), AllocError>
    ensures { OnOk result
        (string_bytes text.new ≡ string_bytes text.old ++ (store_reply store_fault limit).text) }
{
    if store_fault {
        return EarlyEnd::StoreFault.push(text);
    }
    match limit {
        Some(limit) => EarlyEnd::ListFull(limit).push(text),
        None => Ok(()),
    }
}

/// The last line, if there is one.
pub(crate) fn push_last_line(
    text: &mut String,
    end: ServeEnd,
    reports: &[Report],
) -> Result<(), AllocError>
    ensures { OnOk result
        (string_bytes text.new ≡ string_bytes text.old ++ (last_reply end reports.now).text) }
{
    match end {
        ServeEnd::ListenFault => EarlyEnd::ListenFault.push(text),
        ServeEnd::Memory => Ok(()),
        ServeEnd::All | ServeEnd::Over => {
            let ends = Ends::of(reports);
            push_store_line(text, ends.store_fault, ends.limit)
        }
    }
}

fn store_status(store_fault: bool, limit: Option<u64>) -> Status
    ensures { result ≡ (store_reply store_fault limit).status }
{
    if store_fault {
        return Status::StoreFault;
    }
    match limit {
        Some(_) => Status::StoreFault,
        None => Status::Done,
    }
}

/// The status of a run that served these sessions.
pub(crate) fn served_status(end: ServeEnd, reports: &[Report]) -> Status
    ensures { result
        ≡ (if some_end is_memory reports.now then Memory else (last_reply end reports.now).status) }
{
    let ends = Ends::of(reports);
    if ends.memory {
        return Status::Memory;
    }
    match end {
        ServeEnd::ListenFault => Status::NetFault,
        ServeEnd::Memory => Status::Memory,
        ServeEnd::All | ServeEnd::Over => store_status(ends.store_fault, ends.limit),
    }
}
