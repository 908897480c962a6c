//! A line for each entry of a hub's history, put at the end of a text.

ghost use Rattle.std.specs.Prelude.{◌≡◌, ◌++◌, string_bytes, OnOk};
ghost use Rattle.std.specs.List.{flat_map};
ghost use Rattle.jt_event_lines.specs.EntryLines.{entry_line, is_answered, is_named, is_told as is_told_of, reply_words, request_words, told_line};

use jt_platform::{Entry, Reply, Request};
use std::alloc::AllocError;
use std::fmt::Write;

// Whether a request is printed: each is but Other.
fn is_named(request: &Request) -> bool
    ensures { result ≡ is_named request.now }
{
    match request {
        Request::Other { .. } => false,
        Request::Register { .. }
        | Request::Auth { .. }
        | Request::Unit { .. }
        | Request::Deregister { .. }
        | Request::Close => true,
    }
}

// Whether entries are made of a reply.
fn is_answered(reply: &Reply) -> bool
    ensures { result ≡ is_answered reply.now }
{
    match reply {
        Reply::ListFull(_) | Reply::StoreFault | Reply::Memory => false,
        Reply::Registered(_)
        | Reply::Denied(_)
        | Reply::Accepted
        | Reply::Stored(_)
        | Reply::Repeat(_)
        | Reply::Renumbered(_)
        | Reply::NotLive
        | Reply::Fenced(_) => true,
    }
}

/// Whether a line is printed of an entry: of each one but those of kind Other. Of a reply of which no entry is made none is.
pub fn is_told(entry: &Entry) -> bool
    ensures { result ≡ is_told_of entry.now }
{
    is_named(&entry.request) && is_answered(&entry.reply)
}

#[tactic(auto, unfolding(crate::specs::EntryLines::request_words))]
fn push_request(text: &mut String, request: &Request) -> Result<(), AllocError>
    ensures { OnOk result
        (string_bytes text.new ≡ string_bytes text.old ++ request_words request.now) }
{
    match request {
        Request::Register { .. } => text.push_str("register"),
        Request::Auth { .. } => text.push_str("auth"),
        Request::Unit { serial, .. } => write!(text, "unit {serial}"),
        Request::Deregister { .. } => text.push_str("deregister"),
        Request::Other { .. } => text.push_str("other"),
        Request::Close => text.push_str("close"),
    }
}

#[tactic(auto, unfolding(crate::specs::EntryLines::reply_words))]
fn push_reply(text: &mut String, reply: &Reply) -> Result<(), AllocError>
    ensures { OnOk result
        (string_bytes text.new ≡ string_bytes text.old ++ reply_words reply.now) }
{
    match reply {
        Reply::Registered(_) => text.push_str("registered"),
        Reply::Denied(result) => write!(text, "denied {result}"),
        Reply::Accepted => text.push_str("accepted"),
        Reply::Stored(number) => write!(text, "stored {number}"),
        Reply::Repeat(number) => write!(text, "repeat {number}"),
        Reply::Renumbered(number) => write!(text, "renumbered {number}"),
        Reply::NotLive => text.push_str("not-live"),
        Reply::Fenced(session) => write!(text, "fenced {session}"),
        Reply::ListFull(_) => text.push_str("list-full"),
        Reply::StoreFault => text.push_str("store-fault"),
        Reply::Memory => text.push_str("memory"),
    }
}

// The line of an entry that is told.
#[tactic(auto, using(std::proofs::Common::append_assoc), unfolding(crate::specs::EntryLines::told_line))]
fn push_told(text: &mut String, entry: &Entry) -> Result<(), AllocError>
    ensures { OnOk result (string_bytes text.new ≡ string_bytes text.old ++ told_line entry.now) }
{
    let session = entry.session;
    write!(text, "{session} ")?;
    push_request(text, &entry.request)?;
    text.push_str(" ")?;
    push_reply(text, &entry.reply)?;
    text.push_str("\n")
}

/// Puts the line of an entry at the end of a text, if one is printed of it. After an error the text is a part of that.
#[tactic(auto, unfolding(crate::specs::EntryLines::entry_line))]
pub fn push_entry_line(text: &mut String, entry: &Entry) -> Result<(), AllocError>
    ensures { OnOk result (string_bytes text.new ≡ string_bytes text.old ++ entry_line entry.now) }
{
    if is_told(entry) {
        push_told(text, entry)
    } else {
        Ok(())
    }
}

/// Puts the lines of entries at the end of a text, in order. After an error the text is a part of that.
pub fn push_entry_lines(text: &mut String, entries: &[Entry]) -> Result<(), AllocError>
    ensures { OnOk result
        (string_bytes text.new ≡ string_bytes text.old ++ flat_map entry_line entries.now) }
{
    for entry in entries {
        push_entry_line(text, entry)?;
    }
    Ok(())
}
