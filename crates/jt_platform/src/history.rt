//! What a history says, by going through it. A hub looks it up in tables; these are the plain form that tests compare with.

ghost use Rattle.std.specs.Prelude.{◌≡◌, ◌&&◌, ◌==◌, if◌then◌else◌};
ghost use Rattle.jt_value.specs.Sameness.{key_of, same_key};
ghost use Rattle.jt_platform.specs.History.{newest, live, closed, is_close, or_else, says_live, is_accepted_auth, takes as takes_by, holder as holder_of};

use crate::request::{Entry, Reply, Request};
use jt_value::Phone;

/// Whether the session's Close stands in the history, which is oldest entry first.
pub fn is_closed(history: &[Entry], session: u32) -> bool
    ensures { result ≡ closed (newest history.now) session }
{
    let mut found = false;
    for entry in history {
        found = closes(entry, session) || found;
    }
    found
}

fn closes(entry: &Entry, session: u32) -> bool
    ensures { result ≡ ((entry.now.session == session) && is_close entry.now.request) }
{
    entry.session == session && matches!(&entry.request, Request::Close)
}

// What the entry says of whether its session is live for the phone, if anything.
fn says(entry: &Entry, phone: &Phone) -> Option<bool>
    ensures { result ≡ says_live (key_of phone.now) entry.now.request entry.now.reply }
{
    match (&entry.request, &entry.reply) {
        (
            Request::Auth {
                phone: other,
                code: _,
            },
            Reply::Accepted,
        ) => said(other, phone, true),
        (Request::Deregister { phone: other }, Reply::Accepted) => said(other, phone, false),
        (Request::Close, _) => Some(false),
        _ => None,
    }
}

fn said(other: &Phone, phone: &Phone, live: bool) -> Option<bool>
    ensures { result
        ≡ (if same_key (key_of other.now) (key_of phone.now) then Some live else None) }
{
    if other.same(phone) { Some(live) } else { None }
}

/// Whether the session is live for the phone after a history, oldest entry first.
pub fn is_live(history: &[Entry], phone: &Phone, session: u32) -> bool
    ensures { result ≡ live (key_of phone.now) (newest history.now) session }
{
    let mut alive = false;
    for entry in history {
        alive = alive_by(entry, phone, session, alive);
    }
    alive
}

fn alive_by(entry: &Entry, phone: &Phone, session: u32, before: bool) -> bool
    ensures { result ≡ (if entry.now.session == session
        then or_else (says_live (key_of phone.now) entry.now.request entry.now.reply) before
        else before) }
{
    if entry.session != session {
        return before;
    }
    match says(entry, phone) {
        Some(says) => says,
        None => before,
    }
}

// Whether the entry is an accepted authentication of the phone.
fn lets_in(entry: &Entry, phone: &Phone) -> bool
    ensures { result ≡ is_accepted_auth (key_of phone.now) entry.now.request entry.now.reply }
{
    match (&entry.request, &entry.reply) {
        (
            Request::Auth {
                phone: other,
                code: _,
            },
            Reply::Accepted,
        ) => other.same(phone),
        _ => false,
    }
}

fn takes(history: &[Entry], entry: &Entry, phone: &Phone) -> bool
    ensures { result ≡ takes_by (key_of phone.now) entry.now (newest history.now) }
{
    lets_in(entry, phone) && !is_live(history, phone, entry.session)
}

/// The session that holds the phone after a history, oldest entry first.
pub fn holder(history: &[Entry], phone: &Phone) -> Option<u32>
    ensures { result ≡ holder_of (key_of phone.now) (newest history.now) }
{
    let mut found = None;
    for i in 0..history.len() {
        found = held_by(&history[..i], &history[i], phone, found);
    }
    found
}

fn held_by(history: &[Entry], entry: &Entry, phone: &Phone, before: Option<u32>) -> Option<u32>
    ensures { result ≡ (if takes_by (key_of phone.now) entry.now (newest history.now)
        then Some entry.now.session else before) }
{
    if takes(history, entry, phone) {
        Some(entry.session)
    } else {
        before
    }
}
