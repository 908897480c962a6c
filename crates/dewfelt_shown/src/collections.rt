//! Counts, sessions and terminals that were turned away, as JSON.

use crate::numbers::put_some;
use crate::plain::{put_count, put_hex, put_printable, put_text, put_time};
use crate::positions::{put_next, shown};
use crate::vehicle_json::put_phone_member;
use dewfelt_board::{EndedSession, OpenSession, Stranger, Vehicle, vehicle_line};
use json::Writer;
use jt_session::Report;
use std::alloc::{AllocError, Global};
use std::net::{IpAddr, SocketAddr};

fn put_last(alloc: Global, writer: &mut Writer, vehicle: &Vehicle) -> Result<(), AllocError> {
    writer.begin_object()?;
    put_phone_member(alloc, writer, &vehicle.digits)?;
    writer.key("last")?;
    put_some(writer, vehicle.last)?;
    writer.end_object()
}

fn put_lasts(alloc: Global, writer: &mut Writer, vehicles: &[Vehicle]) -> Result<(), AllocError> {
    writer.key("counts")?;
    writer.begin_array()?;
    for vehicle in vehicles {
        put_last(alloc, writer, vehicle)?;
    }
    writer.end_array()
}

/// The numbers of vehicles' last rows as text.
pub fn counts_text(alloc: Global, list: &[Vehicle], limit: usize) -> Result<Vec<u8>, AllocError> {
    let mut writer = Writer::new(Vec::new(alloc));
    writer.begin_object()?;
    put_lasts(alloc, &mut writer, shown(list, limit))?;
    put_next(alloc, &mut writer, list, limit)?;
    writer.end_object()?;
    Ok(writer.into_inner())
}

fn put_peer(
    alloc: Global,
    writer: &mut Writer,
    peer: Option<SocketAddr>,
) -> Result<(), AllocError> {
    writer.key("peer")?;
    match peer {
        Some(peer) => {
            let text = format!(in alloc; "{peer}")?;
            writer.string(text.as_str())
        }
        None => writer.null(),
    }
}

fn put_some_phone(
    alloc: Global,
    writer: &mut Writer,
    digits: Option<[u8; 10]>,
) -> Result<(), AllocError> {
    match digits {
        Some(digits) => put_phone_member(alloc, writer, &digits),
        None => {
            writer.key("phone")?;
            writer.null()
        }
    }
}

fn put_open(alloc: Global, writer: &mut Writer, open: &OpenSession) -> Result<(), AllocError> {
    writer.begin_object()?;
    put_count(writer, "session", open.session as u64)?;
    put_some_phone(alloc, writer, open.digits)?;
    put_peer(alloc, writer, open.peer)?;
    put_time(writer, "since", Some(open.since))?;
    put_time(writer, "heard_at", Some(open.heard))?;
    writer.end_object()
}

fn put_opens(alloc: Global, writer: &mut Writer, list: &[OpenSession]) -> Result<(), AllocError> {
    writer.key("sessions")?;
    writer.begin_array()?;
    for open in list {
        put_open(alloc, writer, open)?;
    }
    writer.end_array()
}

/// Sessions that go on as text, with how many there are.
pub fn sessions_text(
    alloc: Global,
    list: &[OpenSession],
    count: usize,
) -> Result<Vec<u8>, AllocError> {
    let mut writer = Writer::new(Vec::new(alloc));
    writer.begin_object()?;
    put_opens(alloc, &mut writer, list)?;
    put_count(&mut writer, "open", count as u64)?;
    writer.end_object()?;
    Ok(writer.into_inner())
}

fn put_report(writer: &mut Writer, report: &Report) -> Result<(), AllocError> {
    put_count(writer, "read", report.read)?;
    put_count(writer, "written", report.written)?;
    put_count(writer, "frames", report.frames)?;
    put_count(writer, "refused", report.refused)?;
    put_count(writer, "dropped", report.dropped)
}

fn put_end(alloc: Global, writer: &mut Writer, ended: &EndedSession) -> Result<(), AllocError> {
    put_count(writer, "session", ended.report.session as u64)?;
    put_phone_member(alloc, writer, &ended.digits)?;
    put_peer(alloc, writer, ended.peer)?;
    put_time(writer, "since", Some(ended.since))?;
    put_time(writer, "heard_at", Some(ended.heard))
}

fn put_ended(alloc: Global, writer: &mut Writer, ended: &EndedSession) -> Result<(), AllocError> {
    writer.begin_object()?;
    put_end(alloc, writer, ended)?;
    put_report(writer, &ended.report)?;
    put_text(writer, "end", ended.ending.word())?;
    put_time(writer, "ended_at", Some(ended.at))?;
    writer.end_object()
}

/// Sessions that ended as text, the oldest first.
pub fn ended_text(alloc: Global, list: &[EndedSession]) -> Result<Vec<u8>, AllocError> {
    let mut writer = Writer::new(Vec::new(alloc));
    writer.begin_object()?;
    writer.key("sessions")?;
    writer.begin_array()?;
    for ended in list {
        put_ended(alloc, &mut writer, ended)?;
    }
    writer.end_array()?;
    writer.end_object()?;
    Ok(writer.into_inner())
}

// Why a terminal was turned away, by the number that the standard gives the reason.
fn why(denied: u8) -> &'static str {
    match denied {
        1 => "the plate is registered with another phone",
        2 => "the plate is not in the fleet",
        3 => "the terminal id is registered with another phone",
        4 => "the terminal id is not in the fleet",
        _ => "the registration was denied",
    }
}

fn put_address(alloc: Global, writer: &mut Writer, peer: Option<IpAddr>) -> Result<(), AllocError> {
    writer.key("peer")?;
    match peer {
        Some(peer) => {
            let text = format!(in alloc; "{peer}")?;
            writer.string(text.as_str())
        }
        None => writer.null(),
    }
}

fn put_lines(alloc: Global, writer: &mut Writer, stranger: &Stranger) -> Result<(), AllocError> {
    writer.key("fleet_lines")?;
    writer.begin_array()?;
    if let Some(line) = vehicle_line(alloc, stranger)? {
        writer.string(line.as_str())?;
    }
    writer.end_array()
}

fn put_who(alloc: Global, writer: &mut Writer, stranger: &Stranger) -> Result<(), AllocError> {
    put_phone_member(alloc, writer, &stranger.digits)?;
    writer.key("plate_octets")?;
    put_hex(alloc, writer, stranger.plate.as_slice())?;
    writer.key("terminal")?;
    put_printable(writer, stranger.terminal.as_slice())?;
    writer.key("terminal_octets")?;
    put_hex(alloc, writer, stranger.terminal.as_slice())
}

fn put_stranger(alloc: Global, writer: &mut Writer, stranger: &Stranger) -> Result<(), AllocError> {
    writer.begin_object()?;
    put_who(alloc, writer, stranger)?;
    put_count(writer, "tried", stranger.tried)?;
    put_count(writer, "denied", stranger.denied as u64)?;
    put_text(writer, "why", why(stranger.denied))?;
    put_came(alloc, writer, stranger)?;
    writer.end_object()
}

fn put_came(alloc: Global, writer: &mut Writer, stranger: &Stranger) -> Result<(), AllocError> {
    put_time(writer, "first_at", Some(stranger.first))?;
    put_time(writer, "last_at", Some(stranger.last))?;
    put_address(alloc, writer, stranger.peer)?;
    put_lines(alloc, writer, stranger)
}

/// Terminals that were turned away as text, the one that came last first.
pub fn strangers_text(alloc: Global, list: &[Stranger]) -> Result<Vec<u8>, AllocError> {
    let mut writer = Writer::new(Vec::new(alloc));
    writer.begin_object()?;
    writer.key("strangers")?;
    writer.begin_array()?;
    for stranger in list.iter().rev() {
        put_stranger(alloc, &mut writer, stranger)?;
    }
    writer.end_array()?;
    writer.end_object()?;
    Ok(writer.into_inner())
}
