//! What the server is, as JSON.

use crate::site::Site;
use dewfelt_asked::Access;
use dewfelt_shown::{Sizes, put_count, put_some_text, put_text, put_time, put_truth};
use dewfelt_tracks::FIXES_LIMIT;
use json::Writer;
use std::alloc::{AllocError, Global};

/// So many vehicles an answer has at most (this project's own).
pub const VEHICLES_LIMIT: u32 = 2_000;

/// So many sessions an answer has at most (this project's own).
pub const SESSIONS_LIMIT: u32 = 1_000;

/// So many rows an answer has at most (this project's own).
pub const ROWS_LIMIT: u32 = 1_000;

/// A request's body has so many octets at most (this project's own).
pub const BODY_LIMIT: usize = 65_536;

// What the interface has. The page hides the rest.
const PARTS: [&str; 11] = [
    "server",
    "changes",
    "vehicles",
    "positions",
    "counts",
    "sessions",
    "strangers",
    "map",
    "metrics",
    "rows",
    "track",
];

fn access_word(access: Access) -> &'static str {
    match access {
        Access::Operate => "operate",
        Access::Read => "read",
    }
}

fn put_map(writer: &mut Writer, has_base: bool) -> Result<(), AllocError> {
    writer.key("map")?;
    writer.begin_object()?;
    put_some_text(writer, "tiles", None)?;
    put_text(writer, "attribution", "")?;
    put_text(writer, "datum", "wgs84")?;
    put_truth(writer, "base", has_base)?;
    put_some_text(writer, "view", None)?;
    writer.end_object()
}

fn put_parts(writer: &mut Writer) -> Result<(), AllocError> {
    writer.key("has")?;
    writer.begin_array()?;
    for part in PARTS {
        writer.string(part)?;
    }
    writer.end_array()
}

fn put_limits(writer: &mut Writer) -> Result<(), AllocError> {
    writer.key("limits")?;
    writer.begin_object()?;
    put_count(writer, "vehicles", VEHICLES_LIMIT as u64)?;
    put_count(writer, "sessions", SESSIONS_LIMIT as u64)?;
    put_count(writer, "rows", ROWS_LIMIT as u64)?;
    put_count(writer, "fixes", FIXES_LIMIT as u64)?;
    put_count(writer, "body", BODY_LIMIT as u64)?;
    writer.end_object()
}

fn put_times(writer: &mut Writer, site: &Site, now: u64) -> Result<(), AllocError> {
    put_text(writer, "name", "dewfelt")?;
    put_text(writer, "version", site.version)?;
    put_time(writer, "now", Some(now))?;
    put_time(writer, "started_at", Some(site.started))
}

fn put_sizes(
    alloc: Global,
    writer: &mut Writer,
    site: &Site,
    sizes: Sizes,
) -> Result<(), AllocError> {
    let terminals = site.terminals;
    let text = format!(in alloc; "{terminals}")?;
    put_text(writer, "terminals_listen", text.as_str())?;
    put_count(writer, "vehicles", sizes.vehicles as u64)?;
    put_count(writer, "sessions", sizes.sessions as u64)
}

/// What the server is, as text.
pub fn server_text(
    alloc: Global,
    site: &Site,
    access: Access,
    sizes: Sizes,
    now: u64,
) -> Result<Vec<u8>, AllocError> {
    let mut writer = Writer::new(Vec::new(alloc));
    writer.begin_object()?;
    put_times(&mut writer, site, now)?;
    put_text(&mut writer, "access", access_word(access))?;
    put_sizes(alloc, &mut writer, site, sizes)?;
    put_parts(&mut writer)?;
    put_map(&mut writer, site.base.is_some())?;
    put_limits(&mut writer)?;
    writer.end_object()?;
    Ok(writer.into_inner())
}

fn state_word(is_open: bool) -> &'static str {
    if is_open { "open" } else { "closed" }
}

/// Whether links of terminals are served, as text.
pub fn ready_text(alloc: Global, is_ready: bool) -> Result<Vec<u8>, AllocError> {
    let mut writer = Writer::new(Vec::new(alloc));
    writer.begin_object()?;
    put_truth(&mut writer, "ready", is_ready)?;
    put_text(&mut writer, "store", state_word(is_ready))?;
    put_text(&mut writer, "listener", state_word(is_ready))?;
    writer.end_object()?;
    Ok(writer.into_inner())
}
