//! Vehicles as JSON.

use crate::moments::{put_moment, put_position_time};
use crate::numbers::{put_degrees, put_some, put_some_tenths, put_tenths};
use crate::plain::{put_count, put_hex, put_printable, put_some_text, put_text, put_time};
use dewfelt_board::{Changes, LastFix, Vehicle, phone_text};
use json::Writer;
use jt_value::Edition;
use std::alloc::{AllocError, Global};

/// A bit of a position's status: the latitude is south.
pub const SOUTH: u32 = 1 << 2;

/// A bit of a position's status: the longitude is west.
pub const WEST: u32 = 1 << 3;

/// The members of a row of `changes`, in order.
pub const COLUMNS: [&str; 18] = [
    "phone",
    "plate_octets",
    "terminal",
    "link",
    "last_end",
    "last_end_at",
    "heard_at",
    "time",
    "latitude",
    "longitude",
    "speed_kmh",
    "direction",
    "altitude_m",
    "mileage_km",
    "status",
    "alarm",
    "number",
    "orders_open",
];

fn link_word(vehicle: &Vehicle) -> &'static str {
    if vehicle.session.is_some() {
        "open"
    } else {
        "none"
    }
}

fn end_word(vehicle: &Vehicle) -> Option<&'static str> {
    match vehicle.end {
        Some(end) => Some(end.ending.word()),
        None => None,
    }
}

fn end_at(vehicle: &Vehicle) -> Option<u64> {
    match vehicle.end {
        Some(end) => Some(end.at),
        None => None,
    }
}

fn put_phone(alloc: Global, writer: &mut Writer, digits: &[u8; 10]) -> Result<(), AllocError> {
    let phone = phone_text(alloc, digits)?;
    writer.string(phone.as_str())
}

/// Puts a member that is a phone.
pub fn put_phone_member(
    alloc: Global,
    writer: &mut Writer,
    digits: &[u8; 10],
) -> Result<(), AllocError> {
    writer.key("phone")?;
    put_phone(alloc, writer, digits)
}

fn put_names(alloc: Global, writer: &mut Writer, vehicle: &Vehicle) -> Result<(), AllocError> {
    put_phone(alloc, writer, &vehicle.digits)?;
    put_hex(alloc, writer, vehicle.plate.as_slice())?;
    put_printable(writer, vehicle.terminal.as_slice())
}

fn put_link(writer: &mut Writer, vehicle: &Vehicle) -> Result<(), AllocError> {
    writer.string(link_word(vehicle))?;
    match end_word(vehicle) {
        Some(word) => writer.string(word)?,
        None => writer.null()?,
    }
    put_moment(writer, end_at(vehicle))?;
    put_moment(writer, vehicle.heard)
}

fn put_latitude(alloc: Global, writer: &mut Writer, fix: &LastFix) -> Result<(), AllocError> {
    put_degrees(alloc, writer, fix.fixed.lat, fix.fixed.status & SOUTH != 0)
}

fn put_longitude(alloc: Global, writer: &mut Writer, fix: &LastFix) -> Result<(), AllocError> {
    put_degrees(alloc, writer, fix.fixed.lon, fix.fixed.status & WEST != 0)
}

fn put_place(alloc: Global, writer: &mut Writer, fix: &LastFix) -> Result<(), AllocError> {
    put_position_time(writer, &fix.fixed.time)?;
    put_latitude(alloc, writer, fix)?;
    put_longitude(alloc, writer, fix)?;
    put_tenths(alloc, writer, fix.fixed.speed as u32)
}

fn put_movement(alloc: Global, writer: &mut Writer, fix: &LastFix) -> Result<(), AllocError> {
    writer.u64(fix.fixed.direction as u64)?;
    writer.u64(fix.fixed.altitude as u64)?;
    put_some_tenths(alloc, writer, fix.mileage)?;
    writer.u64(fix.fixed.status as u64)?;
    writer.u64(fix.fixed.alarm as u64)
}

// As many nulls as a fix has members in a row.
fn put_no_fix(writer: &mut Writer) -> Result<(), AllocError> {
    for _ in 0..9u8 {
        writer.null()?;
    }
    Ok(())
}

fn put_fix_columns(
    alloc: Global,
    writer: &mut Writer,
    fix: Option<LastFix>,
) -> Result<(), AllocError> {
    match fix {
        Some(fix) => {
            put_place(alloc, writer, &fix)?;
            put_movement(alloc, writer, &fix)
        }
        None => put_no_fix(writer),
    }
}

/// Puts a vehicle as a row of `changes`.
pub fn put_row(alloc: Global, writer: &mut Writer, vehicle: &Vehicle) -> Result<(), AllocError> {
    writer.begin_array()?;
    put_names(alloc, writer, vehicle)?;
    put_link(writer, vehicle)?;
    put_fix_columns(alloc, writer, vehicle.fix)?;
    put_some(writer, vehicle.last)?;
    writer.u64(0)?;
    writer.end_array()
}

fn edition_word(vehicle: &Vehicle) -> Option<&'static str> {
    match vehicle.edition {
        Some(Edition::E2013) => Some("2013"),
        Some(Edition::E2019) => Some("2019"),
        None => None,
    }
}

fn put_name_members(
    alloc: Global,
    writer: &mut Writer,
    vehicle: &Vehicle,
) -> Result<(), AllocError> {
    put_phone_member(alloc, writer, &vehicle.digits)?;
    writer.key("plate_octets")?;
    put_hex(alloc, writer, vehicle.plate.as_slice())?;
    writer.key("terminal")?;
    put_printable(writer, vehicle.terminal.as_slice())?;
    writer.key("terminal_octets")?;
    put_hex(alloc, writer, vehicle.terminal.as_slice())?;
    put_some_text(writer, "edition", edition_word(vehicle))
}

fn put_session(writer: &mut Writer, vehicle: &Vehicle) -> Result<(), AllocError> {
    writer.key("session")?;
    match vehicle.session {
        Some(session) => writer.u64(session as u64),
        None => writer.null(),
    }
}

fn put_link_members(writer: &mut Writer, vehicle: &Vehicle) -> Result<(), AllocError> {
    put_text(writer, "link", link_word(vehicle))?;
    put_session(writer, vehicle)?;
    put_time(writer, "heard_at", vehicle.heard)?;
    put_some_text(writer, "last_end", end_word(vehicle))?;
    put_time(writer, "last_end_at", end_at(vehicle))
}

/// Puts what a vehicle is, without its fix.
pub fn put_vehicle_members(
    alloc: Global,
    writer: &mut Writer,
    vehicle: &Vehicle,
) -> Result<(), AllocError> {
    put_name_members(alloc, writer, vehicle)?;
    put_link_members(writer, vehicle)?;
    put_count(writer, "orders_open", 0)?;
    writer.key("last_number")?;
    put_some(writer, vehicle.last)?;
    put_count(writer, "changed", vehicle.changed)
}

/// Puts what a fix is, without its place.
pub fn put_fix_members(
    alloc: Global,
    writer: &mut Writer,
    fix: &LastFix,
) -> Result<(), AllocError> {
    put_count(writer, "number", fix.number)?;
    put_count(writer, "at", fix.at as u64)?;
    writer.key("time")?;
    put_position_time(writer, &fix.fixed.time)?;
    writer.key("speed_kmh")?;
    put_tenths(alloc, writer, fix.fixed.speed as u32)?;
    put_more_members(alloc, writer, fix)
}

fn put_more_members(alloc: Global, writer: &mut Writer, fix: &LastFix) -> Result<(), AllocError> {
    put_count(writer, "direction", fix.fixed.direction as u64)?;
    put_count(writer, "altitude_m", fix.fixed.altitude as u64)?;
    put_count(writer, "alarm", fix.fixed.alarm as u64)?;
    put_count(writer, "status", fix.fixed.status as u64)?;
    writer.key("mileage_km")?;
    put_some_tenths(alloc, writer, fix.mileage)
}

fn put_fix(alloc: Global, writer: &mut Writer, fix: &LastFix) -> Result<(), AllocError> {
    writer.begin_object()?;
    put_fix_members(alloc, writer, fix)?;
    writer.key("latitude")?;
    put_latitude(alloc, writer, fix)?;
    writer.key("longitude")?;
    put_longitude(alloc, writer, fix)?;
    writer.end_object()
}

/// Puts the place of a fix: longitude and latitude.
pub fn put_coordinates(
    alloc: Global,
    writer: &mut Writer,
    fix: &LastFix,
) -> Result<(), AllocError> {
    writer.begin_array()?;
    put_longitude(alloc, writer, fix)?;
    put_latitude(alloc, writer, fix)?;
    writer.end_array()
}

/// Puts a vehicle.
pub fn put_vehicle(
    alloc: Global,
    writer: &mut Writer,
    vehicle: &Vehicle,
) -> Result<(), AllocError> {
    writer.begin_object()?;
    put_vehicle_members(alloc, writer, vehicle)?;
    writer.key("fix")?;
    match vehicle.fix {
        Some(fix) => put_fix(alloc, writer, &fix)?,
        None => writer.null()?,
    }
    writer.end_object()
}

/// A vehicle as text.
pub fn vehicle_text(alloc: Global, vehicle: &Vehicle) -> Result<Vec<u8>, AllocError> {
    let mut writer = Writer::new(Vec::new(alloc));
    put_vehicle(alloc, &mut writer, vehicle)?;
    Ok(writer.into_inner())
}

fn put_columns(writer: &mut Writer) -> Result<(), AllocError> {
    writer.key("columns")?;
    writer.begin_array()?;
    for name in COLUMNS {
        writer.string(name)?;
    }
    writer.end_array()
}

fn put_rows(alloc: Global, writer: &mut Writer, vehicles: &[Vehicle]) -> Result<(), AllocError> {
    writer.key("vehicles")?;
    writer.begin_array()?;
    for vehicle in vehicles {
        put_row(alloc, writer, vehicle)?;
    }
    writer.end_array()
}

fn put_head(
    alloc: Global,
    writer: &mut Writer,
    changes: &Changes,
    now: u64,
) -> Result<(), AllocError> {
    let cursor = changes.cursor.text(alloc, changes.run)?;
    put_text(writer, "cursor", cursor.as_str())?;
    writer.key("full")?;
    writer.boolean(changes.is_full)?;
    writer.key("more")?;
    writer.boolean(changes.is_more)?;
    put_time(writer, "now", Some(now))
}

fn put_tail(writer: &mut Writer, changes: &Changes) -> Result<(), AllocError> {
    put_count(writer, "alarms_last", 0)?;
    put_some_text(writer, "fences_etag", None)?;
    put_count(writer, "strangers", changes.strangers as u64)
}

/// The changes behind a cursor as text.
pub fn changes_text(alloc: Global, changes: &Changes, now: u64) -> Result<Vec<u8>, AllocError> {
    let mut writer = Writer::new(Vec::new(alloc));
    writer.begin_object()?;
    put_head(alloc, &mut writer, changes, now)?;
    put_tail(&mut writer, changes)?;
    put_columns(&mut writer)?;
    put_rows(alloc, &mut writer, changes.vehicles.as_slice())?;
    writer.end_object()?;
    Ok(writer.into_inner())
}
