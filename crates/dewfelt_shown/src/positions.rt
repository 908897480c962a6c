//! Positions as GeoJSON.

use crate::plain::{put_some_text, put_text};
use crate::vehicle_json::{put_coordinates, put_fix_members, put_vehicle, put_vehicle_members};
use dewfelt_board::{LastFix, Vehicle, phone_text};
use json::Writer;
use std::alloc::{AllocError, Global};

// A bit of a position's status: the terminal knew where it was.
const LOCATED: u32 = 1 << 1;

/// The front of a list in which there may be one vehicle more than was asked for.
pub fn shown(list: &[Vehicle], limit: usize) -> &[Vehicle] {
    &list[..limit.min(list.len())]
}

/// Puts the phone behind which the next page begins, where there is one vehicle more than was asked for.
pub fn put_next(
    alloc: Global,
    writer: &mut Writer,
    list: &[Vehicle],
    limit: usize,
) -> Result<(), AllocError> {
    match shown(list, limit).last() {
        Some(last) if limit < list.len() => {
            let phone = phone_text(alloc, &last.digits)?;
            put_text(writer, "next", phone.as_str())
        }
        _ => put_some_text(writer, "next", None),
    }
}

fn put_geometry(alloc: Global, writer: &mut Writer, fix: &LastFix) -> Result<(), AllocError> {
    writer.key("geometry")?;
    writer.begin_object()?;
    put_text(writer, "type", "Point")?;
    writer.key("coordinates")?;
    put_coordinates(alloc, writer, fix)?;
    writer.end_object()
}

fn put_properties(
    alloc: Global,
    writer: &mut Writer,
    vehicle: &Vehicle,
    fix: &LastFix,
) -> Result<(), AllocError> {
    writer.key("properties")?;
    writer.begin_object()?;
    put_vehicle_members(alloc, writer, vehicle)?;
    put_fix_members(alloc, writer, fix)?;
    writer.end_object()
}

fn put_feature(
    alloc: Global,
    writer: &mut Writer,
    vehicle: &Vehicle,
    fix: &LastFix,
) -> Result<(), AllocError> {
    let phone = phone_text(alloc, &vehicle.digits)?;
    writer.begin_object()?;
    put_text(writer, "type", "Feature")?;
    put_text(writer, "id", phone.as_str())?;
    put_geometry(alloc, writer, fix)?;
    put_properties(alloc, writer, vehicle, fix)?;
    writer.end_object()
}

// The fix of a vehicle, where the terminal knew where it was.
fn located(vehicle: &Vehicle) -> Option<LastFix> {
    match vehicle.fix {
        Some(fix) if fix.fixed.status & LOCATED != 0 => Some(fix),
        _ => None,
    }
}

fn put_features(
    alloc: Global,
    writer: &mut Writer,
    vehicles: &[Vehicle],
) -> Result<(), AllocError> {
    writer.key("features")?;
    writer.begin_array()?;
    for vehicle in vehicles {
        if let Some(fix) = located(vehicle) {
            put_feature(alloc, writer, vehicle, &fix)?;
        }
    }
    writer.end_array()
}

/// The last positions of vehicles as a FeatureCollection. One whose terminal did not know where it was is left out.
pub fn positions_text(
    alloc: Global,
    list: &[Vehicle],
    limit: usize,
) -> Result<Vec<u8>, AllocError> {
    let mut writer = Writer::new(Vec::new(alloc));
    writer.begin_object()?;
    put_text(&mut writer, "type", "FeatureCollection")?;
    put_features(alloc, &mut writer, shown(list, limit))?;
    put_next(alloc, &mut writer, list, limit)?;
    writer.end_object()?;
    Ok(writer.into_inner())
}

fn put_vehicles(
    alloc: Global,
    writer: &mut Writer,
    vehicles: &[Vehicle],
) -> Result<(), AllocError> {
    writer.key("vehicles")?;
    writer.begin_array()?;
    for vehicle in vehicles {
        put_vehicle(alloc, writer, vehicle)?;
    }
    writer.end_array()
}

/// Vehicles as text.
pub fn vehicles_text(alloc: Global, list: &[Vehicle], limit: usize) -> Result<Vec<u8>, AllocError> {
    let mut writer = Writer::new(Vec::new(alloc));
    writer.begin_object()?;
    put_vehicles(alloc, &mut writer, shown(list, limit))?;
    put_next(alloc, &mut writer, list, limit)?;
    writer.end_object()?;
    Ok(writer.into_inner())
}
