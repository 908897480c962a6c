//! A track as GeoJSON.

use crate::track::Track;
use dewfelt_board::LastFix;
use dewfelt_shown::{
    put_coordinates, put_hex, put_position_time, put_tenths, put_text, put_time, put_truth,
};
use json::Writer;
use std::alloc::{AllocError, Global};

/// Whose track it is.
#[derive(Clone, Copy)]
pub struct Owner<'a> {
    /// The phone, as it is shown.
    pub phone: &'a str,
    /// The plate's octets; none where the phone is not registered.
    pub plate: &'a [u8],
}

// What lists beside the line tell of each fix.
#[derive(Clone, Copy)]
enum Column {
    Times,
    Speeds,
    Directions,
    Status,
    Numbers,
}

impl Column {
    const ALL: [Column; 5] = [
        Column::Times,
        Column::Speeds,
        Column::Directions,
        Column::Status,
        Column::Numbers,
    ];

    fn key(self) -> &'static str {
        match self {
            Column::Times => "times",
            Column::Speeds => "speeds_kmh",
            Column::Directions => "directions",
            Column::Status => "status",
            Column::Numbers => "numbers",
        }
    }

    fn put(self, alloc: Global, writer: &mut Writer, fix: &LastFix) -> Result<(), AllocError> {
        match self {
            Column::Times => put_position_time(writer, &fix.fixed.time),
            Column::Speeds => put_tenths(alloc, writer, fix.fixed.speed as u32),
            Column::Directions => writer.u64(fix.fixed.direction as u64),
            Column::Status => writer.u64(fix.fixed.status as u64),
            Column::Numbers => writer.u64(fix.number),
        }
    }

    fn put_list(
        self,
        alloc: Global,
        writer: &mut Writer,
        fixes: &[LastFix],
    ) -> Result<(), AllocError> {
        writer.key(self.key())?;
        writer.begin_array()?;
        for fix in fixes {
            self.put(alloc, writer, fix)?;
        }
        writer.end_array()
    }
}

fn put_places(alloc: Global, writer: &mut Writer, fixes: &[LastFix]) -> Result<(), AllocError> {
    writer.begin_array()?;
    for fix in fixes {
        put_coordinates(alloc, writer, fix)?;
    }
    writer.end_array()
}

// The line: null where there are fewer than two fixes.
fn put_geometry(alloc: Global, writer: &mut Writer, fixes: &[LastFix]) -> Result<(), AllocError> {
    writer.key("geometry")?;
    if fixes.len() < 2 {
        return writer.null();
    }
    writer.begin_object()?;
    put_text(writer, "type", "LineString")?;
    writer.key("coordinates")?;
    put_places(alloc, writer, fixes)?;
    writer.end_object()
}

// The place of the one fix that makes no line.
fn put_points(alloc: Global, writer: &mut Writer, fixes: &[LastFix]) -> Result<(), AllocError> {
    writer.key("points")?;
    if fixes.len() == 1 {
        put_places(alloc, writer, fixes)
    } else {
        writer.null()
    }
}

fn put_range(
    alloc: Global,
    writer: &mut Writer,
    owner: Owner<'_>,
    track: &Track,
) -> Result<(), AllocError> {
    put_text(writer, "phone", owner.phone)?;
    writer.key("plate_octets")?;
    put_hex(alloc, writer, owner.plate)?;
    put_time(writer, "from", Some(track.range.from))?;
    put_time(writer, "to", Some(track.range.to))?;
    put_truth(writer, "more", track.is_more)?;
    put_truth(writer, "ordered", track.is_ordered)
}

fn put_lists(alloc: Global, writer: &mut Writer, fixes: &[LastFix]) -> Result<(), AllocError> {
    for column in Column::ALL {
        column.put_list(alloc, writer, fixes)?;
    }
    Ok(())
}

fn put_properties(
    alloc: Global,
    writer: &mut Writer,
    owner: Owner<'_>,
    track: &Track,
) -> Result<(), AllocError> {
    writer.key("properties")?;
    writer.begin_object()?;
    put_range(alloc, writer, owner, track)?;
    put_lists(alloc, writer, track.fixes.as_slice())?;
    put_points(alloc, writer, track.fixes.as_slice())?;
    writer.end_object()
}

/// A track as a Feature: a line, and lists beside it that tell of each fix.
pub fn track_json(alloc: Global, owner: Owner<'_>, track: &Track) -> Result<Vec<u8>, AllocError> {
    let mut writer = Writer::new(Vec::new(alloc));
    writer.begin_object()?;
    put_text(&mut writer, "type", "Feature")?;
    put_text(&mut writer, "id", owner.phone)?;
    put_geometry(alloc, &mut writer, track.fixes.as_slice())?;
    put_properties(alloc, &mut writer, owner, track)?;
    writer.end_object()?;
    Ok(writer.into_inner())
}
