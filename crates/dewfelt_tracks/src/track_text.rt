//! A track as comma-separated values and as GPX.

use crate::track::Track;
use dewfelt_asked::seconds_of;
use dewfelt_board::LastFix;
use dewfelt_log::time_text;
use dewfelt_shown::{SOUTH, WEST, degrees_text, tenths_text};
use std::alloc::{AllocError, Global};

const CSV_HEAD: &str = "phone,number,time,latitude,longitude,speed,altitude,direction,mileage\n";

const GPX_HEAD: &str =
    "<?xml version=\"1.0\" encoding=\"UTF-8\"?>\n<gpx version=\"1.1\" creator=\"dewfelt\" xmlns=\"http://www.topografix.com/GPX/1/1\"><trk><name>";

const GPX_LINE: &str = "</name><trkseg>\n";

const GPX_END: &str = "</trkseg></trk></gpx>\n";

// The texts of a fix's place and moment.
#[derive(Drop)]
struct Texts {
    latitude: String,
    longitude: String,
    // Empty where the fix has no moment.
    time: String,
}

// The text of a moment, or nothing.
fn moment_text(alloc: Global, moment: Option<u64>) -> Result<String, AllocError> {
    let Some(moment) = moment else {
        return Ok(String::new(alloc));
    };
    let octets = time_text(moment);
    match std::str::from_utf8(&octets) {
        Ok(text) => String::from_str(alloc, text),
        Err(_) => Ok(String::new(alloc)),
    }
}

impl Texts {
    fn of(alloc: Global, fix: &LastFix) -> Result<Texts, AllocError> {
        let status = fix.fixed.status;
        Ok(Texts {
            latitude: degrees_text(alloc, fix.fixed.lat, status & SOUTH != 0)?,
            longitude: degrees_text(alloc, fix.fixed.lon, status & WEST != 0)?,
            time: moment_text(alloc, seconds_of(&fix.fixed.time))?,
        })
    }
}

fn mileage_text(alloc: Global, mileage: Option<u32>) -> Result<String, AllocError> {
    match mileage {
        Some(tenths) => tenths_text(alloc, tenths),
        None => Ok(String::new(alloc)),
    }
}

// Puts a fix as a line of values.
fn push_values(
    alloc: Global,
    text: &mut String,
    phone: &str,
    fix: &LastFix,
) -> Result<(), AllocError> {
    let Texts {
        latitude,
        longitude,
        time,
    } = Texts::of(alloc, fix)?;
    let number = fix.number;
    let speed = tenths_text(alloc, fix.fixed.speed as u32)?;
    let altitude = fix.fixed.altitude;
    let direction = fix.fixed.direction;
    let mileage = mileage_text(alloc, fix.mileage)?;
    let line = format!(in alloc;
        "{phone},{number},{time},{latitude},{longitude},{speed},{altitude},{direction},{mileage}\n"
    )?;
    text.push_str(line.as_str())
}

/// A track as comma-separated values: a line of names, and a line for each fix.
pub fn track_csv(alloc: Global, phone: &str, track: &Track) -> Result<Vec<u8>, AllocError> {
    let mut text = String::from_str(alloc, CSV_HEAD)?;
    for fix in &track.fixes {
        push_values(alloc, &mut text, phone, fix)?;
    }
    Ok(text.into_bytes())
}

// Puts a fix as a point. One without a moment is left out.
fn push_point(alloc: Global, text: &mut String, fix: &LastFix) -> Result<(), AllocError> {
    let Texts {
        latitude,
        longitude,
        time,
    } = Texts::of(alloc, fix)?;
    if time.is_empty() {
        return Ok(());
    }
    let altitude = fix.fixed.altitude;
    let line = format!(in alloc;
        "<trkpt lat=\"{latitude}\" lon=\"{longitude}\"><ele>{altitude}</ele><time>{time}</time></trkpt>\n"
    )?;
    text.push_str(line.as_str())
}

/// A track as GPX 1.1, without the fixes that have no moment.
pub fn track_gpx(alloc: Global, phone: &str, track: &Track) -> Result<Vec<u8>, AllocError> {
    let mut text = String::from_str(alloc, GPX_HEAD)?;
    text.push_str(phone)?;
    text.push_str(GPX_LINE)?;
    for fix in &track.fixes {
        push_point(alloc, &mut text, fix)?;
    }
    text.push_str(GPX_END)?;
    Ok(text.into_bytes())
}
