//! A page of a track: in which form it is told, and where the next one begins.

use crate::track::Track;
use crate::track_json::{Owner, track_json};
use crate::track_text::{track_csv, track_gpx};
use dewfelt_asked::{Form, Place};
use dewfelt_log::time_text;
use std::alloc::{AllocError, Global};

/// A page of a track.
#[derive(Drop)]
pub struct TrackPage {
    pub form: Form,
    pub text: Vec<u8>,
    /// The name of the file that a browser keeps it as, without quotes; None where it is shown.
    pub file: Option<String>,
    /// The value of a Link to the next page, where more follows.
    pub link: Option<String>,
}

// A moment in a query.
fn query_time(alloc: Global, seconds: u64) -> Result<String, AllocError> {
    let octets = time_text(seconds);
    match std::str::from_utf8(&octets) {
        Ok(text) => text.replace(alloc, "+", "%2B"),
        Err(_) => Ok(String::new(alloc)),
    }
}

// The link to the page behind a fix.
fn link_text(
    alloc: Global,
    phone: &str,
    track: &Track,
    form: Form,
    after: Place,
) -> Result<String, AllocError> {
    let from = query_time(alloc, track.range.from)?;
    let to = query_time(alloc, track.range.to)?;
    let form = form.word();
    let limit = track.range.limit;
    let Place { number, at } = after;
    format!(in alloc;
        "</api/v1/vehicles/{phone}/track?from={from}&to={to}&form={form}&limit={limit}&after={number}.{at}>; rel=\"next\""
    )
}

// The link to the next page, where there is one.
fn next_link(
    alloc: Global,
    phone: &str,
    track: &Track,
    form: Form,
) -> Result<Option<String>, AllocError> {
    match track.fixes.last() {
        Some(last) if track.is_more => {
            let after = Place {
                number: last.number,
                at: last.at,
            };
            Ok(Some(link_text(alloc, phone, track, form, after)?))
        }
        _ => Ok(None),
    }
}

fn track_text(
    alloc: Global,
    owner: Owner<'_>,
    track: &Track,
    form: Form,
) -> Result<Vec<u8>, AllocError> {
    match form {
        Form::GeoJson => track_json(alloc, owner, track),
        Form::Gpx => track_gpx(alloc, owner.phone, track),
        Form::Csv => track_csv(alloc, owner.phone, track),
    }
}

fn file_of(alloc: Global, phone: &str, form: Form) -> Result<Option<String>, AllocError> {
    if form == Form::GeoJson {
        return Ok(None);
    }
    let end = form.word();
    Ok(Some(format!(in alloc; "{phone}.{end}")?))
}

impl TrackPage {
    /// The page of a track in a form.
    pub fn of(
        alloc: Global,
        owner: Owner<'_>,
        track: &Track,
        form: Form,
    ) -> Result<TrackPage, AllocError> {
        Ok(TrackPage {
            form,
            text: track_text(alloc, owner, track, form)?,
            file: file_of(alloc, owner.phone, form)?,
            link: next_link(alloc, owner.phone, track, form)?,
        })
    }
}
