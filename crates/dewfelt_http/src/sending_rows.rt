//! How pages of rows and of tracks are put into responses.

use crate::sending::{put_header, send};
use dewfelt_asked::Form;
use dewfelt_tracks::{RowsPage, TrackPage};
use http::header::{HeaderName, HeaderValue};
use http_server::Response;
use std::alloc::{AllocError, Global};

fn more_value(is_more: bool) -> HeaderValue {
    if is_more {
        HeaderValue::from_static("true")
    } else {
        HeaderValue::from_static("false")
    }
}

/// Answers with a page of rows.
pub fn send_rows(alloc: Global, response: &mut Response, page: RowsPage) -> Result<(), AllocError> {
    let next = page.next;
    let next = format!(in alloc; "{next}")?;
    put_header(
        alloc,
        response,
        HeaderName::from_static("dewfelt-next"),
        next.as_str(),
    )?;
    response.add_header(
        HeaderName::from_static("dewfelt-more"),
        more_value(page.is_more),
    )?;
    send(
        response,
        HeaderValue::from_static("application/x-ndjson"),
        page.text,
    )
}

fn kind_of(form: Form) -> HeaderValue {
    match form {
        Form::GeoJson => HeaderValue::from_static("application/geo+json"),
        Form::Gpx => HeaderValue::from_static("application/gpx+xml"),
        Form::Csv => HeaderValue::from_static("text/csv; charset=utf-8"),
    }
}

fn put_file(
    alloc: Global,
    response: &mut Response,
    file: Option<String>,
) -> Result<(), AllocError> {
    match file {
        Some(file) => {
            let value = format!(in alloc; "attachment; filename=\"{file}\"")?;
            put_header(
                alloc,
                response,
                HeaderName::from_static("content-disposition"),
                value.as_str(),
            )
        }
        None => Ok(()),
    }
}

fn put_link(
    alloc: Global,
    response: &mut Response,
    link: Option<String>,
) -> Result<(), AllocError> {
    match link {
        Some(link) => put_header(
            alloc,
            response,
            HeaderName::from_static("link"),
            link.as_str(),
        ),
        None => Ok(()),
    }
}

/// Answers with a page of a track.
pub fn send_track(
    alloc: Global,
    response: &mut Response,
    page: TrackPage,
) -> Result<(), AllocError> {
    put_file(alloc, response, page.file)?;
    put_link(alloc, response, page.link)?;
    send(response, kind_of(page.form), page.text)
}
