//! Metrics, as Prometheus reads them (text format 0.0.4).

use crate::requests::{CLASSES, Requests};
use crate::site::Site;
use dewfelt_asked::Route;
use dewfelt_board::{Counters, Ending, RegistrationResult, UnitReply};
use dewfelt_shown::Sizes;
use std::alloc::{AllocError, Global};

// The head of a metric of this type.
fn put_head(text: &mut String, name: &str, kind: &str, help: &str) -> Result<(), AllocError> {
    text.push_str("# HELP ")?;
    text.push_str(name)?;
    text.push(' ')?;
    text.push_str(help)?;
    text.push_str("\n# TYPE ")?;
    text.push_str(name)?;
    text.push(' ')?;
    text.push_str(kind)?;
    text.push('\n')
}

fn put_value(alloc: Global, text: &mut String, name: &str, value: u64) -> Result<(), AllocError> {
    let line = format!(in alloc; "{name} {value}\n")?;
    text.push_str(line.as_str())
}

fn put_labelled(
    alloc: Global,
    text: &mut String,
    name: &str,
    label: &str,
    word: &str,
    value: u64,
) -> Result<(), AllocError> {
    let line = format!(in alloc; "{name}{{{label}=\"{word}\"}} {value}\n")?;
    text.push_str(line.as_str())
}

fn put_gauge(
    alloc: Global,
    text: &mut String,
    name: &str,
    help: &str,
    value: u64,
) -> Result<(), AllocError> {
    put_head(text, name, "gauge", help)?;
    put_value(alloc, text, name, value)
}

fn put_counter(
    alloc: Global,
    text: &mut String,
    name: &str,
    help: &str,
    value: u64,
) -> Result<(), AllocError> {
    put_head(text, name, "counter", help)?;
    put_value(alloc, text, name, value)
}

const ENDS: &str = "dewfelt_sessions_ended_total";

fn put_ends(alloc: Global, text: &mut String, counters: &Counters) -> Result<(), AllocError> {
    put_head(text, ENDS, "counter", "Sessions that ended, by why.")?;
    for (ending, count) in Ending::ALL.iter().zip(counters.ended.iter()) {
        put_labelled(alloc, text, ENDS, "end", ending.word(), *count)?;
    }
    Ok(())
}

const REGISTRATIONS: &str = "dewfelt_registrations_total";

fn put_registrations(
    alloc: Global,
    text: &mut String,
    counters: &Counters,
) -> Result<(), AllocError> {
    put_head(
        text,
        REGISTRATIONS,
        "counter",
        "Registrations, by what became of them.",
    )?;
    for (outcome, count) in RegistrationResult::ALL
        .iter()
        .zip(counters.registrations.iter())
    {
        put_labelled(alloc, text, REGISTRATIONS, "result", outcome.word(), *count)?;
    }
    Ok(())
}

const UNITS: &str = "dewfelt_units_total";

fn put_units(alloc: Global, text: &mut String, counters: &Counters) -> Result<(), AllocError> {
    put_head(
        text,
        UNITS,
        "counter",
        "Positions and batches, by what became of them.",
    )?;
    for (reply, count) in UnitReply::ALL.iter().zip(counters.units.iter()) {
        put_labelled(alloc, text, UNITS, "reply", reply.word(), *count)?;
    }
    Ok(())
}

const AUTHENTICATIONS: &str = "dewfelt_authentications_total";

fn put_authentications(
    alloc: Global,
    text: &mut String,
    counters: &Counters,
) -> Result<(), AllocError> {
    put_head(
        text,
        AUTHENTICATIONS,
        "counter",
        "Authentications, by what became of them.",
    )?;
    put_labelled(
        alloc,
        text,
        AUTHENTICATIONS,
        "result",
        "let_in",
        counters.let_in,
    )?;
    put_labelled(
        alloc,
        text,
        AUTHENTICATIONS,
        "result",
        "denied",
        counters.denied,
    )
}

const REQUESTS: &str = "dewfelt_http_requests_total";

// The statuses of a route that were answered, by their first digits.
fn put_classes(
    alloc: Global,
    text: &mut String,
    requests: &Requests,
    place: usize,
    word: &str,
) -> Result<(), AllocError> {
    for class in 2..CLASSES {
        let count = requests.get(place, class);
        let line = format!(in alloc;
            "{REQUESTS}{{route=\"{word}\",status=\"{class}xx\"}} {count}\n"
        )?;
        text.push_str(line.as_str())?;
    }
    Ok(())
}

fn put_requests(alloc: Global, text: &mut String, requests: &Requests) -> Result<(), AllocError> {
    put_head(text, REQUESTS, "counter", "Requests that were answered.")?;
    for (place, word) in Route::WORDS.iter().enumerate() {
        put_classes(alloc, text, requests, place, word)?;
    }
    put_classes(alloc, text, requests, Route::COUNT, "none")
}

fn put_octets(alloc: Global, text: &mut String, counters: &Counters) -> Result<(), AllocError> {
    put_counter(
        alloc,
        text,
        "dewfelt_octets_read_total",
        "Octets that sessions which ended had read.",
        counters.read,
    )?;
    put_counter(
        alloc,
        text,
        "dewfelt_octets_written_total",
        "Octets that sessions which ended had written.",
        counters.written,
    )
}

fn put_frames(alloc: Global, text: &mut String, counters: &Counters) -> Result<(), AllocError> {
    put_counter(
        alloc,
        text,
        "dewfelt_frames_total",
        "Frames of sessions that ended.",
        counters.frames,
    )?;
    put_counter(
        alloc,
        text,
        "dewfelt_refused_total",
        "Refused items of sessions that ended.",
        counters.refused,
    )?;
    put_counter(
        alloc,
        text,
        "dewfelt_dropped_total",
        "Partial messages that sessions which ended had dropped.",
        counters.dropped,
    )
}

fn put_links(alloc: Global, text: &mut String, counters: &Counters) -> Result<(), AllocError> {
    put_counter(
        alloc,
        text,
        "dewfelt_links_total",
        "Links of terminals that were served.",
        counters.began,
    )?;
    put_counter(
        alloc,
        text,
        "dewfelt_links_away_total",
        "Links of terminals that were closed at once.",
        counters.away,
    )?;
    put_counter(
        alloc,
        text,
        "dewfelt_accepts_failed_total",
        "Accepts that failed.",
        counters.accepts_failed,
    )
}

fn put_sizes(alloc: Global, text: &mut String, sizes: Sizes) -> Result<(), AllocError> {
    put_gauge(
        alloc,
        text,
        "dewfelt_vehicles",
        "Registered phones.",
        sizes.vehicles as u64,
    )?;
    put_gauge(
        alloc,
        text,
        "dewfelt_sessions",
        "Links of terminals that are served.",
        sizes.sessions as u64,
    )?;
    put_gauge(
        alloc,
        text,
        "dewfelt_strangers",
        "Terminals that were turned away and are listed.",
        sizes.strangers as u64,
    )
}

fn put_board(alloc: Global, text: &mut String, counters: &Counters) -> Result<(), AllocError> {
    put_counter(
        alloc,
        text,
        "dewfelt_fixes_stored_total",
        "Fixes of new rows.",
        counters.fixes,
    )?;
    put_counter(
        alloc,
        text,
        "dewfelt_board_lost_total",
        "Events that are not shown, since memory was refused.",
        counters.lost,
    )
}

fn put_process(alloc: Global, text: &mut String, site: &Site) -> Result<(), AllocError> {
    put_counter(
        alloc,
        text,
        "dewfelt_http_connections_total",
        "Connections to this interface that were accepted.",
        site.requests.connections(),
    )?;
    put_gauge(
        alloc,
        text,
        "process_start_time_seconds",
        "When the service began, in seconds since 1970.",
        site.started,
    )
}

fn put_sessions(alloc: Global, text: &mut String, counters: &Counters) -> Result<(), AllocError> {
    put_links(alloc, text, counters)?;
    put_ends(alloc, text, counters)?;
    put_registrations(alloc, text, counters)?;
    put_authentications(alloc, text, counters)?;
    put_units(alloc, text, counters)?;
    put_octets(alloc, text, counters)?;
    put_frames(alloc, text, counters)
}

/// The metrics as text. No label holds anything that a stranger chooses.
pub fn metrics_text(
    alloc: Global,
    site: &Site,
    counters: &Counters,
    sizes: Sizes,
) -> Result<String, AllocError> {
    let mut text = String::new(alloc);
    put_sizes(alloc, &mut text, sizes)?;
    put_sessions(alloc, &mut text, counters)?;
    put_board(alloc, &mut text, counters)?;
    put_requests(alloc, &mut text, &site.requests)?;
    put_process(alloc, &mut text, site)?;
    Ok(text)
}
