//! Tracks, in three forms.

use crate::gates::{LORRY, answer, board};
use crate::kept::{Kept, Told, row};
use std::alloc::Global;
use std::process::Abort;
use std::random::RandomSource;
use std::sync::Wait;
use std::time::Clock;

const TOKEN: &str = " HTTP/1.1\r\nHost: localhost:8080\r\nAuthorization: Bearer read\r\n\r\n";

// 22.514446 north, 113.943110 east, 48 m, 42.1 km/h, 90 degrees, 2026-11-30 15:05:00, 12090.7 km.
const FIRST: &[u8] =
    b"\0\0\0\0\0\0\0\x03\x01\x57\x8b\x0e\x06\xca\xa2\x46\0\x30\x01\xa5\0\x5a\x26\x11\x30\x15\x05\0\x01\x04\0\x01\xd8\x4b";

// A batch: 22.600000 north, 113.950000 east, 50 m, 50.0 km/h, 180 degrees, 15:05:30; and 1.000000 south, 2.000000 west, 0 m, 0.5 km/h,
// 359 degrees, 15:06:00.
const BATCH: &[u8] =
    b"\0\x02\0\0\x1c\0\0\0\0\0\0\0\x03\x01\x58\xd9\x40\x06\xca\xbd\x30\0\x32\x01\xf4\0\xb4\x26\x11\x30\x15\x05\x30\0\x1c\0\0\0\0\0\0\0\x0f\0\x0f\x42\x40\0\x1e\x84\x80\0\0\0\x05\x01\x67\x26\x11\x30\x15\x06\0";

// A position in the month 13, where the terminal does not know where it is.
const NO_MOMENT: &[u8] = b"\0\0\0\0\0\0\0\0\0\0\0\0\0\0\0\0\0\x07\0\0\0\0\x26\x13\x30\x15\x06\x30";

// 22.700001 north, 113.960000 east, 60 m, 10.0 km/h, 1 degree, 15:07:00.
const LAST: &[u8] =
    b"\0\0\0\0\0\0\0\x02\x01\x5a\x5f\xe1\x06\xca\xe4\x40\0\x3c\0\x64\0\x01\x26\x11\x30\x15\x07\0";

// The same on the next day, at 00:00:00.
const NEXT_DAY: &[u8] =
    b"\0\0\0\0\0\0\0\x02\x01\x5a\x5f\xe1\x06\xca\xe4\x40\0\x3c\0\x64\0\x01\x26\x12\x01\0\0\0";

const DAY: &[Told] = &[
    (5, 0x0200, FIRST),
    (7, 0x0704, BATCH),
    (9, 0x0200, NO_MOMENT),
    (12, 0x0200, LAST),
    (14, 0x0100, b"\0"),
    (15, 0x0200, NEXT_DAY),
];

const CSV: &str = "phone,number,time,latitude,longitude,speed,altitude,direction,mileage
013912345678,5,2026-11-30T15:05:00+08:00,22.514446,113.943110,42.1,48,90,12090.7
013912345678,7,2026-11-30T15:05:30+08:00,22.600000,113.950000,50.0,50,180,
013912345678,7,2026-11-30T15:06:00+08:00,-1.000000,-2.000000,0.5,0,359,
013912345678,9,,0.000000,0.000000,0.0,7,0,
013912345678,12,2026-11-30T15:07:00+08:00,22.700001,113.960000,10.0,60,1,
";

const GPX: &str = "<?xml version=\"1.0\" encoding=\"UTF-8\"?>
<gpx version=\"1.1\" creator=\"dewfelt\" xmlns=\"http://www.topografix.com/GPX/1/1\"><trk><name>013912345678</name><trkseg>
<trkpt lat=\"22.514446\" lon=\"113.943110\"><ele>48</ele><time>2026-11-30T15:05:00+08:00</time></trkpt>
<trkpt lat=\"22.600000\" lon=\"113.950000\"><ele>50</ele><time>2026-11-30T15:05:30+08:00</time></trkpt>
<trkpt lat=\"-1.000000\" lon=\"-2.000000\"><ele>0</ele><time>2026-11-30T15:06:00+08:00</time></trkpt>
<trkpt lat=\"22.700001\" lon=\"113.960000\"><ele>60</ele><time>2026-11-30T15:07:00+08:00</time></trkpt>
</trkseg></trk></gpx>
";

const GEOJSON: &str =
    "{\"type\":\"Feature\",\"id\":\"013912345678\",\"geometry\":{\"type\":\"LineString\",\"coordinates\":[[113.950000,22.600000],[-2.000000,-1.000000],[0.000000,0.000000]]},\"properties\":{\"phone\":\"013912345678\",\"plate_octets\":\"d4c1414130303231\",\"from\":\"2026-11-30T15:05:30+08:00\",\"to\":\"2026-11-30T15:06:59+08:00\",\"more\":false,\"ordered\":true,\"times\":[\"2026-11-30T15:05:30+08:00\",\"2026-11-30T15:06:00+08:00\",null],\"speeds_kmh\":[50.0,0.5,0.0],\"directions\":[180,359,0],\"status\":[3,15,0],\"numbers\":[7,7,9],\"points\":null}}";

// A query, how its answer begins, and what stands in it.
type Asked = (&'static str, &'static str, &'static str);

const WHOLE: &[Asked] = &[
    (
        "13912345678/track?from=2026-11-30T00:00:00%2B08:00&to=2026-11-30T23:59:59%2B08:00&form=csv",
        "content-type: text/csv; charset=utf-8",
        CSV,
    ),
    (
        "13912345678/track?from=2026-11-30T00:00:00%2B08:00&to=2026-11-30T23:59:59%2B08:00&form=csv",
        "content-disposition: attachment; filename=\"013912345678.csv\"",
        CSV,
    ),
    (
        "13912345678/track?from=2026-11-30T00:00:00&to=2026-11-30T23:59:59&form=gpx",
        "content-type: application/gpx+xml",
        GPX,
    ),
    (
        "13912345678/track?from=2026-11-30T15:05:30&to=2026-11-30T15:06:59",
        "content-type: application/geo+json",
        GEOJSON,
    ),
    (
        "13912345678/track?from=2026-11-30T07:05:30Z&to=2026-11-30T16:06:59+09:00&form=geojson",
        "content-type: application/geo+json",
        GEOJSON,
    ),
];

const RANGES: &[Asked] = &[
    (
        "13912345678/track?from=2026-12-01&to=2026-12-02",
        "HTTP/1.1 200",
        "\"geometry\":null,\"properties\":{\"phone\":\"013912345678\",\"plate_octets\":\"d4c1414130303231\",\"from\":\"2026-12-01T00:00:00+08:00\",\"to\":\"2026-12-02T00:00:00+08:00\",\"more\":false,\"ordered\":true,\"times\":[\"2026-12-01T00:00:00+08:00\"],\"speeds_kmh\":[10.0],\"directions\":[1],\"status\":[2],\"numbers\":[15],\"points\":[[113.960000,22.700001]]}}",
    ),
    (
        "13912345678/track?from=2026-12-01T00:00:01&to=2026-12-31T00:00:00",
        "HTTP/1.1 200",
        "\"more\":false,\"ordered\":true,\"times\":[],\"speeds_kmh\":[],\"directions\":[],\"status\":[],\"numbers\":[],\"points\":null}}",
    ),
];

// The day by pages of two fixes.
const PAGES: &[Asked] = &[
    (
        "13912345678/track?from=2026-11-30T00:00:00&to=2026-11-30T23:59:59&limit=2",
        "link: </api/v1/vehicles/013912345678/track?from=2026-11-30T00:00:00%2B08:00&to=2026-11-30T23:59:59%2B08:00&form=geojson&limit=2&after=7.0>; rel=\"next\"",
        "\"more\":true,\"ordered\":true,\"times\":[\"2026-11-30T15:05:00+08:00\",\"2026-11-30T15:05:30+08:00\"]",
    ),
    (
        "13912345678/track?from=2026-11-30T00:00:00%2B08:00&to=2026-11-30T23:59:59%2B08:00&form=geojson&limit=2&after=7.0",
        "form=geojson&limit=2&after=9.0>; rel=\"next\"",
        "\"more\":true,\"ordered\":true,\"times\":[\"2026-11-30T15:06:00+08:00\",null]",
    ),
];

const LAST_PAGE: Asked = (
    "13912345678/track?from=2026-11-30T00:00:00%2B08:00&to=2026-11-30T23:59:59%2B08:00&form=geojson&limit=2&after=9.0",
    "HTTP/1.1 200",
    "\"more\":false,\"ordered\":true,\"times\":[\"2026-11-30T15:07:00+08:00\"]",
);

const WRONG: &[Asked] = &[
    (
        "13912345678/track",
        "HTTP/1.1 400",
        "\"parameter\":\"from\"",
    ),
    (
        "13912345678/track?from=2026-11-30",
        "HTTP/1.1 400",
        "\"parameter\":\"to\"",
    ),
    (
        "13912345678/track?from=2026-11-31&to=2026-12-02",
        "HTTP/1.1 400",
        "\"parameter\":\"from\"",
    ),
    (
        "13912345678/track?from=2026-11-30T00:00:00[Asia/Tokyo]&to=2026-12-02",
        "HTTP/1.1 400",
        "\"parameter\":\"from\"",
    ),
    (
        "13912345678/track?from=1969-12-31&to=1970-01-02",
        "HTTP/1.1 400",
        "\"parameter\":\"from\"",
    ),
    (
        "13912345678/track?from=2026-11-30T00:00:01&to=2026-11-30T00:00:00",
        "HTTP/1.1 400",
        "\"parameter\":\"to\"",
    ),
    (
        "13912345678/track?from=2026-11-01T00:00:00&to=2026-12-02T00:00:01",
        "HTTP/1.1 400",
        "to is at most 31 days behind from",
    ),
    (
        "13912345678/track?from=2026-11-30&to=2026-12-01&form=kml",
        "HTTP/1.1 400",
        "\"parameter\":\"form\"",
    ),
    (
        "13912345678/track?from=2026-11-30&to=2026-12-01&limit=20001",
        "HTTP/1.1 400",
        "\"parameter\":\"limit\"",
    ),
    (
        "13912345678/track?from=2026-11-30&to=2026-12-01&after=7",
        "HTTP/1.1 400",
        "\"parameter\":\"after\"",
    ),
    (
        "13912345678/track?from=2026-11-30&to=2026-12-01&since=1",
        "HTTP/1.1 400",
        "does not know",
    ),
    (
        "13912345679/track?from=2026-11-30&to=2026-12-01",
        "HTTP/1.1 404",
        "\"status\":404",
    ),
];

// What is answered over these rows.
fn said<R: Abort + Wait + Clock + RandomSource + AllocGlobal>(
    rt: &R,
    told: &[Told],
    path: &str,
) -> String {
    let kept = Kept::of(rt, rt.alloc(), told);
    let request = format!(in rt.alloc(); "GET /api/v1/vehicles/{path}{TOKEN}").expect(rt, "memory");
    let board = board(rt, rt.alloc());
    answer(rt, &board, &kept, request.as_bytes())
}

// Whether an answer has both in it.
fn has_both<R: Abort + Wait + Clock + RandomSource + AllocGlobal>(
    rt: &R,
    told: &[Told],
    asked: &Asked,
) -> bool {
    let (path, front, part) = *asked;
    let answer = said(rt, told, path);
    answer.as_str().contains(front) && answer.as_str().contains(part)
}

// Whether an answer has this in its head, and this body.
fn is_whole<R: Abort + Wait + Clock + RandomSource + AllocGlobal>(rt: &R, asked: &Asked) -> bool {
    let (path, part, whole) = *asked;
    let answer = said(rt, DAY, path);
    let (head, body) = answer.as_str().split_once("\r\n\r\n").expect(rt, "a head");
    head.starts_with("HTTP/1.1 200") && head.contains(part) && body == whole
}

#[test]
fn a_day_is_told_in_each_form(rt: HostRuntime) {
    for asked in WHOLE {
        assert!(rt; is_whole(&rt, asked), "{}", asked.0);
    }
}

#[test]
fn a_range_has_the_fixes_of_its_moments(rt: HostRuntime) {
    for asked in RANGES {
        assert!(rt; has_both(&rt, DAY, asked), "{}", asked.0);
    }
}

#[test]
fn a_day_by_pages_has_each_fix_once(rt: HostRuntime) {
    for asked in PAGES {
        assert!(rt; has_both(&rt, DAY, asked), "{}", asked.0);
    }
}

#[test]
fn the_last_page_has_no_link(rt: HostRuntime) {
    assert!(rt; has_both(&rt, DAY, &LAST_PAGE));
    let last = said(&rt, DAY, LAST_PAGE.0);
    assert!(rt; !last.as_str().contains("link: "));
}

#[test]
fn a_wrong_question_for_a_track_is_refused(rt: HostRuntime) {
    for asked in WRONG {
        assert!(rt; has_both(&rt, DAY, asked), "{}", asked.0);
    }
}

#[test]
fn a_moment_that_goes_back_is_said(rt: HostRuntime) {
    let rows: &[Told] = &[(1, 0x0200, FIRST), (2, 0x0200, NEXT_DAY), (3, 0x0200, LAST)];
    let asked = (
        "13912345678/track?from=2026-11-30&to=2026-11-30T23:59:59",
        "\"ordered\":false",
        "\"numbers\":[1,3]",
    );
    assert!(rt; has_both(&rt, rows, &asked));
}

// A position at a minute of 2026-11-30.
fn at_minute(minute: u8) -> [u8; 28] {
    let mut body = [0; 28];
    body[22] = 0x26;
    body[23] = 0x11;
    body[24] = 0x30;
    body[25] = minute / 60 / 10 * 16 + minute / 60 % 10;
    body[26] = minute % 60 / 10 * 16 + minute % 60 % 10;
    body
}

// A row for each of 250 minutes from midnight on, with numbers 0, 3, 6, ..
fn minutes(rt: &impl Abort, alloc: Global) -> Kept {
    let mut kept = Kept::none(alloc);
    for minute in 0..250u8 {
        let one = row(rt, alloc, 3 * minute as u64, 0x0200, &at_minute(minute));
        kept.rows.push(one).expect(rt, "memory");
    }
    kept
}

// What is said of a range of 250 minutes, where the number of the last row is known or not.
fn said_of_minutes<R: Abort + Wait + Clock + RandomSource + AllocGlobal>(
    rt: &R,
    path: &str,
    is_last_known: bool,
) -> String {
    let kept = minutes(rt, rt.alloc());
    let request = format!(in rt.alloc(); "GET /api/v1/vehicles/{path}{TOKEN}").expect(rt, "memory");
    let board = board(rt, rt.alloc());
    if is_last_known {
        board.lock(rt).row(&LORRY, 747, 0x0200, &at_minute(249));
    }
    answer(rt, &board, &kept, request.as_bytes())
}

const MINUTES: &[(&str, &str)] = &[
    (
        "13912345678/track?from=2026-11-30T02:00:30&to=2026-11-30T02:03:00",
        "\"numbers\":[363,366,369]",
    ),
    (
        "13912345678/track?from=2026-11-30T00:00:00&to=2026-11-30T00:01:59",
        "\"numbers\":[0,3]",
    ),
    (
        "13912345678/track?from=2026-11-30T04:09:00&to=2026-12-10",
        "\"numbers\":[747]",
    ),
    (
        "13912345678/track?from=2026-11-30T04:09:01&to=2026-12-10",
        "\"numbers\":[]",
    ),
];

#[test]
fn the_first_fix_of_a_range_is_found(rt: HostRuntime) {
    for (path, part) in MINUTES {
        assert!(rt;
            said_of_minutes(&rt, path, false).as_str().contains(part),
            "{path}"
        );
        assert!(rt;
            said_of_minutes(&rt, path, true).as_str().contains(part),
            "{path}"
        );
    }
}

#[test]
fn a_phone_that_is_forgotten_has_its_track(rt: HostRuntime) {
    let kept = Kept::of(&rt, rt.alloc(), DAY);
    let board = board(&rt, rt.alloc());
    board.lock(&rt).unseat(&LORRY);
    let request = format!(in rt.alloc();
        "GET /api/v1/vehicles/13912345678/track?from=2026-11-30&to=2026-12-01&limit=1{TOKEN}"
    ).expect(&rt, "memory");
    let answer = answer(&rt, &board, &kept, request.as_bytes());
    assert!(rt; answer.as_str().contains("\"plate_octets\":\"\""));
    assert!(rt; answer.as_str().contains("\"numbers\":[5]"));
}
