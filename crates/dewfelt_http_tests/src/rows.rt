//! Rows by pages.

use crate::gates::{answer, board};
use crate::kept::{Kept, row};
use std::alloc::Global;
use std::process::Abort;
use std::random::RandomSource;
use std::sync::Wait;
use std::time::Clock;

const TOKEN: &str = " HTTP/1.1\r\nHost: localhost:8080\r\nAuthorization: Bearer read\r\n\r\n";

// The number of the row of a place: 2, 5, 6, 9, 10, 13, ..
fn number_at(place: u8) -> u64 {
    2 * place as u64 + 2 + (place % 2) as u64
}

// So many rows.
const COUNT: u8 = 120;

fn kept(rt: &impl Abort, alloc: Global) -> Kept {
    let mut kept = Kept::none(alloc);
    for place in 0..COUNT {
        let one = row(rt, alloc, number_at(place), 0x0200, &[place, 0xa5]);
        kept.rows.push(one).expect(rt, "memory");
    }
    kept
}

// The lines of all rows.
fn lines(rt: &impl Abort, alloc: Global) -> String {
    let mut lines = String::new(alloc);
    for place in 0..COUNT {
        let number = number_at(place);
        let line = format!(in alloc;
            "{{\"phone\":\"013912345678\",\"number\":{number},\"id\":\"0x0200\",\"body\":\"{place:02x}a5\"}}\n"
        );
        lines
            .push_str(line.expect(rt, "memory").as_str())
            .expect(rt, "memory");
    }
    lines
}

// The value of a header of an answer.
fn header<'a>(rt: &impl Abort, answer: &'a str, name: &str) -> &'a str {
    let (_, rest) = answer.split_once(name).expect(rt, "the header");
    let (value, _) = rest.split_once("\r\n").expect(rt, "an end");
    value
}

// The body of an answer.
fn body<'a>(rt: &impl Abort, answer: &'a str) -> &'a str {
    let (head, body) = answer.split_once("\r\n\r\n").expect(rt, "a head");
    assert!(rt; head.starts_with("HTTP/1.1 200"));
    assert!(rt; head.contains("content-type: application/x-ndjson"));
    body
}

// One page behind the text so far, from a number on. The number of the next, where there is one.
fn read_page<R: Abort + Wait + Clock + RandomSource + AllocGlobal>(
    rt: &R,
    kept: &Kept,
    text: &mut String,
    from: u64,
    limit: usize,
) -> Option<u64> {
    let request = format!(in rt.alloc();
        "GET /api/v1/vehicles/13912345678/rows?from={from}&limit={limit}{TOKEN}"
    ).expect(rt, "memory");
    let board = board(rt, rt.alloc());
    let page = answer(rt, &board, kept, request.as_bytes());
    text.push_str(body(rt, page.as_str())).expect(rt, "memory");
    if header(rt, page.as_str(), "dewfelt-more: ") == "false" {
        return None;
    }
    header(rt, page.as_str(), "dewfelt-next: ").parse().ok()
}

// How many pages of so many rows there are, whose texts are one behind the other that of all rows.
fn pages_of<R: Abort + Wait + Clock + RandomSource + AllocGlobal>(rt: &R, limit: usize) -> usize {
    let kept = kept(rt, rt.alloc());
    let mut text = String::new(rt.alloc());
    let mut from = Some(0);
    let mut count: usize = 0;
    for _ in 0..=COUNT {
        let Some(next) = from else {
            break;
        };
        from = read_page(rt, &kept, &mut text, next, limit);
        count = count.saturating_add(1);
    }
    assert!(rt; from.is_none());
    assert!(rt; text.as_str() == lines(rt, rt.alloc()).as_str());
    count
}

#[test]
fn rows_by_pages_are_the_whole(rt: HostRuntime) {
    assert_eq!(rt; pages_of(&rt, 50), 3);
    assert_eq!(rt; pages_of(&rt, 1_000), 1);
}

#[test]
fn rows_by_pages_of_seven_are_the_whole(rt: HostRuntime) {
    assert_eq!(rt; pages_of(&rt, 7), 18);
}

#[test]
fn rows_one_by_one_are_the_whole(rt: HostRuntime) {
    assert_eq!(rt; pages_of(&rt, 1), 120);
}

// A query, how its answer begins, and what stands in it.
const ASKED: &[(&str, &str, &str)] = &[
    (
        "13912345678/rows?from=239&limit=1",
        "HTTP/1.1 200",
        "dewfelt-next: 242\r\ndewfelt-more: false\r\n",
    ),
    (
        "13912345678/rows?from=242",
        "HTTP/1.1 200",
        "dewfelt-next: 242\r\ndewfelt-more: false\r\n",
    ),
    (
        "13912345678/rows?from=140737488355329",
        "HTTP/1.1 400",
        "\"parameter\":\"from\"",
    ),
    (
        "13912345678/rows?from=01",
        "HTTP/1.1 400",
        "\"parameter\":\"from\"",
    ),
    (
        "13912345678/rows?limit=0",
        "HTTP/1.1 400",
        "\"parameter\":\"limit\"",
    ),
    (
        "13912345678/rows?limit=1001",
        "HTTP/1.1 400",
        "\"parameter\":\"limit\"",
    ),
    ("13912345678/rows?to=1", "HTTP/1.1 400", "does not know"),
    (
        "13912345678/rows?from=1&from=1",
        "HTTP/1.1 400",
        "stands twice",
    ),
    ("13912345679/rows", "HTTP/1.1 404", "\"status\":404"),
    ("13912345678/rows/", "HTTP/1.1 404", "no such path"),
];

fn answers_so<R: Abort + Wait + Clock + RandomSource + AllocGlobal>(
    rt: &R,
    kept: &Kept,
    asked: &(&str, &str, &str),
) -> bool {
    let (path, front, part) = *asked;
    let request = format!(in rt.alloc(); "GET /api/v1/vehicles/{path}{TOKEN}").expect(rt, "memory");
    let board = board(rt, rt.alloc());
    let answer = answer(rt, &board, kept, request.as_bytes());
    answer.as_str().starts_with(front) && answer.as_str().contains(part)
}

#[test]
fn each_question_for_rows_has_its_answer(rt: HostRuntime) {
    let kept = kept(&rt, rt.alloc());
    for asked in ASKED {
        assert!(rt; answers_so(&rt, &kept, asked), "{}", asked.0);
    }
}

#[test]
fn a_store_that_fails_is_told(rt: HostRuntime) {
    let kept = Kept {
        rows: Vec::new(rt.alloc()),
        fails: true,
    };
    let asked = ("13912345678/rows", "HTTP/1.1 503", "retry-after: 2");
    assert!(rt; answers_so(&rt, &kept, &asked));
}
