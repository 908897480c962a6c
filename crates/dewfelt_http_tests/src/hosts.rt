//! By which hosts and from which pages the interface is asked.

use crate::gates::{answer_at, board, site_at};
use crate::kept::Kept;
use std::process::Abort;
use std::random::RandomSource;
use std::sync::Wait;
use std::time::Clock;

// A listener's address, lines of a request's head, and how its answer begins.
type Row = (&'static str, &'static str, &'static str);

// What is answered at an address to a request with these lines of its head.
fn answer_to<R: Abort + Wait + Clock + RandomSource + AllocGlobal>(
    rt: &R,
    address: &str,
    path: &str,
    lines: &str,
) -> String {
    let site = site_at(rt, rt.alloc(), address);
    let board = board(rt, rt.alloc());
    let rows = Kept::none(rt.alloc());
    let request = format!(in rt.alloc(); "GET {path} HTTP/1.1\r\n{lines}\r\n\r\n");
    let request = request.expect(rt, "memory");
    answer_at(rt, &site, &board, &rows, request.as_bytes())
}

const HOSTS: &[Row] = &[
    ("127.0.0.1:8080", "Host: 127.0.0.1:8080", "HTTP/1.1 200"),
    ("127.0.0.1:8080", "Host: localhost:8080", "HTTP/1.1 200"),
    ("127.0.0.1:8080", "Host: localhost", "HTTP/1.1 421"),
    ("127.0.0.1:8080", "Host: 127.0.0.1", "HTTP/1.1 421"),
    ("127.0.0.1:8080", "Host: 127.0.0.1:80", "HTTP/1.1 421"),
    ("127.0.0.1:8080", "Host: [::1]:8080", "HTTP/1.1 421"),
    ("127.0.0.1:8080", "Host: fleet.example.org", "HTTP/1.1 200"),
    (
        "127.0.0.1:8080",
        "Host: fleet.example.org:8080",
        "HTTP/1.1 421",
    ),
    ("0.0.0.0:8080", "Host: 0.0.0.0:8080", "HTTP/1.1 200"),
    ("0.0.0.0:8080", "Host: 127.0.0.1:8080", "HTTP/1.1 200"),
    ("0.0.0.0:8080", "Host: [::1]:8080", "HTTP/1.1 421"),
    ("[::1]:8080", "Host: [::1]:8080", "HTTP/1.1 200"),
    ("[::1]:8080", "Host: [::1]", "HTTP/1.1 421"),
    ("[::]:8080", "Host: [::]:8080", "HTTP/1.1 200"),
    ("[::]:8080", "Host: [::1]:8080", "HTTP/1.1 200"),
    ("[::]:8080", "Host: localhost:8080", "HTTP/1.1 200"),
    ("[::]:8080", "Host: [::1]", "HTTP/1.1 421"),
    ("[::]:8080", "Host: [::2]:8080", "HTTP/1.1 421"),
    ("127.0.0.1:80", "Host: 127.0.0.1", "HTTP/1.1 200"),
    ("127.0.0.1:80", "Host: localhost", "HTTP/1.1 200"),
    ("127.0.0.1:80", "Host: localhost:80", "HTTP/1.1 200"),
    ("127.0.0.1:80", "Host: localhost:8080", "HTTP/1.1 421"),
    ("192.0.2.7:80", "Host: 192.0.2.7", "HTTP/1.1 200"),
    ("[::]:80", "Host: [::1]", "HTTP/1.1 200"),
    ("[2001:db8::1]:80", "Host: [2001:db8::1]", "HTTP/1.1 200"),
    ("[2001:db8::1]:80", "Host: 2001:db8::1", "HTTP/1.1 400"),
];

#[test]
fn each_host_is_ours_or_not(rt: HostRuntime) {
    for (address, lines, front) in HOSTS {
        let text = answer_to(&rt, address, "/healthz", lines);
        assert!(rt; text.as_str().starts_with(front), "{address} {lines}");
    }
}

const PAGES: &[Row] = &[
    (
        "127.0.0.1:8080",
        "Host: localhost:8080\r\nAuthorization: Bearer read",
        "HTTP/1.1 200",
    ),
    (
        "127.0.0.1:8080",
        "Host: localhost:8080\r\nOrigin: http://127.0.0.1:8080\r\nAuthorization: Bearer read",
        "HTTP/1.1 200",
    ),
    (
        "127.0.0.1:8080",
        "Host: fleet.example.org\r\nOrigin: https://fleet.example.org\r\nAuthorization: Bearer read",
        "HTTP/1.1 200",
    ),
    (
        "127.0.0.1:8080",
        "Host: localhost:8080\r\nOrigin: http://evil.example\r\nOrigin: http://127.0.0.1:8080\r\nAuthorization: Bearer read",
        "HTTP/1.1 403",
    ),
    (
        "127.0.0.1:8080",
        "Host: localhost:8080\r\nOrigin: http://127.0.0.1:8080\r\nOrigin: http://evil.example\r\nAuthorization: Bearer read",
        "HTTP/1.1 403",
    ),
    (
        "127.0.0.1:8080",
        "Host: localhost:8080\r\nOrigin: null\r\nAuthorization: Bearer read",
        "HTTP/1.1 403",
    ),
    (
        "[::]:80",
        "Host: [::1]\r\nOrigin: http://[::1]\r\nAuthorization: Bearer read",
        "HTTP/1.1 200",
    ),
    (
        "127.0.0.1:8080",
        "Host: localhost:8080\r\nAuthorization: Digest read",
        "HTTP/1.1 401",
    ),
    (
        "127.0.0.1:8080",
        "Host: localhost:8080\r\nAuthorization: bearer read",
        "HTTP/1.1 401",
    ),
];

#[test]
fn each_page_may_ask_or_not(rt: HostRuntime) {
    for (address, lines, front) in PAGES {
        let text = answer_to(&rt, address, "/api/v1/server", lines);
        assert!(rt; text.as_str().starts_with(front), "{address} {lines}");
    }
}
