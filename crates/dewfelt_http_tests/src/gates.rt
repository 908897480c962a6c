//! Who is answered, and what.

use crate::kept::Kept;
use dewfelt_board::Board;
use dewfelt_http::{Desk, Gate, Requests, Shared, Site};
use http_server::{Config, Connection};
use jt_value::{Edition, Phone};
use std::alloc::Global;
use std::hash::RandomState;
use std::process::Abort;
use std::random::RandomSource;
use std::sync::atomic::AtomicBool;
use std::sync::{Mutex, Wait};
use std::time::Clock;

pub const LORRY: Phone = Phone {
    edition: Edition::E2013,
    digits: [0, 0, 0, 0, 0x01, 0x39, 0x12, 0x34, 0x56, 0x78],
};

/// The gate of a listener at an address.
pub fn gate_at(rt: &impl Abort, alloc: Global, address: &str) -> Gate {
    let name = String::from_str(alloc, "fleet.example.org").expect(rt, "memory");
    let address = address.parse().expect(rt, "an address");
    Gate::new(alloc, address, &[name], b"operate", b"read").expect(rt, "memory")
}

pub fn site(rt: &impl Abort, alloc: Global) -> Site {
    site_at(rt, alloc, "127.0.0.1:8080")
}

/// What is served at an address.
pub fn site_at(rt: &impl Abort, alloc: Global, address: &str) -> Site {
    Site {
        gate: gate_at(rt, alloc, address),
        started: 1_800_000_000,
        terminals: "0.0.0.0:9000".parse().expect(rt, "an address"),
        version: "test",
        base: None,
        requests: Requests::new(alloc).expect(rt, "memory"),
        is_ready: AtomicBool::new(false),
    }
}

pub fn board(rt: &impl Abort, alloc: Global) -> Mutex<Board> {
    let mut board = Board::new(alloc, 7).expect(rt, "memory");
    board.seat(&LORRY, b"\xd4\xc1AA0021", b"T000005");
    Mutex::new(board)
}

/// What is answered to a request, read in one piece, over a board and rows.
pub fn answer<R: Abort + Wait + Clock + RandomSource + AllocGlobal>(
    rt: &R,
    board: &Mutex<Board>,
    rows: &Kept,
    request: &[u8],
) -> String {
    let site = site(rt, rt.alloc());
    answer_at(rt, &site, board, rows, request)
}

/// What is answered by a site.
pub fn answer_at<R: Abort + Wait + Clock + RandomSource + AllocGlobal>(
    rt: &R,
    site: &Site,
    board: &Mutex<Board>,
    rows: &Kept,
    request: &[u8],
) -> String {
    let sight = Shared::new(rt, board, rows);
    let mut desk = Desk::new(rt.alloc(), site, &sight);
    let keys = RandomState::new(rt).expect(rt, "keys");
    let mut connection = Connection::new(rt.alloc(), keys, Config::default());
    let mut octets = request;
    connection.read_from(&mut octets).expect(rt, "memory");
    connection.advance(&mut desk);
    let text = std::str::from_utf8(connection.output()).expect(rt, "text");
    String::from_str(rt.alloc(), text).expect(rt, "memory")
}

// Whether what is answered to a request begins so and has this in it.
fn answers<R: Abort + Wait + Clock + RandomSource + AllocGlobal>(
    rt: &R,
    request: &[u8],
    front: &str,
    part: &str,
) -> bool {
    let board = board(rt, rt.alloc());
    let text = answer(rt, &board, &Kept::none(rt.alloc()), request);
    text.as_str().starts_with(front) && text.as_str().contains(part)
}

// A request, how its answer begins, and what stands in it.
type Row = (&'static [u8], &'static str, &'static str);

const ROWS: &[Row] = &[
    (
        b"GET /healthz HTTP/1.1\r\nHost: localhost:8080\r\n\r\n",
        "HTTP/1.1 200",
        "\r\n\r\nok\n",
    ),
    (
        b"GET /readyz HTTP/1.1\r\nHost: localhost:8080\r\n\r\n",
        "HTTP/1.1 503",
        "{\"ready\":false,\"store\":\"closed\",\"listener\":\"closed\"}",
    ),
    (
        b"GET /readyz HTTP/1.1\r\nHost: evil.example\r\n\r\n",
        "HTTP/1.1 421",
        "\"status\":421",
    ),
    (
        b"GET http://localhost:8080/healthz HTTP/1.1\r\nHost: localhost:8080\r\n\r\n",
        "HTTP/1.1 400",
        "send the path alone",
    ),
    (
        b"GET /icon.svg HTTP/1.1\r\nHost: 127.0.0.1:8080\r\n\r\n",
        "HTTP/1.1 200",
        "default-src 'none'",
    ),
    (
        b"POST / HTTP/1.1\r\nHost: 127.0.0.1:8080\r\n\r\n",
        "HTTP/1.1 405",
        "allow: GET, HEAD",
    ),
    (
        b"GET /api/v1/server HTTP/1.1\r\nHost: 127.0.0.1:8080\r\n\r\n",
        "HTTP/1.1 401",
        "www-authenticate: Bearer realm=\"dewfelt\"",
    ),
    (
        b"GET /api/v1/server HTTP/1.1\r\nHost: 127.0.0.1:8080\r\nAuthorization: Bearer Read\r\n\r\n",
        "HTTP/1.1 401",
        "\"detail\":\"this token is not known here\"",
    ),
    (
        b"GET /api/v1/server HTTP/1.1\r\nHost: 127.0.0.1:8080\r\nAuthorization: Bearer read\r\n\r\n",
        "HTTP/1.1 200",
        "\"access\":\"read\",\"terminals_listen\":\"0.0.0.0:9000\",\"vehicles\":1,\"sessions\":0",
    ),
    (
        b"GET /api/v1/server HTTP/1.1\r\nHost: 127.0.0.1:8080\r\nOrigin: http://127.0.0.1:8080\r\nAuthorization: Bearer operate\r\n\r\n",
        "HTTP/1.1 200",
        "\"access\":\"operate\"",
    ),
    (
        b"GET /api/v1/server HTTP/1.1\r\nHost: 127.0.0.1:8080\r\nOrigin: http://evil.example\r\nAuthorization: Bearer operate\r\n\r\n",
        "HTTP/1.1 403",
        "",
    ),
    (
        b"DELETE /api/v1/vehicles HTTP/1.1\r\nHost: 127.0.0.1:8080\r\nAuthorization: Bearer operate\r\n\r\n",
        "HTTP/1.1 405",
        "allow: GET, HEAD",
    ),
    (
        b"GET /api/v1/fences HTTP/1.1\r\nHost: 127.0.0.1:8080\r\nAuthorization: Bearer operate\r\n\r\n",
        "HTTP/1.1 404",
        "no such path",
    ),
    (
        b"GET /api/v1/../healthz HTTP/1.1\r\nHost: 127.0.0.1:8080\r\nAuthorization: Bearer operate\r\n\r\n",
        "HTTP/1.1 404",
        "",
    ),
    (
        b"GET /api/v1/changes?since= HTTP/1.1\r\nHost: 127.0.0.1:8080\r\nAuthorization: Bearer read\r\n\r\n",
        "HTTP/1.1 200",
        "[\"013912345678\",\"d4c1414130303231\",\"T000005\",\"none\",null,null,null,null,null,null,null,null,null,null,null,null,null,0]",
    ),
    (
        b"GET /api/v1/changes?limit=0 HTTP/1.1\r\nHost: 127.0.0.1:8080\r\nAuthorization: Bearer read\r\n\r\n",
        "HTTP/1.1 400",
        "\"parameter\":\"limit\"",
    ),
    (
        b"GET /api/v1/changes?since=now HTTP/1.1\r\nHost: 127.0.0.1:8080\r\nAuthorization: Bearer read\r\n\r\n",
        "HTTP/1.1 400",
        "\"parameter\":\"since\"",
    ),
    (
        b"GET /api/v1/changes?limit=1&limit=1 HTTP/1.1\r\nHost: 127.0.0.1:8080\r\nAuthorization: Bearer read\r\n\r\n",
        "HTTP/1.1 400",
        "stands twice",
    ),
    (
        b"GET /api/v1/vehicles/13912345678 HTTP/1.1\r\nHost: 127.0.0.1:8080\r\nAuthorization: Bearer read\r\n\r\n",
        "HTTP/1.1 200",
        "{\"phone\":\"013912345678\",\"plate_octets\":\"d4c1414130303231\",\"terminal\":\"T000005\",\"terminal_octets\":\"54303030303035\",\"edition\":null,\"link\":\"none\",\"session\":null,",
    ),
    (
        b"GET /api/v1/vehicles/1 HTTP/1.1\r\nHost: 127.0.0.1:8080\r\nAuthorization: Bearer read\r\n\r\n",
        "HTTP/1.1 404",
        "",
    ),
    (
        b"GET /api/v1/positions HTTP/1.1\r\nHost: 127.0.0.1:8080\r\nAuthorization: Bearer read\r\n\r\n",
        "HTTP/1.1 200",
        "{\"type\":\"FeatureCollection\",\"features\":[],\"next\":null}",
    ),
    (
        b"GET /api/v1/counts HTTP/1.1\r\nHost: 127.0.0.1:8080\r\nAuthorization: Bearer read\r\n\r\n",
        "HTTP/1.1 200",
        "{\"counts\":[{\"phone\":\"013912345678\",\"last\":null}],\"next\":null}",
    ),
    (
        b"GET /api/v1/sessions HTTP/1.1\r\nHost: 127.0.0.1:8080\r\nAuthorization: Bearer read\r\n\r\n",
        "HTTP/1.1 200",
        "{\"sessions\":[],\"open\":0}",
    ),
    (
        b"GET /api/v1/strangers HTTP/1.1\r\nHost: 127.0.0.1:8080\r\nAuthorization: Bearer read\r\n\r\n",
        "HTTP/1.1 200",
        "{\"strangers\":[]}",
    ),
    (
        b"GET /api/v1/map HTTP/1.1\r\nHost: 127.0.0.1:8080\r\nAuthorization: Bearer read\r\n\r\n",
        "HTTP/1.1 404",
        "map.geojson",
    ),
    (
        b"GET /metrics HTTP/1.1\r\nHost: 127.0.0.1:8080\r\nAuthorization: Bearer read\r\n\r\n",
        "HTTP/1.1 200",
        "# TYPE dewfelt_vehicles gauge\ndewfelt_vehicles 1\n",
    ),
];

#[test]
fn each_request_has_its_answer(rt: HostRuntime) {
    for (request, front, part) in ROWS {
        assert!(rt; answers(&rt, request, front, part), "{part}");
    }
}
