//! The interface over sockets of this machine.

use crate::gates::{board, site};
use crate::kept::Kept;
use dewfelt_http::{HttpEnd, Shared, serve_http};
use jt_service::ServiceListen;
use std::io::{Read, Write};
use std::net::{Net, SocketAddr, TcpStream};
use std::process::Abort;
use std::sync::Arc;
use std::sync::atomic::{AtomicBool, Ordering};
use std::thread;

const REQUEST: &[u8] =
    b"GET /api/v1/counts HTTP/1.1\r\nHost: localhost:8080\r\nAuthorization: Bearer read\r\nConnection: close\r\n\r\n";

// Whether a connection is answered so.
fn is_answered<R: Abort + Net + AllocGlobal>(
    rt: &R,
    address: SocketAddr,
    stops: &AtomicBool,
) -> bool {
    let mut stream = TcpStream::connect(rt, address).expect(rt, "a connection");
    stream.write_all(REQUEST).expect(rt, "a write");
    let mut text = String::new(rt.alloc());
    stream.read_to_string(&mut text).expect(rt, "an answer");
    stops.store(true, Ordering::SeqCst);
    text.starts_with("HTTP/1.1 200") && text.ends_with("\"next\":null}")
}

#[test]
fn a_browser_is_answered(rt: HostRuntime) {
    let any = "127.0.0.1:0".parse().expect(&rt, "an address");
    let own = HostRuntime::clone(&rt).expect(&rt, "a runtime");
    let ends = Arc::new(rt.alloc(), AtomicBool::new(false)).expect(&rt, "memory");
    let door = ServiceListen::bind(own, any, ends).expect(&rt, "a listener");
    let address = door.address().expect(&rt, "an address");
    let board = board(&rt, rt.alloc());
    let site = site(&rt, rt.alloc());
    let stops = AtomicBool::new(false);
    let (end, is_answered) = thread::join(
        &rt,
        || {
            let rows = Kept::none(rt.alloc());
            let sight = Shared::new(&rt, &board, &rows);
            serve_http(&rt, rt.alloc(), door, &site, &sight, &stops)
        },
        || is_answered(&rt, address, &stops),
    );
    assert!(rt; end == HttpEnd::Stopped);
    assert!(rt; is_answered);
}
