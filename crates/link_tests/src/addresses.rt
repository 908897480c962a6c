//! The addresses that are dialled, and those that are listened on. All are of the loopback.

use crate::sockets::start;
use jt_outside::{Accepted, Dial, Listen, TcpDial, TcpListen};
use std::io;
use std::net::{Ipv4Addr, Net, SocketAddr, TcpListener, TcpStream};
use std::test::Fail;
use std::time::{Clock, Duration};

// A runtime that knows two addresses of each host: nobody listens on the first.
#[derive(Drop)]
struct Named {
    rt: HostRuntime,
}

impl Net for Named {
    type Stream = TcpStream;

    type Listener = TcpListener;

    fn bind(&self, address: SocketAddr) -> io::Result<TcpListener> {
        self.rt.bind(address)
    }

    fn connect(&self, address: SocketAddr) -> io::Result<TcpStream> {
        self.rt.connect(address)
    }

    fn connect_timeout(&self, address: SocketAddr, wait: Duration) -> io::Result<TcpStream> {
        self.rt.connect_timeout(address, wait)
    }

    fn lookup_host(&self, _host: &str, port: u16, found: &mut [SocketAddr]) -> io::Result<usize> {
        if found.len() < 2 {
            return Ok(0);
        }
        found[0] = SocketAddr::from((Ipv4Addr::new(127, 0, 0, 2), port));
        found[1] = SocketAddr::from((Ipv4Addr::LOCALHOST, port));
        Ok(2)
    }
}

impl Clock for Named {
    fn monotonic(&self) -> io::Result<Duration> {
        self.rt.monotonic()
    }

    fn since_1970(&self) -> io::Result<Duration> {
        self.rt.since_1970()
    }
}

// A listener on one address alone takes a port that the system gives.
#[test]
fn the_second_address_is_dialled_where_the_first_refuses(rt: HostRuntime) -> Result<(), Fail> {
    let listener = TcpListener::bind(&rt, (Ipv4Addr::LOCALHOST, 0))?;
    let port = listener.local_addr()?.port();
    let refused = TcpDial::new(rt.clone()?).dial("127.0.0.2", port);
    assert!(rt; refused.is_none());
    let link = TcpDial::new(Named { rt: rt.clone()? }).dial("platform", port);
    assert!(rt; link.is_some());
    Ok(())
}

#[test]
fn every_address_of_the_machine_is_listened_on(rt: HostRuntime) -> Result<(), Fail> {
    let mut listen = TcpListen::new(rt.clone()?);
    let port = start(&mut listen).expect(&rt, "a port is free");
    for host in ["127.0.0.1", "127.0.0.2", "127.255.255.254"] {
        let near = TcpDial::new(rt.clone()?).dial(host, port);
        assert!(rt; near.is_some(), "{host}");
        assert!(rt; matches!(listen.accept(), Accepted::Link(_)), "{host}");
    }
    Ok(())
}
