//! The hosts by which a listener is asked.

ghost use Rattle.std.specs.Prelude.{◌≡◌, ◌++◌, map, string_bytes, IfOk, OnOk};
ghost use Rattle.std.specs.Net.Socket.{socket_port};
ghost use Rattle.dewfelt_asked.specs.Hosts.{at_port, host_text, is_everywhere, own_hosts};

use std::alloc::{AllocError, Global};
use std::net::{IpAddr, SocketAddr};

// Whether a listener at an address is at each IPv6 address of its machine.
fn is_everywhere(address: SocketAddr) -> bool
    ensures { result ≡ is_everywhere address }
{
    match address {
        SocketAddr::V4(_) => false,
        SocketAddr::V6(address) => address.ip().segments() == [0, 0, 0, 0, 0, 0, 0, 0],
    }
}

// The host of an address.
fn host_text(alloc: Global, address: SocketAddr) -> Result<String, AllocError>
    ensures { IfOk result (λ text. string_bytes text ≡ host_text address) }
{
    match address.ip() {
        IpAddr::V4(ip) => format!(in alloc; "{ip}"),
        IpAddr::V6(ip) => format!(in alloc; "[{ip}]"),
    }
}

// Puts a host at a port.
fn push_at(alloc: Global, hosts: &mut Vec<String>, port: u16, host: &str) -> Result<(), AllocError>
    ensures { OnOk result (map string_bytes hosts.new.items
        ≡ map string_bytes hosts.old.items ++ at_port port host.now) }
{
    hosts.push(format!(in alloc; "{host}:{port}")?)?;
    if port == 80 {
        hosts.push(String::from_str(alloc, host)?)?;
    }
    Ok(())
}

// Puts the hosts of a listener at an address.
fn push_own(alloc: Global, hosts: &mut Vec<String>, address: SocketAddr) -> Result<(), AllocError>
    ensures { OnOk result (map string_bytes hosts.new.items
        ≡ map string_bytes hosts.old.items ++ own_hosts address) }
{
    let port = address.port();
    let host = host_text(alloc, address)?;
    push_at(alloc, hosts, port, host.as_str())?;
    push_at(alloc, hosts, port, "127.0.0.1")?;
    push_at(alloc, hosts, port, "localhost")?;
    if is_everywhere(address) {
        push_at(alloc, hosts, port, "[::1]")?;
    }
    Ok(())
}

// Puts names.
fn push_names(hosts: &mut Vec<String>, names: &[String]) -> Result<(), AllocError>
    ensures { OnOk result (map string_bytes hosts.new.items
        ≡ map string_bytes hosts.old.items ++ map string_bytes names.now) }
{
    for name in names {
        hosts.push(name.clone()?)?;
    }
    Ok(())
}

/// The hosts of a listener at an address, and of proxies that call it by these names.
pub fn hosts_of(
    alloc: Global,
    address: SocketAddr,
    names: &[String],
) -> Result<Vec<String>, AllocError>
    ensures { IfOk result (λ hosts. map string_bytes hosts.items
        ≡ own_hosts address ++ map string_bytes names.now) }
{
    let mut hosts = Vec::new(alloc);
    push_own(alloc, &mut hosts, address)?;
    push_names(&mut hosts, names)?;
    Ok(hosts)
}
