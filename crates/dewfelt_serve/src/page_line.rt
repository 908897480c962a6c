//! The command `page`.

use crate::tokens::operating_token_of;
use dewfelt_folder::{Status, Trouble, path_in, settings_of};
use dewfelt_settings::{Choices, Http, Settings};
use std::alloc::{AllocError, Global};
use std::net::{IpAddr, Ipv4Addr, Ipv6Addr, SocketAddr};
use std::rt::Files;

// The address by which this machine reaches a listener at an address.
fn reached(address: SocketAddr) -> SocketAddr {
    if !address.ip().is_unspecified() {
        return address;
    }
    let here = match address.ip() {
        IpAddr::V4(_) => IpAddr::V4(Ipv4Addr::LOCALHOST),
        IpAddr::V6(_) => IpAddr::V6(Ipv6Addr::LOCALHOST),
    };
    SocketAddr::new(here, address.port())
}

// The line of a page's address.
fn line_of(alloc: Global, address: SocketAddr, token: &[u8]) -> Result<String, AllocError> {
    let address = reached(address);
    let mut line = format!(in alloc; "http://{address}/#token=")?;
    for digit in token {
        line.push(*digit as char)?;
    }
    line.push_str("\n")?;
    Ok(line)
}

// There is no page.
fn no_page(alloc: Global, folder: &str) -> Trouble {
    match path_in(alloc, folder, "dewfelt.toml") {
        Ok(path) => Trouble::of_file(
            alloc,
            Status::Settings,
            path.as_str(),
            "http is none, so that there is no page",
        ),
        Err(_) => Trouble::memory(alloc),
    }
}

/// The address of the page of a service over a folder by these settings, with its token, as a line.
pub fn page_of<R: Files + AllocGlobal>(
    rt: &R,
    folder: &str,
    settings: &Settings,
) -> Result<String, Trouble> {
    let Http::At(address) = settings.http else {
        return Err(no_page(rt.alloc(), folder));
    };
    let token = operating_token_of(rt, folder)?;
    match line_of(rt.alloc(), address, token.as_slice()) {
        Ok(line) => Ok(line),
        Err(_) => Err(Trouble::memory(rt.alloc())),
    }
}

/// Reads the settings and the token of a folder. Says the address of the page.
pub fn page<R: Files + AllocGlobal>(
    rt: &R,
    folder: &str,
    words: &Choices,
) -> Result<String, Trouble> {
    page_of(rt, folder, &settings_of(rt, folder, words)?)
}
