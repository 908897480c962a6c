//! Who asks: the host, the page's origin and the token.

ghost use Rattle.std.specs.Prelude.{◌≡◌, ◌⊎◌, ◌++◌, ℕ, List, IfOk, IfSome, IsOk, IsTrue, codes, map, string_bytes};
ghost use Rattle.sha2.specs.Sha256.{sha256};
ghost use Rattle.http.specs.Request.{head_of};

use crate::hosts::hosts_of;
use crate::problem::{Problem, Refused};
use crate::route::{Open, Route, open_at};
use bytes::Bytes;
use http::header::{AUTHORIZATION, HOST, ORIGIN};
use http::{Request, StatusCode};
use sha2::{Digest, Sha256};
use std::alloc::{AllocError, Global};
use std::net::SocketAddr;

const NO_TOKEN: &str = "send the token of the file http.token as `Authorization: Bearer ..`";

const OTHER_TOKEN: &str = "this token is not known here";

const OTHER_HOST: &str =
    "this server does not answer to the host that was asked for; say a proxy's name by --http-name";

const OTHER_ORIGIN: &str = "a page of another origin is not answered here";

const NO_PATH: &str = "no such path";

const NO_ORIGIN_FORM: &str = "send the path alone, without a scheme or a host";

/// What a token allows.
#[derive(Clone, Copy, Debug, PartialEq, Eq)]
pub enum Access {
    /// To look.
    Read,
    /// To look, and to change what may be changed.
    Operate,
}

/// A request that may be answered.
#[derive(Clone, Copy)]
pub enum Admitted {
    /// By what anybody may ask.
    Open(Open),
    /// By a route, for who has a token.
    Route(Route, Access),
}

/// Whose requests are answered: those to one of its hosts, and all but a few with one of two tokens.
#[derive(Drop)]
pub struct Gate {
    hosts: Vec<String>,
    operate: [u8; 32],
    read: [u8; 32],
}

fn digest_of(text: &[u8]) -> [u8; 32]
    ensures { result ≡ sha256 text.now }
{
    let mut hasher = Sha256::new();
    hasher.update(text);
    hasher.finalize()
}

// Whether a request only reads.
fn is_read(request: &Request<Bytes>) -> bool
    ensures { IsTrue result → ((head_of request.now).method ≡ codes "GET")
        ⊎ ((head_of request.now).method ≡ codes "HEAD") }
{
    let method = request.method().as_str();
    method == "GET" || method == "HEAD"
}

// Why a request has no access.
fn no_access(alloc: Global, request: &Request<Bytes>) -> Refused {
    let detail = if request.headers().contains_key(AUTHORIZATION) {
        OTHER_TOKEN
    } else {
        NO_TOKEN
    };
    Problem::new(alloc, StatusCode::UNAUTHORIZED, detail)
}

// Whether a request's target is a path alone, with its query.
fn is_origin_form(request: &Request<Bytes>) -> bool {
    let is_path = match request.uri().path().as_bytes().first() {
        Some(octet) => *octet == b'/',
        None => false,
    };
    is_path && request.uri().scheme_str().is_none() && request.uri().host().is_none()
}

// What stands behind the scheme of a token.
fn token_in(value: &[u8]) -> Option<&[u8]>
    ensures { IfSome result (λ token. value.now ≡ codes "Bearer " ++ token.now) }
{
    value.strip_prefix(b"Bearer ")
}

impl Gate {
    ghost use Rattle.dewfelt_asked.specs.Access.{IsAllowed, IsRead, MayAsk};
    ghost use Rattle.dewfelt_asked.specs.Gates.{HasHost, HasOrigin, IsPage, is_host};
    ghost use Rattle.dewfelt_asked.specs.Hosts.{own_hosts};

    /// The gate of a listener at this address, that proxies call by these names, each with its port where that is part of it. The
    /// tokens are not empty.
    pub fn new(
        alloc: Global,
        address: SocketAddr,
        names: &[String],
        operate: &[u8],
        read: &[u8],
    ) -> Result<Gate, AllocError>
        ensures hosts { IfOk result (λ gate. map string_bytes gate.hosts.items
            ≡ own_hosts address ++ map string_bytes names.now) }
        ensures operate { IfOk result (λ gate. gate.operate ≡ sha256 operate.now) }
        ensures read { IfOk result (λ gate. gate.read ≡ sha256 read.now) }
    {
        Ok(Gate {
            hosts: hosts_of(alloc, address, names)?,
            operate: digest_of(operate),
            read: digest_of(read),
        })
    }

    // Whether a text names one of the hosts.
    fn is_host(&self, text: &[u8]) -> bool
        ensures { result ≡ is_host self.now text.now }
    {
        self.hosts.iter().any(|host| host.as_bytes() == text)
    }

    fn is_our_host(&self, request: &Request<Bytes>) -> bool
        ensures { IsTrue result → HasHost self.now request.now }
    {
        match request.headers().get(HOST) {
            Some(host) => self.is_host(host.as_bytes()),
            None => false,
        }
    }

    // Whether an origin is one of a page of ours.
    fn is_our_page(&self, origin: &[u8]) -> bool
        ensures { IsTrue result → IsPage self.now origin.now }
    {
        match origin.strip_prefix(b"http://") {
            Some(host) => self.is_host(host),
            None => match origin.strip_prefix(b"https://") {
                Some(host) => self.is_host(host),
                None => false,
            },
        }
    }

    // Whether no page of another origin asks. A browser names one origin.
    fn is_our_origin(&self, request: &Request<Bytes>) -> bool
        ensures { IsTrue result → HasOrigin self.now request.now }
    {
        let mut origins = request.headers().get_all(ORIGIN).iter();
        let Some(origin) = origins.next() else {
            return true;
        };
        origins.next().is_none() && self.is_our_page(origin.as_bytes())
    }

    // What the token of a request allows.
    fn access_of(&self, request: &Request<Bytes>) -> Option<Access>
        ensures { IfSome result (IsAllowed self.now request.now) }
    {
        let value = request.headers().get(AUTHORIZATION)?;
        let given = token_in(value.as_bytes())?;
        let digest = digest_of(given);
        if digest == self.operate {
            return Some(Access::Operate);
        }
        if digest == self.read {
            return Some(Access::Read);
        }
        None
    }

    // A request to a path that wants a token.
    fn admit_route(&self, alloc: Global, request: &Request<Bytes>) -> Result<Admitted, Refused>
        ensures may { IfOk result (MayAsk self.now request.now) }
        ensures read { IsOk result → IsRead request.now }
    {
        let Some(access) = self.access_of(request) else {
            return Err(no_access(alloc, request));
        };
        if !self.is_our_origin(request) {
            return Err(Problem::new(alloc, StatusCode::FORBIDDEN, OTHER_ORIGIN));
        }
        let Some(route) = Route::at(request.uri().path()) else {
            return Err(Problem::new(alloc, StatusCode::NOT_FOUND, NO_PATH));
        };
        if !is_read(request) {
            return Err(Problem::method(alloc));
        }
        Ok(Admitted::Route(route, access))
    }

    /// What a request may be answered by, or why by nothing.
    pub fn admit(&self, alloc: Global, request: &Request<Bytes>) -> Result<Admitted, Refused>
        ensures host { IsOk result → HasHost self.now request.now }
        ensures may { IfOk result (MayAsk self.now request.now) }
        ensures read { IsOk result → IsRead request.now }
    {
        if !self.is_our_host(request) {
            return Err(Problem::new(alloc, StatusCode::MISDIRECTED_REQUEST, OTHER_HOST));
        }
        if !is_origin_form(request) {
            return Err(Problem::new(alloc, StatusCode::BAD_REQUEST, NO_ORIGIN_FORM));
        }
        let Some(open) = open_at(request.uri().path()) else {
            return self.admit_route(alloc, request);
        };
        if !is_read(request) {
            return Err(Problem::method(alloc));
        }
        Ok(Admitted::Open(open))
    }
}
