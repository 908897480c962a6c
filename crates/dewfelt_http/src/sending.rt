//! How answers are put into responses.

ghost use Rattle.std.specs.Prelude.{◌≡◌, ◌++◌, OnOk};
ghost use Rattle.dewfelt_http.specs.Problems.{Refuses};

use crate::problem_text::problem_text;
use bytes::Bytes;
use dewfelt_asked::Problem;
use dewfelt_page::{File, Kind};
use http::header::{HeaderName, HeaderValue, IF_NONE_MATCH};
use http::{Request, StatusCode};
use http_server::Response;
use std::alloc::{AllocError, Global};

/// Puts the headers that each answer has.
pub fn guard_headers(response: &mut Response) -> Result<(), AllocError>
    ensures status { OnOk result (response.new.status ≡ response.old.status) }
    ensures body { OnOk result (response.new.body.items ≡ response.old.body.items) }
{
    response.add_header(
        HeaderName::from_static("content-security-policy"),
        HeaderValue::from_static(
            "default-src 'none'; script-src 'self'; style-src 'self'; img-src 'self' data:; connect-src 'self'; base-uri 'none'; form-action 'none'; frame-ancestors 'none'",
        ),
    )?;
    response.add_header(
        HeaderName::from_static("x-content-type-options"),
        HeaderValue::from_static("nosniff"),
    )?;
    response.add_header(
        HeaderName::from_static("referrer-policy"),
        HeaderValue::from_static("no-referrer"),
    )?;
    response.add_header(
        HeaderName::from_static("cross-origin-opener-policy"),
        HeaderValue::from_static("same-origin"),
    )?;
    response.add_header(
        HeaderName::from_static("cross-origin-resource-policy"),
        HeaderValue::from_static("same-origin"),
    )
}

fn put_kind(response: &mut Response, kind: HeaderValue) -> Result<(), AllocError>
    ensures status { OnOk result (response.new.status ≡ response.old.status) }
    ensures body { OnOk result (response.new.body.items ≡ response.old.body.items) }
{
    response.add_header(HeaderName::from_static("content-type"), kind)
}

// The answer is not kept by caches.
fn put_no_store(response: &mut Response) -> Result<(), AllocError>
    ensures status { OnOk result (response.new.status ≡ response.old.status) }
    ensures body { OnOk result (response.new.body.items ≡ response.old.body.items) }
{
    response.add_header(
        HeaderName::from_static("cache-control"),
        HeaderValue::from_static("no-store"),
    )
}

// The body, where memory for it is there.
fn put_body(response: &mut Response, text: Vec<u8>) -> Result<(), AllocError>
    ensures status { OnOk result (response.new.status ≡ response.old.status) }
    ensures body { OnOk result (response.new.body.items ≡ response.old.body.items ++ text.items) }
{
    match Bytes::from_vec(text) {
        Ok(bytes) => response.body.push(bytes),
        Err(_) => Err(AllocError),
    }
}

/// Puts a header with this text. One that is no value of a header is left out.
pub fn put_header(
    alloc: Global,
    response: &mut Response,
    name: HeaderName,
    text: &str,
) -> Result<(), AllocError>
    ensures status { OnOk result (response.new.status ≡ response.old.status) }
{
    match HeaderValue::from_bytes(alloc, text.as_bytes()) {
        Ok(value) => response.add_header(name, value),
        Err(_) => Ok(()),
    }
}

/// Answers with a text of this kind.
pub fn send(response: &mut Response, kind: HeaderValue, text: Vec<u8>) -> Result<(), AllocError>
    ensures status { OnOk result (response.new.status ≡ response.old.status) }
    ensures body { OnOk result (response.new.body.items ≡ response.old.body.items ++ text.items) }
{
    put_kind(response, kind)?;
    put_no_store(response)?;
    put_body(response, text)
}

/// Answers with JSON.
pub fn send_json(response: &mut Response, text: Vec<u8>) -> Result<(), AllocError>
    ensures status { OnOk result (response.new.status ≡ response.old.status) }
{
    send(response, HeaderValue::from_static("application/json"), text)
}

// Puts the header that a status wants.
fn put_wanted(response: &mut Response, problem: &Problem) -> Result<(), AllocError>
    ensures status { OnOk result (response.new.status ≡ response.old.status) }
    ensures body { OnOk result (response.new.body.items ≡ response.old.body.items) }
{
    match problem.status {
        StatusCode::UNAUTHORIZED => response.add_header(
            HeaderName::from_static("www-authenticate"),
            HeaderValue::from_static("Bearer realm=\"dewfelt\""),
        ),
        StatusCode::METHOD_NOT_ALLOWED => response.add_header(
            HeaderName::from_static("allow"),
            HeaderValue::from_static("GET, HEAD"),
        ),
        StatusCode::SERVICE_UNAVAILABLE => response.add_header(
            HeaderName::from_static("retry-after"),
            HeaderValue::from_static("2"),
        ),
        _ => Ok(()),
    }
}

/// Answers with a problem.
pub fn send_problem(
    alloc: Global,
    response: &mut Response,
    problem: &Problem,
) -> Result<(), AllocError>
    ensures { OnOk result (Refuses response.old.body.items response.new) }
{
    let text = problem_text(alloc, problem)?;
    response.status = problem.status;
    put_wanted(response, problem)?;
    send(
        response,
        HeaderValue::from_static("application/problem+json"),
        text,
    )?;
    Ok(())
}

/// Answers with this text that links of terminals are not served.
pub fn send_not_ready(response: &mut Response, text: Vec<u8>) -> Result<(), AllocError>
    ensures status { OnOk result (response.new.status ≡ 503) }
{
    response.status = StatusCode::SERVICE_UNAVAILABLE;
    response.add_header(
        HeaderName::from_static("retry-after"),
        HeaderValue::from_static("2"),
    )?;
    send_json(response, text)
}

// Puts an ETag. One that is no value of a header is left out.
fn put_tag(alloc: Global, response: &mut Response, tag: &str) -> Result<(), AllocError>
    ensures status { OnOk result (response.new.status ≡ response.old.status) }
{
    response.add_header(
        HeaderName::from_static("cache-control"),
        HeaderValue::from_static("no-cache"),
    )?;
    put_header(alloc, response, HeaderName::from_static("etag"), tag)
}

// Whether the request has this state already.
fn has_it(request: &Request<Bytes>, tag: &str) -> bool {
    match request.headers().get(IF_NONE_MATCH) {
        Some(value) => value.as_bytes() == tag.as_bytes(),
        None => false,
    }
}

/// Answers with what has an ETag, or says that it did not change. The status is 200 or 304 where it was 200.
pub fn send_tagged(
    alloc: Global,
    request: &Request<Bytes>,
    response: &mut Response,
    kind: HeaderValue,
    tag: &str,
    content: Bytes,
) -> Result<(), AllocError> {
    put_tag(alloc, response, tag)?;
    if has_it(request, tag) {
        response.status = StatusCode::NOT_MODIFIED;
        return Ok(());
    }
    put_kind(response, kind)?;
    response.body.push(content)
}

fn kind_of(file: File) -> HeaderValue {
    match file.kind {
        Kind::Html => HeaderValue::from_static("text/html; charset=utf-8"),
        Kind::Style => HeaderValue::from_static("text/css; charset=utf-8"),
        Kind::Script => HeaderValue::from_static("text/javascript; charset=utf-8"),
        Kind::Picture => HeaderValue::from_static("image/svg+xml"),
    }
}

/// Answers with a file of the page.
pub fn send_file(
    alloc: Global,
    request: &Request<Bytes>,
    response: &mut Response,
    file: File,
) -> Result<(), AllocError> {
    let content = Bytes::from_static(file.text.as_bytes());
    send_tagged(alloc, request, response, kind_of(file), file.tag, content)
}
