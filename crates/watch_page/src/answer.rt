//! The status, the fields and the body of an answer.

ghost use Rattle.std.specs.Prelude.{◌≡◌, IsTrue, OnOk};
ghost use Rattle.http.specs.FieldValue.{is_visible_text};
ghost use Rattle.http_server.specs.Response.{IsBlank, IsResponse};
ghost use Rattle.watch_page.specs.Answers.{content_type_of, fields_of, status_of};

use crate::target::Target;
use bytes::Bytes;
use http::{HeaderName, HeaderValue, StatusCode};
use http_server::Response;
use std::alloc::AllocError;

/// The page loads only from its own server, and no other page may frame it.
const CONTENT_SECURITY_POLICY: &str = "default-src 'none'; style-src 'self'; script-src 'self'; \
    connect-src 'self'; img-src data:; base-uri 'none'; form-action 'none'; frame-ancestors 'none'";

/// Returns the status for a target (RFC 9110, section 15).
fn status_code(target: Target) -> StatusCode
    ensures { result ≡ status_of target }
{
    match target {
        Target::UnclearHost => StatusCode::BAD_REQUEST,
        Target::OtherHost => StatusCode::MISDIRECTED_REQUEST,
        Target::OtherMethod => StatusCode::METHOD_NOT_ALLOWED,
        Target::Page => StatusCode::OK,
        Target::Style => StatusCode::OK,
        Target::Script => StatusCode::OK,
        Target::State => StatusCode::OK,
        Target::Unknown => StatusCode::NOT_FOUND,
    }
}

/// Returns the media type of the body for a target (RFC 9110, section 8.3).
fn content_type(target: Target) -> &'static str
    ensures name { result.now ≡ content_type_of target }
    ensures visible { IsTrue (is_visible_text result.now) }
{
    match target {
        Target::UnclearHost => "text/plain; charset=utf-8",
        Target::OtherHost => "text/plain; charset=utf-8",
        Target::OtherMethod => "text/plain; charset=utf-8",
        Target::Page => "text/html; charset=utf-8",
        Target::Style => "text/css; charset=utf-8",
        Target::Script => "text/javascript; charset=utf-8",
        Target::State => "application/json",
        Target::Unknown => "text/plain; charset=utf-8",
    }
}

/// Fills a blank response with the status and the fields for a target, and with this body. Fails only if memory runs
/// out.
pub(crate) fn fill(response: &mut Response, target: Target, body: Bytes) -> Result<(), AllocError>
    requires { IsBlank response.old }
    ensures { OnOk result (IsResponse (status_of target) (fields_of target) body response.new) }
{
    response.status = status_code(target);
    response.add_header(
        HeaderName::from_static("content-type"),
        HeaderValue::from_static(content_type(target)),
    )?;
    response.add_header(
        HeaderName::from_static("allow"),
        HeaderValue::from_static("GET, HEAD"),
    )?;
    response.add_header(
        HeaderName::from_static("cache-control"),
        HeaderValue::from_static("no-store"),
    )?;
    response.add_header(
        HeaderName::from_static("x-content-type-options"),
        HeaderValue::from_static("nosniff"),
    )?;
    response.add_header(
        HeaderName::from_static("referrer-policy"),
        HeaderValue::from_static("no-referrer"),
    )?;
    response.add_header(
        HeaderName::from_static("content-security-policy"),
        HeaderValue::from_static(CONTENT_SECURITY_POLICY),
    )?;
    response.body.push(body)
}
