//! What a request asks for: by its Host and the server that its target names, then its method, then its path.

ghost use Rattle.std.specs.Prelude.{◌≡◌};
ghost use Rattle.http.specs.Request.{head_of};
ghost use Rattle.http.specs.Uri.{uri_authority, uri_scheme};
ghost use Rattle.watch_page.specs.Targets.{hosts_of, is_for_this_server, is_get_or_head, is_one, is_own_authority, is_own_host, is_own_scheme, target_at, target_of};

use bytes::Bytes;
use http::{Request, Uri};

/// What a request asks for.
#[derive(Clone, Copy)]
pub enum Target {
    /// The request has no Host field, or several (RFC 9112, section 3.2).
    UnclearHost,
    /// The Host is that of another server, or the target names another server (RFC 9110, section 15.5.20).
    OtherHost,
    /// The method is neither GET nor HEAD.
    OtherMethod,
    /// The document of the page, `/`.
    Page,
    /// The style sheet, `/page.css`.
    Style,
    /// The script, `/page.js`.
    Script,
    /// The state of the watch, `/state.json`.
    State,
    /// No resource has this path.
    Unknown,
}

/// Returns what a request asks for at a server with these two hosts.
pub(crate) fn target_of(request: &Request<Bytes>, numbered: &str, named: &str) -> Target
    ensures { result ≡ target_of numbered.now named.now request.now }
{
    if !has_one_host(request) {
        Target::UnclearHost
    } else if !is_for_this_server(request, numbered, named) {
        Target::OtherHost
    } else if !is_get_or_head(request.method().as_str()) {
        Target::OtherMethod
    } else {
        target_at(request.uri().path())
    }
}

/// Returns whether a request has exactly one Host field.
fn has_one_host(request: &Request<Bytes>) -> bool
    ensures { result ≡ is_one (hosts_of request.now) }
{
    let mut hosts = request.headers().get_all("host").iter();
    match hosts.next() {
        Some(_) => hosts.next().is_none(),
        None => false,
    }
}

/// Returns whether a request is for this server: what its target names is the server's own, and its Host is one of the
/// two hosts.
fn is_for_this_server(request: &Request<Bytes>, numbered: &str, named: &str) -> bool
    ensures { result ≡ is_for_this_server numbered.now named.now request.now }
{
    has_own_scheme(request.uri())
        && has_own_authority(request.uri(), numbered, named)
        && has_own_host(request, numbered, named)
}

/// Returns whether the scheme of a target is `http`, or it names none.
fn has_own_scheme(target: &Uri) -> bool
    ensures { result ≡ is_own_scheme (uri_scheme target.now) }
{
    match target.scheme() {
        Some(scheme) => scheme.as_str() == "http",
        None => true,
    }
}

/// Returns whether the authority of a target is exactly one of the two hosts, or it names none.
fn has_own_authority(target: &Uri, numbered: &str, named: &str) -> bool
    ensures { result ≡ is_own_authority numbered.now named.now (uri_authority target.now) }
{
    match target.authority() {
        Some(authority) => authority.as_str() == numbered || authority.as_str() == named,
        None => true,
    }
}

/// Returns whether a request has exactly one Host field, and that field is exactly one of the two hosts.
fn has_own_host(request: &Request<Bytes>, numbered: &str, named: &str) -> bool
    ensures { result ≡ is_own_host numbered.now named.now (hosts_of request.now) }
{
    let mut hosts = request.headers().get_all("host").iter();
    let Some(host) = hosts.next() else {
        return false;
    };
    match hosts.next() {
        Some(_) => false,
        None => host.as_bytes() == numbered.as_bytes() || host.as_bytes() == named.as_bytes(),
    }
}

/// Returns whether a method is GET or HEAD.
fn is_get_or_head(method: &str) -> bool
    ensures { result ≡ is_get_or_head method.now }
{
    method == "GET" || method == "HEAD"
}

/// Returns the target at this path.
fn target_at(path: &str) -> Target
    ensures { result ≡ target_at path.now }
{
    if path == "/" {
        Target::Page
    } else if path == "/page.css" {
        Target::Style
    } else if path == "/page.js" {
        Target::Script
    } else if path == "/state.json" {
        Target::State
    } else {
        Target::Unknown
    }
}
