//! Serving connections to the page.

use crate::door::Door;
use crate::host::PageHost;
use http_server::{Config, Connection};
use std::hash::RandomState;
use std::net::{TcpListener, TcpStream};
use std::time::{Duration, Instant};
use std::{io, thread};
use watch_page::{PageService, StateSource};

/// The time in which a whole request has to come, in seconds, and for which a connection may be idle.
const REQUEST_SECONDS: u64 = 10;

/// How long it waits after a failed accept, in milliseconds.
const ACCEPT_INTERVAL_MS: u64 = 10;

/// Accepts one connection after another once the door is open, and serves each, until the page has ended.
pub(crate) fn serve_connections<S: StateSource, H: PageHost>(
    host: &H,
    listener: &TcpListener,
    service: PageService<'_, S>,
    door: &Door,
) {
    let mut service = service;
    door.wait(host);
    if door.has_ended() {
        return;
    }
    for _ in host.forever() {
        let accepted = listener.accept();
        if door.has_ended() {
            return;
        }
        match accepted {
            Ok((stream, _)) => {
                // A connection that fails only ends.
                let _ = serve_connection(host, &stream, &mut service);
            }
            Err(_) => thread::sleep(host, Duration::from_millis(ACCEPT_INTERVAL_MS)),
        }
    }
    unreachable!()
}

/// Serves the requests of a connection until it ends, is idle for too long, or a request takes too long.
fn serve_connection<S: StateSource, H: PageHost>(
    host: &H,
    stream: &TcpStream,
    service: &mut PageService<'_, S>,
) -> io::Result<()> {
    stream.set_nodelay(true)?;
    stream.set_write_timeout(Some(request_limit()))?;
    let mut connection = open_connection(host)?;
    let mut began = Instant::now(host)?;
    for _ in host.forever() {
        if connection.is_done() {
            return Ok(());
        }
        match exchange(host, stream, &mut connection, began)? {
            Some(moment) => began = moment,
            None => return Ok(()),
        }
        connection.advance(service);
    }
    unreachable!()
}

/// Returns a connection whose requests have no body.
fn open_connection<H: PageHost>(host: &H) -> io::Result<Connection> {
    let keys = RandomState::new(host)?;
    let mut config = Config::default();
    config.max_body_len = 0;
    Ok(Connection::new(host.alloc(), keys, config))
}

/// Writes what is due, or reads on. `began` is when the request began that is read. Returns that moment for the next
/// exchange; None if the time of the request is over.
fn exchange<H: PageHost>(
    host: &H,
    stream: &TcpStream,
    connection: &mut Connection,
    began: Instant,
) -> io::Result<Option<Instant>> {
    if connection.wants_write() {
        connection.write_to(&mut &*stream)?;
        return Ok(Some(Instant::now(host)?));
    }
    let passed = Instant::now(host)?.duration_since(began);
    let left = request_limit().saturating_sub(passed);
    if left.is_zero() {
        return Ok(None);
    }
    stream.set_read_timeout(Some(left))?;
    connection.read_from(&mut &*stream)?;
    Ok(Some(began))
}

/// Returns the time in which a whole request has to come.
fn request_limit() -> Duration {
    Duration::from_secs(REQUEST_SECONDS)
}
