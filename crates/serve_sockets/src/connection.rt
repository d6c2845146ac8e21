//! The connection of a session.

use crate::screened::Screened;
use crate::serve_phase::ServePhase;
use crossbeam_channel::Receiver;
use log::Log;
use serve_log::{Client, Notes};
use std::io::{Error, ErrorKind, Read, Result, Write};
use std::net::TcpStream;
use std::sync::Wait;
use std::thread;
use std::time::{Clock, Duration, Instant};
use system_errors::Cause;

/// How long a read or a write waits before it checks whether serving has stopped, in milliseconds.
const POLL_INTERVAL_MS: u64 = 100;

/// How long a client has to begin, in milliseconds by the clock.
///
/// Without this limit as many silent clients as there are workers would keep the masters of all lines waiting. A client that
/// has begun may stay silent without limit.
const MOST_SILENCE_MS: u128 = 10_000;

/// How long a thread waits for a free file descriptor before it tries again, in milliseconds.
const RETRY_DELAY_MS: u64 = 10;

/// What a connection waits for, and so when it is closed.
#[derive(Clone, Copy)]
pub enum Awaited<'a> {
    /// The address of a master, which has 10 s to come.
    Address,
    /// The first row of an operator. It has 10 s to come if another connection waits for its place among these.
    FirstRow(&'a Receiver<TcpStream>),
    /// Nothing: the client has begun, and is waited for without limit.
    Nothing,
}

/// What the connections of a rack share.
#[derive(Drop)]
pub struct SocketContext<'a, H> {
    /// The host.
    pub rt: &'a H,
    /// Whether serving has stopped.
    pub serve_phase: &'a ServePhase,
    /// Reports on standard error.
    pub notes: &'a Notes<'a, H>,
}

/// Reads from a connection.
pub type ConnectionReader<'a, H> = PollingStream<'a, H, Screened<TcpStream>>;

/// Writes to a connection.
pub type ConnectionWriter<'a, H> = PollingStream<'a, H, TcpStream>;

/// Returns the reader and the writer of an accepted connection that such a client is expected to begin.
///
/// They take two file descriptors. If there is only one left, this waits for another one until serving stops.
pub fn open_connection<'a, H: Wait + Log + Clock>(
    context: &'a SocketContext<'a, H>,
    line: u8,
    stream: TcpStream,
    client: Client,
    awaited: Awaited<'a>,
) -> Result<(ConnectionReader<'a, H>, ConnectionWriter<'a, H>)> {
    set_options(&stream)?;
    let reader = PollingStream {
        context,
        line,
        client,
        stream: Screened::new(second_handle(context, line, client, &stream)?, client),
        awaited,
        began: None,
    };
    let writer = PollingStream {
        context,
        line,
        client,
        stream,
        awaited: Awaited::Nothing,
        began: None,
    };
    Ok((reader, writer))
}

/// Returns a second handle of a connection. While the program or the system has no file descriptor left, it is tried again
/// until serving stops; that is reported once.
fn second_handle<H: Wait + Log + Clock>(
    context: &SocketContext<'_, H>,
    line: u8,
    client: Client,
    stream: &TcpStream,
) -> Result<TcpStream> {
    let mut is_reported = false;
    for _ in context.rt.forever() {
        let error = match stream.try_clone() {
            Ok(handle) => return Ok(handle),
            Err(error) => error,
        };
        if Cause::from_error(&error) != Cause::FewDescriptors || context.serve_phase.has_stopped() {
            return Err(error);
        }
        if !is_reported {
            context.notes.cannot_accept(context.rt, line, client, error);
            is_reported = true;
        }
        thread::sleep(context.rt, Duration::from_millis(RETRY_DELAY_MS));
    }
    unreachable!()
}

/// Limits each read and write to one poll interval, and turns off the delay of small packets.
fn set_options(stream: &TcpStream) -> Result<()> {
    let interval = Some(Duration::from_millis(POLL_INTERVAL_MS));
    stream.set_nodelay(true)?;
    stream.set_read_timeout(interval)?;
    stream.set_write_timeout(interval)
}

/// A stream whose reads and writes are repeated after each poll interval. Once serving has stopped, a read fails with
/// `TimedOut`, and so does a write that has waited for a poll interval: an answer that is ready is still sent.
///
/// A call that a signal interrupts is repeated at once and doesn't count as waiting, because for dp_sessions a read that fails
/// ends the session.
#[derive(Drop)]
pub struct PollingStream<'a, H, S: Drop> {
    context: &'a SocketContext<'a, H>,
    /// The number of the line.
    line: u8,
    /// Who is expected at its port.
    client: Client,
    stream: S,
    /// What the connection waits for.
    awaited: Awaited<'a>,
    /// When the first read began, while something is waited for.
    began: Option<Instant>,
}

impl<H: Wait + Log + Clock, S: Drop> PollingStream<'_, H, S> {
    /// Returns whether the client has not begun in the time that it has for it.
    fn is_too_late(&self) -> bool {
        match self.awaited {
            Awaited::Address => self.has_waited(),
            Awaited::FirstRow(waiting) => !waiting.is_empty() && self.has_waited(),
            Awaited::Nothing => false,
        }
    }

    /// Returns whether the first read began so long ago as a client has to begin.
    fn has_waited(&self) -> bool {
        match self.began {
            Some(began) => began
                .elapsed(self.context.rt)
                .is_ok_and(|passed| passed.as_millis() >= MOST_SILENCE_MS),
            None => false,
        }
    }

    /// Notes when the first read begins, if something is waited for.
    fn begin_waiting(&mut self) {
        let is_waiting = match self.awaited {
            Awaited::Address => true,
            Awaited::FirstRow(_) => true,
            Awaited::Nothing => false,
        };
        if is_waiting && self.began.is_none() {
            self.began = Instant::now(self.context.rt).ok();
        }
    }

    /// Ends the wait if these octets, which were read, are what is waited for.
    fn end_waiting(&mut self, octets: &[u8]) {
        let has_begun = match self.awaited {
            Awaited::Address => true,
            Awaited::FirstRow(_) => octets.contains(&b'\n'),
            Awaited::Nothing => true,
        };
        if has_begun {
            self.awaited = Awaited::Nothing;
        }
    }

    /// Returns `Ok` if a failed read or write is to be repeated, otherwise the error that it fails with.
    fn check_error(&mut self, error: Error) -> Result<()> {
        match error.kind() {
            ErrorKind::Interrupted => Ok(()),
            ErrorKind::WouldBlock | ErrorKind::TimedOut => {
                if self.context.serve_phase.has_stopped() || self.is_too_late() {
                    Err(Error::from(ErrorKind::TimedOut))
                } else {
                    Ok(())
                }
            }
            ErrorKind::InvalidData => {
                let context = self.context;
                context
                    .notes
                    .web_request(context.rt, self.line, self.client);
                Err(error)
            }
            _ => Err(error),
        }
    }
}

impl<H: Wait + Log + Clock, R: Read + Drop> Read for PollingStream<'_, H, R> {
    fn read(&mut self, buf: &mut [u8]) -> Result<usize> {
        self.begin_waiting();
        for _ in self.context.rt.forever() {
            if self.context.serve_phase.has_stopped() || self.is_too_late() {
                return Err(Error::from(ErrorKind::TimedOut));
            }
            match self.stream.read(buf) {
                Ok(count) => {
                    self.end_waiting(&buf[..count]);
                    return Ok(count);
                }
                // The client closed the connection without reading all of its answers.
                Err(error) if error.kind() == ErrorKind::ConnectionReset => return Ok(0),
                Err(error) => self.check_error(error)?,
            }
        }
        unreachable!()
    }
}

impl<H: Wait + Log + Clock, W: Write + Drop> Write for PollingStream<'_, H, W> {
    fn write(&mut self, buf: &[u8]) -> Result<usize> {
        for _ in self.context.rt.forever() {
            match self.stream.write(buf) {
                Ok(count) => return Ok(count),
                Err(error) => self.check_error(error)?,
            }
        }
        unreachable!()
    }

    fn flush(&mut self) -> Result<()> {
        self.stream.flush()
    }
}
