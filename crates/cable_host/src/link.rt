//! The two sockets of a master.

use cable_faults::Direction;
use std::io::{ErrorKind, Read, Write};
use std::net::{Shutdown, TcpStream};
use std::sync::Wait;
use std::sync::atomic::AtomicU32;
use std::sync::atomic::Ordering::SeqCst;

/// The number that stands for no slave.
const NO_SLAVE: u32 = 256;

/// The connection of a master and that to the line, which the threads of both directions share.
#[derive(Drop)]
pub(crate) struct Link {
    pub(crate) master: TcpStream,
    pub(crate) line: TcpStream,
    /// The slave of the last request, or [`NO_SLAVE`].
    asked: AtomicU32,
}

impl Link {
    /// Returns the link of two connections.
    pub(crate) fn new(master: TcpStream, line: TcpStream) -> Link {
        Link {
            master,
            line,
            asked: AtomicU32::new(NO_SLAVE),
        }
    }

    /// Returns the connection from which telegrams of a direction come.
    pub(crate) fn source(&self, direction: Direction) -> &TcpStream {
        match direction {
            Direction::Request => &self.master,
            Direction::Reply => &self.line,
        }
    }

    /// Returns the connection to which telegrams of a direction go.
    pub(crate) fn target(&self, direction: Direction) -> &TcpStream {
        match direction {
            Direction::Request => &self.line,
            Direction::Reply => &self.master,
        }
    }

    /// Returns the slave of the last request.
    pub(crate) fn asked(&self) -> Option<u8> {
        u8::try_from(self.asked.load(SeqCst)).ok()
    }

    /// Remembers the slave of the last request.
    pub(crate) fn ask(&self, slave: u8) {
        self.asked.store(u32::from(slave), SeqCst);
    }

    /// Ends a direction after its last telegram. A master may have sent its last request and still wait for replies, so
    /// the end of the requests is only passed on to the line, which answers and closes then. The end of the replies
    /// closes both connections.
    pub(crate) fn end(&self, direction: Direction) {
        match direction {
            Direction::Request => {
                let _ = self.line.shutdown(Shutdown::Write);
            }
            Direction::Reply => self.close(),
        }
    }

    /// Closes both connections. Reads and writes of other threads end then.
    pub(crate) fn close(&self) {
        let _ = self.master.shutdown(Shutdown::Both);
        let _ = self.line.shutdown(Shutdown::Both);
    }
}

/// What a read gave.
#[derive(Clone, Copy, PartialEq, Eq)]
pub(crate) enum Received {
    /// This number of octets, 1 or more.
    Octets(usize),
    /// Nothing for as long as a read may wait.
    Silence,
    /// The end of the connection.
    End,
    /// The beginning of a web request, of which nothing is passed on.
    WebRequest,
}

/// Reads what has come, and waits for it. Repeats a call that a signal interrupted.
pub(crate) fn receive<R: Read>(rt: &impl Wait, stream: &mut R, buffer: &mut [u8]) -> Received {
    for _ in rt.forever() {
        match stream.read(buffer) {
            Ok(0) => return Received::End,
            Ok(count) => return Received::Octets(count),
            Err(error) => match error.kind() {
                ErrorKind::Interrupted => {}
                ErrorKind::WouldBlock => return Received::Silence,
                ErrorKind::TimedOut => return Received::Silence,
                ErrorKind::InvalidData => return Received::WebRequest,
                _ => return Received::End,
            },
        }
    }
    unreachable!()
}

/// Writes octets. Returns false if the connection has ended.
pub(crate) fn send(mut stream: &TcpStream, octets: &[u8]) -> bool {
    stream.write_all(octets).is_ok()
}
