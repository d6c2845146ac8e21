//! Accepting the connections of a port.

use crate::serve_phase::ServePhase;
use std::io::ErrorKind;
use std::net::{TcpListener, TcpStream};
use std::sync::Wait;
use std::time::{Clock, Duration};
use std::{io, thread};

/// How long a thread sleeps after a failed accept, in milliseconds.
const RETRY_DELAY_MS: u64 = 10;

/// Accepts connections.
///
/// Functions that start threads are generic over this trait, since the check derives from such a bound that an acceptor may be
/// sent to a thread.
pub trait Accept: Sized + Drop {
    /// Returns the listener.
    fn listener(&self) -> &TcpListener;

    /// Takes a connection. Returns whether it takes further ones.
    fn take<H: Wait>(&self, rt: &H, stream: TcpStream) -> bool;

    /// Reports why a connection was not accepted.
    fn report<H: Wait>(&self, rt: &H, error: io::Error);

    /// Accepts `sessions` connections, until serving stops. Of consecutive failed accepts it reports only the first.
    fn accept_all<H: Wait + Clock>(self, rt: &H, serve_phase: &ServePhase, sessions: u64) {
        let mut left = sessions;
        let mut reported = false;
        for _ in rt.forever() {
            if left == 0 || !serve_phase.is_accepting(rt) {
                return;
            }
            match next_connection(rt, self.listener()) {
                Ok(stream) => {
                    if !serve_phase.is_accepting(rt) || !self.take(rt, stream) {
                        return;
                    }
                    left -= 1;
                    reported = false;
                }
                Err(error) => {
                    if !reported {
                        self.report(rt, error);
                        reported = true;
                    }
                }
            }
        }
        unreachable!()
    }
}

/// Waits for a connection and returns it. Returns an error after a delay. If a signal interrupts the accept, it is repeated at
/// once.
fn next_connection<H: Wait + Clock>(rt: &H, listener: &TcpListener) -> io::Result<TcpStream> {
    for _ in rt.forever() {
        match listener.accept() {
            Ok((stream, _)) => return Ok(stream),
            Err(error) if error.kind() == ErrorKind::Interrupted => {}
            Err(error) => {
                thread::sleep(rt, Duration::from_millis(RETRY_DELAY_MS));
                return Err(error);
            }
        }
    }
    unreachable!()
}
