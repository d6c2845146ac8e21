//! Serving a cable.

use crate::connecting::accept_all;
use crate::fault::CableFault;
use crate::input::obey_all;
use crate::output::{Answers, open_rows, write_reports};
use crate::shared::Shared;
use cable_faults::{Cable, Options};
use std::alloc::Global;
use std::io::{BufReader, Read, Write};
use std::net::{Ipv4Addr, Net, TcpListener, TcpStream};
use std::sync::{Arc, Wait};
use std::thread;
use std::thread::Threads;
use std::time::Clock;
use system_errors::Cause;

/// How a cable is served.
#[derive(Clone, Copy)]
pub struct CableSettings {
    /// The port of the line.
    pub port: u16,
    /// The seed of the faults by chance.
    pub seed: u64,
    /// The milliseconds after which octets that are no whole telegram are dropped, 1 or more; None if they never are.
    pub resync: Option<u32>,
    /// Whether each fault has a row on standard error.
    pub logs: bool,
    /// What the cable does by chance, and to all telegrams.
    pub options: Options,
}

/// Listens for masters at a port of the loopback address; at 0 the system chooses one. Returns the listener and its port.
pub fn listen_at<N: Net<Listener = TcpListener, Stream = TcpStream>>(
    net: &N,
    port: u16,
) -> Result<(TcpListener, u16), CableFault> {
    let listener = match TcpListener::bind(net, (Ipv4Addr::LOCALHOST, port)) {
        Ok(listener) => listener,
        Err(error) => return Err(CableFault::CannotListen(Cause::from_error(&error))),
    };
    match listener.local_addr() {
        Ok(address) => Ok((listener, address.port())),
        Err(error) => Err(CableFault::CannotListen(Cause::from_error(&error))),
    }
}

/// Serves a cable: connects each master that connects to it with the line, and does what lines of the input ask for.
/// Writes `ready` on the output, then the answers to lines, and reports on standard error.
///
/// It ends only with a fault: `WriteFault` if the output cannot be written, and `OutOfMemory` if memory or a thread is
/// refused.
pub fn serve_cable<
    H: Net<Listener = TcpListener, Stream = TcpStream>
        + Threads
        + Wait
        + Clock
        + Eprint
        + Copy
        + Send
        + 'static,
    R: Read + Send + Drop + 'static,
    W: Write,
>(
    rt: H,
    alloc: Global,
    settings: CableSettings,
    listener: TcpListener,
    input: R,
    output: &mut W,
) -> Result<(), CableFault> {
    let Ok((rows, answers, reports)) = open_rows(alloc) else {
        return Err(CableFault::OutOfMemory);
    };
    let reporting = move || write_reports(rt, reports);
    if thread::spawn(&rt, reporting).is_err() {
        return Err(CableFault::OutOfMemory);
    }
    let shared = Shared::new(
        settings.port,
        settings.seed,
        settings.resync,
        settings.logs,
        Cable::new(settings.options),
        rows,
    );
    start(rt, alloc, shared, listener, input)?;
    if output.write_all(b"ready\n").is_err() || output.flush().is_err() {
        return Err(CableFault::WriteFault);
    }
    write_answers(&rt, &answers, output)
}

/// Starts the thread that accepts masters and the one that reads lines. Returns `OutOfMemory` if memory or a thread is
/// refused.
fn start<
    H: Net<Listener = TcpListener, Stream = TcpStream>
        + Threads
        + Wait
        + Clock
        + Copy
        + Send
        + 'static,
    R: Read + Send + Drop + 'static,
>(rt: H, alloc: Global, shared: Shared, listener: TcpListener, input: R) -> Result<(), CableFault> {
    let Ok(shared) = Arc::new(alloc, shared) else {
        return Err(CableFault::OutOfMemory);
    };
    let Ok(of_input) = Arc::try_clone(&shared) else {
        return Err(CableFault::OutOfMemory);
    };
    let Ok(lines) = BufReader::new(alloc, input) else {
        return Err(CableFault::OutOfMemory);
    };
    let accepting = move || accept_all(rt, alloc, listener, shared);
    if thread::spawn(&rt, accepting).is_err() {
        return Err(CableFault::OutOfMemory);
    }
    let reading = move || obey_all(rt, alloc, lines, of_input);
    match thread::spawn(&rt, reading) {
        Ok(_) => Ok(()),
        Err(_) => Err(CableFault::OutOfMemory),
    }
}

/// Writes the answers to lines of the input.
fn write_answers<T: Wait, W: Write>(
    rt: &T,
    answers: &Answers,
    output: &mut W,
) -> Result<(), CableFault> {
    for _ in rt.forever() {
        let Some(answer) = answers.next(rt) else {
            return Ok(());
        };
        if output.write_all(answer.as_bytes()).is_err() || output.flush().is_err() {
            return Err(CableFault::WriteFault);
        }
        answers.give_back(rt);
    }
    unreachable!()
}
