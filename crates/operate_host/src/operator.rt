//! The operator client.
//!
//! The client sends one line at a time and waits for its answer. So answers come in the order of the lines, and nothing
//! has to be matched.
//!
//! A thread reads standard input, one line for each request, because a read can't be ended: the program ends while
//! that thread waits.

use crate::answers::is_answered;
use crate::fault::ClientFault;
use crate::incoming::{Incoming, LF, Side, Taken, hand_on, without_end};
use crate::printable::printable;
use crossbeam_channel::{Receiver, Sender, bounded};
use log::{Log, info, warn};
use std::alloc::Global;
use std::io::{self, BufReader, ErrorKind, Read, Write};
use std::net::{Ipv4Addr, Net, TcpStream};
use std::sync::Wait;
use std::thread;
use std::thread::Threads;
use std::time::{Clock, Duration};
use system_errors::Cause;

/// The most items that were read and wait to be handled.
const WAITING: usize = 4;

/// The milliseconds without any answer after which the client reports what it waits for.
const PATIENCE: u64 = 2_000;

/// The milliseconds for which the client waits for the end of the input after the end of the port. An end within that
/// time counts as before the end of the port, because the end of a file is read only after its last line is answered.
const LATE: u64 = 100;

/// The state of the input.
#[derive(Clone, Copy, PartialEq, Eq)]
enum Input {
    /// No line was requested.
    Resting,
    /// A line was requested and has not come.
    Asked,
    /// The input has ended.
    Ended,
}

/// Sends lines of the input to the operator port of a line on this machine, each after the one before was answered, and
/// writes the answers. Ends with the input.
///
/// Returns `CannotConnect` if nothing listens at the port, `PortEnded` if the connection ends before the input or
/// before a line is answered, `LongAnswer` if an answer has more than 65,536 octets, `CannotRead` if the input cannot be
/// read, `WriteFault` if an answer cannot be written, and `OutOfMemory` if memory or a thread is refused.
pub fn operate<
    H: Net<Stream = TcpStream> + Threads + Wait + Clock + Log + Copy + Send + 'static,
    R: Read + Send + Drop + 'static,
    W: Write,
>(rt: H, alloc: Global, port: u16, input: R, output: &mut W) -> Result<(), ClientFault> {
    let (stream, answers) = match connect(&rt, port) {
        Ok(both) => both,
        Err(cause) => return Err(ClientFault::CannotConnect(cause)),
    };
    let (ask, incoming) = match listen(rt, alloc, input, answers) {
        Ok(both) => both,
        Err(fault) => return Err(fault),
    };
    let mut operator = Operator {
        rt,
        alloc,
        port,
        stream,
        ask,
        incoming,
        input: Input::Resting,
        line: None,
        is_awaiting: false,
        is_served: false,
    };
    operator.run(output)
}

/// Connects to a port of this machine, and returns the connection twice, to write to it and to read from it.
fn connect<N: Net<Stream = TcpStream> + Wait>(
    net: &N,
    port: u16,
) -> Result<(TcpStream, TcpStream), Cause> {
    let stream = match connect_once(net, port) {
        Ok(stream) => stream,
        Err(error) => return Err(Cause::from_error(&error)),
    };
    match stream.local_addr() {
        // If nothing listens at that port, the system may connect a socket with itself. The address of the other end is not
        // asked for: the system no longer has it if the other end has closed the connection already.
        Ok(own) if own.port() == port => return Err(Cause::NobodyListens),
        Ok(_) => {}
        Err(error) => return Err(Cause::from_error(&error)),
    }
    if let Err(error) = stream.set_nodelay(true) {
        return Err(Cause::from_error(&error));
    }
    match stream.try_clone() {
        Ok(answers) => Ok((stream, answers)),
        Err(error) => Err(Cause::from_error(&error)),
    }
}

/// Connects to a port of this machine. Repeats a call that a signal interrupted.
fn connect_once<N: Net<Stream = TcpStream> + Wait>(net: &N, port: u16) -> io::Result<TcpStream> {
    for _ in net.forever() {
        match TcpStream::connect(net, (Ipv4Addr::LOCALHOST, port)) {
            Err(error) if error.kind() == ErrorKind::Interrupted => {}
            connected => return connected,
        }
    }
    unreachable!()
}

/// Starts the thread that reads the input, one line for each request, and the thread that reads the answers.
fn listen<
    H: Threads + Wait + Copy + Send + 'static,
    R: Read + Send + Drop + 'static,
    A: Read + Send + Drop + 'static,
>(
    rt: H,
    alloc: Global,
    input: R,
    answers: A,
) -> Result<(Sender<()>, Receiver<Incoming>), ClientFault> {
    let Ok((ask, asked)) = bounded(alloc, 1) else {
        return Err(ClientFault::OutOfMemory);
    };
    let Ok((sender, incoming)) = bounded(alloc, WAITING) else {
        return Err(ClientFault::OutOfMemory);
    };
    let Ok(of_input) = sender.clone() else {
        return Err(ClientFault::OutOfMemory);
    };
    read_on(rt, alloc, Side::Input, input, Some(asked), of_input)?;
    read_on(rt, alloc, Side::Port, answers, None, sender)?;
    Ok((ask, incoming))
}

/// Starts the thread that reads one side. Returns `OutOfMemory` if memory or the thread is refused.
fn read_on<H: Threads + Wait + Copy + Send + 'static, R: Read + Send + Drop + 'static>(
    rt: H,
    alloc: Global,
    side: Side,
    reader: R,
    asked: Option<Receiver<()>>,
    incoming: Sender<Incoming>,
) -> Result<(), ClientFault> {
    let Ok(lines) = BufReader::new(alloc, reader) else {
        return Err(ClientFault::OutOfMemory);
    };
    let reading = move || hand_on(rt, alloc, side, lines, asked, incoming);
    match thread::spawn(&rt, reading) {
        Ok(_) => Ok(()),
        Err(_) => Err(ClientFault::OutOfMemory),
    }
}

/// A client at work.
#[derive(Drop)]
struct Operator<H: Copy> {
    rt: H,
    alloc: Global,
    port: u16,
    stream: TcpStream,
    ask: Sender<()>,
    incoming: Receiver<Incoming>,
    input: Input,
    /// A line that was read and has not been sent.
    line: Option<Vec<u8>>,
    /// Whether a line was sent whose answer has not come.
    is_awaiting: bool,
    /// Whether an answer has come, or the client has reported what it waits for.
    is_served: bool,
}

impl<H: Wait + Clock + Log + Copy> Operator<H> {
    /// Sends, and handles what is read, until the client ends.
    fn run<W: Write>(&mut self, output: &mut W) -> Result<(), ClientFault> {
        let rt = self.rt;
        for _ in rt.forever() {
            if self.go_on(output)? {
                return Ok(());
            }
        }
        unreachable!()
    }

    /// Sends what can be sent, or handles what is read next. Returns whether the client has ended.
    fn go_on<W: Write>(&mut self, output: &mut W) -> Result<bool, ClientFault> {
        if !self.is_awaiting {
            if let Some(line) = self.line.take() {
                return self.send_line(line);
            }
            if self.input == Input::Ended {
                return Ok(true);
            }
            self.ask_for_line();
        }
        match self.receive() {
            Some(incoming) => self.take(incoming, output),
            None => Ok(false),
        }
    }

    /// Sends a line of the input with an LF. Returns whether the client has ended.
    fn send_line(&mut self, mut line: Vec<u8>) -> Result<bool, ClientFault> {
        if without_end(&line).len() == line.len() && line.push(LF).is_err() {
            return Err(ClientFault::OutOfMemory);
        }
        if is_answered(without_end(&line)) {
            self.is_awaiting = true;
        }
        self.send(&line)
    }

    /// Sends octets. Returns whether the client has ended, because the port has.
    fn send(&mut self, octets: &[u8]) -> Result<bool, ClientFault> {
        match self.stream.write_all(octets) {
            Ok(()) => Ok(false),
            Err(_) => self.end_of_port(),
        }
    }

    /// Requests a line of the input, unless one is requested already or the input has ended.
    fn ask_for_line(&mut self) {
        if self.input == Input::Resting && self.ask.send(&self.rt, ()).is_ok() {
            self.input = Input::Asked;
        }
    }

    /// Returns what is read next. If no answer has come for [`PATIENCE`] milliseconds, logs a warning, once, and returns
    /// None.
    fn receive(&mut self) -> Option<Incoming> {
        if !self.is_awaiting || self.is_served {
            return self.incoming.recv(&self.rt).ok();
        }
        let time = Duration::from_millis(PATIENCE);
        let came = self.incoming.recv_timeout(&self.rt, time).ok();
        if came.is_none() {
            warn!(&self.rt; "no answer yet: all places for operators of the line may be taken");
            self.is_served = true;
        }
        came
    }

    /// Handles what was read. Returns whether the client has ended.
    fn take<W: Write>(&mut self, incoming: Incoming, output: &mut W) -> Result<bool, ClientFault> {
        let Incoming { side, taken } = incoming;
        match (side, taken) {
            (Side::Input, Taken::Line(line)) => {
                self.line = Some(line);
                self.input = Input::Resting;
                Ok(false)
            }
            (Side::Input, Taken::End) => {
                self.input = Input::Ended;
                Ok(false)
            }
            (Side::Input, Taken::Fault(cause)) => Err(ClientFault::CannotRead(cause)),
            (Side::Port, Taken::Line(row)) => self.show(row, output),
            (Side::Port, Taken::End | Taken::Fault(_)) => self.end_of_port(),
            (_, Taken::TooLong) => Err(ClientFault::LongAnswer),
            (_, Taken::OutOfMemory) => Err(ClientFault::OutOfMemory),
        }
    }

    /// Writes an answer. Always returns false: the client has not ended.
    fn show<W: Write>(&mut self, row: Vec<u8>, output: &mut W) -> Result<bool, ClientFault> {
        self.is_served = true;
        self.is_awaiting = false;
        let Ok(shown) = printable(self.alloc, without_end(&row)) else {
            return Err(ClientFault::OutOfMemory);
        };
        if output.write_all(&shown).is_err() || output.flush().is_err() {
            return Err(ClientFault::WriteFault);
        }
        Ok(false)
    }

    /// Handles the end of the port: the client has ended if each line of the input is answered and the input has
    /// ended too. Otherwise returns `PortEnded`.
    fn end_of_port(&mut self) -> Result<bool, ClientFault> {
        if self.line.is_some() || self.is_awaiting || !self.input_has_ended() {
            return Err(ClientFault::PortEnded);
        }
        info!(&self.rt; "port {} has ended", self.port);
        Ok(true)
    }

    /// Returns whether the input has ended. Waits at most [`LATE`] milliseconds for each item that may come before
    /// its end.
    fn input_has_ended(&mut self) -> bool {
        self.ask_for_line();
        if self.input == Input::Ended {
            return true;
        }
        for _ in 0..=WAITING {
            match self
                .incoming
                .recv_timeout(&self.rt, Duration::from_millis(LATE))
            {
                Ok(
                    Incoming {
                        side: Side::Port,
                        ..
                    },
                ) => {}
                Ok(
                    Incoming {
                        side: Side::Input,
                        taken: Taken::End,
                    },
                ) => return true,
                _ => return false,
            }
        }
        false
    }
}
