//! Accepting the operators of a line, and serving several at one time.

ghost use Rattle.std.specs.Prelude.{◌≡◌};
ghost use Rattle.dp_shared.specs.Passes.{line_of};

use crate::operator_gate::OperatorGate;
use crate::server_context::{MAX_READS, ServerContext};
use crossbeam_channel::{Receiver, Sender};
use dp_line::LineSpec;
use dp_sessions::{Gate, Port, serve_operator_at};
use log::Log;
use serve_log::{Client, MOST_OPERATORS};
use serve_sockets::{Accept, Awaited, open_connection};
use std::alloc::{AllocError, Global};
use std::io;
use std::net::{TcpListener, TcpStream};
use std::sync::Wait;
use std::sync::atomic::Ordering::SeqCst;
use std::time::Clock;

/// A line and its description, for the sessions of its operators.
#[derive(Clone, Copy, Drop)]
pub struct OperatedLine<'a> {
    /// The line.
    pub port: &'a Port,
    /// The description of the line.
    pub spec: &'a LineSpec,
    ghost described: { line_of port.now.line ≡ spec.now },
}

/// Accepts the operators of a line, and passes their connections to the workers of the line.
///
/// It is generic in the line. The check derives from the type parameters that the acceptor may be sent to a thread, but not from
/// the types that a line consists of.
#[derive(Drop)]
pub struct OperatorAcceptor<'a, D, H> {
    /// The listener at the port for operators.
    pub listener: TcpListener,
    /// The line that is operated.
    pub target: D,
    /// The number of the line.
    pub line: u8,
    /// The connections that wait for a worker.
    pub sender: Sender<TcpStream>,
    /// The same, for the workers.
    pub waiting: Receiver<TcpStream>,
    /// What the threads share.
    pub context: &'a ServerContext<'a, H>,
}

/// Serves operators of a line at one of its places, one after another.
#[derive(Drop)]
pub struct OperatorWorker<'a, D, H, G> {
    /// The connections that wait for a worker.
    waiting: Receiver<TcpStream>,
    /// The line that is operated.
    target: D,
    /// The place of the worker among those of its line.
    place: usize,
    /// The gate of the sessions.
    gate: &'a G,
    context: &'a ServerContext<'a, H>,
}

/// Serves connections until no more come.
///
/// Functions that start threads are generic over this trait, since the check derives from such a bound that a worker may be sent
/// to a thread.
pub trait ServeConnections: Sized + Drop {
    /// Serves each connection that waits, until the acceptor has ended and none waits.
    fn serve_each<H: Wait>(self, rt: &H);
}

impl<L: Wait + Log + Clock, G: Gate> OperatorWorker<'_, OperatedLine<'_>, L, G> {
    /// Serves an operator on a connection.
    fn serve(&self, stream: TcpStream) -> io::Result<()> {
        let (context, line) = (self.context, self.target.spec.number);
        let (mut reader, mut writer) = open_connection(
            &context.sockets,
            line,
            stream,
            Client::Operator,
            Awaited::FirstRow(&self.waiting),
        )?;
        let (rt, notes) = (context.sockets.rt, context.sockets.notes);
        let gate = OperatorGate {
            gate: self.gate,
            notes,
            place: self.place,
        };
        notes.operator_connected(rt, line);
        let end = serve_operator_at(
            rt,
            &mut reader,
            &mut writer,
            self.target.port,
            self.target.spec,
            &gate,
            MAX_READS,
        );
        notes.operator_ended(rt, line, self.place, end);
        context.operators.fetch_add(1, SeqCst);
        Ok(())
    }
}

impl<L: Wait + Log + Clock, G: Gate> ServeConnections
    for OperatorWorker<'_, OperatedLine<'_>, L, G> {
    fn serve_each<H: Wait>(self, rt: &H) {
        for _ in rt.forever() {
            let Ok(stream) = self.waiting.recv(rt) else {
                return;
            };
            if let Err(error) = self.serve(stream) {
                let context = self.context;
                let line = self.target.spec.number;
                context
                    .sockets
                    .notes
                    .cannot_accept(rt, line, Client::Operator, error);
            }
        }
        unreachable!()
    }
}

impl<L: Wait + Log + Clock, D: Drop> Accept for OperatorAcceptor<'_, D, L> {
    fn listener(&self) -> &TcpListener {
        &self.listener
    }

    fn take<H: Wait>(&self, rt: &H, stream: TcpStream) -> bool {
        self.sender.send(rt, stream).is_ok()
    }

    fn report<H: Wait>(&self, rt: &H, error: io::Error) {
        let context = self.context;
        context
            .sockets
            .notes
            .cannot_accept(rt, self.line, Client::Operator, error);
    }
}

/// Returns the workers of the operators of these lines: 16 for each line. `gate` is that of the sessions.
///
/// Returns an error if memory is refused.
pub fn operator_workers<'a, H, G>(
    alloc: Global,
    acceptors: &[OperatorAcceptor<'a, OperatedLine<'a>, H>],
    gate: &'a G,
) -> Result<Vec<OperatorWorker<'a, OperatedLine<'a>, H, G>>, AllocError> {
    let mut all = Vec::new(alloc);
    for acceptor in acceptors {
        add_workers(&mut all, acceptor, gate)?;
    }
    Ok(all)
}

/// Adds the workers of the operators of a line.
fn add_workers<'a, H, G>(
    all: &mut Vec<OperatorWorker<'a, OperatedLine<'a>, H, G>>,
    acceptor: &OperatorAcceptor<'a, OperatedLine<'a>, H>,
    gate: &'a G,
) -> Result<(), AllocError> {
    for place in 0..MOST_OPERATORS {
        all.push(OperatorWorker {
            waiting: acceptor.waiting.clone()?,
            target: acceptor.target,
            place,
            gate,
            context: acceptor.context,
        })?;
    }
    Ok(())
}
