//! The acceptors of a rack.

ghost use Rattle.std.specs.Prelude.{◌≡◌, ◌+◌, [], ◌∷◌, ◌++◌, IfOk, OnOk, length, map};
ghost use Rattle.std.specs.List.{range_with_len};
ghost use Rattle.serve_lines.specs.ServingLines.{AreServedLines};

use crate::masters::{MasterAcceptor, MasterJob};
use crate::operators::{OperatedLine, OperatorAcceptor};
use crate::server_context::ServerContext;
use crossbeam_channel::{Sender, bounded};
use serve_lines::{Listeners, ServedLines};
use std::alloc::AllocError;
use std::net::TcpListener;
use std::sync::Wait;

/// The most operators of a line that wait for a worker. Further connections wait to be accepted.
const MOST_WAITING: usize = 16;

/// The acceptors of a rack: two for each line.
#[derive(Drop)]
pub struct Acceptors<'a, H: Wait> {
    /// Those of masters, in the order of the lines.
    pub masters: Vec<MasterAcceptor<'a, H>>,
    /// Those of operators, in the same order.
    pub operators: Vec<OperatorAcceptor<'a, OperatedLine<'a>, H>>,
}

impl<'a, H: Wait> Acceptors<'a, H> {
    /// Returns the acceptors of these lines. The channel of jobs closes when the last acceptor of masters is dropped.
    ///
    /// Returns an error if memory is refused.
    pub fn new(
        context: &'a ServerContext<'a, H>,
        served: ServedLines<'a>,
        listening: Vec<Listeners<TcpListener>>,
        jobs: Sender<MasterJob<'a, H>>,
    ) -> Result<Acceptors<'a, H>, AllocError>
        requires served { AreServedLines served }
        requires each { length listening.items ≡ length served.lines.now }
        ensures masters { IfOk result (λ all. map (λ acceptor. acceptor.port) all.masters.items ≡ range_with_len 0 (length served.entry.ports.now)) }
        ensures operators { IfOk result (λ all. map (λ acceptor. acceptor.target.port.now) all.operators.items ≡ served.entry.ports.now) }
    {
        let ServedLines { lines, ports } = served;
        let mut all = Acceptors {
            masters: Vec::new(context.alloc),
            operators: Vec::new(context.alloc),
        };
        for here in listening {
            let place = all.masters.len();
            let target = OperatedLine {
                port: &ports[place],
                spec: &lines[place].spec,
            };
            let jobs = jobs.clone()?;
            all.add(here, place as u8, target, jobs, context)?;
        }
        Ok(all)
    }

    /// Adds the acceptors of one more line, whose port has this index.
    fn add(
        &mut self,
        here: Listeners<TcpListener>,
        port: u8,
        target: OperatedLine<'a>,
        jobs: Sender<MasterJob<'a, H>>,
        context: &'a ServerContext<'a, H>,
    ) -> Result<(), AllocError>
        ensures masters { OnOk result (map (λ acceptor. acceptor.port) self.new.masters.items ≡ map (λ acceptor. acceptor.port) self.old.masters.items ++ port ∷ []) }
        ensures operators { OnOk result (map (λ acceptor. acceptor.target.port.now) self.new.operators.items ≡ map (λ acceptor. acceptor.target.port.now) self.old.operators.items ++ target.entry.port.now ∷ []) }
        ensures longer { OnOk result (length self.new.masters.items ≡ length self.old.masters.items + 1) }
    {
        self.masters.push(MasterAcceptor {
            listener: here.masters,
            port,
            line: target.spec.number,
            jobs,
            context,
        })?;
        let (sender, waiting) = bounded(context.alloc, MOST_WAITING)?;
        self.operators.push(OperatorAcceptor {
            listener: here.operators,
            target,
            line: target.spec.number,
            sender,
            waiting,
            context,
        })?;
        Ok(())
    }
}
