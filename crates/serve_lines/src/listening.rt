//! Listening at the ports of lines.

ghost use Rattle.std.specs.Prelude.{◌≡◌, ◌≤◌, IfErr, IfOk, length, map};
ghost use Rattle.serve_lines.specs.ServedLines.{line_numbers};
ghost use Rattle.serve_lines.specs.Listening.{IsListeningFault};

use crate::served_line::ServedLine;
use serve_faults::ServeFault;
use serve_log::MOST_OPERATORS;
use serve_sockets::{LinePorts, RackPorts};
use std::alloc::Global;
use std::net::{Ipv4Addr, Net, TcpListener};
use system_errors::Cause;

/// The listeners of a line.
#[derive(Drop)]
pub struct Listeners<L> {
    /// The listener at the port for masters.
    pub masters: L,
    /// The listener at the port for operators.
    pub operators: L,
}

/// Listens at the two ports of each line in turn, first at the port for masters.
///
/// Returns `CannotListen` with the first port that cannot be listened at, or `OutOfMemory`. All ports are closed then.
pub fn listen_at_lines<'a, N: Net>(
    net: &N,
    alloc: Global,
    lines: &[ServedLine],
) -> Result<Vec<Listeners<N::Listener>>, ServeFault<'a>>
    ensures each { IfOk result (λ all. length all.items ≡ length lines.now) }
    ensures fault { IfErr result (IsListeningFault lines.now) }
{
    let mut all = Vec::new(alloc);
    for line in lines {
        let masters = match listen_at(net, lines, line.listen) {
            Ok(masters) => masters,
            Err(cause) => return Err(ServeFault::CannotListen(line.listen, cause)),
        };
        let operators = match listen_at(net, lines, line.operator) {
            Ok(operators) => operators,
            Err(cause) => return Err(ServeFault::CannotListen(line.operator, cause)),
        };
        if all.push(Listeners { masters, operators }).is_err() {
            return Err(ServeFault::OutOfMemory);
        }
    }
    Ok(all)
}

/// Listens at a port of the loopback address. Returns the cause if that fails.
fn listen_at<N: Net>(net: &N, lines: &[ServedLine], port: u16) -> Result<N::Listener, Cause> {
    match TcpListener::bind(net, (Ipv4Addr::LOCALHOST, port)) {
        Ok(listener) => Ok(listener),
        Err(error) => match Cause::from_error(&error) {
            Cause::InUse if is_twice(lines, port) => Err(Cause::TwiceInRack),
            cause => Err(cause),
        },
    }
}

/// Returns the ports of each line that is listened at, in their order. If the rack file names port 0, it is the port that the
/// system chose.
pub fn ports_of(lines: &[ServedLine], listening: &[Listeners<TcpListener>]) -> RackPorts
    requires few { length lines.now ≤ 8 }
    requires each { length listening.now ≡ length lines.now }
    ensures { map (λ ports. ports.line) result.items ≡ line_numbers lines.now }
{
    let mut all = RackPorts::new();
    for line in lines {
        let here = &listening[all.len()];
        all.push(LinePorts {
            line: line.spec.number,
            listen: port_of(&here.masters, line.listen),
            operator: port_of(&here.operators, line.operator),
        });
    }
    all
}

/// Returns the port of a listener. Without an answer of the system it is the one that the rack file names.
fn port_of(listener: &TcpListener, named: u16) -> u16 {
    match listener.local_addr() {
        Ok(address) => address.port(),
        Err(_) => named,
    }
}

/// Returns whether two ports of these lines have this number.
fn is_twice(lines: &[ServedLine], port: u16) -> bool {
    let mut count: u8 = 0;
    for line in lines {
        count = count.saturating_add(u8::from(line.listen == port));
        count = count.saturating_add(u8::from(line.operator == port));
    }
    count > 1
}

/// Checks that there are enough file descriptors, by duplicating a listener and closing the duplicates.
///
/// Each worker and 16 operators of each line may have a connection at one time, which takes two descriptors. Each line may also
/// have two files, of its audit text and of its times, and one connection that waits to be accepted, for which the system reserves
/// a descriptor.
///
/// Returns `CannotListen` with the first port if there are too few descriptors, or `OutOfMemory`.
pub fn check_descriptors<'a>(
    alloc: Global,
    lines: &[ServedLine],
    listening: &[Listeners<TcpListener>],
    workers: u8,
) -> Result<(), ServeFault<'a>>
    ensures { IfErr result (IsListeningFault lines.now) }
{
    let Some(line) = lines.first() else {
        return Ok(());
    };
    let Some(here) = listening.first() else {
        return Ok(());
    };
    let connections = usize::from(workers) + MOST_OPERATORS * lines.len();
    let mut held = Vec::new(alloc);
    for _ in 0..2 * connections + 3 * lines.len() {
        let descriptor = match here.masters.try_clone() {
            Ok(descriptor) => descriptor,
            Err(error) => return Err(ServeFault::CannotListen(
                line.listen,
                Cause::from_error(&error),
            )),
        };
        if held.push(descriptor).is_err() {
            return Err(ServeFault::OutOfMemory);
        }
    }
    Ok(())
}
