//! Whether a rack accepts connections, and whether its sessions continue.

use crate::line_ports::LinePorts;
use arrayvec::ArrayVec;
use std::net::{Ipv4Addr, Net, TcpStream};
use std::sync::atomic::AtomicBool;
use std::sync::atomic::Ordering::SeqCst;
use std::sync::{Mutex, MutexGuard, Wait};

/// The most lines of a rack.
const MOST_LINES: usize = rack_file::MOST_LINES as usize;

/// The ports of the lines of a rack.
pub type RackPorts = ArrayVec<LinePorts, MOST_LINES>;

/// A phase of serving a rack.
#[derive(Clone, Copy, PartialEq, Eq)]
pub enum Phase {
    /// Threads are being started. No connection is accepted yet.
    Starting,
    /// Connections are accepted.
    Accepting,
    /// No connection is accepted any more, and sessions end.
    Stopped,
}

/// The phase of serving a rack, shared by its threads.
///
/// Connections are accepted once all threads that accept them have started. Serving stops if an audit text cannot be written,
/// if standard input ends and the rack ends with it, and, after the workers that started have ended, if a worker thread could
/// not be started.
#[derive(Drop)]
pub struct ServePhase {
    phase: Mutex<Phase>,
    /// Whether serving has stopped, for each read and write of a connection.
    stopped: AtomicBool,
    ports: RackPorts,
}

impl ServePhase {
    /// Returns the phase of a rack that is starting, for the ports that are listened at. If the rack file names port 0, the port is the one
    /// that the system chose.
    pub fn new(ports: RackPorts) -> ServePhase {
        ServePhase {
            phase: Mutex::new(Phase::Starting),
            stopped: AtomicBool::new(false),
            ports,
        }
    }

    /// Returns the ports that are listened at.
    pub fn ports(&self) -> &[LinePorts] {
        self.ports.as_slice()
    }

    /// Locks the phase. It does not change, and nothing reads it, until the guard is dropped.
    pub fn lock<H: Wait>(&self, rt: &H) -> MutexGuard<'_, Phase> {
        self.phase.lock(rt)
    }

    /// Returns whether connections are accepted. It waits while the phase is locked.
    pub fn is_accepting<H: Wait>(&self, rt: &H) -> bool {
        *self.phase.lock(rt) == Phase::Accepting
    }

    /// Returns whether serving has stopped.
    pub fn has_stopped(&self) -> bool {
        self.stopped.load(SeqCst)
    }

    /// Stops serving permanently. It connects once to each port, so that a thread that waits there for a connection notices
    /// the stop. A port that is no longer listened at is skipped.
    pub fn stop<H: Wait, N: Net>(&self, rt: &H, net: &N) {
        let mut phase = self.phase.lock(rt);
        if *phase == Phase::Stopped {
            return;
        }
        *phase = Phase::Stopped;
        self.stopped.store(true, SeqCst);
        drop(phase);
        for ports in &self.ports {
            let _ = TcpStream::connect(net, (Ipv4Addr::LOCALHOST, ports.listen));
            let _ = TcpStream::connect(net, (Ipv4Addr::LOCALHOST, ports.operator));
        }
    }
}
