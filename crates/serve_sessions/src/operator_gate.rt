//! The gate of the session of an operator.

use dp_audit::Receipt;
use dp_line::Op;
use dp_sessions::{Gate, NotRecorded};
use dp_text::LineFault;
use log::Log;
use serve_log::Notes;
use std::sync::Wait;
use std::time::Clock;

/// The gate of the session of an operator. It passes each call on to the gate of all sessions, and reports rows that are no command
/// as those of the operator at this place of its line.
#[derive(Drop)]
pub struct OperatorGate<'a, H, G> {
    /// The gate of all sessions.
    pub gate: &'a G,
    /// The reports on standard error.
    pub notes: &'a Notes<'a, H>,
    /// The place of the operator among those of its line.
    pub place: usize,
}

impl<H: Log + Clock, G: Gate> Gate for OperatorGate<'_, H, G> {
    /// The gate of all sessions says that the entry is recorded.
    ghost recorded = { λ gate line place. G.recorded gate.gate.now line place };

    fn enter<W: Wait>(&self, rt: &W, line: u8, master: u8) {
        self.gate.enter(rt, line, master);
    }

    fn record<W: Wait>(&self, rt: &W, line: u8, place: Option<u32>) -> Result<(), NotRecorded> {
        self.gate.record(rt, line, place)
    }

    fn operates<W: Wait>(&self, rt: &W, line: u8, op: &Op) {
        self.gate.operates(rt, line, op);
    }

    fn faulty_line<W: Wait>(&self, rt: &W, line: u8, octets: &[u8], fault: LineFault) {
        self.notes.faulty_line(rt, line, self.place, octets, fault);
    }

    fn operated<W: Wait>(&self, rt: &W, line: u8, receipt: &Receipt) {
        self.gate.operated(rt, line, receipt);
    }
}
