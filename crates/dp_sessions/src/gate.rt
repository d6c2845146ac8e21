//! Calls that sessions make before and after their exchanges.

ghost use Rattle.std.specs.Prelude.{ℕ, IfSome, OnOk};

use crate::dropped::DroppedOctets;
use crate::session_end::SessionEnd;
use dp_audit::Receipt;
use dp_line::{Op, Step};
use dp_telegram::WholeFrame;
use dp_text::LineFault;
use std::sync::Wait;

/// The calls that a session makes before and after each exchange and event, and at its end: the program that serves a rack
/// does there what contracts of sessions don't mention, as to record and to log. A call may hold up its own session, and no
/// other. No lock is held during a call. Unless stated otherwise, a call gives the number of the line and, for
/// a master, its address. Each call except `enter` and `record` does nothing unless it is implemented.
///
/// What a gate records is its own matter. A session takes from `record` alone that a place is recorded, and the contracts
/// of sessions say that no octet of an answer is written before.
pub trait Gate {
    /// The entry at this place of the line with this number is recorded.
    ghost recorded: { Self → ℕ → ℕ → Type 0 };

    /// Called before each exchange of a master with a line.
    fn enter<W: Wait>(&self, rt: &W, line: u8, master: u8);

    /// Records the entries of a line, up to the place of an event if it has one. Called after each exchange of a master
    /// and each event of an operator, before the answer is written.
    ///
    /// If it fails, no octet of the answer is written, and the session ends with `WriteFault`.
    fn record<W: Wait>(&self, rt: &W, line: u8, place: Option<u32>) -> Result<(), NotRecorded>
        ensures { OnOk result (IfSome place (recorded self.now line)) };

    /// Called after a session has claimed the address of a master, before E5 is written.
    fn accepted<W: Wait>(&self, _rt: &W, _line: u8, _master: u8) {}

    /// Called after each exchange of a master, before its entry is recorded.
    fn answered<W: Wait>(
        &self,
        _rt: &W,
        _line: u8,
        _master: u8,
        _frame: &WholeFrame<'_>,
        _answer: &Step,
    ) {}

    /// Called if octets of a master were dropped, before the next frame is exchanged, or once all octets that were read
    /// are cut.
    fn dropped<W: Wait>(&self, _rt: &W, _line: u8, _master: u8, _dropped: &DroppedOctets) {}

    /// Called when an accepted session has ended, before its address is free again.
    fn ended<W: Wait>(&self, _rt: &W, _line: u8, _master: u8, _end: SessionEnd) {}

    /// Called when a session of a pool has ended that was not accepted. `port` is the place of its port among those
    /// of the pool; `address` is the address that it sent, if it sent one.
    fn rejected<W: Wait>(&self, _rt: &W, _port: u8, _address: Option<u8>, _end: SessionEnd) {}

    /// Called before each event of an operator.
    fn operates<W: Wait>(&self, _rt: &W, _line: u8, _op: &Op) {}

    /// Called if a line of an operator has this fault, before the fault is written. The octets are those of the line without
    /// its LF, at most the first 1,025.
    fn faulty_line<W: Wait>(&self, _rt: &W, _line: u8, _octets: &[u8], _fault: LineFault) {}

    /// Called after each event of an operator, before its entry is recorded.
    fn operated<W: Wait>(&self, _rt: &W, _line: u8, _receipt: &Receipt) {}
}

/// An entry was not recorded.
#[derive(Clone, Copy, Debug, PartialEq, Eq)]
pub struct NotRecorded;

/// A gate that never holds a session up, and records nothing.
#[derive(Clone, Copy, Debug, PartialEq, Eq)]
pub struct OpenGate;

impl Gate for OpenGate {
    ghost recorded = { λ gate line place. Unit {0} };

    fn enter<W: Wait>(&self, _rt: &W, _line: u8, _master: u8) {}

    fn record<W: Wait>(&self, _rt: &W, _line: u8, place: Option<u32>) -> Result<(), NotRecorded> {
        match place {
            Some(_) => Ok(()),
            None => Ok(()),
        }
    }
}
