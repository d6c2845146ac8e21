//! A client that serves a session behind a gate that records by a shared trail, as a served rack does.

ghost use Rattle.std.specs.Prelude.{◌≡◌, Contains, None};
ghost use Rattle.dp_shared.specs.Passes.{line_of, table_of};
ghost use Rattle.dp_sessions.specs.Ended.{IsSessionOf};
ghost use Rattle.dp_sessions.specs.Recorded.{IsRecordedSession};
ghost use Rattle.audit_trail.specs.Named.{HasRow, IsOneOf, name_of};

use audit_trail::{Naming, RecordEntries, Tail, Trail, WriteParts};
use dp_sessions::{Gate, NotRecorded, Port, Reads, Session, serve_session};
use dp_shared::WorkerSeat;
use std::io::{Read, Write};
use std::sync::Wait;

/// A gate that records by a trail and does nothing else.
#[derive(Drop)]
pub struct TrailGate<'t, 'l, A: WriteParts + Drop, J: Naming> {
    trail: &'t Trail<'l, A, J>,
}

impl<A: WriteParts + Drop, J: Naming> Gate for TrailGate<'_, '_, A, J> {
    /// A trail that `J` names has written the text line of the entry.
    ghost recorded = { λ gate line place. HasRow A.contents J.trails line place };

    fn enter<W: Wait>(&self, _rt: &W, _line: u8, _master: u8) {}

    fn record<W: Wait>(&self, rt: &W, line: u8, place: Option<u32>) -> Result<(), NotRecorded> {
        match self.trail.record(rt, line, place) {
            Ok(()) => Ok(()),
            Err(_) => Err(NotRecorded),
        }
    }
}

/// Serves a master's session while a trail, which the caller has named, writes the line's audit text before each reply.
/// Returns the session and the tail of the trail.
///
/// If the session was accepted, what was written to the master is `E5` and the replies in the first of its receipts, or a
/// prefix of that. Each of these receipts that has a place has its row: a trail with one of the names saw the entry of the
/// place and wrote its text line, in an audit text that is whole up to there.
pub fn serve_behind_a_trail<
    'l,
    T: Wait,
    R: Read,
    C: Reads<R>,
    W: Write,
    A: WriteParts + Drop,
    J: Naming,
>(
    rt: &T,
    port: &Port,
    seat: &mut WorkerSeat,
    tail: Tail<'l, A>,
    reader: &mut R,
    writer: &mut W,
    turns: u32,
) -> (Session, Tail<'l, A>)
    requires ours { seat.old.table ≡ port.now.claims.table }
    requires free { seat.old.view.held ≡ None }
    requires named { Contains J.trails (name_of tail.pass) }
    ensures recorded { IsRecordedSession (HasRow A.contents J.trails (line_of port.now.line).number)
        (record { left = R.remaining reader.old; left_after = R.remaining reader.new; written = W.contents writer.old; written_after = W.contents writer.new })
        result.0 }
    ensures session { IsSessionOf (table_of port.now.line) port.now.claims.masters turns
        (record { left = R.remaining reader.old; left_after = R.remaining reader.new; written = W.contents writer.old; written_after = W.contents writer.new })
        seat.old.view seat.new.view result.0 }
    ensures tail { IsOneOf J.trails result.1.pass }
{
    let trail = Trail::<A, J>::new(tail);
    let gate = TrailGate { trail: &trail };
    let session = serve_session::<T, R, C, W, TrailGate<'_, 'l, A, J>>(
        rt, reader, writer, port, seat, &gate, turns,
    );
    (session, trail.into_tail())
}
