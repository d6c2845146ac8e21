//! Where a worker serves sessions.

ghost use Rattle.std.specs.Prelude.{◌≡◌, ◌≤◌, ◌+◌, ℕ, true};
ghost use Rattle.dp_shared.specs.Claims.{Seated};
ghost use Rattle.dp_sessions.specs.Ended.{end_of};
ghost use Rattle.dp_sessions.specs.Sessions.{Streams};
ghost use Rattle.dp_sessions.specs.declared.session.Session.{Session as TheSession};

use crate::gate::Gate;
use crate::port::Port;
use crate::reads::Reads;
use crate::serving::serve_session;
use crate::session::Session;
use crate::session_end::SessionEnd;
use dp_shared::WorkerSeat;
use std::io::{Read, Write};
use std::sync::Wait;

/// Something at which a worker serves sessions, with a seat of its own. It stands for a port when threads start,
/// because the checker proves that threads may share a port only if nothing else is passed to them.
pub(crate) trait ServeAt {
    /// The seat is one for this port, and holds nothing.
    ghost ours: { Self → Seated → Type 0 };

    /// The seat served this session here, in at most this many reads, with these octets read and written. The function
    /// says which places of a line are recorded.
    ghost serves: { Self → (ℕ → ℕ → Type 0) → ℕ → Streams → Seated → Seated → TheSession → Type 0 };

    /// Serves a session here with a seat of its own.
    fn serve<H: Wait, R: Read, C: Reads<R>, W: Write, G: Gate>(
        &self,
        rt: &H,
        seat: &mut WorkerSeat,
        reader: &mut R,
        writer: &mut W,
        gate: &G,
        turns: u32,
    ) -> Session
        requires { Self.ours self.now seat.old }
        ensures ours { Self.ours self.now seat.new }
        ensures reads { C.reads reader.new ≤ C.reads reader.old + turns }
        ensures failed { end_of result ≡ SessionEnd.ReadFault → C.failed reader.new ≡ true }
        ensures served { Self.serves self.now (G.recorded gate.now) turns
            (record { left = R.remaining reader.old; left_after = R.remaining reader.new; written = W.contents writer.old; written_after = W.contents writer.new })
            seat.old seat.new result };
}

impl ServeAt for Port {
    ghost use Rattle.dp_shared.specs.Passes.{line_of, table_of};
    ghost use Rattle.dp_sessions.specs.Pools.{IsSeatAt};
    ghost use Rattle.dp_sessions.specs.ServedJobs.{IsPortSession};

    ghost ours = { λ port seat. IsSeatAt port.claims seat };

    ghost serves = { λ port recorded turns streams before after session.
        IsPortSession (table_of port.line) (line_of port.line).number port.claims.masters recorded turns streams before after session };

    fn serve<H: Wait, R: Read, C: Reads<R>, W: Write, G: Gate>(
        &self,
        rt: &H,
        seat: &mut WorkerSeat,
        reader: &mut R,
        writer: &mut W,
        gate: &G,
        turns: u32,
    ) -> Session {
        serve_session::<H, R, C, W, G>(rt, reader, writer, self, seat, gate, turns)
    }
}
