//! Sessions of masters with a line.

ghost use Rattle.std.specs.Prelude.{◌≡◌, ◌≢◌, ◌+◌, ◌≤◌, ℕ, true, None, [], ◌∷◌, IfErr, IfOk};
ghost use Rattle.std.specs.Io.KnownBytes.{Consumes, Keeps};
ghost use Rattle.dp_shared.specs.Claims.{claimed};
ghost use Rattle.dp_shared.specs.Passes.{line_of, new_pass, table_of};
ghost use Rattle.dp_sessions.specs.Sessions.{EndsAtOnce, IsSession, Refuses, is_master_of};
ghost use Rattle.dp_sessions.specs.Ended.{IsSessionOf, end_of};
ghost use Rattle.dp_sessions.specs.Recorded.{EndsRecorded, IsRecordedSession};

use crate::exchange::accept;
use crate::gate::Gate;
use crate::order::release;
use crate::port::Port;
use crate::reads::{Reads, Uncounted};
use crate::session::Session;
use crate::session_end::SessionEnd;
use dp_shared::{ClaimFault, Claims, Pass, WorkerSeat};
use dp_telegram::is_station;
use std::io::{Read, Write};
use std::sync::Wait;

/// Serves a session of a master with the line of a port, in at most `turns` reads, and returns how it ended (own). A
/// worker's seat at the port's claims serves it.
///
/// The first octet is the master's address. The session ends with `UnknownMaster` if the address is no master of the
/// line, then with `AddressHeld` if another seat holds it, then with `NoPass` if the pass is refused; nothing is
/// written in these cases. Otherwise E5 is written, and the octets after the address are a stream of telegrams. Each
/// frame of it is one exchange. The reply is written whole before the next frame is exchanged; a silence writes
/// nothing. A read that fails in any way ends the session.
///
/// At every end the pass is handed back and the seat holds nothing. The call waits for the gate and for the line, and
/// allocates no memory.
pub fn serve<T: Wait, R: Read, W: Write, G: Gate>(
    rt: &T,
    reader: &mut R,
    writer: &mut W,
    port: &Port,
    seat: &mut WorkerSeat,
    gate: &G,
    turns: u32,
) -> SessionEnd
    requires ours { seat.old.table ≡ port.now.claims.table }
    requires free { seat.old.view.held ≡ None }
    ensures ours { seat.new.table ≡ seat.old.table }
    ensures free { seat.new.view.held ≡ None }
    ensures session { IsSession port.now.claims.masters turns
        (record { left = R.remaining reader.old; left_after = R.remaining reader.new; written = W.contents writer.old; written_after = W.contents writer.new })
        seat.old.view seat.new.view result }
    ensures recorded { EndsRecorded (G.recorded gate.now (line_of port.now.line).number) (table_of port.now.line) port.now.claims.masters turns
        (record { left = R.remaining reader.old; left_after = R.remaining reader.new; written = W.contents writer.old; written_after = W.contents writer.new })
        seat.old.view seat.new.view result }
{
    serve_by::<T, R, Uncounted, W, G>(rt, reader, writer, port, seat, gate, turns)
}

/// Serves as [`serve`] does. A reader that counts its reads counts at most `turns` of them, at every end.
pub fn serve_by<T: Wait, R: Read, C: Reads<R>, W: Write, G: Gate>(
    rt: &T,
    reader: &mut R,
    writer: &mut W,
    port: &Port,
    seat: &mut WorkerSeat,
    gate: &G,
    turns: u32,
) -> SessionEnd
    requires ours { seat.old.table ≡ port.now.claims.table }
    requires free { seat.old.view.held ≡ None }
    ensures ours { seat.new.table ≡ seat.old.table }
    ensures free { seat.new.view.held ≡ None }
    ensures reads { C.reads reader.new ≤ C.reads reader.old + turns }
    ensures failed { result ≡ SessionEnd.ReadFault → C.failed reader.new ≡ true }
    ensures session { IsSession port.now.claims.masters turns
        (record { left = R.remaining reader.old; left_after = R.remaining reader.new; written = W.contents writer.old; written_after = W.contents writer.new })
        seat.old.view seat.new.view result }
    ensures recorded { EndsRecorded (G.recorded gate.now (line_of port.now.line).number) (table_of port.now.line) port.now.claims.masters turns
        (record { left = R.remaining reader.old; left_after = R.remaining reader.new; written = W.contents writer.old; written_after = W.contents writer.new })
        seat.old.view seat.new.view result }
{
    let session = serve_session::<T, R, C, W, G>(rt, reader, writer, port, seat, gate, turns);
    session.end()
}

/// Serves as [`serve_by`] does, and returns the pass that served the session with its end. After the line is closed,
/// [`Line::close_with`](dp_shared::Line::close_with) and the law
/// [`a_master_has_its_entries`](crate::laws::a_master_has_its_entries) state for that pass which entries of the
/// journal the session wrote.
pub fn serve_session<T: Wait, R: Read, C: Reads<R>, W: Write, G: Gate>(
    rt: &T,
    reader: &mut R,
    writer: &mut W,
    port: &Port,
    seat: &mut WorkerSeat,
    gate: &G,
    turns: u32,
) -> Session
    requires ours { seat.old.table ≡ port.now.claims.table }
    requires free { seat.old.view.held ≡ None }
    ensures ours { seat.new.table ≡ seat.old.table }
    ensures free { seat.new.view.held ≡ None }
    ensures reads { C.reads reader.new ≤ C.reads reader.old + turns }
    ensures failed { end_of result ≡ SessionEnd.ReadFault → C.failed reader.new ≡ true }
    ensures session { IsSessionOf (table_of port.now.line) port.now.claims.masters turns
        (record { left = R.remaining reader.old; left_after = R.remaining reader.new; written = W.contents writer.old; written_after = W.contents writer.new })
        seat.old.view seat.new.view result }
    ensures recorded { IsRecordedSession (G.recorded gate.now (line_of port.now.line).number)
        (record { left = R.remaining reader.old; left_after = R.remaining reader.new; written = W.contents writer.old; written_after = W.contents writer.new })
        result }
{
    if turns == 0 {
        return Session::Rejected {
            address: None,
            end: SessionEnd::TurnLimit,
        };
    }
    let address = match first_octet::<R, C>(reader) {
        Ok(address) => address,
        Err(end) => return Session::Rejected { address: None, end },
    };
    let mut pass = match admit(rt, port, seat, address) {
        Ok(pass) => pass,
        Err(end) => {
            return Session::Rejected {
                address: Some(address),
                end,
            };
        }
    };
    let line = pass.line();
    gate.accepted(rt, line, address);
    let end = accept::<T, R, C, W, G>(rt, reader, writer, &port.line, &mut pass, gate, turns - 1);
    let returned_pass = port.line.hand_back(rt, pass);
    gate.ended(rt, line, address, end);
    release(&port.claims, seat, &returned_pass);
    Session::Accepted { end, returned_pass }
}

/// Returns the first octet of a session, by one read, or how the session ends if there is none.
fn first_octet<R: Read, C: Reads<R>>(reader: &mut R) -> Result<u8, SessionEnd>
    ensures reads { C.reads reader.new ≤ C.reads reader.old + 1 }
    ensures failed { IfErr result (λ end. end ≡ SessionEnd.ReadFault → C.failed reader.new ≡ true) }
    ensures ok { IfOk result (λ octet. Consumes (R.remaining reader.old) (R.remaining reader.new) (octet ∷ [])) }
    ensures err { IfErr result (λ end. Keeps (R.remaining reader.old) (R.remaining reader.new) × ((turns : ℕ) → EndsAtOnce end turns (R.remaining reader.new))) }
{
    let mut first = [0; 1];
    match C::read(reader, &mut first) {
        Ok(0) => Err(SessionEnd::EndOfInput),
        Ok(_) => Ok(first[0]),
        Err(_) => Err(SessionEnd::ReadFault),
    }
}

/// Claims a master's address and opens its pass. Otherwise returns why the session is refused, and the seat holds
/// nothing.
fn admit<T: Wait>(
    rt: &T,
    port: &Port,
    seat: &mut WorkerSeat,
    address: u8,
) -> Result<Pass, SessionEnd>
    requires ours { seat.old.table ≡ port.now.claims.table }
    requires free { seat.old.view.held ≡ None }
    ensures ours { seat.new.table ≡ seat.old.table }
    ensures known { IfOk result (λ _. is_master_of port.now.claims.masters address ≡ true) }
    ensures claimed { IfOk result (λ _. seat.new.view ≡ claimed seat.old.view address) }
    ensures pass { IfOk result (λ pass. (pass.table ≡ table_of port.now.line) × (pass.view ≡ new_pass pass.view.number address)) }
    ensures number { IfOk result (λ pass. pass.line ≡ (line_of port.now.line).number) }
    ensures free { IfErr result (λ _. seat.new.view.held ≡ None) }
    ensures unread { IfErr result (λ end. end ≢ SessionEnd.ReadFault) }
    ensures refused { IfErr result (λ end. Refuses end port.now.claims.masters address seat.old.view seat.new.view) }
{
    claim(&port.claims, seat, address)?;
    match port.line.open_pass(rt, address) {
        Ok(pass) => Ok(pass),
        Err(_) => {
            port.claims.release(seat);
            Err(SessionEnd::NoPass)
        }
    }
}

/// Claims the address of a master. Otherwise returns why the session is refused, and the seat holds nothing.
fn claim(claims: &Claims, seat: &mut WorkerSeat, address: u8) -> Result<(), SessionEnd>
    requires ours { seat.old.table ≡ claims.now.table }
    requires free { seat.old.view.held ≡ None }
    ensures ours { seat.new.table ≡ seat.old.table }
    ensures known { IfOk result (λ _. is_master_of claims.now.masters address ≡ true) }
    ensures claimed { IfOk result (λ _. seat.new.view ≡ claimed seat.old.view address) }
    ensures free { IfErr result (λ _. seat.new.view.held ≡ None) }
    ensures unread { IfErr result (λ end. end ≢ SessionEnd.ReadFault) }
    ensures refused { IfErr result (λ end. Refuses end claims.now.masters address seat.old.view seat.new.view) }
{
    if !is_station(address) {
        return Err(SessionEnd::UnknownMaster);
    }
    match claims.claim(seat, address) {
        Ok(()) => Ok(()),
        Err(ClaimFault::UnknownMaster) => Err(SessionEnd::UnknownMaster),
        Err(ClaimFault::Held) => Err(SessionEnd::AddressHeld),
    }
}
