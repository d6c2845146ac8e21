//! Exchanges of an accepted session, and sessions that a given pass serves.

ghost use Rattle.std.specs.Prelude.{◌≡◌, ◌≢◌, ◌+◌, ◌≤◌, ℕ, true, List, [], ◌∷◌, ◌++◌, length, OnErr, OnOk};
ghost use Rattle.std.specs.Io.KnownBytes.{Consumes};
ghost use Rattle.dp_telegram.specs.Stream.{cut_lent};
ghost use Rattle.dp_shared.specs.Sending.{IsSamePass};
ghost use Rattle.dp_shared.specs.Passes.{table_of};
ghost use Rattle.dp_sessions.specs.Recorded.{WritesRecorded};
ghost use Rattle.dp_sessions.specs.Sessions.{Accepts, HasExchanged, acceptance, octets_of};
ghost use Rattle.dp_sessions.specs.SessionSteps.{PieceIsCutOff, PieceIsServed, StreamIsCutOff, StreamIsServed};

use crate::dropped::DroppedOctets;
use crate::gate::Gate;
use crate::order::enter;
use crate::reads::{Reads, Uncounted};
use crate::session_end::SessionEnd;
use dp_line::{Outcome, Step};
use dp_shared::{Line, Pass};
use dp_telegram::stream_laws::cut_and_computation_agree;
use dp_telegram::{Cutter, Piece, SC};
use dp_text::{WriteFault, write_whole};
use std::io::{Read, Write};
use std::sync::Wait;

/// The most octets that one read returns.
const CHUNK: usize = 255;

/// Serves a master by its pass, in at most `turns` reads, and returns how the session ended (own).
///
/// The octets that are read are a stream of telegrams. Each frame of it is one exchange. The gate records its entry; then
/// the reply is written whole before the next frame is exchanged, and a silence writes nothing. A read that fails in any
/// way ends the session, and so does an entry that is not recorded: none of its reply is written.
///
/// Afterwards the pass has one more receipt for each frame, in order, and the replies in these receipts are what was
/// written. The call waits for the gate and for the line, and allocates no memory.
pub fn serve_pass<T: Wait, R: Read, W: Write, G: Gate>(
    rt: &T,
    reader: &mut R,
    writer: &mut W,
    line: &Line,
    pass: &mut Pass,
    gate: &G,
    turns: u32,
) -> SessionEnd
    requires ours { pass.old.table ≡ table_of line.now }
    requires master { pass.old.view.address ≢ 127 }
    ensures ours { pass.new.table ≡ pass.old.table }
    ensures exchanged { HasExchanged turns
        (record { left = R.remaining reader.old; left_after = R.remaining reader.new; written = W.contents writer.old; written_after = W.contents writer.new })
        pass.old.view pass.new.view result }
    ensures recorded { WritesRecorded (G.recorded gate.now pass.old.line) [] pass.old.view.receipts pass.new.view.receipts
        (W.contents writer.old) (W.contents writer.new) result }
{
    serve_pass_by::<T, R, Uncounted, W, G>(rt, reader, writer, line, pass, gate, turns)
}

/// Serves as [`serve_pass`] does. A reader that counts its reads counts at most `turns` of them, at every end.
pub fn serve_pass_by<T: Wait, R: Read, C: Reads<R>, W: Write, G: Gate>(
    rt: &T,
    reader: &mut R,
    writer: &mut W,
    line: &Line,
    pass: &mut Pass,
    gate: &G,
    turns: u32,
) -> SessionEnd
    requires ours { pass.old.table ≡ table_of line.now }
    requires master { pass.old.view.address ≢ 127 }
    ensures ours { pass.new.table ≡ pass.old.table }
    ensures reads { C.reads reader.new ≤ C.reads reader.old + turns }
    ensures failed { result ≡ SessionEnd.ReadFault → C.failed reader.new ≡ true }
    ensures exchanged { HasExchanged turns
        (record { left = R.remaining reader.old; left_after = R.remaining reader.new; written = W.contents writer.old; written_after = W.contents writer.new })
        pass.old.view pass.new.view result }
    ensures recorded { WritesRecorded (G.recorded gate.now pass.old.line) [] pass.old.view.receipts pass.new.view.receipts
        (W.contents writer.old) (W.contents writer.new) result }
{
    cut_and_computation_agree();
    let mut cutter = Cutter::new();
    let mut step = Step::blank();
    let mut chunk = [0; CHUNK];
    let mut made = 0;
    while made < turns {
        made += 1;
        match C::read(reader, &mut chunk) {
            Ok(0) => return SessionEnd::EndOfInput,
            Ok(count) => {
                let octets = &chunk[..count];
                let Ok(()) = pass_octets(
                    rt,
                    writer,
                    line,
                    pass,
                    gate,
                    &mut cutter,
                    &mut step,
                    octets,
                ) else {
                    return SessionEnd::WriteFault;
                };
            }
            Err(_) => return SessionEnd::ReadFault,
        }
    }
    SessionEnd::TurnLimit
}

/// Writes the acceptance, a short acknowledgement, and then serves the master by its pass, in at most `turns` reads.
pub(crate) fn accept<T: Wait, R: Read, C: Reads<R>, W: Write, G: Gate>(
    rt: &T,
    reader: &mut R,
    writer: &mut W,
    line: &Line,
    pass: &mut Pass,
    gate: &G,
    turns: u32,
) -> SessionEnd
    requires ours { pass.old.table ≡ table_of line.now }
    requires master { pass.old.view.address ≢ 127 }
    ensures ours { pass.new.table ≡ pass.old.table }
    ensures reads { C.reads reader.new ≤ C.reads reader.old + turns }
    ensures failed { result ≡ SessionEnd.ReadFault → C.failed reader.new ≡ true }
    ensures accepted { (stream : List ℕ) × (made : ℕ) × Consumes (R.remaining reader.old) (R.remaining reader.new) stream × (made ≤ turns)
        × Accepts result pass.old.view.address turns made stream pass.old.view pass.new.view (R.remaining reader.new) (W.contents writer.old) (W.contents writer.new) }
    ensures recorded { WritesRecorded (G.recorded gate.now pass.old.line) acceptance pass.old.view.receipts pass.new.view.receipts
        (W.contents writer.old) (W.contents writer.new) result }
{
    match write_whole(writer, &[SC]) {
        Ok(()) => serve_pass_by::<T, R, C, W, G>(rt, reader, writer, line, pass, gate, turns),
        Err(_) => SessionEnd::WriteFault,
    }
}

/// Passes octets on, and exchanges each frame that they complete. Each entry is recorded and its reply written before the
/// next frame is exchanged.
fn pass_octets<T: Wait, W: Write, G: Gate>(
    rt: &T,
    writer: &mut W,
    line: &Line,
    pass: &mut Pass,
    gate: &G,
    cutter: &mut Cutter,
    step: &mut Step,
    octets: &[u8],
) -> Result<(), WriteFault>
    requires ours { pass.old.table ≡ table_of line.now }
    requires master { pass.old.view.address ≢ 127 }
    requires most { length cutter.old ≤ 255 }
    ensures same { IsSamePass pass.old pass.new }
    ensures ok { OnOk result (StreamIsServed (G.recorded gate.now pass.old.line) pass.old.view.address (cutter.old ++ octets.now) cutter.new
        pass.old.view pass.new.view (W.contents writer.old) (W.contents writer.new)) }
    ensures err { OnErr result (StreamIsCutOff (G.recorded gate.now pass.old.line) pass.old.view.address (cutter.old ++ octets.now)
        pass.old.view pass.new.view (W.contents writer.old) (W.contents writer.new)) }
{
    let mut left = octets;
    let mut dropped = DroppedOctets::default();
    loop {
        if let Some(piece) = cutter.front() {
            let count = piece.size();
            let octets = &cutter.held()[..count];
            answer(
                rt,
                writer,
                line,
                gate,
                pass,
                piece,
                octets,
                &mut dropped,
                step,
            )?;
            cutter.pass(count);
        } else if left.is_empty() {
            report(rt, gate, pass, &mut dropped);
            return Ok(());
        } else {
            let taken = cutter.feed(left);
            (_, left) = left.split_at(taken);
        }
    }
}

/// Exchanges a frame, after the gate has let it through, has the gate record its entry, and writes its reply, if there is
/// one. Octets that are dropped are added to `dropped`, which is reported before the frame is exchanged. `step` is room for
/// the answer of the line.
fn answer<T: Wait, W: Write, G: Gate>(
    rt: &T,
    writer: &mut W,
    line: &Line,
    gate: &G,
    pass: &mut Pass,
    piece: Piece<'_>,
    octets: &[u8],
    dropped: &mut DroppedOctets,
    step: &mut Step,
) -> Result<(), WriteFault>
    requires ours { pass.old.table ≡ table_of line.now }
    requires master { pass.old.view.address ≢ 127 }
    requires few { length octets.now ≤ 255 }
    ensures same { IsSamePass pass.old pass.new }
    ensures ok { OnOk result (PieceIsServed (G.recorded gate.now pass.old.line) pass.old.view.address (cut_lent piece.entry ∷ [])
        pass.old.view pass.new.view (W.contents writer.old) (W.contents writer.new)) }
    ensures err { OnErr result (PieceIsCutOff (G.recorded gate.now pass.old.line) pass.old.view.address (cut_lent piece.entry ∷ [])
        pass.old.view pass.new.view (W.contents writer.old) (W.contents writer.new)) }
{
    match piece {
        Piece::Frame(frame) => {
            report(rt, gate, pass, dropped);
            let number = pass.line();
            let master = pass.address();
            let entered = enter(rt, gate, number, master);
            entered.exchange_frame(rt, line, pass, &frame, step);
            gate.answered(rt, number, master, &frame, step);
            let Ok(()) = gate.record(rt, number, step.place) else {
                return Err(WriteFault);
            };
            write_whole(writer, octets_in(&step.outcome))
        }
        Piece::Dropped { fault, .. } => {
            dropped.add(fault, octets);
            Ok(())
        }
    }
}

/// Reports what was dropped to the gate, if anything was.
fn report<T: Wait, G: Gate>(rt: &T, gate: &G, pass: &Pass, dropped: &mut DroppedOctets) {
    if dropped.count > 0 {
        gate.dropped(rt, pass.line(), pass.address(), dropped);
        *dropped = DroppedOctets::default();
    }
}

/// Returns the octets that an answer sends: those of a reply, and none otherwise.
fn octets_in(outcome: &Outcome) -> &[u8]
    ensures { result.now ≡ octets_of outcome.now }
{
    match outcome {
        Outcome::Reply { octets, .. } => octets.as_slice(),
        Outcome::Silence(_) => &[],
        Outcome::Spread(_) => &[],
        Outcome::Released(_) => &[],
        Outcome::Done => &[],
        Outcome::Refused(_) => &[],
    }
}
