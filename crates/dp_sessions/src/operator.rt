//! Sessions of operators with a line.

ghost use Rattle.std.specs.Prelude.{◌≡◌, ◌+◌, ◌≤◌, true, [], ◌∷◌, ◌++◌, OnErr, OnOk};
ghost use Rattle.dp_shared.specs.Sending.{IsSamePass};
ghost use Rattle.dp_shared.specs.Passes.{line_of, table_of};
ghost use Rattle.rack_devices.specs.declared.driven_slave.TheConstants.{MOST_DRIVEN};
ghost use Rattle.rack_devices.specs.DrivenSlaves.{driven_slaves as all_driven};
ghost use Rattle.dp_sessions.specs.Operators.{HasOperatedBy, IsAnswered, IsOperatorSession};
ghost use Rattle.dp_sessions.specs.Operating.{kept};
ghost use Rattle.dp_sessions.specs.Ended.{IsOperatorSessionOf, end_of};
ghost use Rattle.dp_sessions.specs.Recorded.{EndsOperatorRecorded, HasOperatedRecorded, IsRecordedOperatorSession};
ghost use Rattle.dp_sessions.specs.SessionSteps.{AnswerIsCutOff, AnswerIsWritten, OctetsAreCutOff, OctetsAreTaken};

use crate::gate::{Gate, OpenGate};
use crate::operator_line::answer_line;
use crate::port::Port;
use crate::reads::{Reads, Uncounted};
use crate::session::Session;
use crate::session_end::SessionEnd;
use arrayvec::ArrayVec;
use dp_line::LineSpec;
use dp_shared::{Line, Pass};
use dp_telegram::GLOBAL_ADDRESS;
use dp_text::{LONGEST_LINE, Text, WriteFault, write_whole};
use rack_devices::{DrivenSlave, MOST_DRIVEN, driven_slaves};
use std::io::{Read, Write};
use std::sync::Wait;

/// The most octets that one read returns.
const CHUNK: usize = 256;

/// The octets that are stored of a line: one more than a command may have, so that a line that is too long is noticed.
const KEPT: usize = LONGEST_LINE + 1;

/// The octet that ends a line.
const LF: u8 = b'\n';

/// Serves a session of an operator with the line of a port, in at most `turns` reads, and returns how it ended (own).
/// The description `line` is that of the port's line.
///
/// The session has an operator's pass. If the pass is refused, the session ends with `NoPass`, and nothing is read or
/// written. The octets are lines, each ended by LF; octets after the last LF are dropped. Each line is answered by one
/// line, which is written whole before the next line is carried out. An empty line, or one that begins with `#`, is not
/// answered.
///
/// A line of more than 1,024 octets, without its LF, is answered `fault TooLong`. A line that is no command or not
/// UTF-8 is answered `fault NotACommand`. An event is answered by its outcome; `owned M` by `owned` and ` A` for each
/// slave of the master, oldest lock first; `show A` by the slave or `refused NoStation`; and `step` by `stepped N`. For
/// `step` each device gives its slave its next input, in ascending order of address, computed from a look at the slave
/// just before; N is the number of Inputs recorded. A read that fails in any way ends the session.
///
/// The pass is handed back at every end. The call waits for the line and allocates no memory.
pub fn serve_operator<T: Wait, R: Read, W: Write>(
    rt: &T,
    reader: &mut R,
    writer: &mut W,
    port: &Port,
    line: &LineSpec,
    turns: u32,
) -> SessionEnd
    requires described { line_of port.now.line ≡ line.now }
    ensures session { IsOperatorSession (all_driven (line_of port.now.line).slaves.items) turns
        (record { left = R.remaining reader.old; left_after = R.remaining reader.new; written = W.contents writer.old; written_after = W.contents writer.new })
        result }
{
    serve_operator_at(rt, reader, writer, port, line, &OpenGate, turns)
}

/// Serves as [`serve_operator`] does, and calls the gate before and after each event. The gate records the entries of a
/// line's events before its answer is written. If one is not recorded, none of the answer is written, and the session ends
/// with `WriteFault`.
pub fn serve_operator_at<T: Wait, R: Read, W: Write, G: Gate>(
    rt: &T,
    reader: &mut R,
    writer: &mut W,
    port: &Port,
    line: &LineSpec,
    gate: &G,
    turns: u32,
) -> SessionEnd
    requires described { line_of port.now.line ≡ line.now }
    ensures session { IsOperatorSession (all_driven (line_of port.now.line).slaves.items) turns
        (record { left = R.remaining reader.old; left_after = R.remaining reader.new; written = W.contents writer.old; written_after = W.contents writer.new })
        result }
    ensures recorded { EndsOperatorRecorded (G.recorded gate.now (line_of port.now.line).number) (table_of port.now.line)
        (all_driven (line_of port.now.line).slaves.items) turns
        (record { left = R.remaining reader.old; left_after = R.remaining reader.new; written = W.contents writer.old; written_after = W.contents writer.new })
        result }
{
    let session = serve_operator_session::<T, R, Uncounted, W, G>(
        rt, reader, writer, port, line, gate, turns,
    );
    session.end()
}

/// Serves as [`serve_operator_at`] does, and returns the pass that served the session with its end. A reader that
/// counts its reads counts at most `turns` of them, at every end.
pub fn serve_operator_session<T: Wait, R: Read, C: Reads<R>, W: Write, G: Gate>(
    rt: &T,
    reader: &mut R,
    writer: &mut W,
    port: &Port,
    line: &LineSpec,
    gate: &G,
    turns: u32,
) -> Session
    requires described { line_of port.now.line ≡ line.now }
    ensures reads { C.reads reader.new ≤ C.reads reader.old + turns }
    ensures failed { end_of result ≡ SessionEnd.ReadFault → C.failed reader.new ≡ true }
    ensures session { IsOperatorSessionOf (table_of port.now.line) (all_driven (line_of port.now.line).slaves.items) turns
        (record { left = R.remaining reader.old; left_after = R.remaining reader.new; written = W.contents writer.old; written_after = W.contents writer.new })
        result }
    ensures recorded { IsRecordedOperatorSession (all_driven (line_of port.now.line).slaves.items) (G.recorded gate.now (line_of port.now.line).number)
        (record { left = R.remaining reader.old; left_after = R.remaining reader.new; written = W.contents writer.old; written_after = W.contents writer.new })
        result }
{
    let Ok(mut pass) = port.line.open_pass(rt, GLOBAL_ADDRESS) else {
        return Session::Rejected {
            address: None,
            end: SessionEnd::NoPass,
        };
    };
    let end = serve_operator_pass_by::<T, R, C, W, G>(
        rt, reader, writer, &port.line, line, &mut pass, gate, turns,
    );
    let returned_pass = port.line.hand_back(rt, pass);
    Session::Accepted { end, returned_pass }
}

/// Serves an operator by its pass, in at most `turns` reads, with the answers of [`serve_operator`], and returns how
/// the session ended (own). The description is that of the line.
///
/// Afterwards the pass has the receipts and looks of the lines that ended, in their order. The call waits for the line
/// and allocates no memory.
pub fn serve_operator_pass<T: Wait, R: Read, W: Write, G: Gate>(
    rt: &T,
    reader: &mut R,
    writer: &mut W,
    line: &Line,
    description: &LineSpec,
    pass: &mut Pass,
    gate: &G,
    turns: u32,
) -> SessionEnd
    requires described { line_of line.now ≡ description.now }
    requires ours { pass.old.table ≡ table_of line.now }
    requires operator { pass.old.view.address ≡ 127 }
    ensures ours { pass.new.table ≡ pass.old.table }
    ensures operated { HasOperatedBy (all_driven (line_of line.now).slaves.items) turns
        (record { left = R.remaining reader.old; left_after = R.remaining reader.new; written = W.contents writer.old; written_after = W.contents writer.new })
        pass.old.view pass.new.view result }
    ensures recorded { HasOperatedRecorded (all_driven (line_of line.now).slaves.items) (G.recorded gate.now pass.old.line)
        (record { left = R.remaining reader.old; left_after = R.remaining reader.new; written = W.contents writer.old; written_after = W.contents writer.new })
        pass.old.view pass.new.view result }
{
    serve_operator_pass_by::<T, R, Uncounted, W, G>(
        rt,
        reader,
        writer,
        line,
        description,
        pass,
        gate,
        turns,
    )
}

/// Serves as [`serve_operator_pass`] does. A reader that counts its reads counts at most `turns` of them, at every end.
pub fn serve_operator_pass_by<T: Wait, R: Read, C: Reads<R>, W: Write, G: Gate>(
    rt: &T,
    reader: &mut R,
    writer: &mut W,
    line: &Line,
    description: &LineSpec,
    pass: &mut Pass,
    gate: &G,
    turns: u32,
) -> SessionEnd
    requires described { line_of line.now ≡ description.now }
    requires ours { pass.old.table ≡ table_of line.now }
    requires operator { pass.old.view.address ≡ 127 }
    ensures ours { pass.new.table ≡ pass.old.table }
    ensures reads { C.reads reader.new ≤ C.reads reader.old + turns }
    ensures failed { result ≡ SessionEnd.ReadFault → C.failed reader.new ≡ true }
    ensures operated { HasOperatedBy (all_driven (line_of line.now).slaves.items) turns
        (record { left = R.remaining reader.old; left_after = R.remaining reader.new; written = W.contents writer.old; written_after = W.contents writer.new })
        pass.old.view pass.new.view result }
    ensures recorded { HasOperatedRecorded (all_driven (line_of line.now).slaves.items) (G.recorded gate.now pass.old.line)
        (record { left = R.remaining reader.old; left_after = R.remaining reader.new; written = W.contents writer.old; written_after = W.contents writer.new })
        pass.old.view pass.new.view result }
{
    let mut session = OperatorSession::open(description);
    session.run::<T, R, C, W, G>(rt, reader, writer, line, pass, gate, turns)
}

/// A session in progress: the slaves that devices drive, and the first octets of the line that has not ended.
#[derive(Drop)]
struct OperatorSession {
    driven: ArrayVec<DrivenSlave, MOST_DRIVEN>,
    begun: ArrayVec<u8, KEPT>,
}

impl OperatorSession {
    /// Returns a session that has read nothing yet.
    fn open(line: &LineSpec) -> OperatorSession
        ensures driven { result.driven.items ≡ all_driven line.now.slaves.items }
        ensures empty { result.begun.items ≡ [] }
    {
        OperatorSession {
            driven: driven_slaves(line),
            begun: ArrayVec::new(),
        }
    }

    /// Makes at most `turns` reads, and answers each line that ends. Returns how the session ended.
    fn run<T: Wait, R: Read, C: Reads<R>, W: Write, G: Gate>(
        &mut self,
        rt: &T,
        reader: &mut R,
        writer: &mut W,
        line: &Line,
        pass: &mut Pass,
        gate: &G,
        turns: u32,
    ) -> SessionEnd
        requires ours { pass.old.table ≡ table_of line.now }
        requires operator { pass.old.view.address ≡ 127 }
        requires empty { self.old.begun.items ≡ [] }
        ensures ours { pass.new.table ≡ pass.old.table }
        ensures reads { C.reads reader.new ≤ C.reads reader.old + turns }
        ensures failed { result ≡ SessionEnd.ReadFault → C.failed reader.new ≡ true }
        ensures operated { HasOperatedBy self.old.driven.items turns
            (record { left = R.remaining reader.old; left_after = R.remaining reader.new; written = W.contents writer.old; written_after = W.contents writer.new })
            pass.old.view pass.new.view result }
        ensures recorded { HasOperatedRecorded self.old.driven.items (G.recorded gate.now pass.old.line)
            (record { left = R.remaining reader.old; left_after = R.remaining reader.new; written = W.contents writer.old; written_after = W.contents writer.new })
            pass.old.view pass.new.view result }
    {
        let mut chunk = [0; CHUNK];
        let mut made = 0;
        while made < turns {
            made += 1;
            match C::read(reader, &mut chunk) {
                Ok(0) => return SessionEnd::EndOfInput,
                Ok(count) => {
                    let octets = &chunk[..count];
                    let Ok(()) = self.pass_octets(rt, writer, line, pass, gate, octets) else {
                        return SessionEnd::WriteFault;
                    };
                }
                Err(_) => return SessionEnd::ReadFault,
            }
        }
        SessionEnd::TurnLimit
    }

    /// Passes octets on, and answers each line that they end. Each answer is written before the next line is answered.
    fn pass_octets<T: Wait, W: Write, G: Gate>(
        &mut self,
        rt: &T,
        writer: &mut W,
        line: &Line,
        pass: &mut Pass,
        gate: &G,
        octets: &[u8],
    ) -> Result<(), WriteFault>
        requires ours { pass.old.table ≡ table_of line.now }
        requires operator { pass.old.view.address ≡ 127 }
        ensures same { IsSamePass pass.old pass.new }
        ensures driven { self.new.driven ≡ self.old.driven }
        ensures ok { OnOk result (OctetsAreTaken self.old.driven.items (G.recorded gate.now pass.old.line) octets.now
            self.old.begun.items self.new.begun.items pass.old.view pass.new.view (W.contents writer.old) (W.contents writer.new)) }
        ensures err { OnErr result (OctetsAreCutOff self.old.driven.items (G.recorded gate.now pass.old.line) octets.now
            self.old.begun.items pass.old.view pass.new.view (W.contents writer.old) (W.contents writer.new)) }
    {
        let mut text = Text::new();
        let mut left = octets;
        while let Some((octet, rest)) = left.split_first() {
            self.take(rt, writer, line, pass, gate, *octet, &mut text)?;
            left = rest;
        }
        Ok(())
    }

    /// Takes one octet. An LF ends the line, which is then answered; any other octet is added to the line.
    fn take<T: Wait, W: Write, G: Gate>(
        &mut self,
        rt: &T,
        writer: &mut W,
        line: &Line,
        pass: &mut Pass,
        gate: &G,
        octet: u8,
        text: &mut Text,
    ) -> Result<(), WriteFault>
        requires ours { pass.old.table ≡ table_of line.now }
        requires operator { pass.old.view.address ≡ 127 }
        ensures same { IsSamePass pass.old pass.new }
        ensures driven { self.new.driven ≡ self.old.driven }
        ensures ok { OnOk result (OctetsAreTaken self.old.driven.items (G.recorded gate.now pass.old.line) (octet ∷ [])
            self.old.begun.items self.new.begun.items pass.old.view pass.new.view (W.contents writer.old) (W.contents writer.new)) }
        ensures err { OnErr result (OctetsAreCutOff self.old.driven.items (G.recorded gate.now pass.old.line) (octet ∷ [])
            self.old.begun.items pass.old.view pass.new.view (W.contents writer.old) (W.contents writer.new)) }
    {
        if octet == LF {
            return self.end_line(rt, writer, line, pass, gate, text);
        }
        self.keep(octet);
        Ok(())
    }

    /// Appends an octet to the line, unless the line is too long already.
    fn keep(&mut self, octet: u8)
        ensures driven { self.new.driven ≡ self.old.driven }
        ensures begun { self.new.begun.items ≡ kept (self.old.begun.items ++ octet ∷ []) }
    {
        if !self.begun.is_full() {
            self.begun.push(octet);
        }
    }

    /// Ends the line: answers it, and writes the answer, unless the gate has not recorded an entry of it.
    fn end_line<T: Wait, W: Write, G: Gate>(
        &mut self,
        rt: &T,
        writer: &mut W,
        line: &Line,
        pass: &mut Pass,
        gate: &G,
        text: &mut Text,
    ) -> Result<(), WriteFault>
        requires ours { pass.old.table ≡ table_of line.now }
        requires operator { pass.old.view.address ≡ 127 }
        ensures same { IsSamePass pass.old pass.new }
        ensures driven { self.new.driven ≡ self.old.driven }
        ensures begun { self.new.begun.items ≡ [] }
        ensures answered { IsAnswered self.old.driven.items self.old.begun.items pass.old.view pass.new.view text.new }
        ensures ok { OnOk result (AnswerIsWritten (G.recorded gate.now pass.old.line) text.new
            pass.old.view pass.new.view (W.contents writer.old) (W.contents writer.new)) }
        ensures err { OnErr result (AnswerIsCutOff (G.recorded gate.now pass.old.line) text.new
            pass.old.view pass.new.view (W.contents writer.old) (W.contents writer.new)) }
    {
        let recorded = answer_line(
            rt,
            line,
            gate,
            self.driven.as_slice(),
            pass,
            self.begun.as_slice(),
            text,
        );
        self.begun.clear();
        let Ok(()) = recorded else {
            return Err(WriteFault);
        };
        write_whole(writer, text.as_bytes())
    }
}
