//! The capture of an audit text that is read row by row.
//!
//! A text that is not legal gives the packets before its first wrong row.

ghost use Rattle.std.specs.Prelude.{◌≡◌, ◌∷◌, ◌<◌, ◌^◌, true, false, [], None, All, IfSome, OnOk, length};
ghost use Rattle.dp_line.specs.World.{description_of, opening_fault};
ghost use Rattle.dp_audit.specs.Check.{checked};
ghost use Rattle.capture_texts.specs.Blocks.{capture_octets};
ghost use Rattle.explain_texts.specs.Followed.{first_follower, verdict_by};
ghost use Rattle.explain_texts.specs.TextRows.{Begins, known_text, octets_read};
ghost use Rattle.rack_script.specs.Checks.{checked_on};
ghost use Rattle.rack_file.specs.RackFile.{rack_in};
ghost use Rattle.rack_file.specs.Rack.{rack_described};
ghost use Rattle.capture_texts.specs.Captured.{captured_on, captured_text};
ghost use Rattle.capture_texts.specs.Captures.{CapturesText, Decides, DecidesOn, DecidesOnRack, RunsCapture, Ends, WritesCapture};

use crate::entries::EntryCapture;
use crate::opening::{interface_named, write_opening};
use crate::row_fault::RowFault;
use dp_audit::{AuditFault, is_header_of};
use dp_line::LineSpec;
use explain_texts::{TextRows, readable};
use rack_file::laws::{accepted_lines_can_be_opened, accepted_racks_have_1_to_8_lines};
use rack_file::{Rack, RackFault, read_rack};
use rack_script::{RunFault, line_named};
use std::alloc::Global;
use std::io::{BufRead, Write};

/// The number of entries of a legal text, or the fault of the first wrong row.
type Verdict = Result<u32, AuditFault>;

/// Writes the capture of an audit text, on the line of the rack that its header names: the section, an interface for each
/// line of the rack, and the packets of the entries up to the first line of the text that is wrong. Returns the exit
/// status: 0 if the text is legal, else 1.
///
/// The rows are read one after another, up to the first wrong one; the first row may have been read before. It takes the
/// memory of three lines, of the rows of an entry, and of one row.
///
/// Returns `Rack` if the rack isn't accepted, and then nothing is written. `OutOfMemory`, `WriteFault`, `CannotRead` if a
/// read fails, and `NotText` if the first wrong row is not UTF-8, leave a prefix of the output. It never returns `Script`.
pub fn run_capture<R: BufRead, W: Write>(
    alloc: Global,
    rack: &str,
    rows: &mut TextRows<R>,
    writer: &mut W,
) -> Result<u8, RunFault>
    requires { rows.old.text.past ≡ [] }
    ensures captured { RunsCapture (rack_in rack.now) rows.new.text (W.contents writer.old) (W.contents writer.new) result }
    ensures decided { OnOk result (IfSome (known_text rows.old.text (R.remaining rows.old.reader)) (DecidesOn (rack_in rack.now) (octets_read rows.new.text))) }
{
    accepted_racks_have_1_to_8_lines();
    accepted_lines_can_be_opened();
    match read_rack(alloc, rack) {
        Ok(rack) => capture_on(alloc, &rack, rows, writer),
        Err(RackFault::OutOfMemory) => Err(RunFault::OutOfMemory),
        Err(fault) => Err(RunFault::Rack(fault)),
    }
}

/// Writes the capture of an audit text on a rack.
fn capture_on<R: BufRead, W: Write>(
    alloc: Global,
    rack: &Rack,
    rows: &mut TextRows<R>,
    writer: &mut W,
) -> Result<u8, RunFault>
    requires opens { All (λ line. opening_fault (description_of line.spec) ≡ None) rack.now.lines.items }
    requires few { length rack.now.lines.items < 2 ^ 32 }
    requires first { rows.old.text.past ≡ [] }
    ensures captured { WritesCapture (checked_on (rack_described rack.now) (octets_read rows.new.text)) rows.new.text.row (capture_octets (captured_on (rack_described rack.now) (octets_read rows.new.text)))
        (W.contents writer.old) (W.contents writer.new) result }
    ensures decided { OnOk result (IfSome (known_text rows.old.text (R.remaining rows.old.reader)) (DecidesOnRack (rack_described rack.now) (octets_read rows.new.text))) }
{
    match write_opening(alloc, rack.lines.as_slice(), writer) {
        Ok(()) => {}
        Err(cut) => return Err(cut.run_fault()),
    }
    match rows.complete_row() {
        Ok(_) => {}
        Err(fault) => return Err(RunFault::of_read(fault)),
    }
    let interface = interface_named(rack.lines.as_slice(), rows.row());
    match line_named(&rack.lines, rows.row()) {
        Some(line) => capture_line(alloc, &line.spec, interface, rows, writer),
        None => end_text(Err(AuditFault::BadLine(1)), rows.row()),
    }
}

/// Writes the packets of an audit text on a line, whose interface has this number.
fn capture_line<R: BufRead, W: Write>(
    alloc: Global,
    line: &LineSpec,
    interface: u32,
    rows: &mut TextRows<R>,
    writer: &mut W,
) -> Result<u8, RunFault>
    requires opens { opening_fault (description_of line.now) ≡ None }
    requires first { rows.old.text.past ≡ [] }
    ensures captured { WritesCapture (checked (description_of line.now) (octets_read rows.new.text)) rows.new.text.row (capture_octets (captured_text interface (description_of line.now) (octets_read rows.new.text)))
        (W.contents writer.old) (W.contents writer.new) result }
    ensures decided { rows.old.text.whole ≡ true → OnOk result (IfSome (known_text rows.old.text (R.remaining rows.old.reader)) (Decides interface (description_of line.now) (octets_read rows.new.text))) }
    ensures unread { rows.old.text.whole ≡ false → rows.new.text ≡ rows.old.text }
    ensures begins { Begins (octets_read rows.old.text) (octets_read rows.new.text) }
{
    let Ok(header) = std::str::from_utf8(rows.row()) else {
        return Err(RunFault::NotText);
    };
    let mut entries = match EntryCapture::open(alloc, line, interface, header) {
        Ok(entries) => entries,
        Err(_) => return Err(RunFault::OutOfMemory),
    };
    match capture_rows(&mut entries, line, rows, writer) {
        Ok(verdict) => end_text(verdict, rows.row()),
        Err(fault) => Err(fault),
    }
}

/// Writes the packets of the rows of a text, until the first wrong one. Returns the verdict on the text.
fn capture_rows<R: BufRead, W: Write>(
    entries: &mut EntryCapture<'_>,
    line: &LineSpec,
    rows: &mut TextRows<R>,
    writer: &mut W,
) -> Result<Verdict, RunFault>
    requires opened { entries.old.follower ≡ first_follower (description_of line.now) (rows.old.text.row ∷ []) }
    requires same { entries.old.state.world ≡ entries.old.follower.known.context.world }
    requires first { rows.old.text.past ≡ [] }
    ensures captured { CapturesText entries.old.interface (description_of line.now) (octets_read rows.new.text) (W.contents writer.old) (W.contents writer.new) result }
    ensures decided { rows.old.text.whole ≡ true → OnOk result (IfSome (known_text rows.old.text (R.remaining rows.old.reader)) (Decides entries.old.interface (description_of line.now) (octets_read rows.new.text))) }
    ensures unread { rows.old.text.whole ≡ false → rows.new.text ≡ rows.old.text }
    ensures begins { Begins (octets_read rows.old.text) (octets_read rows.new.text) }
{
    if !rows.is_whole() {
        return Ok(Err(AuditFault::BadLine(1)));
    }
    if !is_header_of(rows.row(), line) {
        return Ok(Err(AuditFault::BadLine(1)));
    }
    loop {
        let count = entries.follower.count();
        match rows.read_row() {
            Ok(true) => {}
            Ok(false) => return Ok(verdict_at_end(count, rows.row())),
            Err(fault) => return Err(RunFault::of_read(fault)),
        }
        match entries.take_row(rows.row(), writer) {
            Ok(()) => {}
            Err(RowFault::Wrong(fault)) => return Ok(Err(fault)),
            Err(RowFault::Cut(cut)) => return Err(cut.run_fault()),
        }
    }
}

/// Returns the verdict on a text of this many right entries, with this text behind the last LF.
fn verdict_at_end(count: u32, last: &[u8]) -> Verdict
    ensures { result ≡ verdict_by None count last.now }
{
    if last.is_empty() {
        Ok(count)
    } else {
        Err(AuditFault::BadLine(u64::from(count) + 2))
    }
}

/// Returns the exit status of a text with this verdict, whose last row is this one, or `NotText` if the text is not legal
/// and the row is not UTF-8.
fn end_text(verdict: Verdict, row: &[u8]) -> Result<u8, RunFault>
    ensures { Ends verdict row.now result }
{
    match readable(verdict, row) {
        Ok(Ok(_)) => Ok(0),
        Ok(Err(_)) => Ok(1),
        Err(fault) => Err(RunFault::of_read(fault)),
    }
}
