//! Writing the text line of the next place, and the head of the next part.
//!
//! A trail copies the packed record of an entry and makes the text line from it: a record has some 40 octets,
//! and an entry more than 500, which each return from a call would copy.
//!
//! It looks at one entry at a time, by an operator's pass of its own, and writes the text line outside the
//! line's lock. So threads that use the line wait for a look, and only sessions wait for a slow file.

ghost use Rattle.std.specs.Prelude.{◌≡◌, OnErr, OnOk};
ghost use Rattle.std.specs.Io.KnownBytes.{Appends};
ghost use Rattle.dp_text.specs.Writes.{WritesPrefix};
ghost use Rattle.dp_shared.specs.Passes.{table_of};
ghost use Rattle.audit_trail.specs.Trails.{BeginsFirst, Looks, LooksAside, PartOutcome, was_due};

use crate::write_parts::{WriteParts, begin_part_of};
use dp_audit::{Record, WriteFault};
use dp_shared::{Line, Pass};
use dp_telegram::GLOBAL_ADDRESS;
use dp_text::{Text, write_whole};
use std::sync::Wait;

/// The result of a look at the next place.
#[derive(Clone, Copy, Debug, PartialEq, Eq)]
pub(crate) enum Next {
    /// No entry has the place, and nothing was written.
    Nothing,
    /// The text line of its entry is written, and there are entries after it.
    Row,
    /// The text line of its entry is written, and the entry is the last one.
    LastRow,
    /// The text line of its entry could not be written whole.
    Cut,
    /// The entry is forgotten, and nothing was written.
    /// The count of the look shows it, so a forgotten entry can't be taken for one that isn't there yet.
    Gone,
}

/// Looks at a place with a pass of the line, and writes the text line of its entry, if there is one. `record`
/// and `text` are buffers.
pub(crate) fn write_next<T: Wait, W: WriteParts>(
    rt: &T,
    line: &Line,
    pass: &mut Pass,
    record: &mut Record,
    text: &mut Text,
    writer: &mut W,
    place: u32,
) -> Next
    requires { pass.old.table ≡ table_of line.now }
    ensures ours { pass.new.table ≡ pass.old.table }
    ensures line { pass.new.line ≡ pass.old.line }
    ensures looks { Looks result place pass.old.view pass.new.view (W.contents writer.old) (W.contents writer.new) }
{
    let count = line.copy_record(rt, pass, place, record);
    if !record.set_line(text) {
        return if count < place {
            Next::Nothing
        } else {
            Next::Gone
        };
    }
    match write_row(writer, text.as_bytes(), place) {
        Ok(()) if count > place => Next::Row,
        Ok(()) => Next::LastRow,
        Err(_) => Next::Cut,
    }
}

/// Writes the text line of the entry at this place.
fn write_row<W: WriteParts>(writer: &mut W, row: &[u8], place: u32) -> Result<(), WriteFault>
    ensures ok { OnOk result (Appends (W.contents writer.old) (W.contents writer.new) row.now) }
    ensures err { OnErr result (WritesPrefix (W.contents writer.old) (W.contents writer.new) row.now) }
{
    let Ok(()) = write_whole(writer, row) else {
        return Err(WriteFault);
    };
    writer.end_row(place);
    Ok(())
}

/// Looks at a line of which all possible places are seen. The look reads no entry.
pub(crate) fn look_aside<T: Wait>(rt: &T, line: &Line, pass: &mut Pass)
    requires { pass.old.table ≡ table_of line.now }
    ensures ours { pass.new.table ≡ pass.old.table }
    ensures line { pass.new.line ≡ pass.old.line }
    ensures looks { LooksAside pass.old.view pass.new.view }
{
    line.owned(rt, pass, GLOBAL_ADDRESS);
}

/// The result of a call that begins the next part, if one is due.
#[derive(Clone, Copy, Debug, PartialEq, Eq)]
pub(crate) enum NextPart {
    /// No part is due. Nothing was written.
    NotDue,
    /// A part is due, but memory for its head was refused. The pass took no look, and nothing was written.
    NoMemory,
    /// A part is due, but the line has entries that the trail has not seen. Nothing was written.
    NotYet,
    /// The part has begun, and its head is written.
    Begun,
    /// The part could not be begun, or its head could not be written whole.
    Cut,
}

/// Begins the next part, if one is due and the line has only the entries that were seen. `head` and `text` are buffers.
/// No clause says when memory for the head is refused.
pub(crate) fn begin_next_part<T: Wait, W: WriteParts>(
    rt: &T,
    line: &Line,
    pass: &mut Pass,
    seen: u32,
    head: &mut Vec<u8>,
    text: &mut Text,
    writer: &mut W,
) -> NextPart
    requires { pass.old.table ≡ table_of line.now }
    ensures ours { pass.new.table ≡ pass.old.table }
    ensures line { pass.new.line ≡ pass.old.line }
    ensures due { was_due result ≡ W.due writer.old }
    ensures part { PartOutcome result pass.old.line seen pass.old.view pass.new.view (W.contents writer.old) (W.contents writer.new) }
    ensures begun { result ≡ NextPart.Begun → BeginsFirst W.begins W.contents writer.old }
{
    if !writer.part_is_due() {
        return NextPart::NotDue;
    }
    head.clear();
    match line.push_head(rt, pass, seen, head, text) {
        Ok(count) => {
            if count != seen {
                return NextPart::NotYet;
            }
        }
        Err(_) => return NextPart::NoMemory,
    }
    match write_part(writer, head.as_slice()) {
        Ok(()) => NextPart::Begun,
        Err(_) => NextPart::Cut,
    }
}

/// Begins the next part with this head: the part begins first, so the head belongs to it.
fn write_part<W: WriteParts>(writer: &mut W, head: &[u8]) -> Result<(), WriteFault>
    ensures ok { OnOk result (Appends (W.contents writer.old) (W.contents writer.new) head.now) }
    ensures err { OnErr result (WritesPrefix (W.contents writer.old) (W.contents writer.new) head.now) }
    ensures begun { OnOk result (BeginsFirst W.begins W.contents writer.old) }
{
    let Ok(part) = begin_part_of(writer) else {
        return Err(WriteFault);
    };
    let Ok(()) = write_whole(writer, head) else {
        return Err(WriteFault);
    };
    writer.end_head(part);
    Ok(())
}
