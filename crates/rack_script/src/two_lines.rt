//! Two lines that take the events of an audit text: one checks the rows, and the other one is behind it by one event.

ghost use Rattle.std.specs.Prelude.{◌≡◌, None};
ghost use Rattle.dp_line.specs.World.{description_of, opening_fault};

use crate::difference::{Difference, row_difference};
use crate::expected::set_expected;
use audit_heads::{HeadFault, ReadHead, read_head};
use audit_parts::HeadRows;
use dp_audit::{AuditFault, open_line, take_row, time_after};
use dp_line::{LineSpec, LineState, Step};
use dp_text::{Lines, Text};
use explain_texts::{ReadFault, event_of_row};
use std::alloc::Global;

/// Two lines that take the events of an audit text.
#[derive(Drop)]
pub(crate) struct TwoLines {
    /// The number of the line.
    number: u8,
    /// The line before the row that is checked next.
    before: LineState,
    /// The line that checks it.
    after: LineState,
    /// The sum of the ticks so far, in units of 10 ms; None before the first tick.
    time: Option<u64>,
    /// The rows of heads; None if the text has no parts.
    heads: Option<HeadRows>,
    answer: Step,
    buffer: Text,
}

impl TwoLines {
    /// Opens the lines behind the header, or the head, of an audit text. Returns None if it is none of the line.
    pub(crate) fn open(
        alloc: Global,
        line: &LineSpec,
        front: &[u8],
    ) -> Result<Option<TwoLines>, ReadFault>
        requires { opening_fault (description_of line.now) ≡ None }
    {
        let Some((before, time)) = opened(alloc, line, front)? else {
            return Ok(None);
        };
        let Some((after, _)) = opened(alloc, line, front)? else {
            return Ok(None);
        };
        let has_parts = before.capacity() == u32::MAX;
        Ok(Some(TwoLines {
            number: line.number,
            before,
            after,
            time,
            heads: if has_parts {
                Some(HeadRows::new(alloc))
            } else {
                None
            },
            answer: Step::blank(),
            buffer: Text::new(),
        }))
    }

    /// Takes the next row, or returns its fault.
    pub(crate) fn take_row(&mut self, row: &[u8]) -> Result<(), AuditFault> {
        if self.is_of_head(row)? {
            return Ok(());
        }
        let event = take_row(&mut self.after, row, &mut self.answer, &mut self.buffer)?;
        self.before.take_into(&event, &mut self.answer);
        self.time = time_after(self.time, &event);
        Ok(())
    }

    /// Takes the next row if it is one of a head, and returns whether it is.
    fn is_of_head(&mut self, row: &[u8]) -> Result<bool, AuditFault> {
        match &mut self.heads {
            Some(heads) => heads.take_row(
                self.number,
                &self.after,
                self.time,
                row,
                &mut self.buffer,
            ),
            None => Ok(false),
        }
    }

    /// Returns the difference of a row that is not what the policy gives, which was the last one.
    pub(crate) fn difference(
        &mut self,
        alloc: Global,
        number: u64,
        row: &[u8],
    ) -> Result<Option<Difference>, ReadFault> {
        if let Some(heads) = &self.heads
            && !heads.is_between()
        {
            let expected = Lines::new(heads.awaited()).next().unwrap_or(b"");
            return row_difference(alloc, number, row, expected);
        }
        let Some(event) = event_of_row(row) else {
            return Ok(None);
        };
        let place = self.before.count().saturating_add(1);
        self.before.take_into(&event, &mut self.answer);
        set_expected(&mut self.buffer, place, &event, &self.answer);
        row_difference(alloc, number, row, self.buffer.as_bytes())
    }
}

/// Opens the line behind the header, or the head, of an audit text, with the sum of the ticks until then. Returns None if it is
/// none of the line.
fn opened(
    alloc: Global,
    line: &LineSpec,
    front: &[u8],
) -> Result<Option<(LineState, Option<u64>)>, ReadFault>
    requires { opening_fault (description_of line.now) ≡ None }
{
    match read_head(alloc, line, front, &mut Text::new()) {
        Ok(ReadHead { line, time, .. }) => Ok(Some((line, time))),
        Err(HeadFault::OutOfMemory) => Err(ReadFault::OutOfMemory),
        Err(HeadFault::WrongRow(_) | HeadFault::Unsound(_)) => opened_by_header(alloc, line, front),
    }
}

/// Opens the line behind the header of an audit text.
fn opened_by_header(
    alloc: Global,
    line: &LineSpec,
    header: &[u8],
) -> Result<Option<(LineState, Option<u64>)>, ReadFault> {
    let Ok(header) = std::str::from_utf8(header) else {
        return Ok(None);
    };
    match open_line(alloc, line, header) {
        Ok(state) => Ok(Some((state, None))),
        Err(_) => Err(ReadFault::OutOfMemory),
    }
}
