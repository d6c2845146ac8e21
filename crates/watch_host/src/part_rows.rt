//! The rows of an audit text that may lie in parts.

use audit_parts::{HeadRows, NOT_THE_POLICY, is_part_header, rows_behind_header};
use dp_audit::AuditFault;
use dp_line::LineSpec;
use dp_text::Text;
use std::alloc::{AllocError, Global};
use watch_lines::{WatchedLine, WatchedRack};

/// The rows of a text: which are rows of heads, and which are all others.
#[derive(Drop)]
pub(crate) struct PartRows {
    alloc: Global,
    /// Whether no row was taken.
    is_new: bool,
    /// The rows so far of a head with which the text begins, and how many rows it lacks.
    front: Vec<u8>,
    lacking: usize,
    /// The rows of heads behind the beginning; None if the text has no parts.
    heads: Option<HeadRows>,
    buffer: Text,
}

impl PartRows {
    /// Returns the rows of a text of which none was taken.
    pub(crate) fn new(alloc: Global) -> PartRows {
        PartRows {
            alloc,
            is_new: true,
            front: Vec::new(alloc),
            lacking: 0,
            heads: None,
            buffer: Text::new(),
        }
    }

    /// Takes the next row of the text of the line at this index. The rack takes the head with which a text begins once it is
    /// whole, and each row of an entry. A wrong row of a head is taken as a row that is not what the policy gives.
    pub(crate) fn take_row(
        &mut self,
        rack: &mut WatchedRack<'_>,
        index: usize,
        row: &[u8],
    ) -> Result<(), AllocError> {
        let Some(line) = rack.lines.get(index) else {
            return Ok(());
        };
        if self.is_new {
            self.is_new = false;
            self.lacking = rows_of_head(line.description(), row);
        }
        if self.lacking > 0 {
            return self.take_front(rack, index, row);
        }
        match self.is_of_head(line, row) {
            Ok(true) => Ok(()),
            Ok(false) => self.take_entry(rack, index, row),
            Err(AuditFault::OutOfMemory) => Err(AllocError),
            Err(_) => rack.take_row(index, NOT_THE_POLICY),
        }
    }

    /// Takes a row of the head with which the text begins.
    fn take_front(
        &mut self,
        rack: &mut WatchedRack<'_>,
        index: usize,
        row: &[u8],
    ) -> Result<(), AllocError> {
        self.front.extend_from_slice(row)?;
        self.front.push(b'\n')?;
        self.lacking = self.lacking.saturating_sub(1);
        if self.lacking > 0 {
            return Ok(());
        }
        self.heads = Some(HeadRows::new(self.alloc));
        rack.take_head(index, self.front.as_slice())
    }

    /// Takes a row that is none of a head.
    fn take_entry(
        &mut self,
        rack: &mut WatchedRack<'_>,
        index: usize,
        row: &[u8],
    ) -> Result<(), AllocError> {
        rack.take_row(index, row)?;
        if self.heads.is_none() && has_parts(rack, index) {
            self.heads = Some(HeadRows::new(self.alloc));
        }
        Ok(())
    }

    /// Takes a row behind the beginning if it is one of a head, and returns whether it is.
    fn is_of_head(&mut self, line: &WatchedLine<'_>, row: &[u8]) -> Result<bool, AuditFault> {
        let Some(heads) = &mut self.heads else {
            return Ok(false);
        };
        let number = line.description().number;
        let follower = line.follower();
        heads.take_row(
            number,
            follower.line(),
            follower.time(),
            row,
            &mut self.buffer,
        )
    }
}

/// Returns how many rows the head has that begins with this row; 0 if it begins none of the line.
fn rows_of_head(line: &LineSpec, row: &[u8]) -> usize {
    // No line of an accepted rack has a fault.
    if line.fault().is_some() || !is_part_header(line, row) {
        return 0;
    }
    rows_behind_header(line).saturating_add(1)
}

/// Returns whether the text of the line at this index may have parts, as that of an endless line.
fn has_parts(rack: &WatchedRack<'_>, index: usize) -> bool {
    match rack.lines.get(index) {
        Some(line) => line.follower().line().capacity() == u32::MAX,
        None => false,
    }
}
