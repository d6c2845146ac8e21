//! An audit text that is followed from one of its parts on.

ghost use Rattle.std.specs.Prelude.{◌≡◌, None};
ghost use Rattle.dp_line.specs.World.{description_of, opening_fault};

use audit_parts::{HeadRows, fault_of_head, is_part_header};
use dp_audit::AuditFault;
use dp_line::LineSpec;
use dp_text::{Lines, Text};
use explain_texts::{Choice, ExplainFault, FollowFault, Follower, TakesEntries};
use std::alloc::Global;

/// The rows of an audit text that are followed: those of entries are explained, and those of heads are checked.
#[derive(Drop)]
pub(crate) struct FollowedParts<'a> {
    number: u8,
    follower: Follower<'a>,
    /// The rows of heads; None if the text has no parts.
    heads: Option<HeadRows>,
    buffer: Text,
}

impl<'a> FollowedParts<'a> {
    /// Opens the line behind the header of a text, or behind the head of a part, of which these are the rows.
    ///
    /// Returns the fault of the header or of the head, or `OutOfMemory`.
    pub(crate) fn open(
        alloc: Global,
        line: &'a LineSpec,
        front: &[u8],
    ) -> Result<FollowedParts<'a>, AuditFault> {
        // No line of an accepted rack has a fault.
        if line.fault().is_some() {
            return Err(AuditFault::BadLine(1));
        }
        let mut buffer = Text::new();
        let follower = match Lines::new(front).next() {
            Some(row) if is_part_header(line, row) => {
                Follower::open_behind(alloc, line, front, &mut buffer).map_err(
                    |fault| fault_of_head(line, fault),
                )?
            }
            _ => open_at_header(alloc, line, front)?,
        };
        let has_parts = follower.line().capacity() == u32::MAX;
        Ok(FollowedParts {
            number: line.number,
            follower,
            heads: if has_parts {
                Some(HeadRows::new(alloc))
            } else {
                None
            },
            buffer,
        })
    }

    /// Takes the next row. Explains it as [`Follower::take_row`] does, unless it is one of a head.
    pub(crate) fn take_row<T: TakesEntries>(
        &mut self,
        row: &[u8],
        choice: &Choice,
        receiver: &mut T,
    ) -> Result<(), FollowFault> {
        if self.is_of_head(row)? {
            return Ok(());
        }
        self.follower.take_row(row, choice, receiver)
    }

    /// Takes the next row if it is one of a head, and returns whether it is.
    fn is_of_head(&mut self, row: &[u8]) -> Result<bool, FollowFault> {
        let Some(heads) = &mut self.heads else {
            return Ok(false);
        };
        let time = self.follower.time();
        match heads.take_row(
            self.number,
            self.follower.line(),
            time,
            row,
            &mut self.buffer,
        ) {
            Ok(is_of_head) => Ok(is_of_head),
            Err(AuditFault::OutOfMemory) => Err(FollowFault::Explain(ExplainFault::OutOfMemory)),
            Err(fault) => Err(FollowFault::Wrong(fault)),
        }
    }
}

/// Opens the line behind the header of a text, which has this row.
fn open_at_header<'a>(
    alloc: Global,
    line: &'a LineSpec,
    header: &[u8],
) -> Result<Follower<'a>, AuditFault>
    requires { opening_fault (description_of line.now) ≡ None }
{
    match std::str::from_utf8(header) {
        Ok(header) => match Follower::open(alloc, line, header) {
            Ok(follower) => Ok(follower),
            Err(_) => Err(AuditFault::OutOfMemory),
        },
        Err(_) => Err(AuditFault::BadLine(1)),
    }
}
