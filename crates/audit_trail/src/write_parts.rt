//! Writers of audit texts that may lie in parts.

ghost use Rattle.std.specs.Prelude.{◌≡◌, Bool, false, OnOk};

use std::fs::File;
use std::io::{Result, Write};

/// A part that has begun, and whose head is not yet ended. [`WriteParts::end_head`] takes it, so a trail calls that at
/// most once for each part. Only a trail makes one.
#[derive(Drop)]
pub struct BegunPart {
    begun: (),
}

/// Begins the next part of a text. Nothing is written.
pub(crate) fn begin_part_of<W: WriteParts>(writer: &mut W) -> Result<BegunPart>
    ensures bytes { W.contents writer.new ≡ W.contents writer.old }
    ensures begins { OnOk result (W.begins writer.old writer.new) }
{
    match writer.begin_part() {
        Ok(()) => Ok(BegunPart { begun: () }),
        Err(fault) => Err(fault),
    }
}

/// Writes an audit text that may lie in parts. For a text in one part, `part_is_due` returns false, and `begin_part` does
/// nothing.
pub trait WriteParts: Write {
    /// Whether a part is due. Never, unless the writer defines it.
    ghost due: { Self → Bool } = { λ _. false };

    /// What changes in the writer when a part begins, from before to after. Nothing is said of it, unless the writer defines it.
    ghost begins: { Self → Self → Type 0 } = { λ _ _. Unit {0} };

    /// Returns whether a part is due: the next part is to begin as soon as the trail has seen all entries.
    fn part_is_due(&self) -> bool
        ensures { result ≡ due self.now };

    /// Begins the next part: what is written from now on belongs to it. Nothing is written.
    fn begin_part(&mut self) -> Result<()>
        ensures bytes { Self.contents self.new ≡ Self.contents self.old }
        ensures begins { OnOk result (begins self.old self.new) };

    /// Is called after the text line of the entry at this place is written whole. Nothing is written.
    fn end_row(&mut self, _place: u32)
        ensures { Self.contents self.new ≡ Self.contents self.old }
    {}

    /// Is called after the head of the part that began last is written whole. Nothing is written.
    fn end_head(&mut self, _part: BegunPart)
        ensures { Self.contents self.new ≡ Self.contents self.old }
    {}
}

impl WriteParts for Vec<u8> {
    fn part_is_due(&self) -> bool {
        false
    }

    fn begin_part(&mut self) -> Result<()> {
        Ok(())
    }
}

impl WriteParts for File {
    fn part_is_due(&self) -> bool {
        false
    }

    fn begin_part(&mut self) -> Result<()> {
        Ok(())
    }
}
