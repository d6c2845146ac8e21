//! The rows of a text that comes from a reader.
//!
//! [`TextRows`] stores one row at a time, so a text of any length takes the memory of its longest row. Contracts see all
//! octets that were read, so the check and the explanation of rows that were read are those of a whole text.

ghost use Rattle.std.specs.Prelude.{◌≡◌, true, false, Ok, Err, OnOk, IfOk};
ghost use Rattle.std.specs.Io.KnownBytes.{Keeps};
ghost use Rattle.dp_audit.specs.FirstWrong.{HasNoLf};
ghost use Rattle.explain_texts.specs.TextRows.{known_text, nothing_read, row_begun, EndsAt, ReadsOn, ReadsPiece};

use crate::read_fault::ReadFault;
use crate::row_buffer::RowBuffer;
use std::alloc::Global;
use std::io::BufRead;

/// The rows of a text that comes from a reader, one after another. Contracts see all octets that were read (`octets_read`).
#[derive(Drop)]
pub struct TextRows<R> {
    reader: R,
    text: RowBuffer,
}

impl<R: BufRead> TextRows<R> {
    /// Returns the rows of the text that this reader gives. Nothing is read yet, and no memory is taken.
    pub fn new(alloc: Global, reader: R) -> TextRows<R>
        ensures text { result.text ≡ nothing_read }
        ensures reader { result.reader ≡ reader }
    {
        TextRows {
            reader,
            text: RowBuffer::new(alloc),
        }
    }

    /// Returns the reader.
    pub fn reader(&self) -> &R
        ensures { result.now ≡ self.now.reader }
    {
        &self.reader
    }

    /// Returns what was read of the current row, without its LF.
    pub fn row(&self) -> &[u8]
        ensures row { result.now ≡ self.now.text.row }
        ensures no_lf { HasNoLf self.now.text.row }
    {
        self.text.row()
    }

    /// Returns whether the current row is whole, which is whether its LF was read.
    pub fn is_whole(&self) -> bool
        ensures whole { result ≡ self.now.text.whole }
        ensures no_lf { HasNoLf self.now.text.row }
    {
        self.text.is_whole()
    }

    /// Reads on to the end of the row, or of what the reader has. If the current row is whole, the next one begins. Returns
    /// whether the row is whole. If it is not, the next call goes on with the same row.
    ///
    /// Returns `OutOfMemory` if memory runs out, and `CannotRead` if a read fails; what was read before belongs to the row
    /// then. It never returns `NotText`.
    pub fn read_row(&mut self) -> Result<bool, ReadFault>
        ensures reads { ReadsOn (R.remaining self.old.reader) (R.remaining self.new.reader) (row_begun self.old.text) self.new.text }
        ensures kept { Keeps (known_text self.old.text (R.remaining self.old.reader)) (known_text self.new.text (R.remaining self.new.reader)) }
        ensures whole { IfOk result (λ whole. whole ≡ self.new.text.whole) }
        ensures piece { OnOk result (ReadsPiece (R.remaining self.old.reader) (R.remaining self.new.reader) (row_begun self.old.text) self.new.text) }
        ensures end { OnOk result (self.new.text.whole ≡ false → EndsAt (R.remaining self.old.reader) (R.remaining self.new.reader)) }
        ensures named { result ≡ Err ReadFault.NotText → ⊥ }
    {
        self.text.begin_row();
        self.complete_row()
    }

    /// Reads on to the end of the current row, or of what the reader has, as [`TextRows::read_row`] does, but reads nothing
    /// if the current row is whole.
    pub fn complete_row(&mut self) -> Result<bool, ReadFault>
        ensures reads { ReadsOn (R.remaining self.old.reader) (R.remaining self.new.reader) self.old.text self.new.text }
        ensures kept { Keeps (known_text self.old.text (R.remaining self.old.reader)) (known_text self.new.text (R.remaining self.new.reader)) }
        ensures whole { IfOk result (λ whole. whole ≡ self.new.text.whole) }
        ensures piece { self.old.text.whole ≡ false → OnOk result (ReadsPiece (R.remaining self.old.reader) (R.remaining self.new.reader) self.old.text self.new.text) }
        ensures end { OnOk result (self.new.text.whole ≡ false → EndsAt (R.remaining self.old.reader) (R.remaining self.new.reader)) }
        ensures nothing { self.old.text.whole ≡ true → (result ≡ Ok true) × (self.new.text ≡ self.old.text) × (self.new.reader ≡ self.old.reader) }
        ensures named { result ≡ Err ReadFault.NotText → ⊥ }
    {
        if self.text.is_whole() {
            return Ok(true);
        }
        match self.text.read_on(&mut self.reader) {
            Ok(()) => Ok(self.text.is_whole()),
            Err(fault) => Err(fault),
        }
    }
}
