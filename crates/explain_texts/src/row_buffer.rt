//! What was read of a text: the current row is stored, and contracts see all octets.

ghost use Rattle.std.specs.Prelude.{◌≡◌, ◌++◌, ℕ, true, false, if◌then◌else◌, [], ◌∷◌, OnOk, IfOk, IfErr, IfSome, Err};
ghost use Rattle.std.specs.Io.{StopsAt};
ghost use Rattle.dp_audit.specs.FirstWrong.{HasNoLf};
ghost use Rattle.explain_texts.specs.TextRows.{nothing_read, row_begun, lf_if, EndsAt, ReadsOn, ReadsPiece};

use crate::read_fault::ReadFault;
use ghost_lists::Past;
use std::alloc::Global;
use std::io::BufRead;
use std::marker::Model;

/// The octet that ends a row.
const LF: u8 = 10;

/// What was read of a text. Only the current row is stored; the rows before it are ghost data.
#[derive(Drop)]
pub(crate) struct RowBuffer {
    past: Past<Vec<u8>>,
    /// The current row, without its LF.
    row: Vec<u8>,
    /// Whether the LF of the current row was read.
    whole: bool,
}

impl Model for RowBuffer {
    ghost use Rattle.std.specs.List.{flat_map};
    ghost use Rattle.dp_audit.specs.AuditText.{line_text};
    ghost use Rattle.dp_audit.specs.FirstWrong.{HasNoLf};
    ghost use Rattle.explain_texts.specs.TextRows.{TextRead};

    ghost Value = { TextRead };

    ghost view = { λ b. record { past = flat_map (λ row. line_text row.items) b.past.items; row = b.row.items; whole = b.whole } };

    ghost invariant = { λ b. HasNoLf b.row.items };
}

impl RowBuffer {
    /// Returns a buffer of nothing read. It takes no memory yet.
    pub(crate) fn new(alloc: Global) -> RowBuffer
        ensures { result ≡ nothing_read }
    {
        RowBuffer {
            past: Past::new(),
            row: Vec::new(alloc),
            whole: false,
        }
    }

    /// Returns the current row, without its LF.
    pub(crate) fn row(&self) -> &[u8]
        ensures row { result.now ≡ self.now.row }
        ensures no_lf { HasNoLf self.now.row }
    {
        self.row.as_slice()
    }

    /// Returns whether the LF of the current row was read.
    pub(crate) fn is_whole(&self) -> bool
        ensures whole { result ≡ self.now.whole }
        ensures no_lf { HasNoLf self.now.row }
    {
        self.whole
    }

    /// Begins the next row if the current one is whole, and forgets the current one. The memory of the row is used again.
    pub(crate) fn begin_row(&mut self)
        ensures { self.new ≡ row_begun self.old }
    {
        if self.whole {
            self.past = self.past.followed_by(&self.row);
            self.row.clear();
            self.whole = false;
        }
    }

    /// Reads on to the end of a row that is not whole, or of what the reader has.
    pub(crate) fn read_on<R: BufRead>(&mut self, reader: &mut R) -> Result<(), ReadFault>
        requires { self.old.whole ≡ false }
        ensures reads { ReadsOn (R.remaining reader.old) (R.remaining reader.new) self.old self.new }
        ensures piece { OnOk result (ReadsPiece (R.remaining reader.old) (R.remaining reader.new) self.old self.new) }
        ensures end { OnOk result (self.new.whole ≡ false → EndsAt (R.remaining reader.old) (R.remaining reader.new)) }
        ensures named { result ≡ Err ReadFault.NotText → ⊥ }
    {
        let read = reader.read_until(LF, &mut self.row);
        self.whole = take_lf(&mut self.row);
        match read {
            Ok(_) => Ok(()),
            Err(error) => Err(ReadFault::from_error(&error)),
        }
    }
}

/// Removes the LF at the end of a row, if there is one, and returns whether there was.
fn take_lf(row: &mut Vec<u8>) -> bool
    ensures taken { row.old.items ≡ row.new.items ++ lf_if result }
    ensures no_lf { StopsAt row.old.items 10 → HasNoLf row.new.items }
{
    let count = row.len();
    if count == 0 {
        return false;
    }
    if row[count - 1] != LF {
        return false;
    }
    row.truncate(count - 1);
    true
}
