//! The rows of heads among those of an endless text.

ghost use Rattle.std.specs.Prelude.{ℕ, ◌≡◌, ◌≢◌, ◌==◌, [], is_some, length, Option, None, true, Ok, Err, IfOk, IfErr, OnOk, Some};
ghost use Rattle.audit_parts.specs.Parts.{TakesHead, begins_head, behind_row, check_of, head_row_taken, head_taken, with_head};

use audit_heads::{place_in_row, push_head};
use dp_audit::AuditFault;
use dp_line::LineState;
use dp_text::Text;
use std::alloc::Global;
use std::marker::Model;

/// The rows of heads among those of an endless text, for a reader that has the line of the text behind the rows so far.
/// Contracts see what has to come yet of a head.
///
/// It takes memory for one head if a text has several parts: at most 733,960 octets.
#[derive(Drop)]
pub struct HeadRows {
    /// The text of a head.
    head: Vec<u8>,
    /// How many octets of it have come.
    come: usize,
}

impl Model for HeadRows {
    ghost use Rattle.std.specs.Prelude.{◌≤◌, ℕ, List, drop, length};

    ghost Value = { List ℕ };

    ghost view = { λ h. drop h.come h.head.items };

    ghost invariant = { λ h. h.come ≤ length h.head.items };
}

impl HeadRows {
    /// Returns the reader of rows where no head has begun.
    pub fn new(alloc: Global) -> HeadRows
        ensures { result ≡ [] }
    {
        HeadRows {
            head: Vec::new(alloc),
            come: 0,
        }
    }

    /// Returns what has to come yet of a head; empty if no head lacks rows.
    pub fn awaited(&self) -> &[u8]
        ensures { result.now ≡ self.now }
    {
        &self.head[self.come..]
    }

    /// Returns whether no head lacks rows.
    pub fn is_between(&self) -> bool
        ensures { result ≡ (length self.now == 0) }
    {
        self.come == self.head.len()
    }

    /// Takes the next row of the text, without its LF, if it is one of a head, and returns whether it is. The head that is due
    /// with the header of a part is that of this line, of this number, and of the sum of its ticks so far. `buffer` is a
    /// buffer.
    ///
    /// Otherwise returns `NotThePolicy` if it is not the row of the head that is due, with the number of the next entry's
    /// row; or `OutOfMemory`, at the header of a part only, and then nothing has changed.
    pub fn take_row(
        &mut self,
        number: u8,
        line: &LineState,
        time: Option<u64>,
        row: &[u8],
        buffer: &mut Text,
    ) -> Result<bool, AuditFault>
        ensures ok { IfOk result (λ is_head. TakesHead is_head (check_of number (record { world = line.now.world; time = time }) self.old) row.now
            (check_of number (record { world = line.now.world; time = time }) self.new)) }
        ensures err { IfErr result (λ fault. fault ≢ AuditFault.OutOfMemory
            → head_taken (check_of number (record { world = line.now.world; time = time }) self.old) row.now ≡ Some (Err fault)) }
        ensures memory { IfErr result (λ fault. fault ≡ AuditFault.OutOfMemory
            → begins_head (check_of number (record { world = line.now.world; time = time }) self.old) row.now ≡ true) }
        ensures unchanged { result ≡ Err AuditFault.OutOfMemory → self.new ≡ self.old }
    {
        if self.is_between() {
            if place_in_row(number, row, buffer).is_none() {
                return Ok(false);
            }
            self.begin_head(number, line, time, buffer)?;
        }
        self.take_head_row(line, row)
    }

    /// Makes the head that is due with the header of a part.
    fn begin_head(
        &mut self,
        number: u8,
        line: &LineState,
        time: Option<u64>,
        buffer: &mut Text,
    ) -> Result<(), AuditFault>
        ensures ok { OnOk result (check_of number (record { world = line.now.world; time = time }) self.new
            ≡ with_head (check_of number (record { world = line.now.world; time = time }) self.old)) }
        ensures err { IfErr result (λ fault. (fault ≡ AuditFault.OutOfMemory) × (self.new ≡ [])) }
    {
        self.head.clear();
        self.come = 0;
        match push_head(&mut self.head, number, line, time, buffer) {
            Ok(()) => Ok(()),
            Err(_) => {
                self.head.clear();
                Err(AuditFault::OutOfMemory)
            }
        }
    }

    /// Takes a row of a head.
    #[tactic(auto, using(crate::proofs::Taking::row_found))]
    fn take_head_row(&mut self, line: &LineState, row: &[u8]) -> Result<bool, AuditFault>
        ensures ok { IfOk result (λ is_head. (is_head ≡ true) × ((number : ℕ) (time : Option ℕ) → head_row_taken (check_of number (record { world = line.now.world; time = time }) self.old) row.now
            ≡ Ok (check_of number (record { world = line.now.world; time = time }) self.new, None))) }
        ensures err { IfErr result (λ fault. (fault ≢ AuditFault.OutOfMemory) × ((number : ℕ) (time : Option ℕ) → head_row_taken (check_of number (record { world = line.now.world; time = time }) self.old) row.now ≡ Err fault)) }
    {
        if !begins_with_row(&self.head[self.come..], row) {
            return Err(AuditFault::NotThePolicy(u64::from(line.count()) + 2));
        }
        self.come += row.len() + 1;
        Ok(true)
    }
}

/// Returns whether a text begins with a row and its LF.
fn begins_with_row(text: &[u8], row: &[u8]) -> bool
    ensures { result ≡ is_some (behind_row row.now text.now) }
{
    match text.strip_prefix(row) {
        Some(rest) => rest.strip_prefix(b"\n").is_some(),
        None => false,
    }
}
