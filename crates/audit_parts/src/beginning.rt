//! The beginning of an endless audit text, or of one of its later parts.

ghost use Rattle.std.specs.Prelude.{◌≡◌, ◌≢◌, ◌+◌, ◌*◌, ◌≤◌, is_some, false, length, nat_lt, None, Ok, Err, IfOk, IfErr, MatchResult};
ghost use Rattle.std.specs.List.{count_by};
ghost use Rattle.dp_slave.specs.declared.description.SlaveSpec.{SlaveSpec as Slaves};
ghost use Rattle.dp_line.specs.World.{description_of, opening_fault};
ghost use Rattle.audit_heads.specs.Head.{place_of_row};
ghost use Rattle.audit_heads.specs.HeadLines.{line_read};
ghost use Rattle.audit_parts.specs.Parts.{begun_later, fault_of_head, first_part, parts_begun, row_of_unsound};

use crate::parts_check::PartsCheck;
use audit_heads::{HeadFault, ReadHead, place_in_row, read_head};
use dp_audit::{AuditFault, set_header_line, version_of};
use dp_line::{LineSpec, LineState, RestoreFault, SlaveSpec};
use dp_text::Text;
use std::alloc::Global;
use std::io::{self, BufRead};

/// Returns whether a row, without its LF, is the header of a later part of the line's text.
pub fn is_part_header(line: &LineSpec, row: &[u8]) -> bool
    ensures { result ≡ is_some (place_of_row line.now.number row.now) }
{
    place_in_row(line.number, row, &mut Text::new()).is_some()
}

/// Returns how many rows a head of the line has behind its header: one of the line, and for each slave six and one for each
/// master.
pub fn rows_behind_header(line: &LineSpec) -> usize
    requires { opening_fault (description_of line.now) ≡ None }
    ensures { result ≡ length line.now.slaves.items * (6 + length line.now.masters.items) + 1 }
{
    line.slaves.len() * (6 + line.masters.len()) + 1
}

/// Reads the rest of the rows with which an endless audit text begins, if it begins with the head of a part: `front` has the
/// first row of the text with its LF, and the other rows of the head are appended. Returns whether the first row is the
/// header of a part of the line.
///
/// If it is not, nothing is read. If the text ends before, `front` has what there is. Tests show what is appended; no clause
/// says it. Returns the error of a read that fails, or `OutOfMemory`.
pub fn read_beginning<R: BufRead>(
    line: &LineSpec,
    front: &mut Vec<u8>,
    reader: &mut R,
) -> io::Result<bool>
    requires { opening_fault (description_of line.now) ≡ None }
    ensures unread { result ≡ Ok false → (front.new ≡ front.old) × (reader.new ≡ reader.old) }
{
    let Some(row) = front.strip_suffix(b"\n") else {
        return Ok(false);
    };
    if !is_part_header(line, row) {
        return Ok(false);
    }
    for _ in 0..rows_behind_header(line) {
        reader.read_until(b'\n', front)?;
    }
    Ok(true)
}

/// Begins the check of a text with its first rows, as [`PartsCheck::begin`].
pub(crate) fn begin<'a>(
    alloc: Global,
    line: &LineSpec,
    text: &'a [u8],
    buffer: &mut Text,
) -> Result<(PartsCheck, &'a [u8]), AuditFault>
    requires { opening_fault (description_of line.now) ≡ None }
    ensures ok { IfOk result (λ begun. parts_begun (description_of line.now) text.now ≡ Ok (begun.0, begun.1.now)) }
    ensures err { IfErr result (λ fault. fault ≢ AuditFault.OutOfMemory → parts_begun (description_of line.now) text.now ≡ Err fault) }
{
    set_header_line(buffer, version_of(u32::MAX), line.number);
    match text.strip_prefix(buffer.as_bytes()) {
        Some(rest) => match begin_first(alloc, line) {
            Ok(check) => Ok((check, rest)),
            Err(fault) => Err(fault),
        },
        None => begin_later(alloc, line, text, buffer),
    }
}

/// Begins behind the header of the first part.
fn begin_first(alloc: Global, line: &LineSpec) -> Result<PartsCheck, AuditFault>
    requires { opening_fault (description_of line.now) ≡ None }
    ensures { MatchResult result (λ check. check ≡ first_part (description_of line.now)) (λ fault. fault ≡ AuditFault.OutOfMemory) }
{
    match LineState::open(alloc, line) {
        Ok(state) => {
            let mut state = state;
            state.lift_limit();
            Ok(PartsCheck::behind_beginning(alloc, state, None, line.number))
        }
        Err(_) => Err(AuditFault::OutOfMemory),
    }
}

/// Begins behind the head of a later part.
fn begin_later<'a>(
    alloc: Global,
    line: &LineSpec,
    text: &'a [u8],
    buffer: &mut Text,
) -> Result<(PartsCheck, &'a [u8]), AuditFault>
    requires { opening_fault (description_of line.now) ≡ None }
    ensures ok { IfOk result (λ begun. begun_later (description_of line.now) (line_read (description_of line.now) text.now) ≡ Ok (begun.0, begun.1.now)) }
    ensures err { IfErr result (λ fault. fault ≢ AuditFault.OutOfMemory → begun_later (description_of line.now) (line_read (description_of line.now) text.now) ≡ Err fault) }
{
    match read_head(alloc, line, text, buffer) {
        Ok(
            ReadHead {
                line: state,
                time,
                rows,
            },
        ) => {
            let check = PartsCheck::behind_beginning(alloc, state, time, line.number);
            Ok((check, rows.rest()))
        }
        Err(fault) => Err(fault_of_head(line, fault)),
    }
}

/// Returns the fault of a text that begins with a head of the line, for the fault with which [`read_head`] refuses the head.
pub fn fault_of_head(line: &LineSpec, fault: HeadFault) -> AuditFault
    requires { opening_fault (description_of line.now) ≡ None }
    ensures { result ≡ fault_of_head (description_of line.now) fault }
{
    match fault {
        HeadFault::WrongRow(number) => AuditFault::BadLine(number),
        HeadFault::Unsound(RestoreFault::UnsoundSlave(address)) => {
            AuditFault::NotThePolicy(row_of_slave(line, address))
        }
        HeadFault::Unsound(RestoreFault::SharedPlace) => AuditFault::NotThePolicy(1),
        HeadFault::Unsound(RestoreFault::UnsoundCount) => AuditFault::NotThePolicy(2),
        HeadFault::Unsound(RestoreFault::OutOfMemory) => AuditFault::NotThePolicy(0),
        HeadFault::OutOfMemory => AuditFault::OutOfMemory,
    }
}

/// Returns the number of the first row of the slave of this address in a head.
#[tactic(auto, using(crate::proofs::Taking::rows_fit))]
fn row_of_slave(line: &LineSpec, address: u8) -> u64
    requires slaves { length line.now.slaves.items ≤ 64 }
    requires masters { length line.now.masters.items ≤ 16 }
    ensures { result ≡ row_of_unsound (description_of line.now) (RestoreFault.UnsoundSlave address) }
{
    let rows = 6 + line.masters.len();
    (3 + slaves_below(&line.slaves, address) * rows) as u64
}

/// Returns how many slaves have a lower address.
#[tactic(auto, using(crate::proofs::Taking::counted_most))]
fn slaves_below(slaves: &[SlaveSpec], address: u8) -> usize
    ensures count { result ≡ count_by (λ (slave : Slaves). nat_lt slave.address address) slaves.now }
    ensures most { result ≤ length slaves.now }
{
    slaves
        .iter()
        .filter(|slave| slave.address < address)
        .count()
}
