//! The verdict on an audit text whose rows were read.

ghost use Rattle.std.specs.Prelude.{◌≡◌, None, IfErr};
ghost use Rattle.explain_texts.specs.Followed.{verdict_by};
ghost use Rattle.explain_texts.specs.ExplainedRows.{Reads};

use crate::read_fault::ReadFault;
use dp_audit::AuditFault;

/// The number of entries of a legal text, or the fault of the first wrong row.
pub(crate) type Verdict = Result<u32, AuditFault>;

/// Returns the verdict on a text of this many right entries, with this text behind the last LF.
pub(crate) fn verdict_at_end(count: u32, last: &[u8]) -> Verdict
    ensures { result ≡ verdict_by None count last.now }
{
    if last.is_empty() {
        Ok(count)
    } else {
        Err(AuditFault::BadLine(u64::from(count) + 2))
    }
}

/// Returns the verdict on a text whose last row is this one. Returns `NotText` if the text is not legal and the row is not
/// UTF-8.
pub fn readable(
    verdict: Result<u32, AuditFault>,
    row: &[u8],
) -> Result<Result<u32, AuditFault>, ReadFault>
    ensures verdict { Reads verdict row.now result }
    ensures named { IfErr result (λ fault. fault ≡ ReadFault.NotText) }
{
    if verdict.is_ok() {
        return Ok(verdict);
    }
    match std::str::from_utf8(row) {
        Ok(_) => Ok(verdict),
        Err(_) => Err(ReadFault::NotText),
    }
}
