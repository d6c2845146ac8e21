//! What an explanation reports behind its last entry: the summary, and the verdict.

ghost use Rattle.std.specs.Prelude.{◌≡◌, ◌∷◌, [], unwrap_or};
ghost use Rattle.dp_line.specs.World.{description_of};
ghost use Rattle.explain_texts.specs.Explained.{verdict_status, Explains};
ghost use Rattle.explain_texts.specs.Followed.{ending_facts, followed_summary};
ghost use Rattle.explain_texts.specs.Reports.{LeavesFacts};
ghost use Rattle.explain_texts.specs.Reported.{reports_verdict};

use crate::ended_holds::EndedHolds;
use crate::explain_fault::ExplainFault;
use crate::follower::Follower;
use crate::takes_facts::TakesFacts;
use crate::verdict::Verdict;
use dp_audit::AuditFault;
use dp_line::LineSpec;

/// Reports what follows the last entry: the summary, and then the verdict. Returns the exit status.
pub(crate) fn report_end<T: TakesFacts>(
    follower: &mut Follower<'_>,
    line: &LineSpec,
    ended: &EndedHolds,
    verdict: Verdict,
    receiver: &mut T,
) -> Result<u8, ExplainFault>
    ensures { Explains T.takes verdict (ending_facts (description_of line.now) (unwrap_or ended.now []) follower.old.known verdict) receiver.old receiver.new result }
{
    match follower.report_summary(line, ended, receiver) {
        Ok(()) => report_verdict(verdict, receiver),
        Err(fault) => Err(fault),
    }
}

/// Reports the verdict on an audit text, and returns the exit status: 0 if it is legal, else 1.
fn report_verdict<T: TakesFacts>(
    verdict: Result<u32, AuditFault>,
    receiver: &mut T,
) -> Result<u8, ExplainFault>
    ensures { Explains T.takes verdict (reports_verdict verdict ∷ []) receiver.old receiver.new result }
{
    match receiver.take_verdict(verdict) {
        Ok(()) => Ok(status_of(verdict)),
        Err(fault) => Err(fault),
    }
}

fn status_of(verdict: Result<u32, AuditFault>) -> u8
    ensures { result ≡ verdict_status verdict }
{
    match verdict {
        Ok(_) => 0,
        Err(_) => 1,
    }
}
