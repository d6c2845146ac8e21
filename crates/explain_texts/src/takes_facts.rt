//! What receives the facts of an explanation.
//!
//! An explanation is a list of facts: an entry for each chosen one, the summary, and the verdict. It knows nothing of
//! texts. What is written of a fact is a matter of the receiver: [`RowWriter`](crate::RowWriter) writes rows for a person,
//! [`JsonWriter`](crate::JsonWriter) lines of JSON for a program.

ghost use Rattle.std.specs.Prelude.{Result};
ghost use Rattle.explain_texts.specs.declared.explain_fault.ExplainFault.{ExplainFault as Fault};
ghost use Rattle.explain_texts.specs.Reported.{Reported, entry_reported, reports_verdict, summary_reported};

use crate::explain_fault::ExplainFault;
use crate::summary::Summary;
use dp_audit::AuditFault;
use explain_events::ExplainedEntry;

/// A receiver of entries.
pub trait TakesEntries {
    /// What taking a fact, and its result, leave of the receiver.
    ghost takes: { Self → Reported → Result (Unit {0}) Fault → Self → Type 0 };

    /// Takes an entry. Returns `OutOfMemory` if memory runs out, and `WriteFault` if a write fails.
    fn take_entry(&mut self, entry: &ExplainedEntry<'_>) -> Result<(), ExplainFault>
        ensures { takes self.old (entry_reported entry.now) result self.new };
}

/// A receiver of all facts of an explanation. The faults are those of [`TakesEntries::take_entry`].
pub trait TakesFacts: TakesEntries {
    /// Takes the summary, after the last entry.
    fn take_summary(&mut self, summary: &Summary<'_>) -> Result<(), ExplainFault>
        ensures { Self.takes self.old (summary_reported summary.now) result self.new };

    /// Takes the verdict, which comes last.
    fn take_verdict(&mut self, verdict: Result<u32, AuditFault>) -> Result<(), ExplainFault>
        ensures { Self.takes self.old (reports_verdict verdict) result self.new };
}
