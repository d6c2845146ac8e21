//! The facts of an explanation as rows.

ghost use Rattle.std.specs.Prelude.{◌≡◌};

use crate::explain_fault::ExplainFault;
use crate::output::{write_fronted, write_rows, write_text};
use crate::summary::Summary;
use crate::summary_rows::SummaryRows;
use crate::takes_facts::{TakesEntries, TakesFacts};
use crate::verdict_words::set_verdict;
use dp_audit::AuditFault;
use dp_text::Text;
use explain_events::ExplainedEntry;
use std::alloc::Global;
use std::io::Write;

/// Writes facts as rows on a writer. It takes memory for the rows of one entry, or of the summary.
#[derive(Drop)]
pub struct RowWriter<W> {
    /// A buffer for the rows of one fact.
    rows: String,
    pub writer: W,
}

impl<W: Write> RowWriter<W> {
    /// Returns a receiver that writes on this writer. It takes no memory yet.
    pub fn new(alloc: Global, writer: W) -> RowWriter<W>
        ensures { result.writer ≡ writer }
    {
        RowWriter {
            rows: String::new(alloc),
            writer,
        }
    }

    /// Returns the writer.
    pub fn into_writer(self) -> W
        ensures { result ≡ self.writer }
    {
        self.writer
    }
}

impl<W: Write> TakesEntries for RowWriter<W> {
    ghost use Rattle.explain_texts.specs.Written.{WritesRows};

    ghost takes = { λ old fact result new. WritesRows fact (W.contents old.writer) (W.contents new.writer) result };

    fn take_entry(&mut self, entry: &ExplainedEntry<'_>) -> Result<(), ExplainFault> {
        write_rows(entry, &mut self.rows, &mut self.writer)
    }
}

impl<W: Write> TakesFacts for RowWriter<W> {
    fn take_summary(&mut self, summary: &Summary<'_>) -> Result<(), ExplainFault> {
        write_fronted(
            "holds\n",
            &SummaryRows(*summary),
            &mut self.rows,
            &mut self.writer,
        )
    }

    fn take_verdict(&mut self, verdict: Result<u32, AuditFault>) -> Result<(), ExplainFault> {
        let mut text = Text::new();
        set_verdict(&mut text, verdict);
        write_text(&text, &mut self.writer)
    }
}
