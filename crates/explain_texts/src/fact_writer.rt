//! The facts of an explanation in the form that is chosen at run time.

use crate::explain_fault::ExplainFault;
use crate::json_writer::JsonWriter;
use crate::row_writer::RowWriter;
use crate::summary::Summary;
use crate::takes_facts::{TakesEntries, TakesFacts};
use dp_audit::AuditFault;
use explain_events::ExplainedEntry;
use std::alloc::Global;
use std::io::Write;

/// Writes facts on a writer, as rows or as lines of JSON.
#[derive(Drop)]
pub enum FactWriter<W> {
    Rows(RowWriter<W>),
    Json(JsonWriter<W>),
}

impl<W: Write> FactWriter<W> {
    /// Returns a receiver that writes on this writer: lines of JSON, or else rows. It takes no memory yet.
    pub fn new(alloc: Global, as_json: bool, writer: W) -> FactWriter<W> {
        if as_json {
            FactWriter::Json(JsonWriter::new(alloc, writer))
        } else {
            FactWriter::Rows(RowWriter::new(alloc, writer))
        }
    }

    /// Returns the writer.
    pub fn into_writer(self) -> W {
        match self {
            FactWriter::Rows(rows) => rows.into_writer(),
            FactWriter::Json(json) => json.into_writer(),
        }
    }
}

impl<W: Write> TakesEntries for FactWriter<W> {
    ghost use Rattle.explain_texts.specs.Written.{TakesByForm};

    ghost takes = { λ old fact result new. TakesByForm W.contents old fact result new };

    fn take_entry(&mut self, entry: &ExplainedEntry<'_>) -> Result<(), ExplainFault> {
        match self {
            FactWriter::Rows(rows) => rows.take_entry(entry),
            FactWriter::Json(json) => json.take_entry(entry),
        }
    }
}

impl<W: Write> TakesFacts for FactWriter<W> {
    fn take_summary(&mut self, summary: &Summary<'_>) -> Result<(), ExplainFault> {
        match self {
            FactWriter::Rows(rows) => rows.take_summary(summary),
            FactWriter::Json(json) => json.take_summary(summary),
        }
    }

    fn take_verdict(&mut self, verdict: Result<u32, AuditFault>) -> Result<(), ExplainFault> {
        match self {
            FactWriter::Rows(rows) => rows.take_verdict(verdict),
            FactWriter::Json(json) => json.take_verdict(verdict),
        }
    }
}
