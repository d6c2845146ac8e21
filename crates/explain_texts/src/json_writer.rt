//! The facts of an explanation as lines of JSON.

ghost use Rattle.std.specs.Prelude.{◌≡◌};
ghost use Rattle.explain_texts.specs.Json.{entry_front};

use crate::explain_fault::ExplainFault;
use crate::json_text::JsonText;
use crate::output::{write_after, write_text};
use crate::summary::Summary;
use crate::takes_facts::{TakesEntries, TakesFacts};
use crate::verdict_words::set_verdict_line;
use dp_audit::AuditFault;
use dp_text::Text;
use explain_events::ExplainedEntry;
use std::alloc::Global;
use std::io::Write;

/// Writes facts as lines of JSON on a writer: a line for each entry, lines for the summary, and a line for the verdict. It
/// takes memory for the lines of one fact.
#[derive(Drop)]
pub struct JsonWriter<W> {
    /// A buffer for the lines of one fact.
    lines: JsonText,
    pub writer: W,
}

impl<W: Write> JsonWriter<W> {
    /// Returns a receiver that writes on this writer. It takes no memory yet.
    pub fn new(alloc: Global, writer: W) -> JsonWriter<W>
        ensures { result.writer ≡ writer }
    {
        JsonWriter {
            lines: JsonText::new(alloc),
            writer,
        }
    }

    /// Returns the writer.
    pub fn into_writer(self) -> W
        ensures { result ≡ self.writer }
    {
        self.writer
    }
}

impl<W: Write> TakesEntries for JsonWriter<W> {
    ghost use Rattle.explain_texts.specs.Written.{WritesLine};

    ghost takes = { λ old fact result new. WritesLine fact (W.contents old.writer) (W.contents new.writer) result };

    fn take_entry(&mut self, entry: &ExplainedEntry<'_>) -> Result<(), ExplainFault> {
        self.lines.set_entry(entry);
        let front = entry_front(entry.place);
        match self.lines.octets() {
            Ok(line) => write_after(front.as_bytes(), line, &mut self.writer),
            Err(fault) => Err(fault),
        }
    }
}

impl<W: Write> TakesFacts for JsonWriter<W> {
    fn take_summary(&mut self, summary: &Summary<'_>) -> Result<(), ExplainFault> {
        self.lines.set_summary(summary);
        match self.lines.octets() {
            Ok(lines) => write_after(b"", lines, &mut self.writer),
            Err(fault) => Err(fault),
        }
    }

    fn take_verdict(&mut self, verdict: Result<u32, AuditFault>) -> Result<(), ExplainFault> {
        let mut text = Text::new();
        set_verdict_line(&mut text, verdict);
        write_text(&text, &mut self.writer)
    }
}

/// Returns the front of the line of the entry at a place.
fn entry_front(place: u64) -> Text
    ensures { result ≡ entry_front place }
{
    let mut front = Text::new();
    front.push_str("{\"version\":2,\"kind\":\"entry\",\"place\":");
    front.push_long(place);
    front
}
