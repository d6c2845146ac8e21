//! What is judged, and how it is written.

use judge_findings::Least;
use judge_rules::JudgeRule;

/// How findings are written.
#[derive(Clone, Copy, Debug, PartialEq, Eq)]
pub enum Form {
    /// As rows of text, with a summary.
    Rows,
    /// As lines of JSON.
    Json,
    /// As JUnit XML.
    Junit,
}

/// Which findings are written, and how.
#[derive(Clone, Copy)]
pub struct JudgeChoice<'a> {
    /// The rules, in the order in which the findings of an entry are written.
    pub rules: &'a [JudgeRule],
    /// Only this master is judged; None judges all masters of the line.
    pub master: Option<u8>,
    /// How often a request may be sent again without an answer.
    pub retries: u8,
    /// How the findings are written.
    pub form: Form,
    /// How much the masters must do; if they do less, something is untested.
    pub least: Least,
    /// Whether the exit status may be 0 although something is untested.
    pub allows_untested: bool,
}
