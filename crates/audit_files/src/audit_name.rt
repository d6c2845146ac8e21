//! The names of the files of audit texts.

ghost use Rattle.std.specs.Prelude.{◌≡◌, Some};
ghost use Rattle.std.specs.Fmt.{decimal};
ghost use Rattle.audit_files.specs.AuditNames.{audit_name_text, is_same_text, next_part, path_in};
ghost use Rattle.audit_files.specs.ReadNames.{IsFileName, IsFileNumber, IsLineNumber, IsReadFrom, IsTextNumber, numbers_text, part_digits, text_number_text};

use crate::audit_path::{AuditPath, leading_zeros};
use std::fmt;

/// The end of the name of every audit text.
const ENDING: &str = ".audit";

/// The name of a file of an audit text: `line-N-K.audit`, or `line-N-K.000001.audit` for a part. Its `Display` is the name.
#[derive(Clone, Copy, Debug, PartialEq, Eq)]
pub struct AuditName {
    /// The number of the line.
    pub line: u8,
    /// The number of the text among those of the line, from 1.
    pub number: u32,
    /// The number of the part, from 1; None if the text has one file.
    pub part: Option<u32>,
}

impl fmt::Display for AuditName {
    ghost output = { λ name. Some (audit_name_text name) };

    fn fmt<W: fmt::Write>(&self, f: &mut fmt::Formatter<W>) -> fmt::Result {
        let line = self.line;
        let number = self.number;
        match self.part {
            None => write!(f, "line-{line}-{number}.audit"),
            Some(part) => {
                let zeros = leading_zeros(part);
                write!(f, "line-{line}-{number}.{zeros}{part}.audit")
            }
        }
    }
}

impl AuditName {
    /// Reads a name. Returns None if no file of an audit text has it: its numbers are decimal without zeros in front, but that of
    /// a part has six digits at least.
    pub fn from_name(name: &str) -> Option<AuditName>
        ensures { IsReadFrom audit_name_text IsFileName name.now result }
    {
        numbers_in(name.strip_prefix("line-")?.strip_suffix(ENDING)?)
    }

    /// Returns the name of the next part of the text; None if the text has one file, or this is the last part that may be.
    pub fn next_part(self) -> Option<AuditName>
        ensures { result ≡ next_part self }
    {
        match self.part {
            None => None,
            Some(part) => {
                if part == u32::MAX {
                    return None;
                }
                Some(AuditName {
                    line: self.line,
                    number: self.number,
                    part: Some(part + 1),
                })
            }
        }
    }

    /// Returns the name of the part with this number of the same text.
    pub(crate) fn of_part(self, part: u32) -> AuditName
        ensures { result ≡ record self { part = Some part } }
    {
        AuditName {
            line: self.line,
            number: self.number,
            part: Some(part),
        }
    }

    /// Returns whether both are names of files of one text: of the same line, with the same number.
    pub fn is_same_text(self, other: AuditName) -> bool
        ensures { result ≡ is_same_text self other }
    {
        self.line == other.line && self.number == other.number
    }

    /// Returns the path of the file of this name in a folder.
    pub fn path_in(self, folder: &str) -> AuditPath<'_>
        ensures { result ≡ path_in folder.entry self }
    {
        AuditPath::File {
            folder,
            line: self.line,
            number: self.number,
            part: self.part,
        }
    }
}

/// Reads the numbers of a name: `N-K`, or `N-K.000001` for a part.
fn numbers_in(words: &str) -> Option<AuditName>
    ensures { IsReadFrom numbers_text IsFileName words.now result }
{
    let (line, rest) = words.split_once('-')?;
    let line = line_in(line)?;
    let (number, part) = text_number_in(rest)?;
    Some(AuditName { line, number, part })
}

/// Reads the number of a text, and that of the part if the text has parts: `K` or `K.000001`.
fn text_number_in(words: &str) -> Option<(u32, Option<u32>)>
    ensures { IsReadFrom text_number_text IsTextNumber words.now result }
{
    match words.split_once('.') {
        None => Some((number_in(words)?, None)),
        Some((number, part)) => Some((number_in(number)?, Some(part_in(part)?))),
    }
}

/// Reads the number of a line, from 1 to 255, without zeros in front.
fn line_in(digits: &str) -> Option<u8>
    ensures { IsReadFrom decimal IsLineNumber digits.now result }
{
    let number = number_in(digits)?;
    if number > u32::from(u8::MAX) {
        return None;
    }
    Some(number as u8)
}

/// Reads a number from 1 on without zeros in front.
fn number_in(digits: &str) -> Option<u32>
    ensures { IsReadFrom decimal IsFileNumber digits.now result }
{
    match digits.as_bytes() {
        [] => None,
        [first, ..] => {
            if *first <= b'0' {
                return None;
            }
            digits.parse::<u32>().ok()
        }
    }
}

/// Reads the number of a part: six digits, or more if the first is no zero.
fn part_in(digits: &str) -> Option<u32>
    ensures { IsReadFrom part_digits IsFileNumber digits.now result }
{
    let part = digits.parse::<u32>().ok()?;
    let rest = digits.strip_prefix(leading_zeros(part))?;
    if number_in(rest)? == part {
        Some(part)
    } else {
        None
    }
}
