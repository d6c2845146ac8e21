//! The paths of audit texts.

ghost use Rattle.std.specs.Prelude.{◌≡◌, Some};
ghost use Rattle.audit_files.specs.AuditPaths.{audit_path_text, in_part, leading_zeros};

use std::fmt;

/// The path of the folder of audit texts, or of a file in it. Its `Display` allocates no memory.
#[derive(Clone, Copy, Debug)]
pub enum AuditPath<'a> {
    /// The folder, as it is named on the command line.
    Folder(&'a str),
    /// A file in the folder: `FOLDER/line-N-K.audit`, or `FOLDER/line-N-K.000001.audit` for a part.
    File {
        /// The folder.
        folder: &'a str,
        /// The number of the line.
        line: u8,
        /// The number of the text among those of the line, from 1.
        number: u32,
        /// The number of the part, from 1, or `None` if the text has one file.
        part: Option<u32>,
    },
}

impl<'a> fmt::Display for AuditPath<'a> {
    ghost output = { λ path. Some (audit_path_text path) };

    fn fmt<W: fmt::Write>(&self, f: &mut fmt::Formatter<W>) -> fmt::Result {
        match self {
            AuditPath::Folder(folder) => f.write_str(folder),
            AuditPath::File {
                folder,
                line,
                number,
                part: None,
            } => write!(f, "{folder}/line-{line}-{number}.audit"),
            AuditPath::File {
                folder,
                line,
                number,
                part: Some(part),
            } => {
                let zeros = leading_zeros(*part);
                write!(f, "{folder}/line-{line}-{number}.{zeros}{part}.audit")
            }
        }
    }
}

impl<'a> AuditPath<'a> {
    /// Returns the path of the folder.
    pub(crate) fn folder(self) -> &'a str {
        match self {
            AuditPath::Folder(folder) => folder,
            AuditPath::File { folder, .. } => folder,
        }
    }

    /// Returns the path of this part of the text, or for `None` the path of a text with one file. The path of a folder is
    /// returned unchanged.
    pub(crate) fn in_part(self, part: Option<u32>) -> AuditPath<'a>
        ensures { result ≡ in_part self.entry part }
    {
        match self {
            AuditPath::Folder(folder) => AuditPath::Folder(folder),
            AuditPath::File {
                folder,
                line,
                number,
                ..
            } => AuditPath::File {
                folder,
                line,
                number,
                part,
            },
        }
    }
}

/// Returns the zeros that fill a number up to six digits.
pub(crate) fn leading_zeros(number: u32) -> &'static str
    ensures { result.now ≡ leading_zeros number }
{
    if number < 10 {
        "00000"
    } else if number < 100 {
        "0000"
    } else if number < 1_000 {
        "000"
    } else if number < 10_000 {
        "00"
    } else if number < 100_000 {
        "0"
    } else {
        ""
    }
}
