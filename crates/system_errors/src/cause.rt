//! Why the program cannot open, read or write a file, or use a port.

ghost use Rattle.std.specs.Prelude.{◌≡◌, Some};
ghost use Rattle.std.specs.IoError.{error_kind, raw_os_error};
ghost use Rattle.system_errors.specs.CauseTexts.{cause_text};
ghost use Rattle.system_errors.specs.SystemErrors.{cause_of_error, cause_of_number};

use std::fmt;
use std::io::{self, ErrorKind};

/// The system's error numbers for too many open files: of the program, and of the system.
const TOO_MANY_FILES: u32 = 24;

const TOO_MANY_FILES_IN_ALL: u32 = 23;

/// Why the program cannot open, read or write a file, or use a port. Its `Display` is the second row on standard
/// error, without its LF.
#[derive(Clone, Copy, Debug, PartialEq, Eq)]
pub enum Cause {
    /// There is no file or folder with this path.
    NotThere,
    /// The system does not permit access.
    NoPermission,
    /// The path is that of a folder.
    IsFolder,
    /// A part of the path before a `/` is no folder.
    NoFolder,
    /// A file, a folder or a link has this path already, and must not be replaced.
    IsThere,
    /// The file is not UTF-8.
    NotText,
    /// Another program has the port.
    InUse,
    /// Two ports of the rack have the same number.
    TwiceInRack,
    /// There are too few file descriptors.
    FewDescriptors,
    /// There is no space left.
    NoSpace,
    /// The file system is read-only.
    ReadOnly,
    /// No program listens at the port.
    NobodyListens,
    /// The file did not take all bytes that were written to it.
    NotTaken,
    /// Entries of an endless line were forgotten before they were written to the file.
    Forgotten,
    /// A text of the line has the highest number of a text, so that no number is above it.
    NoNumber,
    /// The system gives no cause except this error number.
    Code(u32),
    /// No cause is known.
    Unknown,
}

impl Cause {
    /// Returns the cause of an error of the system.
    pub fn from_error(error: &io::Error) -> Cause
        ensures { result ≡ cause_of_error (error_kind error.now) (raw_os_error error.now) }
    {
        Cause::of_kind(error.kind(), error.raw_os_error())
    }

    /// Returns the cause of an error of this kind, with this number of the system if it has one.
    pub fn of_kind(kind: ErrorKind, number: Option<i32>) -> Cause
        ensures { result ≡ cause_of_error kind number }
    {
        match kind {
            ErrorKind::NotFound => Cause::NotThere,
            ErrorKind::PermissionDenied => Cause::NoPermission,
            ErrorKind::IsADirectory => Cause::IsFolder,
            ErrorKind::NotADirectory => Cause::NoFolder,
            ErrorKind::AlreadyExists => Cause::IsThere,
            ErrorKind::InvalidData => Cause::NotText,
            ErrorKind::AddrInUse => Cause::InUse,
            ErrorKind::StorageFull => Cause::NoSpace,
            ErrorKind::ReadOnlyFilesystem => Cause::ReadOnly,
            ErrorKind::ConnectionRefused => Cause::NobodyListens,
            _ => Cause::of_number(number),
        }
    }

    /// Returns the cause of an error number of the system.
    fn of_number(number: Option<i32>) -> Cause
        ensures { result ≡ cause_of_number number }
    {
        let Some(number) = number else {
            return Cause::Unknown;
        };
        let Ok(number) = u32::try_from(number) else {
            return Cause::Unknown;
        };
        if number == TOO_MANY_FILES || number == TOO_MANY_FILES_IN_ALL {
            return Cause::FewDescriptors;
        }
        Cause::Code(number)
    }
}

impl fmt::Display for Cause {
    ghost output = { λ cause. Some (cause_text cause) };

    fn fmt<W: fmt::Write>(&self, f: &mut fmt::Formatter<W>) -> fmt::Result {
        match self {
            Cause::NotThere => f.write_str("  no such file or folder"),
            Cause::NoPermission => f.write_str("  permission denied"),
            Cause::IsFolder => f.write_str("  it is a folder, not a file"),
            Cause::NoFolder => f.write_str(
                "  a part of the path before the last '/' is not a folder",
            ),
            Cause::IsThere => f.write_str("  a file or folder of this name exists already"),
            Cause::NotText => f.write_str("  it is not UTF-8 text"),
            Cause::InUse => f.write_str("  another program uses this port"),
            Cause::TwiceInRack => f.write_str("  the rack file has this port twice"),
            Cause::FewDescriptors => f.write_str(
                "  too few file descriptors; 'ulimit -n' shows and raises their number",
            ),
            Cause::NoSpace => f.write_str("  no space left on the disk"),
            Cause::ReadOnly => f.write_str("  the file system is read-only"),
            Cause::NobodyListens => f.write_str("  no program listens on this port"),
            Cause::NotTaken => f.write_str("  a row was written only in part"),
            Cause::Forgotten => f.write_str("  memory lost entries before they were written"),
            Cause::NoNumber => f.write_str(
                "  an audit text of the line has the highest number; choose another folder",
            ),
            Cause::Code(code) => write!(f, "  system error {code}"),
            Cause::Unknown => f.write_str("  the system gives no cause"),
        }
    }
}
