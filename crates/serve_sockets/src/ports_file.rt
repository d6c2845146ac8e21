//! The file that names the ports of a rack that is served.

ghost use Rattle.std.specs.Prelude.{◌≡◌, ◌++◌, IfOk, OnOk, Some};
ghost use Rattle.serve_sockets.specs.PortFiles.{path_beside};
ghost use Rattle.serve_sockets.specs.Ports.{ports_row, ports_text};

use crate::line_ports::LinePorts;
use crate::named_ports::names_ports;
use std::alloc::{AllocError, Global};
use std::fmt;
use std::fs::{self, File, Files, OpenOptions};
use std::io::{self, Error, ErrorKind, Read, Write};
use std::os::unix::fs::OpenOptionsExt;

/// The mode of a new file, of which the umask takes away.
const NEW_MODE: u32 = 0o644;

/// The highest number in the path of the file beside.
const MOST_BESIDE: u32 = 99;

/// The most bytes of a file that names ports. A rack has at most eight lines, whose rows have 37 bytes at most.
const LONGEST_PORTS: u64 = 65_536;

/// The path of a file beside that at another path. Its `Display` is the path.
#[derive(Clone, Copy)]
struct PathBeside<'a> {
    /// The path of the file that is to be replaced.
    path: &'a str,
    /// How many paths were tried before.
    number: u32,
}

impl fmt::Display for PathBeside<'_> {
    ghost output = { λ beside. Some (path_beside beside.path.now beside.number) };

    fn fmt<W: fmt::Write>(&self, f: &mut fmt::Formatter<W>) -> fmt::Result {
        let path = self.path;
        let number = self.number;
        match number {
            0 => write!(f, "{path}.new"),
            _ => write!(f, "{path}.new.{number}"),
        }
    }
}

/// Writes the ports of all lines to the file at `path`, as [`replace_file`] does.
///
/// Returns the error of the first call that failed, `OutOfMemory` if memory is refused.
pub fn report_ports<F: Files<File = File>>(
    files: &F,
    alloc: Global,
    path: &str,
    ports: &[LinePorts],
) -> io::Result<()> {
    match text_of_ports(alloc, ports) {
        Ok(text) => replace_file(files, alloc, path, text.as_str()),
        Err(_) => Err(Error::from(ErrorKind::OutOfMemory)),
    }
}

/// Writes a text to the file at `path`. The file appears whole: the text is written to a new file beside it, whose path ends in
/// `.new`, or in `.new.1` to `.new.99` if that one is there, and which is then renamed. Its owner may read and write it and all
/// others may read it, as far as the umask permits. A file that was at `path` is replaced if it is an ordinary file, no link,
/// and names ports or is empty. No other file is changed, and no link is followed.
///
/// Returns the error of the first call that failed, `OutOfMemory` if memory is refused, `AlreadyExists` if something is at `path`
/// that is not replaced, or at each path beside it. What is at `path` is unchanged then, and the new file is removed.
pub fn replace_file<F: Files<File = File>>(
    files: &F,
    alloc: Global,
    path: &str,
    text: &str,
) -> io::Result<()> {
    let (beside, file) = create_beside(files, alloc, path)?;
    let replaced = write_and_rename(files, alloc, file, beside.as_str(), path, text);
    if replaced.is_err() {
        let _ = fs::remove_file(files, beside.as_str());
    }
    replaced
}

/// Creates a new file beside that at a path, and returns its path and the file.
///
/// Returns `AlreadyExists` if something is at each path that is tried, or the error of the first call that failed.
fn create_beside<F: Files<File = File>>(
    files: &F,
    alloc: Global,
    path: &str,
) -> io::Result<(String, File)> {
    for number in 0..=MOST_BESIDE {
        let Ok(beside) = path_beside(alloc, path, number) else {
            return Err(Error::from(ErrorKind::OutOfMemory));
        };
        match create_new(files, beside.as_str()) {
            Ok(file) => return Ok((beside, file)),
            Err(error) => match error.kind() {
                ErrorKind::AlreadyExists => {}
                _ => return Err(error),
            },
        }
    }
    Err(Error::from(ErrorKind::AlreadyExists))
}

/// Returns the path of the file beside that is tried as this number, 0 as the first one. Returns an error if memory is refused.
fn path_beside(alloc: Global, path: &str, number: u32) -> Result<String, AllocError>
    ensures { IfOk result (λ beside. beside.bytes.items ≡ path_beside path.now number) }
{
    let beside = PathBeside { path, number };
    format!(in alloc; "{beside}")
}

/// Creates a file and opens it for writing. Fails with `AlreadyExists` if the path exists, also if it is that of a link.
fn create_new<F: Files<File = File>>(files: &F, path: &str) -> io::Result<File> {
    let mut options = OpenOptions::new();
    options.write(true).create_new(true).mode(NEW_MODE);
    options.open(files, path)
}

/// Writes a text to the new file beside, and renames it. A file that was at its path is replaced, if it may be.
fn write_and_rename<F: Files<File = File>>(
    files: &F,
    alloc: Global,
    file: File,
    beside: &str,
    path: &str,
    text: &str,
) -> io::Result<()> {
    let mut file = file;
    file.write_all(text.as_bytes())?;
    drop(file);
    if !may_replace(files, alloc, path)? {
        return Err(Error::from(ErrorKind::AlreadyExists));
    }
    fs::rename(files, beside, path)
}

/// Returns whether a file may take this path: nothing is there, or an ordinary file that names ports or is empty.
///
/// Returns the error of the first call that failed, `OutOfMemory` if memory is refused.
fn may_replace<F: Files<File = File>>(files: &F, alloc: Global, path: &str) -> io::Result<bool> {
    let found = match fs::symlink_metadata(files, path) {
        Ok(found) => found,
        Err(error) => match error.kind() {
            ErrorKind::NotFound => return Ok(true),
            _ => return Err(error),
        },
    };
    if !found.is_file() || found.len() > LONGEST_PORTS {
        return Ok(false);
    }
    let mut text = Vec::new(alloc);
    let mut file = File::open(files, path)?.take(LONGEST_PORTS);
    file.read_to_end(&mut text)?;
    Ok(names_ports(text.as_slice()))
}

/// Returns the text that names these ports: a row for each line, in this order. Returns an error if memory is refused.
pub fn text_of_ports(alloc: Global, ports: &[LinePorts]) -> Result<String, AllocError>
    ensures { IfOk result (λ text. text.bytes.items ≡ ports_text ports.now) }
{
    let mut text = String::new(alloc);
    for line in ports {
        push_row(&mut text, line)?;
    }
    Ok(text)
}

/// Appends the row of a line. Returns an error if memory is refused.
fn push_row(text: &mut String, ports: &LinePorts) -> Result<(), AllocError>
    ensures { OnOk result (text.new.bytes.items ≡ text.old.bytes.items ++ ports_row ports.now) }
{
    match write!(text, "{ports}") {
        Ok(()) => Ok(()),
        Err(_) => Err(AllocError),
    }
}
