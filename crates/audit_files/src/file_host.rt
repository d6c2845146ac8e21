//! What audit files require of the host.

use log::Log;
use std::fs::{self, File, Files, OpenOptions};
use std::io::{ErrorKind, Result};
use std::os::unix::fs::OpenOptionsExt;
use std::sync::Wait;
use std::time::Clock;

/// The mode of a new file, of which the umask takes away.
const NEW_MODE: u32 = 0o644;

/// Creates new files, and removes files.
///
/// It is separate from `Files` because that trait has an associated type. The check does not know that this type may be sent to
/// another thread, and an audit file is shared by all threads that serve its line.
pub trait NewFiles {
    /// Creates a file and opens it for appending. Its owner may read and write it and all others may read it, as far as the
    /// umask permits. Fails with `AlreadyExists` if the path exists, also if it is that of a link.
    fn new_file(&self, path: &str) -> Result<File>;

    /// Removes the file at a path. Fails with `NotFound` if there is none.
    fn remove_file(&self, path: &str) -> Result<()>;

    /// Returns whether there is a file at a path.
    fn has_file(&self, path: &str) -> bool;
}

impl<F: Files<File = File>> NewFiles for F {
    fn new_file(&self, path: &str) -> Result<File> {
        let mut options = OpenOptions::new();
        options.append(true).create_new(true).mode(NEW_MODE);
        options.open(self, path)
    }

    fn remove_file(&self, path: &str) -> Result<()> {
        fs::remove_file(self, path)
    }

    fn has_file(&self, path: &str) -> bool {
        fs::metadata(self, path).is_ok()
    }
}

/// Removes the file at a path, if there is one.
pub(crate) fn remove_if_there(files: &impl NewFiles, path: &str) -> Result<()> {
    match files.remove_file(path) {
        Ok(()) => Ok(()),
        Err(error) => match error.kind() {
            ErrorKind::NotFound => Ok(()),
            _ => Err(error),
        },
    }
}

/// Files, locks, a clock, and a log on standard error.
pub trait FileHost: Files<File = File> + NewFiles + Wait + Clock + Log {}

impl<H: Files<File = File> + NewFiles + Wait + Clock + Log> FileHost for H {}
