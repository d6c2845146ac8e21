//! Files that stand for closed standard streams.

use std::fs::{File, Files};

/// A file that has no bytes.
const NOTHING: &str = "/dev/null";

/// Opens files that are always empty, one for each standard stream. If a stream is closed, one of these files gets its
/// descriptor, so no connection does.
///
/// `serve` doesn't need them: it listens first, and a write to a socket that listens fails.
pub(crate) fn stand_ins<F: Files>(files: &F) -> [Option<F::File>; 3] {
    [stand_in(files), stand_in(files), stand_in(files)]
}

fn stand_in<F: Files>(files: &F) -> Option<F::File> {
    File::open(files, NOTHING).ok()
}
