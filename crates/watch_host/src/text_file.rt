//! Reading an audit text while it is written.

ghost use Rattle.std.specs.Io.{ReadsAtMost};

use crate::host::WatchHost;
use audit_files::AuditName;
use std::alloc::Global;
use std::fs::File;
use std::io::{self, ErrorKind, Read};

/// The number of bytes that are read before the other lines get their turn.
const MOST_TURN: usize = 65_536;

/// An audit text in a file, or in parts of which each has a file. It goes on to the next part once that is there.
///
/// A read returns 0 at the end of what was written so far, and also when the turn is over.
#[derive(Drop)]
pub(crate) struct TextFile<'a, H> {
    host: &'a H,
    alloc: Global,
    folder: &'a str,
    name: AuditName,
    file: File,
    /// The number of bytes that are left of the turn.
    left: usize,
    /// Whether the last read returned 0 because the turn was over.
    has_more: bool,
}

impl<'a, H: WatchHost> TextFile<'a, H> {
    /// Opens the file of this name in the folder.
    pub(crate) fn open(
        host: &'a H,
        alloc: Global,
        folder: &'a str,
        name: AuditName,
    ) -> io::Result<TextFile<'a, H>> {
        let file = open_file(host, alloc, folder, name)?;
        Ok(TextFile {
            host,
            alloc,
            folder,
            name,
            file,
            left: MOST_TURN,
            has_more: false,
        })
    }

    /// Returns the name of the file that is read.
    pub(crate) fn name(&self) -> AuditName {
        self.name
    }

    /// Returns whether the last read returned 0 because the turn was over, and not because nothing more was written.
    pub(crate) fn has_more(&self) -> bool {
        self.has_more
    }

    /// Reads from the file, or from that of the next part if this one has ended and the next one is there.
    fn read_on(&mut self, buf: &mut [u8]) -> io::Result<usize>
        ensures { ReadsAtMost result buf.new }
    {
        let count = self.file.read(buf)?;
        if count > 0 {
            return Ok(count);
        }
        let Some(next) = self.name.next_part() else {
            return Ok(0);
        };
        let Ok(file) = open_file(self.host, self.alloc, self.folder, next) else {
            return Ok(0);
        };
        // The part has ended now, but what was written to it last may not have been read.
        let count = self.file.read(buf)?;
        if count > 0 {
            return Ok(count);
        }
        self.name = next;
        self.file = file;
        self.file.read(buf)
    }
}

impl<H: WatchHost> Read for TextFile<'_, H> {
    fn read(&mut self, buf: &mut [u8]) -> io::Result<usize> {
        self.has_more = self.left == 0;
        if self.has_more {
            self.left = MOST_TURN;
            return Ok(0);
        }
        let count = self.read_on(buf)?;
        self.left = if count == 0 {
            MOST_TURN
        } else {
            self.left.saturating_sub(count)
        };
        Ok(count)
    }
}

/// Opens the file of this name in the folder.
fn open_file(
    host: &impl WatchHost,
    alloc: Global,
    folder: &str,
    name: AuditName,
) -> io::Result<File> {
    match format!(in alloc; "{}", name.path_in(folder)) {
        Ok(path) => File::open(host, path.as_str()),
        Err(_) => Err(io::Error::from(ErrorKind::OutOfMemory)),
    }
}
