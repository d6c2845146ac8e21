//! The file of a part of an audit text, or of a whole text.

ghost use Rattle.std.specs.Prelude.{◌≡◌, [], Some};
ghost use Rattle.audit_trail.specs.Trails.{IsWhole};

use crate::written_bytes::WrittenBytes;
use std::io::{Result, Write};
use std::snapshot::Snapshot;

/// A file and the bytes that it accepted since it was created, which only contracts read.
///
/// No contract of the system says what a file has. So the bytes are those for which the `write` of the file returned `Ok`. The
/// contracts are proved for any writer in place of the file: if it is known what that writer has, it is what it had at first,
/// and then these bytes. A `write` that did not pass its bytes on, or passed them on twice, would not be proved.
#[derive(Drop)]
pub(crate) struct PartFile<W: Write + Drop> {
    file: W,
    written: WrittenBytes,
    created: Snapshot<W>,
    ghost accepted: { IsWhole (W.contents created.value) (W.contents file) written.bytes },
}

impl<W: Write + Drop> PartFile<W> {
    /// Returns a file that has just been created: it has accepted no bytes.
    pub(crate) fn new(file: W) -> PartFile<W>
        ensures created { result.created.value ≡ file }
        ensures written { result.written.bytes ≡ [] }
    {
        let created = Snapshot::of(&file);
        PartFile {
            file,
            written: WrittenBytes::new(),
            created,
        }
    }

    /// Returns the bytes that the file accepted.
    pub(crate) fn written(&self) -> &WrittenBytes
        ensures { result.now ≡ (self.now).written }
    {
        &self.written
    }
}

impl<W: Write + Drop> Write for PartFile<W> {
    /// The bytes that the file accepted.
    ghost contents = { λ part. Some part.written.bytes };

    fn write(&mut self, buf: &[u8]) -> Result<usize> {
        let count = self.file.write(buf)?;
        self.written.append(&buf[..count]);
        Ok(count)
    }

    fn flush(&mut self) -> Result<()> {
        self.file.flush()
    }
}
