//! The files of an audit text.

ghost use Rattle.std.specs.Prelude.{◌≡◌, [], IfOk};
ghost use Rattle.std.specs.Io.{ReadsAtMost};

use crate::fault::TextFault;
use crate::next_part::{folder_in, has_later_part, name_in, path_in};
use crate::progress::Progress;
use audit_files::AuditName;
use explain_texts::TextRows;
use rack_script::RunFault;
use std::collections::VecDeque;
use std::fs::{self, Files};
use std::io::{self, BufReader, ErrorKind, Read};
use std::rt::Runtime;
use system_errors::Cause;

/// How many files are kept open at most before they are read. A text in more files has the others opened again when they
/// are read.
const MOST_OPEN: usize = 32;

/// A reader of an audit text in files.
pub(crate) type FileReader<'a, 'p, H, R> = BufReader<AuditFiles<'a, 'p, H, R>>;

/// The rows of an audit text in files.
pub(crate) type FileRows<'a, 'p, H, R> = TextRows<FileReader<'a, 'p, H, R>>;

/// The files of an audit text, one after another, as one reader. It knows why a read failed.
#[derive(Drop)]
pub(crate) struct AuditFiles<'a, 'p, H, R> {
    host: &'p H,
    /// The paths of the files.
    paths: &'p [&'a str],
    /// The index of the path of the file that is read.
    index: usize,
    /// The file that is read.
    file: R,
    /// The files behind it that are open.
    later: VecDeque<R>,
    /// Whether it goes on to later parts of the text, which have no path here.
    follows: bool,
    /// The name of the later part that is read. It is in the folder of the last path.
    part: Option<AuditName>,
    /// Why a read failed.
    cause: Option<Cause>,
    progress: Option<Progress>,
}

impl<'a, 'p, R: Read + Drop, H: Runtime + AllocGlobal + Files<File = R>> AuditFiles<'a, 'p, H, R> {
    /// Opens all files with these paths.
    ///
    /// Returns `OtherText` if the names of two files are those of different audit texts, and `CannotRead` for a file that can't be
    /// opened, whichever comes first.
    pub(crate) fn open(
        host: &'p H,
        paths: &'p [&'a str],
    ) -> Result<AuditFiles<'a, 'p, H, R>, TextFault<'a>> {
        let file = open_file(host, path_at(paths, 0))?;
        let later = open_later(host, paths)?;
        Ok(AuditFiles {
            host,
            paths,
            index: 0,
            file,
            later,
            follows: false,
            part: None,
            cause: None,
            progress: None,
        })
    }

    /// Returns these files as a text that goes on to its later parts, once they are there.
    pub(crate) fn followed(self) -> AuditFiles<'a, 'p, H, R> {
        let mut files = self;
        files.follows = true;
        files
    }

    /// Returns these files as a text whose progress is shown on standard error, if the size of the text is known.
    pub(crate) fn shown(self) -> AuditFiles<'a, 'p, H, R> {
        let mut files = self;
        if let Some(size) = size_of_text(files.host, files.paths) {
            files.progress = Progress::start(files.host, size);
        }
        files
    }

    /// Clears the progress that is shown, and returns what was done with the text. If the text could not be read, the fault has
    /// the path of the file.
    pub(crate) fn ended<T>(&self, done: Result<T, RunFault>) -> Result<T, TextFault<'a>> {
        if let Some(progress) = &self.progress {
            progress.clear(self.host);
        }
        match done {
            Ok(done) => Ok(done),
            Err(RunFault::CannotRead | RunFault::NotText) => Err(self.fault()),
            Err(fault) => Err(TextFault::Run(fault)),
        }
    }

    /// Returns the fault of the text: why a read failed, or else that the file that is read is not UTF-8.
    pub(crate) fn fault(&self) -> TextFault<'a> {
        let cause = match self.cause {
            Some(cause) => cause,
            None => Cause::NotText,
        };
        match self.part {
            Some(part) => TextFault::CannotReadPart(folder_in(self.path()), part, cause),
            None => TextFault::CannotRead(self.path(), cause),
        }
    }

    /// Returns the path of the file that is read, which a reader with a buffer read last. Of a part that has no path here, it is
    /// the last path.
    pub(crate) fn path(&self) -> &'a str {
        path_at(self.paths, self.index)
    }

    /// Reads from the file that is read.
    fn read_file(&mut self, buf: &mut [u8]) -> io::Result<usize>
        ensures { ReadsAtMost result buf.new }
    {
        match self.file.read(buf) {
            Ok(count) => Ok(count),
            Err(error) => Err(self.failed(error)),
        }
    }

    /// Goes on to the next of the files that have a path here. Returns whether there is one.
    fn begin_next(&mut self) -> io::Result<bool> {
        let next = self.index.saturating_add(1);
        if next >= self.paths.len() {
            return Ok(false);
        }
        self.index = next;
        self.file = match self.later.pop_front() {
            Some(file) => file,
            None => self.open_path()?,
        };
        Ok(true)
    }

    /// Goes on to the next part of the text if it is there, and reads from it.
    fn read_next_part(&mut self, buf: &mut [u8]) -> io::Result<usize>
        ensures { ReadsAtMost result buf.new }
    {
        let Some(part) = self.next_part()? else {
            return Ok(0);
        };
        // The part before it has ended now, but what was written to it last may not have been read.
        let count = self.read_file(buf)?;
        if count > 0 {
            return Ok(count);
        }
        self.part = Some(part);
        self.file = self.open_part(part)?;
        self.read_file(buf)
    }

    /// Returns the name of the next part of the text, if it is there and these files go on to it. It is also returned if it is not
    /// there but a later part is: then it was deleted before it was read, and cannot be opened.
    fn next_part(&self) -> io::Result<Option<AuditName>> {
        if !self.follows {
            return Ok(None);
        }
        let Some(next) = self.name_of_next() else {
            return Ok(None);
        };
        let folder = folder_in(self.path());
        let path = path_in(self.host.alloc(), folder, next)?;
        if fs::metadata(self.host, path.as_str()).is_ok()
            || has_later_part(self.host, folder, next)
        {
            Ok(Some(next))
        } else {
            Ok(None)
        }
    }

    /// Returns the name that the next part of the text has; None if the file that is read is no part.
    fn name_of_next(&self) -> Option<AuditName> {
        let name = match self.part {
            Some(part) => part,
            None => name_in(self.path())?,
        };
        name.next_part()
    }

    /// Opens the file at the path that comes next.
    fn open_path(&mut self) -> io::Result<R> {
        match fs::open(self.host, self.path()) {
            Ok(file) => Ok(file),
            Err(error) => Err(self.failed(error)),
        }
    }

    /// Opens the part of this name.
    fn open_part(&mut self, part: AuditName) -> io::Result<R> {
        let path = path_in(self.host.alloc(), folder_in(self.path()), part)?;
        match fs::open(self.host, path.as_str()) {
            Ok(file) => Ok(file),
            Err(error) => Err(self.failed(error)),
        }
    }

    /// Stores why a read failed, and returns the error.
    fn failed(&mut self, error: io::Error) -> io::Error {
        self.cause = Some(Cause::from_error(&error));
        error
    }

    /// Counts bytes that were read, if the progress is shown.
    fn pass(&mut self, bytes: &[u8]) {
        if let Some(progress) = &mut self.progress {
            progress.pass(self.host, bytes);
        }
    }
}

impl<R: Read + Drop, H: Runtime + AllocGlobal + Files<File = R>> Read for AuditFiles<'_, '_, H, R> {
    fn read(&mut self, buf: &mut [u8]) -> io::Result<usize> {
        if buf.is_empty() {
            return Ok(0);
        }
        for _ in 0..self.paths.len().saturating_add(1) {
            let count = self.read_file(buf)?;
            if count > 0 {
                self.pass(&buf[..count]);
                return Ok(count);
            }
            if !self.begin_next()? {
                return self.read_next_part(buf);
            }
        }
        Ok(0)
    }
}

/// Opens all files of an audit text. `shows` is whether the progress of reading it is shown, if it is long.
pub(crate) fn open_files<'a, 'p, H: Runtime + AllocGlobal + Files<File = R>, R: Read + Drop>(
    host: &'p H,
    paths: &'p [&'a str],
    shows: bool,
) -> Result<AuditFiles<'a, 'p, H, R>, TextFault<'a>> {
    let files = AuditFiles::open(host, paths)?;
    if shows { Ok(files.shown()) } else { Ok(files) }
}

/// Returns the rows of an audit text in these files.
pub(crate) fn rows_of<'a, 'p, H: Runtime + AllocGlobal + Files<File = R>, R: Read + Drop>(
    files: AuditFiles<'a, 'p, H, R>,
) -> Result<FileRows<'a, 'p, H, R>, RunFault>
    ensures { IfOk result (λ rows. rows.text.past ≡ []) }
{
    let alloc = files.host.alloc();
    match BufReader::new(alloc, files) {
        Ok(reader) => Ok(TextRows::new(alloc, reader)),
        Err(_) => Err(RunFault::OutOfMemory),
    }
}

/// Returns the fault of a file that cannot be read, for this reason.
fn read_fault(error: io::Error, path: &str) -> TextFault<'_> {
    match error.kind() {
        ErrorKind::OutOfMemory => TextFault::Run(RunFault::OutOfMemory),
        _ => TextFault::CannotRead(path, Cause::from_error(&error)),
    }
}

/// Returns the path at this index; `-` if there is none.
fn path_at<'a>(paths: &[&'a str], index: usize) -> &'a str {
    match paths.get(index) {
        Some(path) => *path,
        None => "-",
    }
}

/// Opens a file for reading.
fn open_file<'a, H: Runtime>(host: &H, path: &'a str) -> Result<H::File, TextFault<'a>> {
    match fs::open(host, path) {
        Ok(file) => Ok(file),
        Err(error) => Err(read_fault(error, path)),
    }
}

/// Opens all files behind the first, and returns those that are kept open.
fn open_later<'a, H: Runtime + AllocGlobal>(
    host: &H,
    paths: &[&'a str],
) -> Result<VecDeque<H::File>, TextFault<'a>> {
    let mut later = VecDeque::new(host.alloc());
    let Some((first, others)) = paths.split_first() else {
        return Ok(later);
    };
    let mut text = name_in(*first);
    for path in others {
        check_name(&mut text, *path)?;
        let file = open_file(host, path)?;
        if later.len() < MOST_OPEN && later.push_back(file).is_err() {
            return Err(TextFault::Run(RunFault::OutOfMemory));
        }
    }
    Ok(later)
}

/// Returns `OtherText` if the name of the file with this path is that of another audit text than `text`, which has the first name of
/// a file that is one of an audit text.
fn check_name<'a>(text: &mut Option<AuditName>, path: &'a str) -> Result<(), TextFault<'a>> {
    let Some(name) = name_in(path) else {
        return Ok(());
    };
    match *text {
        None => {
            *text = Some(name);
            Ok(())
        }
        Some(first) => {
            if first.is_same_text(name) {
                Ok(())
            } else {
                Err(TextFault::OtherText(path, first))
            }
        }
    }
}

/// Returns whether all these files are ordinary ones, which can be read again.
pub(crate) fn are_ordinary(host: &impl Files, paths: &[&str]) -> bool {
    size_of_text(host, paths).is_some()
}

/// Returns the number of bytes of these files; None if one of them is no ordinary file.
fn size_of_text(host: &impl Files, paths: &[&str]) -> Option<u64> {
    let mut size: u64 = 0;
    for path in paths {
        let file = fs::metadata(host, *path).ok()?;
        if !file.is_file() {
            return None;
        }
        size = size.saturating_add(file.len());
    }
    Some(size)
}
