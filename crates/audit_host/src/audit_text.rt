//! An audit text in files, from its header or from the head of a later part on.

ghost use Rattle.std.specs.Prelude.{◌≡◌, IfOk};
ghost use Rattle.explain_texts.specs.TextRows.{nothing_read};

use crate::entry_reader::EntryReader;
use crate::fault::TextFault;
use crate::text_files::{AuditFiles, FileReader, open_files};
use audit_parts::{PartsCheck, read_beginning};
use dp_audit::{AuditFault, set_header_line, version_of};
use dp_line::LineSpec;
use dp_text::{Text, is_text};
use explain_texts::TextRows;
use rack_file::{Rack, read_rack};
use rack_script::RunFault;
use std::alloc::Global;
use std::fs::Files;
use std::io::{self, BufRead, BufReader, ErrorKind, Read};
use std::rt::Runtime;

/// The first characters of every audit text.
pub(crate) const HEADER: &[u8] = b"rack-audit ";

/// The rows of an audit text in files, without those of heads.
pub(crate) type FileEntries<'a, 'p, H, R> = TextRows<
    BufReader<EntryReader<FileReader<'a, 'p, H, R>>>,
>;

/// How an audit text begins.
#[derive(Drop)]
pub(crate) enum Beginning {
    /// It has no parts, or its first row names no line of the rack.
    NoPart,
    /// With the header of an endless line. The check of its parts goes on behind it.
    FirstPart(PartsCheck),
    /// With the head of a later part, of the line at this index. The check goes on behind it.
    LaterPart(usize, PartsCheck),
    /// With a head that has this fault.
    WrongHead(AuditFault),
}

/// What the first row of a text is.
#[derive(Clone, Copy, PartialEq, Eq)]
pub(crate) enum FirstRow {
    /// The header of an audit text, or the beginning of one.
    Header,
    /// The header of a later part of an audit text.
    PartHeader,
    /// No audit text begins so.
    Other,
}

/// An audit text in files, of which the beginning was read.
#[derive(Drop)]
pub(crate) struct AuditText<'a, 'p, H, R> {
    pub(crate) beginning: Beginning,
    /// The first row, or all rows of the head.
    pub(crate) front: Vec<u8>,
    /// What follows.
    pub(crate) reader: FileReader<'a, 'p, H, R>,
}

impl<'a, 'p, R: Read + Drop, H: Runtime + AllocGlobal + Files<File = R>> AuditText<'a, 'p, H, R> {
    /// Reads the beginning of the audit text of these files, on the line of the rack that its first row names.
    pub(crate) fn read(
        alloc: Global,
        rack: &Rack,
        files: AuditFiles<'a, 'p, H, R>,
    ) -> Result<AuditText<'a, 'p, H, R>, TextFault<'a>> {
        let Ok(mut reader) = BufReader::new(alloc, files) else {
            return Err(TextFault::Run(RunFault::OutOfMemory));
        };
        let mut front = Vec::new(alloc);
        match read_front(alloc, rack, &mut front, &mut reader) {
            Ok(beginning) => Ok(AuditText {
                beginning,
                front,
                reader,
            }),
            Err(error) => match error.kind() {
                ErrorKind::OutOfMemory => Err(TextFault::Run(RunFault::OutOfMemory)),
                _ => Err(reader.get_ref().fault()),
            },
        }
    }

    /// Returns what the text begins with. A text whose first row is not whole may end within the header.
    pub(crate) fn first_row(&self) -> FirstRow {
        let front = self.front.as_slice();
        let is_whole = front.ends_with(b"\n");
        if !front.starts_with(HEADER) && (is_whole || !HEADER.starts_with(front)) {
            return FirstRow::Other;
        }
        match &self.beginning {
            Beginning::NoPart | Beginning::FirstPart(_) => FirstRow::Header,
            Beginning::LaterPart(_, _) | Beginning::WrongHead(_) => FirstRow::PartHeader,
        }
    }
}

/// Opens the audit text of these files, and reads its beginning, on the rack that `rack` describes. Returns the rack too.
/// `shows` is whether the progress of reading the text is shown, if it is long.
pub(crate) fn open_text<'a, 'p, H: Runtime + AllocGlobal + Files<File = R>, R: Read + Drop>(
    rt: &'p H,
    rack: &str,
    audit: &'p [&'a str],
    shows: bool,
) -> Result<(Rack, AuditText<'a, 'p, H, R>), TextFault<'a>> {
    let files = open_files(rt, audit, shows)?;
    let rack = rack_of(rt.alloc(), rack)?;
    let text = AuditText::read(rt.alloc(), &rack, files)?;
    Ok((rack, text))
}

/// Returns the rack that a text describes.
pub(crate) fn rack_of(alloc: Global, rack: &str) -> Result<Rack, RunFault> {
    match read_rack(alloc, rack) {
        Ok(rack) => Ok(rack),
        Err(fault) => Err(RunFault::Rack(fault)),
    }
}

/// Returns the rows of a text from its header on, without those of heads. A text that begins with a later part is given as it
/// is, and has no header.
pub(crate) fn entries_from_header<
    'a,
    'p,
    H: Runtime + AllocGlobal + Files<File = R>,
    R: Read + Drop,
>(alloc: Global, text: AuditText<'a, 'p, H, R>) -> Result<FileEntries<'a, 'p, H, R>, RunFault>
    ensures { IfOk result (λ rows. rows.text ≡ nothing_read) }
{
    let AuditText {
        beginning,
        front,
        reader,
    } = text;
    let check = match beginning {
        Beginning::FirstPart(check) => Some(check),
        Beginning::NoPart | Beginning::LaterPart(_, _) | Beginning::WrongHead(_) => None,
    };
    entries_of(alloc, check, front, reader)
}

/// Returns the rows of a text without those of heads. `check` is the check of its parts, and None if it has no parts. `first`
/// is given before what the reader has.
pub(crate) fn entries_of<'a, 'p, H: Runtime + AllocGlobal + Files<File = R>, R: Read + Drop>(
    alloc: Global,
    check: Option<PartsCheck>,
    first: Vec<u8>,
    reader: FileReader<'a, 'p, H, R>,
) -> Result<FileEntries<'a, 'p, H, R>, RunFault>
    ensures { IfOk result (λ rows. rows.text ≡ nothing_read) }
{
    match BufReader::new(alloc, EntryReader::new(alloc, check, first, reader)) {
        Ok(reader) => Ok(TextRows::new(alloc, reader)),
        Err(_) => Err(RunFault::OutOfMemory),
    }
}

/// Returns the files of these rows.
pub(crate) fn files_of<'r, 'a, 'p, H: Runtime + AllocGlobal + Files<File = R>, R: Read + Drop>(
    rows: &'r FileEntries<'a, 'p, H, R>,
) -> &'r AuditFiles<'a, 'p, H, R> {
    rows.reader().get_ref().reader().get_ref()
}

/// Reads the first row of a text, and the other rows of a head with which it begins.
fn read_front<R: BufRead>(
    alloc: Global,
    rack: &Rack,
    front: &mut Vec<u8>,
    reader: &mut R,
) -> io::Result<Beginning> {
    reader.read_until(b'\n', front)?;
    for index in 0..rack.lines.len() {
        let line = &rack.lines[index].spec;
        if let Some(beginning) = begin_on(alloc, line, index, front, reader)? {
            return Ok(beginning);
        }
    }
    Ok(Beginning::NoPart)
}

/// Returns how a text with this first row begins, if it is that of an endless line, and this is the line.
fn begin_on<R: BufRead>(
    alloc: Global,
    line: &LineSpec,
    index: usize,
    front: &mut Vec<u8>,
    reader: &mut R,
) -> io::Result<Option<Beginning>> {
    // No line of an accepted rack has a fault.
    if line.fault().is_some() {
        return Ok(None);
    }
    let is_later = read_beginning(line, front, reader)?;
    let mut buffer = Text::new();
    set_header_line(&mut buffer, version_of(u32::MAX), line.number);
    if !is_later && !is_text(front.as_slice(), buffer.as_bytes()) {
        return Ok(None);
    }
    match PartsCheck::begin(alloc, line, front.as_slice(), &mut buffer) {
        Ok((check, _)) => {
            if is_later {
                Ok(Some(Beginning::LaterPart(index, check)))
            } else {
                Ok(Some(Beginning::FirstPart(check)))
            }
        }
        Err(AuditFault::OutOfMemory) => Err(io::Error::from(ErrorKind::OutOfMemory)),
        Err(fault) => Ok(Some(Beginning::WrongHead(fault))),
    }
}
