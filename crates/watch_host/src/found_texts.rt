//! Finding the audit texts of a line in a folder.

use crate::host::WatchHost;
use audit_files::AuditName;
use std::alloc::{AllocError, Global};
use std::fs;
use std::time::SystemTime;

/// An audit text that was found in a folder: the name of its first file, and when one of its files was changed last.
#[derive(Clone, Copy)]
pub(crate) struct FoundText {
    pub(crate) name: AuditName,
    pub(crate) changed: SystemTime,
}

/// Returns the texts of a line in a folder whose numbers are not among these. A folder that cannot be listed has none.
pub(crate) fn find_texts(
    host: &impl WatchHost,
    alloc: Global,
    folder: &str,
    line: u8,
    seen: &[u32],
) -> Result<Vec<FoundText>, AllocError> {
    let mut texts = Vec::new(alloc);
    let Ok(entries) = fs::read_dir(host, folder) else {
        return Ok(texts);
    };
    for entry in entries {
        let Ok(entry) = entry else {
            continue;
        };
        let Some(name) = AuditName::from_name(entry.file_name()) else {
            continue;
        };
        if name.line != line || seen.contains(&name.number) {
            continue;
        }
        let Ok(metadata) = entry.metadata() else {
            continue;
        };
        if let Ok(changed) = metadata.modified() {
            add_file(&mut texts, FoundText { name, changed })?;
        }
    }
    Ok(texts)
}

/// Adds a file to the texts that were found.
fn add_file(texts: &mut Vec<FoundText>, file: FoundText) -> Result<(), AllocError> {
    for text in texts.iter_mut() {
        if text.name.number == file.name.number {
            if file.name.part < text.name.part {
                text.name = file.name;
            }
            if text.changed < file.changed {
                text.changed = file.changed;
            }
            return Ok(());
        }
    }
    texts.push(file)?;
    Ok(())
}

/// Returns the text that was changed last, and of several the one with the highest number.
pub(crate) fn newest_of(texts: &[FoundText]) -> Option<FoundText> {
    let mut newest: Option<FoundText> = None;
    for text in texts {
        let is_newer = match newest {
            None => true,
            Some(other) => {
                other.changed < text.changed
                    || other.changed == text.changed && other.name.number < text.name.number
            }
        };
        if is_newer {
            newest = Some(*text);
        }
    }
    newest
}

/// Returns the text with the lowest number.
pub(crate) fn first_of(texts: &[FoundText]) -> Option<FoundText> {
    let mut first: Option<FoundText> = None;
    for text in texts {
        let is_before = match first {
            None => true,
            Some(other) => text.name.number < other.name.number,
        };
        if is_before {
            first = Some(*text);
        }
    }
    first
}
