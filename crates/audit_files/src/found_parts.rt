//! Finding the parts of an audit text in a folder.

use crate::audit_name::AuditName;
use std::fs;
use std::rt::Runtime;

/// Returns the lowest part of a text in a folder that follows the part of this name; None if there is none.
pub fn later_part(host: &impl Runtime, folder: &str, name: AuditName) -> Option<AuditName> {
    let mut later: Option<AuditName> = None;
    for entry in fs::read_dir(host, folder).ok()? {
        let Ok(entry) = entry else {
            continue;
        };
        let Some(found) = AuditName::from_name(entry.file_name()) else {
            continue;
        };
        if found.line != name.line || found.number != name.number || found.part <= name.part {
            continue;
        }
        let is_lower = match later {
            None => true,
            Some(other) => found.part < other.part,
        };
        if is_lower {
            later = Some(found);
        }
    }
    later
}
