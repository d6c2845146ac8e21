//! The next part of the audit text of an endless line.

use audit_files::{AuditName, later_part};
use std::alloc::{AllocError, Global};
use std::rt::Runtime;

/// Returns the path of a file of this name in this folder, which ends in a slash or is empty.
pub(crate) fn path_in(alloc: Global, folder: &str, name: AuditName) -> Result<String, AllocError> {
    format!(in alloc; "{folder}{name}")
}

/// Returns whether this folder has a part of the same text that follows the part of this name.
pub(crate) fn has_later_part(host: &impl Runtime, folder: &str, name: AuditName) -> bool {
    let folder = if folder.is_empty() { "." } else { folder };
    later_part(host, folder, name).is_some()
}

/// Returns the name of the file of an audit text that a path ends in; None if no such file has it.
pub(crate) fn name_in(path: &str) -> Option<AuditName> {
    let (_, name) = split_path(path);
    AuditName::from_name(name)
}

/// Returns the folder of the file with this path, with its slash; it is empty if the path has no slash.
pub(crate) fn folder_in(path: &str) -> &str {
    let (folder, _) = split_path(path);
    folder
}

/// Splits a path behind its last slash: into its folder, which is empty if there is no slash, and the name of its file.
fn split_path(path: &str) -> (&str, &str) {
    match path.rsplit_once('/') {
        Some((_, name)) => path.split_at(path.len() - name.len()),
        None => ("", path),
    }
}
