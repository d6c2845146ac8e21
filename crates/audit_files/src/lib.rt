//! Makes, names, writes and deletes the files of audit texts while lines are served; it starts no threads and does not
//! decide what is written, which audit_trail does.
//!
//! The folder is made first (`make_folder`). The text of a line is begun in a new file with its header (`begin_text`). Its
//! number is above that of each text of the line in the folder (`text_number`).
//! Its trail writes each entry. For an endless line each part has a file of its own (`audit_writer`), and old ones may
//! be deleted (`OldParts`). The times of entries are written to files beside them (`TimesWriter`). When serving has ended,
//! the text is completed (`complete_text`). A reader of the folder reads names of files by [`AuditName`].
#![tactic(auto)]

mod audit_file;
mod audit_name;
mod audit_path;
mod audit_writer;
mod due_parts;
mod file_fault;
mod file_host;
mod found_parts;
pub mod laws;
mod line_times;
mod old_parts;
mod part_file;
mod text_number;
mod times_path;
mod times_writer;
mod written_bytes;

pub use audit_file::{
    AuditFile, FileTail, FileTrail, IncompleteFile, begin_text, complete_text, make_folder,
};
pub use audit_name::AuditName;
pub use audit_path::AuditPath;
pub use audit_writer::{AuditWriter, CreateFault};
pub use file_fault::FileFault;
pub use file_host::{FileHost, NewFiles};
pub use found_parts::later_part;
pub use line_times::LineTimes;
pub use old_parts::OldParts;
pub use times_path::TimesPath;
pub use times_writer::TimesWriter;
