//! Checks an endless audit text from any of its parts on, row by row, and separates the rows of heads from those of
//! entries (own); it opens no files and explains no entry.
//!
//! The text of an endless line lies in parts. The first part begins with the header of the text, each later one with a
//! head: the world of the line at a place, as rows. So a check may begin with any part. If it goes on into the next
//! part, the head of that part must be the head of the world after the entries before it.
//!
//! The definition `parts_checked` of `specs/Parts` says what is accepted. [`check_parts`] checks a text that is in
//! memory, [`PartsCheck`] one that is read row by row, and [`read_beginning`] reads the rows with which a check begins.
//! [`HeadRows`] takes the rows of heads and no entries, for a reader that has a line of its own; [`EntryRows`] gives
//! the rows of entries and no heads, for a reader that knows nothing of parts.
#![tactic(auto)]

mod beginning;
mod entry_filter;
mod entry_rows;
mod head_rows;
pub mod laws;
mod parts_check;

pub use beginning::{fault_of_head, is_part_header, read_beginning, rows_behind_header};
pub use entry_filter::NOT_THE_POLICY;
pub use entry_rows::EntryRows;
pub use head_rows::HeadRows;
pub use parts_check::{PartsCheck, check_parts};
