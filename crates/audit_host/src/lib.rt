//! Reads audit texts from files for the commands `check`, `explain`, `judge` and `capture` of rackd, and reports what is wrong
//! with them; it reads no rack files and starts no threads.
//!
//! A text may lie in several files, one for each part, and may begin with any part. [`follow_text`] explains a text while a
//! rack writes it. What is written comes from rack_script, explain_texts, judge_texts and capture_texts, which know no
//! files.
#![tactic(auto)]

mod audit_text;
mod bad_rows;
mod capture;
mod check;
mod cut_end;
mod differences;
mod entry_reader;
mod explain;
mod fault;
mod follow;
mod followed_parts;
mod judge;
mod next_part;
mod notes;
mod output;
mod progress;
mod reasons;
mod stations;
mod text_files;
mod verdict;

pub use capture::capture_text;
pub use check::check_text;
pub use explain::explain_text;
pub use fault::TextFault;
pub use follow::follow_text;
pub use judge::judge_text;
pub use output::{buffered, flushed};
