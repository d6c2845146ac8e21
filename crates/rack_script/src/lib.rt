//! Runs a script on a rack, checks or explains an audit text of one, and shows what the policy gives instead of a wrong
//! row; it opens no files or sockets and starts no threads.
//!
//! [`run_text`] runs a script, [`run_check`] checks an audit text, and [`run_explain`] explains one to a person;
//! [`run_parts_check`] checks one that lies in parts, after its beginning was read. All write to any writer. An audit
//! text is read row by row from any reader. [`split_input`] splits an input into a rack text and a script.
//!
//! [`difference_in`] reads the rows of an audit text again, after a check has refused it, and returns the first row
//! that is not what the policy gives, with what it gives (own).
//!
//! Memory is taken for the rack with its lines, slaves, streams and journals, for the lines that a check or an
//! explanation opens, and for one row of the text. An explanation also takes memory for the rows of an entry and for
//! its line of JSON. A difference takes the memory of two lines, of a head and of its two rows. No row of a script and
//! no answer takes memory.
#![tactic(auto)]

mod check;
mod command;
mod difference;
mod expected;
mod explain;
mod input;
mod parts;
mod run;
mod run_fault;
mod script;
mod script_rack;
mod two_lines;

pub use check::{line_named, run_check};
pub use difference::{Difference, difference_in};
pub use explain::{report_verdict_to, run_explain};
pub use explain_texts::{Choice, TextRows};
pub use input::split_input;
pub use parts::run_parts_check;
pub use run::run_text;
pub use run_fault::RunFault;
