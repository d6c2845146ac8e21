//! Describes how a rack is served, by the options of `serve`, and the form of each command of operators and scripts; it
//! reads no command line and carries out no command.
#![tactic(auto)]

mod forms;
mod options;

pub use forms::{operator_form, script_form};
pub use options::{LogDetail, PartOptions, ServeOptions};
