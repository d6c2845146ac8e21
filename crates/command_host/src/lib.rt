//! Carries out the commands of rackd that read files and write to standard output, reports their faults, and prints what `clap`
//! answers to the words of a command line; what a command does with a text is in the crates below.
#![tactic(auto)]

mod answers;
mod commands;
mod files;
mod gsd;
mod script_form;
mod scripts;

pub use answers::answer_words;
pub use commands::{Terminals, run_command};
pub use files::read_file;
pub use scripts::run_input;
