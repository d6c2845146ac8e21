//! Reads the command line of `rackd` into what it asks for, and has the texts of its help; it opens no files and
//! carries out no command.
#![tactic(auto)]

mod arguments;
mod cable;
mod cable_help;
mod capture;
mod commands;
mod file_command;
mod gsd;
mod help;
mod invocation;
mod judge;
mod numbers;
mod reading;
mod refusals;
mod serve;

pub use cable::{CableWords, FaultyTelegrams};
pub use file_command::{AuditCommand, DescribedSlave, Entries, FileCommand};
pub use invocation::{Invocation, WordsFault};
pub use judge::{Findings, Judging};
pub use reading::{read_words, words_of};
