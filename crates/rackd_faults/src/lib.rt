//! The faults for which the program cannot do its work, each with its exit status and what it reports on standard error
//! (own); it carries out no command.
#![tactic(auto)]

mod ending;
mod rack_cause;
mod rack_rows;
mod reporting;

pub use ending::{Fault, cause, status};
pub use reporting::{ended, report, reported};
