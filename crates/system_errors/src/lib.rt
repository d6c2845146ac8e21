//! Gives the cause for which a file or a port can't be used, in the words of the second row on standard error; it opens
//! nothing and decides no exit status.
#![tactic(auto)]

mod cause;

pub use cause::Cause;
