//! Sends rows of standard input to the operator port of a served line and writes the answers, as `rackd operate` does;
//! it has no line of its own and carries out no command.
//!
//! Which rows are answered is proved. Tests show what threads, sockets and the clock do here.
#![tactic(auto)]

mod answers;
mod fault;
mod incoming;
mod operator;
mod printable;

pub use fault::ClientFault;
pub use operator::operate;
