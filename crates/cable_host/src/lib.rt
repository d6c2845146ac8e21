//! Passes telegrams between masters and a served line over sockets, in threads and by the clock, as a cable does; it
//! decides no faults, which cable_faults does.
//!
//! Each connection of a master has a connection of its own to the line, and two threads for each direction: one that
//! reads, and one that writes what is late. What waits to be written has a fixed size: answers to standard input
//! ([`output`]), rows for standard error, and late telegrams. Tests show what threads, sockets and the clock do here.
//!
//! [`output`]: crate::output
#![tactic(auto)]

mod connecting;
mod delayed;
mod fault;
mod input;
mod link;
mod output;
mod serving;
mod shared;
mod source;
mod way;

pub use fault::CableFault;
pub use serving::{CableSettings, listen_at, serve_cable};
