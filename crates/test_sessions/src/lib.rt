//! Tests sessions with a line (`dp_sessions`), clocks (`serve_clock`), trails (`audit_trail`) and the log
//! (`serve_log`), also of endless lines, and has clients of the clock, of a trail and of a gate with a
//! trail; it doesn't run rackd.
//!
//! What connections and files show is tested by `tests/serve` and `tests/audit`. Here is what only calls in the process can bring
//! about. Most tests are a transcript: rows, each with its result after an arrow, and the state at the end. A helper, proved once,
//! carries out the rows and writes the transcript that is compared.
#![tactic(auto)]

pub mod clock_clients;
#[cfg(test)]
mod clocks;
#[cfg(test)]
mod endless;
#[cfg(test)]
mod faults;
pub mod gate_clients;
#[cfg(test)]
mod gates;
#[cfg(test)]
mod limits;
#[cfg(test)]
mod notes;
#[cfg(test)]
mod operators;
#[cfg(test)]
mod pools;
#[cfg(test)]
mod sessions;
pub mod trail_clients;
#[cfg(test)]
mod trails;
