//! Writes the audit text of a line to a writer while the line is in use, each row once and in order; it opens no files
//! and starts no threads.
//!
//! A [`Trail`] has a writer. It writes the header at once, and the row of each entry when it catches up: only whole
//! rows, unless a write fails. For an endless line it also writes the head of each part that is due. Threads share it.
//! The facts of [`Tail`] state what its writer has at any moment, with the definitions of `specs/Trails`. A
//! [`WrittenUpTo`] is the evidence that one of the trails with the names `J` has written the rows of all entries up to a
//! place.
#![tactic(auto)]

mod fault;
pub mod laws;
mod naming;
mod recording;
mod row;
pub mod sharing;
mod tail;
mod trail;
mod write_parts;
mod written_up_to;

pub use fault::{TrailBreak, TrailFault};
pub use naming::Naming;
pub use recording::{NoTrail, RecordEntries};
pub use tail::Tail;
pub use trail::Trail;
pub use write_parts::{BegunPart, WriteParts};
pub use written_up_to::WrittenUpTo;
