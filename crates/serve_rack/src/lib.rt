//! Serves a rack at sockets: it starts the threads, records the audit texts and ends in order; it answers no telegram
//! itself, which dp_sessions does.
//!
//! The thread of a port accepts a connection, and a reader and a writer are made of it (serve_sockets). A master's
//! connection goes through a queue to the first free worker, which reads the address and serves the session. An
//! operator's connection goes through a queue to the first free of the sixteen workers of its line. What these threads
//! are made of is in serve_sessions, and what is done with lines before and after serving in serve_lines. A thread of
//! its own advances the time of all lines.
#![tactic(auto)]

mod serve;
mod serving;
mod threads;

pub use audit_files::AuditPath;
pub use serve::{Served, serve_text};
pub use serve_sessions::Host;
pub use serve_sockets::InputEnd;
