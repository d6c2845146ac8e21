//! What the threads of a rack server are made of: the acceptors of masters and operators, the workers of operators, the gates of
//! sessions, the recorders of audit texts and the clocks of lines; it starts no threads, which serve_rack does.
//!
//! A master's connection goes through a queue to the first free worker (`masters`). An operator's connection goes through a
//! queue to the first free of the sixteen workers of its line (`operators`), so several operators are served at one time.
//! The gate of all sessions reports what they do, records the entries of a line before their answers are sent
//! (`session_gate`, `recorder`), and before each request of a master advances the time of its line (`clocks`).
#![tactic(auto)]

mod acceptors;
mod clocks;
mod host;
mod masters;
mod operator_gate;
mod operators;
mod ready;
mod recorder;
mod server_context;
mod session_gate;

pub use acceptors::Acceptors;
pub use clocks::{close_clocks, open_clocks, schedule_of};
pub use host::Host;
pub use masters::{MasterAcceptor, MasterJob};
pub use operators::{
    OperatedLine, OperatorAcceptor, OperatorWorker, ServeConnections, operator_workers,
};
pub use ready::{name_ports, write_ready};
pub use recorder::{
    FileRecorder, Recorder, UnnamedRecorder, first_incomplete, name_trails, record_lines,
};
pub use server_context::{MAX_READS, ServerContext};
pub use session_gate::{KeepTime, SessionGate, TimedGate};
