//! Sessions of masters and of operators with a line, over any reader and writer, and the pool of threads that serves them;
//! it opens no sockets.
//!
//! [`serve`] runs a session of a master at a [`Port`], [`serve_operator`] one of an operator, and [`run_pool`] the workers.
//! Only the start of a thread allocates memory.
#![tactic(auto)]

mod dropped;
mod exchange;
mod gate;
mod jobs;
pub mod laws;
mod operator;
mod operator_line;
mod order;
mod pool;
mod pool_fault;
mod port;
mod reads;
mod serve_at;
mod serving;
mod session;
mod session_end;
pub mod sharing;

pub use dp_text::{OpLine, TextFault, read_op};
pub use dropped::DroppedOctets;
pub use exchange::{serve_pass, serve_pass_by};
pub use gate::{Gate, NotRecorded, OpenGate};
pub use jobs::{Job, KeptSession, ServedSessions, Workers, count_served};
pub use operator::{
    serve_operator, serve_operator_at, serve_operator_pass, serve_operator_pass_by,
    serve_operator_session,
};
pub use pool::run_pool;
pub use pool_fault::PoolFault;
pub use port::{LineAndClaims, Port};
pub use rack_devices::next_inputs;
pub use reads::{Reads, Uncounted};
pub use serving::{serve, serve_by, serve_session};
pub use session::Session;
pub use session_end::SessionEnd;
