//! What the threads that serve a rack share.

use audit_files::{OldParts, TimesWriter};
use serve_sockets::{InputEnd, SocketContext};
use std::alloc::Global;
use std::sync::atomic::AtomicU32;

/// The most reads of a session.
pub const MAX_READS: u32 = u32::MAX;

/// What the threads that serve a rack share.
#[derive(Drop)]
pub struct ServerContext<'a, H> {
    /// What the connections share: the host, the phase of serving and the reports.
    pub sockets: SocketContext<'a, H>,
    /// The allocator.
    pub alloc: Global,
    /// The file that names the ports, if there is one.
    pub ports: Option<&'a str>,
    /// The input with whose end serving stops, if there is one.
    pub input: Option<&'a InputEnd>,
    /// The old parts of audit texts, or `None` if no part is deleted.
    pub old_parts: Option<&'a OldParts<'a, H>>,
    /// Writes the times of the entries, or `None` if there are no audit texts.
    pub times: Option<&'a TimesWriter<'a, H>>,
    /// How many connections each port accepts.
    pub sessions: u64,
    /// The most milliseconds from tick to tick, or `None` if no line has a clock for its time.
    pub tick: Option<u32>,
    /// The milliseconds from step to step, or `None` if no clock has devices step.
    pub step: Option<u32>,
    /// How many sessions of operators were served, over all lines.
    pub operators: AtomicU32,
}
