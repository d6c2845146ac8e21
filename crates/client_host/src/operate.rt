//! Operates a line.

use crate::stand_ins::stand_ins;
use log::Log;
use operate_host::operate;
use rackd_faults::Fault;
use std::io::{self, Read};
use std::process::ExitCode;
use watch_host::WatchHost;

/// Operates the line that is served at this port with the lines of the input, and writes the answers on standard output.
///
/// Returns `CannotConnect`, `PortEnded`, `LongAnswer`, `CannotRead` of standard input, `WriteFault` or `OutOfMemory`.
pub fn operate_line<
    'a,
    H: WatchHost + Log + Copy + Send + 'static,
    I: Read + Send + Drop + 'static,
>(rt: &H, port: u16, input: I) -> Result<ExitCode, Fault<'a>> {
    let _held = stand_ins(rt);
    let mut output = io::writer(rt);
    match operate(*rt, rt.alloc(), port, input, &mut output) {
        Ok(()) => Ok(ExitCode::SUCCESS),
        Err(fault) => Err(Fault::of_client(port, fault)),
    }
}
